// Stored tapes through a way with room for any. Expected is what the oracle prints of them (oracle/README.md).
use crate::{Replay, replay_all};
use dump::dump_store;
use layout::STORE_BYTES;
use std::io;
use std::io::Write;
use streaming::{Failure, run_tape};

// The commands are run as they are read, and no answer is held.
struct AsRead;

impl Replay for AsRead {
    fn replay<W: Write>(out: &mut W, tape: &[u8]) -> io::Result<()> {
        let mut store = [0u8; STORE_BYTES];
        let mut unread = tape;
        match run_tape(&mut unread, out, &mut store) {
            Ok(_) => dump_store(out, &store),
            Err(Failure::Input(e)) => Err(e),
            Err(Failure::Output(e)) => Err(e),
        }
    }
}

const EXAMPLE: &[u8] =
    b"\x0b\0\0\0\0\0\0\0\x21\0\0\0\0\0\0\0the example\x01\x01\0\0\0\0\0\0\0\x05\0\0\0\0\0\0\0\x02\0\0\0\x03\x09\0\0\0\0\0\0\0\x01\x07\xff";

const PRINTED: &[u8] =
    b"tape the example\n1 11 0 0 0\n2 38 0 0 0\n3 40 1 255 0\nname -\ntable 5 2 - incomplete\nmarks 5 1 1 0\nnext replica 1\npick -\n";

#[test]
fn replays_each_tape(rt: HostRuntime) -> io::Result<()> {
    let mut stored = Vec::new(rt.alloc());
    stored.extend_from_slice(EXAMPLE)?;
    stored.extend_from_slice(EXAMPLE)?;
    let mut input: &[u8] = &stored;
    let mut out = Vec::new(rt.alloc());
    replay_all::<AsRead, _, _>(&mut input, &mut out)?;
    let (first, second) = out.split_at(out.len() / 2);
    assert_eq!(rt; first, PRINTED);
    assert_eq!(rt; second, PRINTED);
    // the second is cut short: an error, behind what the first gives
    let mut cut: &[u8] = stored.split_at(stored.len() - 1).0;
    let mut out = Vec::new(rt.alloc());
    assert!(rt; replay_all::<AsRead, _, _>(&mut cut, &mut out).is_err());
    assert_eq!(rt; &out[..], PRINTED);
    Ok(())
}

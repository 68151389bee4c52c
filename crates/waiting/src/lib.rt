#![tactic(auto, using(crate::proofs::Kept::keeping))]

// A stream whose reads and writes wait: a call that was interrupted, or that found the stream not ready, is made again.
ghost use Rattle.std.specs.Prelude.{◌≡◌, ◌≢◌, ◌↔◌, ◌⊎◌, true, IfErr};
ghost use Rattle.std.specs.Io.{ReadsAtMost, WritesAtMost};
ghost use Rattle.std.specs.Io.KnownBytes.{ReadConsumes, WriteAppends};
ghost use Rattle.std.specs.IoError.{error_kind};
ghost use Rattle.std.specs.declared.io.ErrorKind.TheVariants.{Interrupted, WouldBlock};

use std::io::{ErrorKind, Read, Write};
use std::time::{Clock, Duration};
use std::{io, thread};

// How long a stream that is not ready is left alone.
const PAUSE_MILLIS: u64 = 1;

// A stream, and the clock by which it waits.
#[derive(Drop)]
pub struct Waiting<S, C> {
    pub stream: S,
    pub clock: C,
}

impl<S, C: Clock> Waiting<S, C> {
    // Whether a call that failed is to be made again; where the stream is not ready, after a pause.
    fn again(&self, e: &io::Error) -> bool
        ensures { (result ≡ true) ↔ ((error_kind e.now ≡ Interrupted) ⊎ (error_kind e.now ≡ WouldBlock)) }
    {
        match e.kind() {
            ErrorKind::Interrupted => true,
            ErrorKind::WouldBlock => {
                thread::sleep(&self.clock, Duration::from_millis(PAUSE_MILLIS));
                true
            }
            _ => false,
        }
    }
}

// A proved loop has to end, and nothing says that a stream is ever ready: more tries than any run makes.
impl<S: Read, C: Clock> Read for Waiting<S, C> {
    ghost remaining = { λ s. S.remaining s.stream };

    fn read(&mut self, buf: &mut [u8]) -> io::Result<usize>
        ensures bound { ReadsAtMost result buf.new }
        ensures bytes { ReadConsumes (S.remaining self.old.stream) (S.remaining self.new.stream) result buf.new }
        ensures waited { IfErr result (λ e. (error_kind e ≢ Interrupted) × (error_kind e ≢ WouldBlock)) }
    {
        for _ in 0..u64::MAX {
            match self.stream.read(buf) {
                Ok(got) => return Ok(got),
                Err(e) => {
                    if !self.again(&e) {
                        return Err(e);
                    }
                }
            }
        }
        Err(io::Error::from(ErrorKind::TimedOut))
    }
}

impl<S: Write, C: Clock> Write for Waiting<S, C> {
    ghost contents = { λ s. S.contents s.stream };

    fn write(&mut self, buf: &[u8]) -> io::Result<usize>
        ensures bound { WritesAtMost result buf.now }
        ensures bytes { WriteAppends (S.contents self.old.stream) (S.contents self.new.stream) result buf.now }
        ensures waited { IfErr result (λ e. (error_kind e ≢ Interrupted) × (error_kind e ≢ WouldBlock)) }
    {
        for _ in 0..u64::MAX {
            match self.stream.write(buf) {
                Ok(put) => return Ok(put),
                Err(e) => {
                    if !self.again(&e) {
                        return Err(e);
                    }
                }
            }
        }
        Err(io::Error::from(ErrorKind::TimedOut))
    }

    fn flush(&mut self) -> io::Result<()> {
        self.stream.flush()
    }
}

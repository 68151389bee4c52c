#![tactic(auto)]

// Stored tapes through the entry points by value, under the source's names.
ghost use Rattle.layout.specs.Layout.{Entered, Opened};
ghost use Rattle.reading.specs.Reader.{body_at, cut_opening, open_tape};
ghost use Rattle.std.specs.Io.KnownBytes.{Appends};
ghost use Rattle.std.specs.Prelude.{◌≡◌, IfOk};
ghost use Rattle.stored_tapes.specs.Replays.{AtOpening, LinesWritten, extent_text};

use decode::tables_at;
use dump::dump_store;
use metadata::{Answer, Command, TABLE_ROOM, TableId, TableRow, TapeFault};
use numbers::number8;
use owned::{
    Answered, Store, apply_cluster_initialized, apply_create_tablet, apply_desired_placement,
    apply_register_node, apply_replica_retirement, apply_set_node_lifecycle, open,
    select_initial_placement,
};
use printing::print_line;
use reading::{HEAD, Next, body_at, next_at, read_command};
use std::io;
use std::io::Write;
use std::process::ExitCode;
use stored_tapes::{Extent, ReplayExtent, replay_extents};

// One more than there is room for: what an opening with more tables is refused like.
const TOO_MANY: [TableRow; TABLE_ROOM + 1] = [TableRow {
    table_id: TableId(0),
    tablet_count: 0,
}; TABLE_ROOM + 1];

// An opening that is cut short leaves the store of a refused one.
fn cut_opening() -> Answered
    ensures { Opened cut_opening result.answer result.store.bytes }
{
    Answered {
        answer: Answer::BadTape(TapeFault::Cut, 0),
        store: open(&TOO_MANY, 0).store,
    }
}

// The opening, whole or over the room.
#[tactic(auto, unfolding(reading::specs::Reader::open_tape))]
fn open_tape(tape: &[u8]) -> Answered
    ensures { Opened (open_tape tape.now) result.answer result.store.bytes }
{
    if tape.len() < HEAD {
        return cut_opening();
    }
    let count = usize::from(tape[0]);
    let group = number8(tape, 1);
    if TABLE_ROOM < count {
        return open(&TOO_MANY, group);
    }
    if tape.len() < HEAD + 12 * count {
        return cut_opening();
    }
    let tables = tables_at(tape, HEAD, count);
    open(&tables[..count], group)
}

fn enter(s: Store, c: &Command) -> Answered
    ensures { Entered s.bytes c.now result.store.bytes result.answer }
{
    match c {
        Command::Naming(t) => apply_cluster_initialized(s, *t),
        Command::Registering(n) => apply_register_node(s, *n),
        Command::Lifecycle(k, to) => apply_set_node_lifecycle(s, *k, *to),
        Command::Tablet(t) => apply_create_tablet(s, *t),
        Command::Placement(p) => apply_desired_placement(s, *p),
        Command::Retirement(x) => apply_replica_retirement(s, *x),
        Command::Picking => select_initial_placement(s),
    }
}

// Each command by its entry point; what is no whole command is answered as document 01 has it.
#[tactic(auto, using(reading::proofs::Reading::wholes, crate::proofs::Entering::entering))]
fn enter_each<W: Write>(out: &mut W, opened: Store, tape: &[u8], from: usize) -> io::Result<Store>
    requires opened { AtOpening tape.now opened.bytes }
    requires from { from ≡ body_at tape.now }
    ensures { IfOk result (λ left. LinesWritten tape.now left.bytes (W.contents out.old) (W.contents out.new)) }
{
    let mut store = opened;
    let mut at = from;
    let mut line: u64 = 1;
    loop {
        match next_at(tape, at) {
            Next::Whole(b, next) => {
                let mut command = Command::Picking;
                read_command(b, tape, at + 1, &mut command);
                let answered = enter(store, &command);
                print_line(out, line, answered.answer)?;
                store = answered.store;
                at = next;
                line = line.wrapping_add(1);
            }
            Next::Unknown(b) => {
                print_line(out, line, Answer::BadTape(TapeFault::Unknown, b))?;
                return Ok(store);
            }
            Next::Cut(b) => {
                print_line(out, line, Answer::BadTape(TapeFault::Cut, b))?;
                return Ok(store);
            }
            Next::End => return Ok(store),
        }
    }
}

struct ByValue;

impl ReplayExtent for ByValue {
    // Each answer is printed before the next command is run, so that any number of them has room.
    fn replay_extent<W: Write>(out: &mut W, tape: &[u8]) -> io::Result<Extent>
        ensures text { IfOk result (λ how. Appends (W.contents out.old) (W.contents out.new) (extent_text how tape.now)) }
        ensures whole { IfOk result (λ how. how ≡ Extent.Whole) }
    {
        let Answered { answer, store } = open_tape(tape);
        if !answer.is_applied() {
            print_line(out, 0, answer)?;
            dump_store(out, &store.bytes)?;
            return Ok(Extent::Whole);
        }
        let left = enter_each(out, store, tape, body_at(tape))?;
        dump_store(out, &left.bytes)?;
        Ok(Extent::Whole)
    }
}

fn main(rt: HostRuntime) -> ExitCode {
    match replay_extents::<ByValue, _, _>(&mut rt.stdin(), &mut rt.stdout()) {
        Ok(()) => ExitCode::SUCCESS,
        Err(_) => ExitCode::FAILURE,
    }
}

#![tactic(auto)]

// One command on a store: what it is answered, and what an Applied one changes where it stands.
ghost use Rattle.layout.specs.Layout.{store_of, sound, Stepped};
ghost use Rattle.layout.specs.Places.{store_length};
ghost use Rattle.metadata.specs.Answers.{Gives};
ghost use Rattle.metadata.specs.Model.{judge, decide};
ghost use Rattle.std.specs.Prelude.{◌≡◌, true, length};

use admission::admitted;
use choice::judge_picking;
use commits::commit;
use layout::{catalog, directory, name, nodes, placements, retirements, tables, tablets};
use metadata::{Answer, Command};
use nodes::{judge_lifecycle, judge_naming, judge_registering};
use placements::judge_placement;
use retirements::judge_retirement;
use tablets::judge_tablet;

// A command's own checks.
#[tactic(auto, unfolding(layout::specs::Layout::store_of))]
pub fn judge(block: &[u8], c: &Command) -> Result<(), Answer>
    requires { length block.now ≡ store_length }
    ensures { Gives result (judge (store_of block.now) c.now) }
{
    let shared = directory(block);
    let own = catalog(block);
    match c {
        Command::Naming(t) => judge_naming(&name(shared), t),
        Command::Registering(n) => {
            judge_registering(nodes(shared), tablets(own), placements(own), n)
        }
        Command::Lifecycle(k, to) => {
            judge_lifecycle(nodes(shared), tablets(own), placements(own), *k, *to)
        }
        Command::Tablet(t) => judge_tablet(tables(own), tablets(own), t),
        Command::Placement(p) => judge_placement(
            nodes(shared),
            tablets(own),
            placements(own),
            retirements(own),
            p,
        ),
        Command::Retirement(x) => {
            judge_retirement(tablets(own), placements(own), retirements(own), x)
        }
        Command::Picking => Err(judge_picking(nodes(shared))),
    }
}

// Every check of a command, from admission on.
#[tactic(auto, unfolding(layout::specs::Layout::store_of, metadata::specs::Model::decided, metadata::specs::Answers::and_then))]
fn decided(block: &[u8], c: &Command) -> Result<(), Answer>
    requires { length block.now ≡ store_length }
    ensures { Gives result (decide (store_of block.now) c.now) }
{
    admitted(&name(directory(block)), c)?;
    judge(block, c)
}

// What a command is answered: an `Answer` and no `Result`, since Applied is an answer like the others here.
pub fn decide(block: &[u8], c: &Command) -> Answer
    requires { length block.now ≡ store_length }
    ensures { result ≡ decide (store_of block.now) c.now }
{
    match decided(block, c) {
        Ok(()) => Answer::Applied,
        Err(answer) => answer,
    }
}

// Inner: who holds a store shows that it is sound. One command: decided, then carried out where the answer is Applied.
// That the store is sound stands in `requires`, here and in the crates that run tapes: a type that owns a sound store could not be made of one that a caller of `store` lends without a copy of it.
#[tactic(auto, using(crate::proofs::Stepping::stepping))]
pub fn step(block: &mut [u8], c: &Command) -> Answer
    requires { sound block.old ≡ true }
    ensures { Stepped block.old c.now block.new result }
{
    let answer = decide(block, c);
    if answer.is_applied() {
        commit(block, c);
    }
    answer
}

// Naming: the cluster has one name, given once.
ghost use Rattle.metadata.specs.Answers.{Gives};
ghost use Rattle.metadata.specs.Nodes.{judge_naming};

use metadata::{Answer, Name, OptionalName};

// The same name again changes nothing, another is refused.
#[tactic(auto, unfolding(metadata::specs::Nodes::judge_naming, metadata::specs::Answers::answer_if, metadata::specs::Answers::and_then))]
pub fn judge_naming(name: &OptionalName, t: &Name) -> Result<(), Answer>
    ensures { Gives result (judge_naming name.now t.now) }
{
    if name.present && name.text == *t {
        return Err(Answer::AlreadyApplied);
    }
    if name.present {
        return Err(Answer::ClusterConflict);
    }
    Ok(())
}

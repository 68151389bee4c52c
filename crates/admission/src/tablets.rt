// The reasons of a tablet.
ghost use Rattle.std.specs.Prelude.{◌≡◌, ◌&&◌};
ghost use Rattle.metadata.specs.Texts.{key_admitted};
ghost use Rattle.metadata.specs.Commands.{lowest, tablet_faults, partition_admitted};
ghost use Rattle.admission.specs.Reasons.{reason_of};

use crate::reasons::Reason;
use crate::texts::key_admitted;
use metadata::{PartitionSpec, TabletDescriptor};

// Reason 5: "a used role or partition kind above 1". A byte is compared, here and below, since a command may bring any.
const LAST_KIND: u8 = 1;

// The kind of a partition by its hash; a range has the other.
const HASH: u8 = 0;

fn keys_admitted(q: &PartitionSpec) -> bool
    ensures { result ≡ (key_admitted q.now.start_key && key_admitted q.now.end_key) }
{
    key_admitted(&q.start_key) && key_admitted(&q.end_key)
}

// Reason 6 does not apply: the operands of its own kind are in order, those of the other zero. The kind is a byte, and one that is neither is refused by reason 5.
#[tactic(auto, unfolding(metadata::specs::Commands::partition_admitted, laws::specs::Tests::all_of))]
pub fn partition_admitted(q: &PartitionSpec) -> bool
    ensures { result ≡ partition_admitted q.now }
{
    if q.kind == HASH {
        q.bucket < q.bucket_count && q.start_key.is_zero() && q.end_key.is_zero()
    } else {
        text::range_admitted(q.start_key.text(), q.end_key.text())
            && q.bucket == 0
            && q.bucket_count == 0
    }
}

pub fn admit_tablet(t: &TabletDescriptor) -> Result<(), Reason>
    ensures { reason_of result ≡ lowest (tablet_faults t.now) }
{
    if t.tablet_id.0 == 0 || t.table_id.0 == 0 || t.raft_group_id.0 == 0 {
        return Err(Reason::ZeroId);
    }
    if !keys_admitted(&t.partition) {
        return Err(Reason::Text);
    }
    if LAST_KIND < t.partition.kind {
        return Err(Reason::UnknownVariant);
    }
    if !partition_admitted(&t.partition) {
        return Err(Reason::Partition);
    }
    Ok(())
}

#![tactic(auto, unfolding(layout::specs::Layout::store_of))]

// Questions to a store, a block of bytes. Each tests the block first; of one that is not sound it says that alone.
ghost use Rattle.layout.specs.Layout.{directory_part, catalog_part, store_of, sound};
ghost use Rattle.layout.specs.Places.{directory_length, catalog_length};
ghost use Rattle.metadata.specs.Labels.{select_initial_placement};
ghost use Rattle.metadata.specs.Marks.{next_replica_id};
ghost use Rattle.metadata.specs.Tables.{node_key, tablet_key, placement_key, retirement_key, blank_node, blank_tablet, blank_placement, blank_retirement};
ghost use Rattle.metadata.specs.Tablets.{is_complete};
ghost use Rattle.questions.specs.Lookups.{Tells, Looks, OverlapStart};
ghost use Rattle.std.specs.Option.{option_map};
ghost use Rattle.std.specs.Prelude.{◌≡◌, ⊤, length};

use metadata::{
    DesiredReplicaPlacement, InitialPlacement, NodeDescriptor, NodeId, RaftGroupId, ReplicaId,
    ReplicaKey, RetiredReplicaLifetime, TableId, TabletDescriptor, TabletId,
};
use rows::{Nodes, Placements, Retirements, Tablets};
use tables::{get, stored};
use tablets::partitions_overlap;
use text::later_start;

// The store is not sound.
#[derive(Clone, Copy, PartialEq, Eq, Debug)]
pub struct Unsound;

// The guard of the questions: each asks it first and goes on with `?`.
fn ask(block: &[u8]) -> Result<(), Unsound>
    ensures { Tells (sound block.now) (λ _. ⊤) result }
{
    if soundness::sound(block) {
        return Ok(());
    }
    Err(Unsound)
}

// The parts of a sound store.
#[tactic(auto, using(crate::proofs::Asked::sound_length))]
fn directory(block: &[u8]) -> Result<&[u8], Unsound>
    ensures { Tells (sound block.now) (λ d. (d.now ≡ directory_part block.now) × (length d.now ≡ directory_length)) result }
{
    ask(block)?;
    Ok(layout::directory(block))
}

#[tactic(auto, using(crate::proofs::Asked::sound_length))]
fn catalog(block: &[u8]) -> Result<&[u8], Unsound>
    ensures { Tells (sound block.now) (λ c. (c.now ≡ catalog_part block.now) × (length c.now ≡ catalog_length)) result }
{
    ask(block)?;
    Ok(layout::catalog(block))
}

// The next replica id; none at the mark's limit.
pub fn next_replica_id(block: &[u8]) -> Result<Option<ReplicaId>, Unsound>
    ensures { Tells (sound block.now) (λ o. o ≡ next_replica_id (store_of block.now).catalog.marks) result }
{
    let catalog = catalog(block)?;
    Ok(layout::marks(catalog).next_replica_id())
}

// Whether the table has as many tablets as its tablet count says.
pub fn is_complete(block: &[u8], k: TableId) -> Result<bool, Unsound>
    ensures { Tells (sound block.now) (λ b. b ≡ is_complete k (store_of block.now).catalog.tables (store_of block.now).catalog.tablets) result }
{
    let catalog = catalog(block)?;
    Ok(tablets::is_complete(k, layout::tables(catalog), layout::tablets(catalog)))
}

// The first choice among the nodes as they are.
pub fn initial_placement(block: &[u8]) -> Result<InitialPlacement, Unsound>
    ensures { Tells (sound block.now) (λ p. p ≡ select_initial_placement (store_of block.now).directory.nodes) result }
{
    let directory = directory(block)?;
    Ok(choice::select_initial_placement(layout::nodes(directory)))
}

// The row under an id, none where there is none. One function for each of the four tables that document 01 asks, each the guard and a call of `get`.
pub fn node(block: &[u8], k: NodeId) -> Result<Option<NodeDescriptor>, Unsound>
    ensures { Tells (sound block.now) (Looks node_key blank_node k.0 (store_of block.now).directory.nodes) result }
{
    let directory = directory(block)?;
    Ok(get::<Nodes>(layout::nodes(directory), k))
}

pub fn tablet(block: &[u8], k: TabletId) -> Result<Option<TabletDescriptor>, Unsound>
    ensures { Tells (sound block.now) (Looks tablet_key blank_tablet k.0 (store_of block.now).catalog.tablets) result }
{
    let catalog = catalog(block)?;
    Ok(get::<Tablets>(layout::tablets(catalog), k))
}

pub fn desired_placement(
    block: &[u8],
    k: TabletId,
) -> Result<Option<DesiredReplicaPlacement>, Unsound>
    ensures { Tells (sound block.now) (Looks placement_key blank_placement k.0 (store_of block.now).catalog.placements) result }
{
    let catalog = catalog(block)?;
    Ok(get::<Placements>(layout::placements(catalog), k))
}

pub fn retired_replica(
    block: &[u8],
    group: RaftGroupId,
    replica: ReplicaId,
) -> Result<Option<RetiredReplicaLifetime>, Unsound>
    ensures { Tells (sound block.now) (Looks retirement_key blank_retirement (group.0, replica.0) (store_of block.now).catalog.retirements) result }
{
    let catalog = catalog(block)?;
    let key = ReplicaKey {
        raft_group_id: group,
        replica_id: replica,
    };
    Ok(get::<Retirements>(layout::retirements(catalog), key))
}

// From which key on a tablet's range overlaps that of the row under the id, which is what 24 RangeOverlap names. None where they do not overlap, or there is no such row.
pub fn overlap_start<'a>(
    block: &'a [u8],
    id: TabletId,
    t: &'a TabletDescriptor,
) -> Result<Option<&'a [u8]>, Unsound>
    ensures { Tells (sound block.now) (λ o. OverlapStart t.now (store_of block.now).catalog.tablets id.0 (option_map (λ k. k.now) o)) result }
{
    let catalog = catalog(block)?;
    let Some(row) = stored::<Tablets>(layout::tablets(catalog), id) else {
        return Ok(None);
    };
    if !partitions_overlap(&t.partition, row) {
        return Ok(None);
    }
    let start = t.partition.start_key.text();
    Ok(Some(later_start(start, rows::start_key(row))))
}

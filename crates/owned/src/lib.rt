#![tactic(auto)]

// A store by value, under the source's names: a store in, a store out. No entry point has a `requires`.
ghost use Rattle.layout.specs.Layout.{Entered, Opened, store_of, sound};
ghost use Rattle.metadata.specs.Labels.{select_initial_placement};
ghost use Rattle.metadata.specs.Marks.{next_replica_id};
ghost use Rattle.metadata.specs.Opening.{opening};
ghost use Rattle.metadata.specs.Tables.{node_key, tablet_key, placement_key, retirement_key, blank_node, blank_tablet, blank_placement, blank_retirement};
ghost use Rattle.metadata.specs.Tablets.{is_complete};
ghost use Rattle.metadata.specs.declared.Command.TheVariants.{Naming as naming, Registering as registering, Lifecycle as lifecycle, Tablet as tablet, Placement as placement, Retirement as retirement, Picking as picking};
ghost use Rattle.questions.specs.Lookups.{Tells, Looks};
ghost use Rattle.std.specs.Prelude.{◌≡◌};

use layout::STORE_BYTES;
use metadata::{
    Answer, Command, DesiredReplicaPlacement, InitialPlacement, Name, NodeDescriptor, NodeId,
    RaftGroupId, ReplicaId, RetiredReplicaLifetime, TableId, TableRow, TabletDescriptor, TabletId,
};
use questions::Unsound;

#[derive(Clone, Copy)]
pub struct Store {
    pub bytes: [u8; STORE_BYTES],
}

// What a command was answered, and the store that it left.
#[derive(Clone, Copy)]
pub struct Answered {
    pub answer: Answer,
    pub store: Store,
}

// ---- the opening

pub fn open(tables: &[TableRow], group: u64) -> Answered
    ensures { Opened (opening tables.now group) result.answer result.store.bytes }
{
    let mut store = Store {
        bytes: [0; STORE_BYTES],
    };
    let answer = opening::open(&mut store.bytes, tables, group);
    Answered { answer, store }
}

// ---- commands

fn enter(s: Store, c: &Command) -> Answered
    ensures { Entered s.bytes c.now result.store.bytes result.answer }
{
    let mut left = s;
    let answer = store::enter(&mut left.bytes, c);
    Answered {
        answer,
        store: left,
    }
}

pub fn apply_cluster_initialized(s: Store, t: Name) -> Answered
    ensures { Entered s.bytes (naming t) result.store.bytes result.answer }
{
    enter(s, &Command::Naming(t))
}

pub fn apply_register_node(s: Store, n: NodeDescriptor) -> Answered
    ensures { Entered s.bytes (registering n) result.store.bytes result.answer }
{
    enter(s, &Command::Registering(n))
}

// `to` is any byte, as in the command.
pub fn apply_set_node_lifecycle(s: Store, k: NodeId, to: u8) -> Answered
    ensures { Entered s.bytes (lifecycle k to) result.store.bytes result.answer }
{
    enter(s, &Command::Lifecycle(k, to))
}

pub fn apply_create_tablet(s: Store, t: TabletDescriptor) -> Answered
    ensures { Entered s.bytes (tablet t) result.store.bytes result.answer }
{
    enter(s, &Command::Tablet(t))
}

pub fn apply_desired_placement(s: Store, p: DesiredReplicaPlacement) -> Answered
    ensures { Entered s.bytes (placement p) result.store.bytes result.answer }
{
    enter(s, &Command::Placement(p))
}

pub fn apply_replica_retirement(s: Store, x: RetiredReplicaLifetime) -> Answered
    ensures { Entered s.bytes (retirement x) result.store.bytes result.answer }
{
    enter(s, &Command::Retirement(x))
}

pub fn select_initial_placement(s: Store) -> Answered
    ensures { Entered s.bytes picking result.store.bytes result.answer }
{
    enter(s, &Command::Picking)
}

// ---- questions

pub fn next_replica_id(s: &Store) -> Result<Option<ReplicaId>, Unsound>
    ensures { Tells (sound s.now.bytes) (λ o. o ≡ next_replica_id (store_of s.now.bytes).catalog.marks) result }
{
    questions::next_replica_id(&s.bytes)
}

pub fn is_complete(s: &Store, k: TableId) -> Result<bool, Unsound>
    ensures { Tells (sound s.now.bytes) (λ b. b ≡ is_complete k (store_of s.now.bytes).catalog.tables (store_of s.now.bytes).catalog.tablets) result }
{
    questions::is_complete(&s.bytes, k)
}

pub fn initial_placement(s: &Store) -> Result<InitialPlacement, Unsound>
    ensures { Tells (sound s.now.bytes) (λ p. p ≡ select_initial_placement (store_of s.now.bytes).directory.nodes) result }
{
    questions::initial_placement(&s.bytes)
}

pub fn node(s: &Store, k: NodeId) -> Result<Option<NodeDescriptor>, Unsound>
    ensures { Tells (sound s.now.bytes) (Looks node_key blank_node k.0 (store_of s.now.bytes).directory.nodes) result }
{
    questions::node(&s.bytes, k)
}

pub fn tablet(s: &Store, k: TabletId) -> Result<Option<TabletDescriptor>, Unsound>
    ensures { Tells (sound s.now.bytes) (Looks tablet_key blank_tablet k.0 (store_of s.now.bytes).catalog.tablets) result }
{
    questions::tablet(&s.bytes, k)
}

pub fn desired_placement(s: &Store, k: TabletId) -> Result<Option<DesiredReplicaPlacement>, Unsound>
    ensures { Tells (sound s.now.bytes) (Looks placement_key blank_placement k.0 (store_of s.now.bytes).catalog.placements) result }
{
    questions::desired_placement(&s.bytes, k)
}

pub fn retired_replica(
    s: &Store,
    group: RaftGroupId,
    replica: ReplicaId,
) -> Result<Option<RetiredReplicaLifetime>, Unsound>
    ensures { Tells (sound s.now.bytes) (Looks retirement_key blank_retirement (group.0, replica.0) (store_of s.now.bytes).catalog.retirements) result }
{
    questions::retired_replica(&s.bytes, group, replica)
}

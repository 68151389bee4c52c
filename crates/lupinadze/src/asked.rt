// Questions to a store that is lent. Each says first of memory that is no sound store that alone; then whether there is such a row or number;
// then whether the list has room for it.
ghost use Rattle.layout.specs.Layout.{store_of, sound};
ghost use Rattle.lupinadze.specs.Asked.{node_said, tablet_said, desired_said, retired_said, next_said, complete_count, choice_said, OverlapGiven};
ghost use Rattle.lupinadze.specs.Given.{Given, not_a_store};
ghost use Rattle.std.specs.Prelude.{◌≡◌, cond, Some};

use crate::given::{give, give_all, give_key};
use crate::{LUPINADZE_NONE, LUPINADZE_NOT_A_STORE, LUPINADZE_SHORT};
use decode::tablet_at;
use encode::{TABLET_BYTES, node_bytes, placement_bytes, retirement_bytes, tablet_bytes};
use metadata::{NodeId, RaftGroupId, ReplicaId, TableId, TabletId};

// ---- rows under an id, as the tape has them behind the command's byte

#[unsafe(no_mangle)]
pub extern "C" fn lupinadze_node(store: &[u8], node: u64, out: &mut [u8]) -> u64
    ensures { Given (sound store.now) (node_said (store_of store.now) node) out.old result out.new }
{
    match questions::node(store, NodeId(node)) {
        Ok(Some(n)) => give_all(&node_bytes(&n), out),
        Ok(None) => LUPINADZE_NONE,
        Err(_) => LUPINADZE_NOT_A_STORE,
    }
}

#[unsafe(no_mangle)]
pub extern "C" fn lupinadze_tablet(store: &[u8], tablet: u64, out: &mut [u8]) -> u64
    ensures { Given (sound store.now) (tablet_said (store_of store.now) tablet) out.old result out.new }
{
    match questions::tablet(store, TabletId(tablet)) {
        Ok(Some(t)) => give_all(&tablet_bytes(&t), out),
        Ok(None) => LUPINADZE_NONE,
        Err(_) => LUPINADZE_NOT_A_STORE,
    }
}

#[unsafe(no_mangle)]
pub extern "C" fn lupinadze_placement(store: &[u8], tablet: u64, out: &mut [u8]) -> u64
    ensures { Given (sound store.now) (desired_said (store_of store.now) tablet) out.old result out.new }
{
    match questions::desired_placement(store, TabletId(tablet)) {
        Ok(Some(p)) => give_all(&placement_bytes(&p), out),
        Ok(None) => LUPINADZE_NONE,
        Err(_) => LUPINADZE_NOT_A_STORE,
    }
}

#[unsafe(no_mangle)]
pub extern "C" fn lupinadze_retirement(
    store: &[u8],
    group: u64,
    replica: u64,
    out: &mut [u8],
) -> u64
    ensures { Given (sound store.now) (retired_said (store_of store.now) group replica) out.old result out.new }
{
    match questions::retired_replica(store, RaftGroupId(group), ReplicaId(replica)) {
        Ok(Some(x)) => give_all(&retirement_bytes(&x), out),
        Ok(None) => LUPINADZE_NONE,
        Err(_) => LUPINADZE_NOT_A_STORE,
    }
}

// ---- numbers

// 1, and the number in the list; none at the mark's limit.
#[unsafe(no_mangle)]
pub extern "C" fn lupinadze_next_replica_id(store: &[u8], out: &mut [u64]) -> u64
    ensures { Given (sound store.now) (next_said (store_of store.now)) out.old result out.new }
{
    match questions::next_replica_id(store) {
        Ok(Some(id)) => give_all(&[id.0], out),
        Ok(None) => LUPINADZE_NONE,
        Err(_) => LUPINADZE_NOT_A_STORE,
    }
}

// 1 where the table has as many tablets as its tablet count says, else 0.
#[unsafe(no_mangle)]
pub extern "C" fn lupinadze_is_complete(store: &[u8], table: u64) -> u64
    ensures { result ≡ cond (sound store.now) (complete_count (store_of store.now) table) not_a_store }
{
    match questions::is_complete(store, TableId(table)) {
        Ok(complete) => u64::from(complete),
        Err(_) => LUPINADZE_NOT_A_STORE,
    }
}

// How many nodes are chosen; seven numbers go to the list: the nodes, 0 for an unfilled place, and the policy's replication factor and its minima
// of regions, zones and racks.
#[unsafe(no_mangle)]
pub extern "C" fn lupinadze_initial_placement(store: &[u8], out: &mut [u64]) -> u64
    ensures { Given (sound store.now) (Some (choice_said (store_of store.now))) out.old result out.new }
{
    let Ok(placement) = questions::initial_placement(store) else {
        return LUPINADZE_NOT_A_STORE;
    };
    let [first, second, third] = placement.nodes;
    let policy = placement.placement_policy;
    let numbers = [
        first.0,
        second.0,
        third.0,
        u64::from(policy.replication_factor),
        u64::from(policy.min_distinct_regions),
        u64::from(policy.min_distinct_zones),
        u64::from(policy.min_distinct_racks),
    ];
    give(u64::from(placement.node_count), &numbers, out)
}

// From which key on the range of `other`, a tablet's row as the tape has it, overlaps that of the stored tablet; none where they do not overlap,
// or there is no such tablet. What stands behind the row is not read. A list that is shorter than a row asks nothing: it is too short.
#[unsafe(no_mangle)]
pub extern "C" fn lupinadze_overlap_start(
    store: &[u8],
    tablet: u64,
    other: &[u8],
    out: &mut [u8],
) -> u64
    ensures { OverlapGiven (sound store.now) (store_of store.now).catalog.tablets tablet other.now out.old result out.new }
{
    if other.len() < TABLET_BYTES {
        return if soundness::sound(store) {
            LUPINADZE_SHORT
        } else {
            LUPINADZE_NOT_A_STORE
        };
    }
    match questions::overlap_start(store, TabletId(tablet), &tablet_at(other, 0)) {
        Ok(Some(key)) => give_key(key, out),
        Ok(None) => LUPINADZE_NONE,
        Err(_) => LUPINADZE_NOT_A_STORE,
    }
}

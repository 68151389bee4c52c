#![tactic(auto)]

// What an Applied command changes of the block: one part of it after the other. Who changes the catalog has the catalog lent, or a part of it, and never the block.
ghost use Rattle.changes.specs.Changes.{Moved, Registered};
ghost use Rattle.commits.specs.Commits.{NameGiven, NodesChanged, TabletAdded, PlacementPut, RetirementAdded, DirectoryChanged, CatalogChanged, Committed};
ghost use Rattle.layout.specs.Layout.{sound, store_of};
ghost use Rattle.layout.specs.Places.{directory_length, catalog_length, store_length};
ghost use Rattle.metadata.specs.Answers.{is_applied};
ghost use Rattle.metadata.specs.Model.{apply, decide};
ghost use Rattle.std.specs.Prelude.{◌≡◌, true, length};

use changes::{add_retirement, add_tablet, move_node, put_placement, register_node};
use encode::{marks_bytes, name_bytes};
use layout::{DIRECTORY_BYTES, MARKS, NODES, PLACEMENTS, RETIREMENTS, TABLETS, marks};
use marks::{raise_by_placement, raise_by_tablet};
use metadata::{
    Command, DesiredReplicaPlacement, Name, NodeDescriptor, NodeId, RetiredReplicaLifetime,
    TabletDescriptor,
};
use text::Optional;

// ---- the directory

fn give_name(directory: &mut [u8], t: &Name)
    requires { length directory.old ≡ directory_length }
    ensures { NameGiven (record { present = true; text = t.now }) directory.old directory.new }
{
    let name = Optional {
        present: true,
        text: *t,
    };
    directory[..NODES].copy_from_slice(&name_bytes(&name));
}

fn register(directory: &mut [u8], n: &NodeDescriptor)
    requires { length directory.old ≡ directory_length }
    ensures { NodesChanged (Registered n.now) directory.old directory.new }
{
    register_node(&mut directory[NODES..], n);
}

fn advance(directory: &mut [u8], k: NodeId, to: u8)
    requires { length directory.old ≡ directory_length }
    ensures { NodesChanged (Moved k to) directory.old directory.new }
{
    move_node(&mut directory[NODES..], k, to);
}

// ---- the catalog

// A tablet more, and the marks that it raises.
fn commit_tablet(catalog: &mut [u8], t: &TabletDescriptor)
    requires { length catalog.old ≡ catalog_length }
    ensures { TabletAdded t.now catalog.old catalog.new }
{
    add_tablet(&mut catalog[TABLETS..PLACEMENTS], t);
    let mut high = marks(catalog);
    raise_by_tablet(&mut high, t);
    catalog[MARKS..].copy_from_slice(&marks_bytes(&high));
}

fn commit_placement(catalog: &mut [u8], p: &DesiredReplicaPlacement)
    requires { length catalog.old ≡ catalog_length }
    ensures { PlacementPut p.now catalog.old catalog.new }
{
    put_placement(&mut catalog[PLACEMENTS..RETIREMENTS], p);
    let mut high = marks(catalog);
    raise_by_placement(&mut high, p);
    catalog[MARKS..].copy_from_slice(&marks_bytes(&high));
}

fn commit_retirement(catalog: &mut [u8], x: &RetiredReplicaLifetime)
    requires { length catalog.old ≡ catalog_length }
    ensures { RetirementAdded x.now catalog.old catalog.new }
{
    add_retirement(&mut catalog[RETIREMENTS..MARKS], x);
}

// ---- the block: the directory or the catalog is lent, and nothing else changes

fn name_cluster(block: &mut [u8], t: &Name)
    requires { length block.old ≡ store_length }
    ensures { DirectoryChanged (NameGiven (record { present = true; text = t.now })) block.old block.new }
{
    give_name(&mut block[..DIRECTORY_BYTES], t);
}

fn register_in(block: &mut [u8], n: &NodeDescriptor)
    requires { length block.old ≡ store_length }
    ensures { DirectoryChanged (NodesChanged (Registered n.now)) block.old block.new }
{
    register(&mut block[..DIRECTORY_BYTES], n);
}

fn advance_in(block: &mut [u8], k: NodeId, to: u8)
    requires { length block.old ≡ store_length }
    ensures { DirectoryChanged (NodesChanged (Moved k to)) block.old block.new }
{
    advance(&mut block[..DIRECTORY_BYTES], k, to);
}

fn add_tablet_in(block: &mut [u8], t: &TabletDescriptor)
    requires { length block.old ≡ store_length }
    ensures { CatalogChanged (TabletAdded t.now) block.old block.new }
{
    commit_tablet(&mut block[DIRECTORY_BYTES..], t);
}

fn put_placement_in(block: &mut [u8], p: &DesiredReplicaPlacement)
    requires { length block.old ≡ store_length }
    ensures { CatalogChanged (PlacementPut p.now) block.old block.new }
{
    commit_placement(&mut block[DIRECTORY_BYTES..], p);
}

fn add_retirement_in(block: &mut [u8], x: &RetiredReplicaLifetime)
    requires { length block.old ≡ store_length }
    ensures { CatalogChanged (RetirementAdded x.now) block.old block.new }
{
    commit_retirement(&mut block[DIRECTORY_BYTES..], x);
}

// A command that was answered Applied. Inner: `steps` shows that the block is sound and that it was.
pub fn commit(block: &mut [u8], c: &Command)
    requires sounds { sound block.old ≡ true }
    requires applied { is_applied (decide (store_of block.old) c.now) ≡ true }
    ensures { Committed (apply (store_of block.old) c.now) block.new }
{
    match c {
        Command::Naming(t) => name_cluster(block, t),
        Command::Registering(n) => register_in(block, n),
        Command::Lifecycle(k, to) => advance_in(block, *k, *to),
        Command::Tablet(t) => add_tablet_in(block, t),
        Command::Placement(p) => put_placement_in(block, p),
        Command::Retirement(x) => add_retirement_in(block, x),
        Command::Picking => {}
    }
}

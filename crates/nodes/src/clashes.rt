// The endpoints of a new node against those of each node that is there (document 01, refusal 14): the bytes of both, where they stand.
ghost use Rattle.laws.specs.Bytes.{eq_bytes};
ghost use Rattle.laws.specs.Rows.{find_index};
ghost use Rattle.metadata.specs.Nodes.{clash};
ghost use Rattle.metadata.specs.Tables.{endpoints};
ghost use Rattle.rows.specs.Rows.{node_rows};
ghost use Rattle.std.specs.Prelude.{◌≡◌, ◌<◌, IfSome, map};
ghost use Rattle.text.specs.Texts.{text_of};

use metadata::{Clash, NodeDescriptor};
use rows::{NodeBytes, endpoints, node_id};

// The new node's endpoints: raft, snapshot, sql, admin, as `rows::endpoints` has those of a row.
fn brought(n: &NodeDescriptor) -> [&[u8]; 4]
    ensures { map (λ e. e.now) result ≡ map text_of (endpoints n.now) }
{
    [
        n.raft_addr.text(),
        n.snapshot_addr.text(),
        n.sql_addr.text(),
        n.admin_addr.text(),
    ]
}

// Which of the existing node's endpoints is t. There are four, in no order, so each is compared.
fn clash_at(existing: &[&[u8]; 4], t: &[u8]) -> Option<usize>
    ensures found { result ≡ find_index (λ e. eq_bytes e.now t.now) existing.now }
    ensures within { IfSome result (λ i. i < 4) }
{
    existing.iter().position(|e| *e == t)
}

// The first clash: existing nodes by id, then the new node's fields in turn, each against all of the existing node's.
#[tactic(auto, using(crate::proofs::Endpoints::searching))]
pub fn clash(new: &NodeDescriptor, nodes: &[NodeBytes]) -> Option<Clash>
    ensures { result ≡ clash new.now (node_rows nodes.now) }
{
    let fields = brought(new);
    let mut found = None;
    'rows: for old in nodes {
        let existing = endpoints(old);
        for (j, t) in fields.iter().enumerate() {
            if let Some(k) = clash_at(&existing, *t) {
                found = Some(Clash {
                    node_id: node_id(old),
                    field: j as u8,
                    existing_field: k as u8,
                });
                break 'rows;
            }
        }
    }
    found
}

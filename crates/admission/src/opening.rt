// Reason 10: whether an opening is admitted.
ghost use Rattle.std.specs.Prelude.{◌≡◌};
ghost use Rattle.laws.specs.Bytes.{is_zero};
ghost use Rattle.laws.specs.Lists.{any, none_twice};
ghost use Rattle.metadata.specs.Commands.{opening_admitted, same_table_id};

use lists::none_twice;
use metadata::{TABLE_ROOM, TableRow};

// A call of `none_twice`, by the name that reason 10 has for it.
fn no_table_twice(rows: &[TableRow]) -> bool
    ensures { result ≡ none_twice same_table_id rows.now }
{
    none_twice(rows, |a, b| a.table_id == b.table_id)
}

fn any_zero_id(rows: &[TableRow]) -> bool
    ensures { result ≡ any (λ t. is_zero t.table_id.0) rows.now }
{
    rows.iter().any(|t| t.table_id.0 == 0)
}

fn any_without_tablets(rows: &[TableRow]) -> bool
    ensures { result ≡ any (λ t. is_zero t.tablet_count) rows.now }
{
    rows.iter().any(|t| t.tablet_count == 0)
}

// "over 16 tables, a table id zero or twice, a tablet count zero".
#[tactic(auto, unfolding(metadata::specs::Commands::opening_admitted, laws::specs::Tests::all_of))]
pub fn opening_admitted(rows: &[TableRow]) -> bool
    ensures { result ≡ opening_admitted rows.now }
{
    rows.len() <= TABLE_ROOM
        && !any_zero_id(rows)
        && no_table_twice(rows)
        && !any_without_tablets(rows)
}

// Refusals 10, 6, 7, 16, 8 and 9 of documents 01 and 02: what tables that a caller hands over are refused for, if anything. Each check goes over the
// letters in their order and over the rows of each; the lowest bad row of the first bad table is the refusal's place.
#![tactic(auto)]

ghost use Rattle.std.specs.Prelude.{◌≡◌, ◌<◌};
ghost use Rattle.lent.specs.Model.{model};
ghost use Rattle.as5506.specs.Refusals.{faults};
ghost use Rattle.tables.specs.Answer.{checked};
ghost use Rattle.tables.specs.Few.{Few};

use as5506::Refusal;
use lent::Tables;

mod ends;
mod fields;
mod keys;
mod letter;
mod rows;
mod whole;

// What tables are refused for.
#[derive(Clone, Copy)]
enum Rule {
    // A number of a row is past its range.
    Range = 6,
    // There is no component, or one has a bad parent.
    Parent = 7,
    // An end, a reference or a rename is bad.
    End = 8,
    // A row has the key of an earlier one.
    Key = 9,
    // A table has no whole number of rows or too many, or a name is bad.
    Form = 10,
    // A component has the parent and the place of an earlier one.
    Place = 16,
}

// The tables, of which none has more than 4,096 rows. The checks after `check_few` are its methods.
#[derive(Clone, Copy)]
struct FewRows<'a, 'b> {
    m: &'a Tables<'b>,
    ghost few: { Few (model m.now) },
}

// The number of a row, below 4,096, so that the place of its numbers in a table is within `usize`.
#[derive(Clone, Copy)]
struct RowNumber {
    i: usize,
    ghost small: { i < 4096 },
}

// What the tables are refused for, if anything: one check after the other. After `check_few` no table has more than 4,096 rows.
#[tactic(auto, using(crate::proofs::Letters::few_after, crate::proofs::Order::in_turn), unfolding(as5506::specs::Refusals::faults, as5506::specs::Refusals::faults10))]
pub fn check_tables(m: &Tables) -> Result<(), Refusal>
    ensures { result ≡ checked (faults (model m.now)) }
{
    whole::check_whole(m)?;
    whole::check_few(m)?;
    let tables = FewRows { m };
    tables.check_names()?;
    tables.check_fields()?;
    tables.check_parents()?;
    tables.check_places()?;
    tables.check_ends()?;
    tables.check_keys()
}

// 7: parents. 8: ends, references and renames.
ghost use Rattle.std.specs.Prelude.{◌≡◌};
ghost use Rattle.lent.specs.Model.{model};
ghost use Rattle.columns.specs.Side.{side_of};
ghost use Rattle.columns.specs.Reference.{ref_of};
ghost use Rattle.as5506.specs.Tables.{letter_x, letter_u, letter_e, letter_r};
ghost use Rattle.as5506.specs.Refusals.{bad_parent, bad_end, bad_ref, bad_rename, row_faults, faults7, faults8};
ghost use Rattle.tables.specs.Answer.{checked};
ghost use Rattle.tables.specs.Ends.{bad_ends, bad_references, bad_classifier};

use crate::letter::{Letter, refused_at};
use crate::{FewRows, RowNumber, Rule};
use as5506::{MISSING, Refusal};
use columns::{Reference, Side, component, connection, declared, group_type};
use lent::Tables;

// The kind of a rename that is of a package. A number, since no other is asked for here.
const PACKAGE: u32 = 0;

// Whether component i is the first and has a parent, or has none that is smaller.
fn bad_parent(m: &Tables, i: usize) -> bool
    ensures { result ≡ bad_parent (model m.now) i }
{
    let parent = component::parent_of(m, i);
    if i == 0 {
        parent != MISSING
    } else {
        i <= parent as usize
    }
}

// Whether an end has a subcomponent and no feature.
fn bad_end(m: &Tables, side: Side, i: usize) -> bool
    ensures { result ≡ bad_end (model m.now) (side_of side) i }
{
    connection::subcomponent_of(m, side, i) != MISSING
        && connection::feature_of(m, side, i) == MISSING
}

// Whether a reference has a package or an implementation and no type.
fn bad_reference(r: Reference) -> bool
    ensures { result ≡ bad_ref (ref_of r) }
{
    r.type_name == MISSING && (r.package != MISSING || r.implementation != MISSING)
}

impl FewRows<'_, '_> {
    // Refuses tables without a component, else the first bad parent.
    #[tactic(auto, using(crate::proofs::Order::in_turn), unfolding(as5506::specs::Refusals::faults7))]
    pub fn check_parents(&self) -> Result<(), Refusal>
        ensures { result ≡ checked (faults7 (model self.now.m.now)) }
    {
        if self.count_of(Letter::C) == 0 {
            return Err(refused_at(Rule::Parent, Letter::C, 0));
        }
        self.check_rows(Rule::Parent, Letter::C, |row| bad_parent(self.m, row.i))
    }

    // Whether a rename of a package has an original name, or another has none.
    fn bad_rename(&self, row: RowNumber) -> bool
        ensures { result ≡ bad_rename (model self.now.m.now) row.i }
    {
        let named = self.field(Letter::R, row, 4) != MISSING;
        if self.field(Letter::R, row, 1) == PACKAGE {
            named
        } else {
            !named
        }
    }

    // Refuses the first connection with a bad end.
    fn check_connections(&self) -> Result<(), Refusal>
        ensures { result ≡ checked (row_faults 8 (model self.now.m.now) letter_x (bad_ends (model self.now.m.now))) }
    {
        self.check_rows(Rule::End, Letter::X, |row| {
            bad_end(self.m, Side::Source, row.i) || bad_end(self.m, Side::Destination, row.i)
        })
    }

    // Refuses the first group type with a bad reference.
    fn check_group_types(&self) -> Result<(), Refusal>
        ensures { result ≡ checked (row_faults 8 (model self.now.m.now) letter_u (bad_references (model self.now.m.now))) }
    {
        self.check_rows(Rule::End, Letter::U, |row| {
            bad_reference(group_type::extends_of(self.m, row.i))
                || bad_reference(group_type::inverse_of(self.m, row.i))
        })
    }

    // Refuses the first declared feature with a bad reference.
    fn check_declared(&self) -> Result<(), Refusal>
        ensures { result ≡ checked (row_faults 8 (model self.now.m.now) letter_e (bad_classifier (model self.now.m.now))) }
    {
        self.check_rows(
            Rule::End,
            Letter::E,
            |row| bad_reference(declared::classifier_of(self.m, row.i)),
        )
    }

    // Refuses the first bad rename.
    fn check_renames(&self) -> Result<(), Refusal>
        ensures { result ≡ checked (row_faults 8 (model self.now.m.now) letter_r (bad_rename (model self.now.m.now))) }
    {
        self.check_rows(Rule::End, Letter::R, |row| self.bad_rename(row))
    }

    // Refuses the first connection with a bad end, else the first bad reference, else the first bad rename.
    #[tactic(auto, using(crate::proofs::Order::in_turn), unfolding(as5506::specs::Refusals::faults8))]
    pub fn check_ends(&self) -> Result<(), Refusal>
        ensures { result ≡ checked (faults8 (model self.now.m.now)) }
    {
        self.check_connections()?;
        self.check_group_types()?;
        self.check_declared()?;
        self.check_renames()
    }
}

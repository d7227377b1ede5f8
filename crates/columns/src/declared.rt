// E rows: the features that a component type or a group type declares. One function for each column; lib.rt says why.
ghost use Rattle.std.specs.Prelude.{◌≡◌};
ghost use Rattle.as5506.specs.Tables.{e_holder_kind, e_holder, e_name, e_kind, e_direction, e_classifier};
ghost use Rattle.lent.specs.Model.{model};
ghost use Rattle.columns.specs.Reference.{ref_of};

use crate::field::field_at;
use crate::reference::{Reference, reference_at};
use as5506::E_NUMBERS;
use lent::Tables;

// The two kinds of a holder: numbers as the tables hold them, which may be any before they are checked.
pub const HOLDER_COMPONENT_TYPE: u32 = 0;

pub const HOLDER_GROUP_TYPE: u32 = 1;

// Whether a component type holds it, or a group type.
pub fn holder_kind_of(m: &Tables, i: usize) -> u32
    ensures { result ≡ e_holder_kind (model m.now) i }
{
    field_at(m.e, E_NUMBERS, i, 0)
}

// The row of the type that holds it.
pub fn holder_of(m: &Tables, i: usize) -> u32
    ensures { result ≡ e_holder (model m.now) i }
{
    field_at(m.e, E_NUMBERS, i, 1)
}

// The name.
pub fn name_of(m: &Tables, i: usize) -> u32
    ensures { result ≡ e_name (model m.now) i }
{
    field_at(m.e, E_NUMBERS, i, 2)
}

// The kind.
pub fn kind_of(m: &Tables, i: usize) -> u32
    ensures { result ≡ e_kind (model m.now) i }
{
    field_at(m.e, E_NUMBERS, i, 3)
}

// The direction, or missing.
pub fn direction_of(m: &Tables, i: usize) -> u32
    ensures { result ≡ e_direction (model m.now) i }
{
    field_at(m.e, E_NUMBERS, i, 4)
}

// The classifier.
pub fn classifier_of(m: &Tables, i: usize) -> Reference
    ensures { ref_of result ≡ e_classifier (model m.now) i }
{
    reference_at(m.e, E_NUMBERS, i, 5)
}

// U rows: group types. One function for each column; lib.rt says why.
ghost use Rattle.std.specs.Prelude.{◌≡◌};
ghost use Rattle.as5506.specs.Tables.{u_package, u_private, u_extends, u_inverse_of};
ghost use Rattle.lent.specs.Model.{model};
ghost use Rattle.columns.specs.Reference.{ref_of};

use crate::field::field_at;
use crate::reference::{Reference, reference_at};
use as5506::U_NUMBERS;
use lent::Tables;

// The row of the package that has it.
pub fn package_of(m: &Tables, i: usize) -> u32
    ensures { result ≡ u_package (model m.now) i }
{
    field_at(m.u, U_NUMBERS, i, 0)
}

// Whether it is private, 1, or not, 0.
pub fn private_of(m: &Tables, i: usize) -> u32
    ensures { result ≡ u_private (model m.now) i }
{
    field_at(m.u, U_NUMBERS, i, 2)
}

// What it extends.
pub fn extends_of(m: &Tables, i: usize) -> Reference
    ensures { ref_of result ≡ u_extends (model m.now) i }
{
    reference_at(m.u, U_NUMBERS, i, 3)
}

// What it is the inverse of.
pub fn inverse_of(m: &Tables, i: usize) -> Reference
    ensures { ref_of result ≡ u_inverse_of (model m.now) i }
{
    reference_at(m.u, U_NUMBERS, i, 6)
}

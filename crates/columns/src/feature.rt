// F rows: the features of components. One function for each column; lib.rt says why.
ghost use Rattle.std.specs.Prelude.{◌≡◌};
ghost use Rattle.as5506.specs.Tables.{f_name, f_owner, f_kind};
ghost use Rattle.lent.specs.Model.{model};

use crate::field::field_at;
use as5506::F_NUMBERS;
use lent::Tables;

// The name.
pub fn name_of(m: &Tables, i: usize) -> u32
    ensures { result ≡ f_name (model m.now) i }
{
    field_at(m.f, F_NUMBERS, i, 0)
}

// The component that has it.
pub fn owner_of(m: &Tables, i: usize) -> u32
    ensures { result ≡ f_owner (model m.now) i }
{
    field_at(m.f, F_NUMBERS, i, 1)
}

// The kind.
pub fn kind_of(m: &Tables, i: usize) -> u32
    ensures { result ≡ f_kind (model m.now) i }
{
    field_at(m.f, F_NUMBERS, i, 2)
}

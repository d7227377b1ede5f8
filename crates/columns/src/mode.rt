// M rows: the modes of components. One function for each column; lib.rt says why.
ghost use Rattle.std.specs.Prelude.{◌≡◌};
ghost use Rattle.as5506.specs.Tables.{m_name, m_owner};
ghost use Rattle.lent.specs.Model.{model};

use crate::field::field_at;
use as5506::M_NUMBERS;
use lent::Tables;

// The name.
pub fn name_of(m: &Tables, i: usize) -> u32
    ensures { result ≡ m_name (model m.now) i }
{
    field_at(m.m, M_NUMBERS, i, 0)
}

// The component that has it.
pub fn owner_of(m: &Tables, i: usize) -> u32
    ensures { result ≡ m_owner (model m.now) i }
{
    field_at(m.m, M_NUMBERS, i, 1)
}

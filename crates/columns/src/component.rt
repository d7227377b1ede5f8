// C rows: components. One function for each column; lib.rt says why.
ghost use Rattle.std.specs.Prelude.{◌≡◌};
ghost use Rattle.as5506.specs.Tables.{c_name, c_parent, c_package, c_type, c_pattern, c_place, has_index};
ghost use Rattle.lent.specs.Model.{model};

use crate::field::field_at;
use as5506::C_NUMBERS;
use lent::Tables;

// The name.
pub fn name_of(m: &Tables, i: usize) -> u32
    ensures { result ≡ c_name (model m.now) i }
{
    field_at(m.c, C_NUMBERS, i, 0)
}

// The component that it stands in, or missing.
pub fn parent_of(m: &Tables, i: usize) -> u32
    ensures { result ≡ c_parent (model m.now) i }
{
    field_at(m.c, C_NUMBERS, i, 1)
}

// The name of its package.
pub fn package_of(m: &Tables, i: usize) -> u32
    ensures { result ≡ c_package (model m.now) i }
{
    field_at(m.c, C_NUMBERS, i, 5)
}

// The name of its type.
pub fn type_of(m: &Tables, i: usize) -> u32
    ensures { result ≡ c_type (model m.now) i }
{
    field_at(m.c, C_NUMBERS, i, 6)
}

// The text of its connection pattern, a name, or missing.
pub fn pattern_of(m: &Tables, i: usize) -> u32
    ensures { result ≡ c_pattern (model m.now) i }
{
    field_at(m.c, C_NUMBERS, i, 7)
}

// Its place among the children of its parent.
pub fn place_of(m: &Tables, i: usize) -> u32
    ensures { result ≡ c_place (model m.now) i }
{
    field_at(m.c, C_NUMBERS, i, 8)
}

// Whether it is an element of an array.
pub fn has_index(m: &Tables, i: usize) -> bool
    ensures { result ≡ has_index (model m.now) i }
{
    field_at(m.c, C_NUMBERS, i, 2) == 1
}

// X rows: connections. One function for each column; lib.rt says why.
ghost use Rattle.std.specs.Prelude.{◌≡◌};
ghost use Rattle.as5506.specs.Tables.{x_name, x_owner, x_kind, x_sub, x_feat};
ghost use Rattle.lent.specs.Model.{model};
ghost use Rattle.columns.specs.Side.{side_of};

use crate::Side;
use crate::field::field_at;
use as5506::X_NUMBERS;
use lent::Tables;

// The name.
pub fn name_of(m: &Tables, i: usize) -> u32
    ensures { result ≡ x_name (model m.now) i }
{
    field_at(m.x, X_NUMBERS, i, 0)
}

// The component that has it.
pub fn owner_of(m: &Tables, i: usize) -> u32
    ensures { result ≡ x_owner (model m.now) i }
{
    field_at(m.x, X_NUMBERS, i, 1)
}

// The kind.
pub fn kind_of(m: &Tables, i: usize) -> u32
    ensures { result ≡ x_kind (model m.now) i }
{
    field_at(m.x, X_NUMBERS, i, 2)
}

// The subcomponent that it names on a side, or missing. By cases: each side has a column.
pub fn subcomponent_of(m: &Tables, side: Side, i: usize) -> u32
    ensures { result ≡ x_sub (model m.now) (side_of side) i }
{
    match side {
        Side::Source => field_at(m.x, X_NUMBERS, i, 3),
        Side::Destination => field_at(m.x, X_NUMBERS, i, 5),
    }
}

// The feature that it names on a side, or missing. By cases, as `subcomponent_of`.
pub fn feature_of(m: &Tables, side: Side, i: usize) -> u32
    ensures { result ≡ x_feat (model m.now) (side_of side) i }
{
    match side {
        Side::Source => field_at(m.x, X_NUMBERS, i, 4),
        Side::Destination => field_at(m.x, X_NUMBERS, i, 6),
    }
}

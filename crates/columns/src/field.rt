// A number of a row.
ghost use Rattle.std.specs.Prelude.{◌≡◌, ◌+◌, ◌*◌, ◌<◌, ◌≤◌, get_or};

// Number j of row i in a table whose rows have `width` numbers, 0 past the end. Where i is over half of the table's length the row lies past the end,
// and its place might be no number of the machine.
pub fn field_at(t: &[u32], width: usize, i: usize, j: usize) -> u32
    requires { (2 ≤ width) × (width ≤ 9) × (j < width) }
    ensures { result ≡ get_or t.now (i * width + j) 0 }
{
    if t.len() / 2 < i {
        return 0;
    }
    lent::get_or(t, i * width + j, 0)
}

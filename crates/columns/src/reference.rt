// References to a classifier: three name numbers, each of which may be missing.
ghost use Rattle.std.specs.Prelude.{◌≡◌, ◌+◌, ◌*◌, ◌<◌, ◌≤◌, get_or};
ghost use Rattle.as5506.specs.Tables.{ref};
ghost use Rattle.columns.specs.Reference.{ref_of};

use crate::field::field_at;

// A reference: its package, its type and its implementation.
#[derive(Clone, Copy)]
pub struct Reference {
    pub package: u32,
    pub type_name: u32,
    pub implementation: u32,
}

// The reference in the three numbers of row i from number j on.
pub fn reference_at(t: &[u32], width: usize, i: usize, j: usize) -> Reference
    requires { (2 ≤ width) × (width ≤ 9) × (j + 2 < width) }
    ensures { ref_of result ≡ ref (get_or t.now (i * width + j) 0) (get_or t.now (i * width + (j + 1)) 0) (get_or t.now (i * width + (j + 2)) 0) }
{
    Reference {
        package: field_at(t, width, i, j),
        type_name: field_at(t, width, i, j + 1),
        implementation: field_at(t, width, i, j + 2),
    }
}

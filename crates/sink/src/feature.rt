// A feature, as a walk comes to it.
ghost use Rattle.std.specs.Prelude.{◌≤◌, length};
ghost use Rattle.as5506.specs.Groups.{depth_limit};

use crate::Path;

// Its name, kind and direction, and the names of the groups that it is nested in: no more than a block has room for.
#[derive(Clone, Copy)]
pub struct Feature<'a> {
    pub name: u32,
    pub kind: u32,
    pub direction: u32,
    pub prefix: &'a Path,
    ghost short: { length prefix.now ≤ depth_limit },
}

// Where a walk stands.
ghost use Rattle.std.specs.Prelude.{◌+◌, ◌≤◌, length};
ghost use Rattle.group_walk.specs.Calm.{levels};

use sink::Path;

// Whether in and out are swapped, the names of the groups around, and how many visits may lie one inside the other from there on.
#[derive(Clone, Copy)]
pub struct Position {
    pub inverse: bool,
    pub prefix: Path,
    pub left: usize,
    ghost fits: { length prefix + left ≤ levels },
}

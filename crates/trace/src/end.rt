// An end of a row: where a chain stands.
ghost use Rattle.std.specs.Prelude.{◌+◌, ◌≤◌, length};
ghost use Rattle.as5506.specs.Tracing.{largest_limit};

use as5506::CHAIN_PLACES;
use path::Path;

// Where a chain stands, the connections that it went over, and how many steps at most go on from there.
#[derive(Clone, Copy)]
pub struct End {
    pub component: u32,
    pub feature: u32,
    pub path: Path<CHAIN_PLACES>,
    pub left: usize,
    ghost fits: { length path + left ≤ 1 + largest_limit },
}

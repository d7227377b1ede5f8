// A step of a chain, and where steps begin.
ghost use Rattle.std.specs.Prelude.{◌<◌};
ghost use Rattle.as5506.specs.Tables.{c_count};
ghost use Rattle.child_links.specs.Trees.{of_tree};

use child_links::Tree;
use children::Children;
use columns::Side;

// A step of a chain: the X row that it goes over, the C row and the feature's name that it leads to, and the row's children behind that one.
#[derive(Clone, Copy)]
pub(crate) struct Step<'a> {
    pub(crate) row: usize,
    pub(crate) child: usize,
    pub(crate) feature: u32,
    pub(crate) others: Children<'a>,
}

// The steps from a feature of a component towards a side.
#[derive(Clone, Copy)]
pub(crate) struct Steps<'a> {
    pub(crate) tree: &'a Tree<'a>,
    pub(crate) side: Side,
    pub(crate) component: u32,
    pub(crate) feature: u32,
    ghost inside: { component < c_count (of_tree tree.now) },
}

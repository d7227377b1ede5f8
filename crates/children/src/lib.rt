// The children of a component that a name finds (instance.rs, `find_children_by_name`). They are handed out one at a time, along the links of the
// component's children, since nothing is lent to hold them.
#![tactic(auto)]

ghost use Rattle.child_links.specs.Trees.{of_tree, same_in};
ghost use Rattle.as5506.specs.Tables.{name_of};
ghost use Rattle.child_links.specs.Linked.{Inside};
ghost use Rattle.children.specs.Rules.{HaveKey};

mod find;
mod found;

use child_links::Tree;
pub use found::named;

// How a name finds children. An enum and no closure: there are these two, and the contract says by which.
#[derive(Clone, Copy)]
enum Rule {
    // By the whole name, compared as the tree reads names.
    Whole,
    // By what stands before the bracket in the names of array elements, case ignored.
    Base,
}

// A search: by which name, by which rule the name finds children, and the key that these have.
#[derive(Clone, Copy)]
struct Search<'a> {
    tree: &'a Tree<'a>,
    rule: Rule,
    wanted: u32,
    key: u32,
    ghost keyed: { HaveKey (same_in tree.now) (of_tree tree.now) rule (name_of (of_tree tree.now) wanted) key },
}

// The children that a name finds, in the order of the drawing: the next one has been found already, so none is sought twice.
#[derive(Clone, Copy)]
pub struct Children<'a> {
    search: Search<'a>,
    found: Option<usize>,
    ghost inside: { Inside (of_tree search.tree.now) found },
}

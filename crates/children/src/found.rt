// The children that a name finds, one at a time.
ghost use Rattle.std.specs.Prelude.{◌≡◌, ◌<◌};
ghost use Rattle.as5506.specs.Lists.{first_of};
ghost use Rattle.as5506.specs.Tables.{name_of, c_count};
ghost use Rattle.as5506.specs.Tracing.{found_children};
ghost use Rattle.child_links.specs.Trees.{of_tree, same_in};
ghost use Rattle.children.specs.Found.{tables_of, children_left, GivesChild};

use super::{Children, Rule, Search};
use child_links::Tree;

// The children of `owner` that the wanted name finds: array elements only where no child has the whole name and the name has no bracket.
pub fn named<'a>(tree: &'a Tree<'a>, owner: u32, wanted: u32) -> Children<'a>
    requires { owner < c_count (of_tree tree.now) }
    ensures left { children_left result ≡ found_children (same_in tree.now) (of_tree tree.now) owner (name_of (of_tree tree.now) wanted) }
    ensures tables { tables_of result ≡ of_tree tree.now }
{
    let first = tree.first_child(owner);
    let name = name::name_of(tree.m, wanted);
    let whole = Search {
        tree,
        rule: Rule::Whole,
        wanted,
        key: child_links::key_of(name::base_name_of(name)),
    };
    let found = whole.find(first);
    if found.is_some() || name::has_bracket(name) {
        return Children {
            search: whole,
            found,
        };
    }
    let elements = Search {
        tree,
        rule: Rule::Base,
        wanted,
        key: whole.key,
    };
    Children {
        search: elements,
        found: elements.find(first),
    }
}

impl Children<'_> {
    // The first of those that are left.
    #[tactic(auto, unfolding(crate::specs::Found::children_left))]
    pub fn first(&self) -> Option<usize>
        ensures { result ≡ first_of (children_left self.now) }
    {
        self.found
    }
}

impl Iterator for Children<'_> {
    ghost use Rattle.std.specs.Iterator.{item_count};

    type Item = usize;

    ghost next_gives = { GivesChild };

    ghost remaining = { item_count children_left };

    #[tactic(auto, unfolding(crate::specs::Found::children_left), using(crate::proofs::Finding::find_next))]
    fn next(&mut self) -> Option<usize> {
        let child = self.found?;
        self.found = self.search.find(self.search.tree.next_sibling(child));
        Some(child)
    }
}

// For each connection the rows of its pairs of ends, traced on both sides, and its diagnostics (instance.rs, `compute_semantic_connections`).
#![tactic(auto)]

ghost use Rattle.std.specs.Prelude.{◌<◌};
ghost use Rattle.as5506.specs.Tables.{x_count};
ghost use Rattle.child_links.specs.Trees.{of_tree};

mod diagnostics;
mod found;
mod list;
mod pairs;

use as5506::StepLimit;
use child_links::Tree;
use children::Children;
use columns::Side;
pub use list::{Counts, list_connections};
use name::ConnectionPattern;

// A connection, a row of X, and the limit under which its ends are traced.
#[derive(Clone, Copy)]
struct Connection<'a> {
    tree: &'a Tree<'a>,
    limit: StepLimit,
    row: usize,
    ghost in_table: { row < x_count (of_tree tree.now) },
}

// What a connection is by its ends, with the children that it names: they are found once, for its rows and its diagnostics.
#[derive(Clone, Copy)]
enum Ends<'a> {
    // An end has no feature.
    Faulty,
    // Between two subcomponents: the children on both sides, and how they are paired.
    Across {
        pattern: ConnectionPattern,
        source: Children<'a>,
        destination: Children<'a>,
    },
    // Between a subcomponent on the side and the owner, which has no parent.
    Edge {
        side: Side,
        children: Children<'a>,
    },
    // Neither end has a subcomponent, or one has, and the owner has a parent.
    Nothing,
}

// An end of a connection, to be paired with one on the other side: a child, which is traced, or the owner, which is not.
#[derive(Clone, Copy)]
enum Start {
    Child(u32),
    Owner(u32),
}

// What a diagnostic tells of a connection.
#[derive(Clone, Copy)]
enum Fault {
    // An end has no feature.
    NoFeature = 1,
    // No child has the source subcomponent's name.
    NoSource = 2,
    // No child has the destination subcomponent's name.
    NoDestination = 3,
    // Children are paired one to one, and the sides have different numbers of them.
    Unequal = 4,
}

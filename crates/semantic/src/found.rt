// What a connection is by its ends: the children on each side, found once, and the pattern by which they are paired.
ghost use Rattle.std.specs.Prelude.{◌≡◌, ◌≤◌, length, ◌<◌};
ghost use Rattle.as5506.specs.Tables.{present, has_ends, c_count, c_parent, x_owner, x_sub};
ghost use Rattle.as5506.specs.Tracing.{shape, one_to_one, largest_limit};
ghost use Rattle.child_links.specs.Trees.{of_tree};
ghost use Rattle.columns.specs.Side.{side_of};
ghost use Rattle.name.specs.Pattern.{says_one_to_one};
ghost use Rattle.children.specs.Found.{children_left};
ghost use Rattle.semantic.specs.Rows.{edge_of, component_of, limit_of};
ghost use Rattle.semantic.specs.Ends.{Names, EndsOf};

use super::{Connection, Ends, Start};
use as5506::{MISSING, StepLimit};
use children::Children;
use columns::{Side, component, connection};
use name::ConnectionPattern;

impl<'a> Connection<'a> {
    // The component that has it.
    pub fn owner(&self) -> u32
        ensures value { result ≡ x_owner (of_tree self.now.tree.now) self.now.row }
        ensures inside { result < c_count (of_tree self.now.tree.now) }
    {
        connection::owner_of(self.tree.m, self.row)
    }

    // Whether that component has a parent.
    fn is_inside(&self) -> bool
        ensures { result ≡ present (c_parent (of_tree self.now.tree.now) (x_owner (of_tree self.now.tree.now) self.now.row)) }
    {
        component::parent_of(self.tree.m, self.owner() as usize) != MISSING
    }

    // The pattern of that component's connections.
    #[tactic(auto, unfolding(as5506::specs::Tracing::one_to_one))]
    fn pattern(&self) -> ConnectionPattern
        ensures { says_one_to_one result ≡ one_to_one (of_tree self.now.tree.now) (x_owner (of_tree self.now.tree.now) self.now.row) }
    {
        name::pattern_of(
            self.tree.m,
            component::pattern_of(self.tree.m, self.owner() as usize),
        )
    }

    // The children that it names on a side.
    #[tactic(auto, unfolding(as5506::specs::Tracing::named))]
    fn named(&self, side: Side) -> Children<'a>
        ensures { Names self.now (side_of side) result }
    {
        let wanted = connection::subcomponent_of(self.tree.m, side, self.row);
        children::named(self.tree, self.owner(), wanted)
    }

    // What it is where it has a subcomponent on the side only: nothing, if its owner has a parent.
    fn edge(&self, side: Side) -> Ends<'a>
        requires { shape (of_tree self.now.tree.now) self.now.row ≡ edge_of (side_of side) }
        ensures { EndsOf self.now result }
    {
        if self.is_inside() {
            return Ends::Nothing;
        }
        Ends::Edge {
            side,
            children: self.named(side),
        }
    }

    // Whether each of its ends has a feature.
    fn has_features(&self) -> bool
        ensures { result ≡ has_ends (of_tree self.now.tree.now) self.now.row }
    {
        connection::feature_of(self.tree.m, Side::Source, self.row) != MISSING
            && connection::feature_of(self.tree.m, Side::Destination, self.row) != MISSING
    }

    // Whether its end on the side has a subcomponent.
    fn has_subcomponent(&self, side: Side) -> bool
        ensures { result ≡ present (x_sub (of_tree self.now.tree.now) (side_of side) self.now.row) }
    {
        connection::subcomponent_of(self.tree.m, side, self.row) != MISSING
    }

    // What it is.
    #[tactic(auto, unfolding(as5506::specs::Tracing::shape))]
    pub fn ends(&self) -> Ends<'a>
        ensures { EndsOf self.now result }
    {
        if !self.has_features() {
            return Ends::Faulty;
        }
        match (
            self.has_subcomponent(Side::Source),
            self.has_subcomponent(Side::Destination),
        ) {
            (true, true) => Ends::Across {
                pattern: self.pattern(),
                source: self.named(Side::Source),
                destination: self.named(Side::Destination),
            },
            (true, false) => self.edge(Side::Source),
            (false, true) => self.edge(Side::Destination),
            (false, false) => Ends::Nothing,
        }
    }
}

// How many children are left to an iterator.
pub fn count(children: Children) -> u32
    requires { length (children_left children) ≤ 4096 }
    ensures { result ≡ length (children_left children.entry) }
{
    children.count() as u32
}

impl Start {
    // Its component.
    pub fn component(self) -> u32
        ensures { result ≡ component_of self }
    {
        match self {
            Start::Child(i) | Start::Owner(i) => i,
        }
    }

    // How many steps are made from it under a limit. By cases: from the owner itself none is made.
    pub fn steps_under(self, limit: StepLimit) -> usize
        ensures value { result ≡ limit_of limit.steps self }
        ensures upper_bound { result ≤ largest_limit }
    {
        match self {
            Start::Child(_) => limit.steps,
            Start::Owner(_) => 0,
        }
    }
}

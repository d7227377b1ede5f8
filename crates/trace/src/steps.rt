// The steps from a feature of a component, one at a time.
ghost use Rattle.std.specs.Prelude.{◌≡◌};
ghost use Rattle.as5506.specs.Tables.{name_of, other};
ghost use Rattle.as5506.specs.Tracing.{leads};
ghost use Rattle.child_links.specs.Trees.{same_in};
ghost use Rattle.columns.specs.Side.{side_of};
ghost use Rattle.children.specs.Found.{tables_of, children_left};
ghost use Rattle.trace.specs.Steps.{is_step, found_over, tables_in, side_in, steps_from, steps_behind, after_step, StepWithin, Within, Begins};

use crate::step::{Step, Steps};
use as5506::{MISSING, X_NUMBERS};
use children::Children;
use columns::{Side, connection};

// The other side. By cases: no derive knows it.
fn opposite(side: Side) -> Side
    ensures { side_of result ≡ other (side_of side) }
{
    match side {
        Side::Source => Side::Destination,
        Side::Destination => Side::Source,
    }
}

impl<'a> Steps<'a> {
    // Whether X row i leads from a feature of that name towards the side, by the reading of the tree.
    #[tactic(auto, unfolding(as5506::specs::Tracing::leads))]
    fn leads(&self, i: usize) -> bool
        ensures { result ≡ leads (same_in self.now.tree.now) (tables_in self.now) (side_in self.now) (name_of (tables_in self.now) self.now.feature) i }
    {
        let m = self.tree.m;
        let near = opposite(self.side);
        let own = connection::feature_of(m, near, i);
        connection::subcomponent_of(m, self.side, i) != MISSING
            && connection::subcomponent_of(m, near, i) == MISSING
            && own != MISSING
            && name::same_by(m, self.tree.reading, own, self.feature)
    }

    // Whether X row i is a connection of the component that leads from its feature towards the side.
    #[tactic(auto, unfolding(crate::specs::Steps::is_step))]
    fn is_step(&self, i: usize) -> bool
        ensures { result ≡ is_step self.now i }
    {
        connection::owner_of(self.tree.m, i) == self.component && self.leads(i)
    }

    // The children to which X row i leads.
    fn children(&self, i: usize) -> Children<'a>
        ensures left { children_left result ≡ found_over self.now i }
        ensures tables { tables_of result ≡ tables_in self.now }
    {
        let wanted = connection::subcomponent_of(self.tree.m, self.side, i);
        children::named(self.tree, self.component, wanted)
    }

    // The first step over a row from X row `row` on, if there is one.
    #[tactic(auto, using(crate::proofs::Scan::steps_hit, crate::proofs::Scan::steps_miss, crate::proofs::Scan::steps_bare, crate::proofs::Scan::steps_end))]
    fn step_from(&self, row: usize) -> Option<Step<'a>>
        ensures steps { steps_from self.now row ≡ after_step self.now result }
        ensures within { Within self.now result }
    {
        for i in row..self.tree.m.x.len() / X_NUMBERS {
            if !self.is_step(i) {
                continue;
            }
            let mut others = self.children(i);
            if let Some(child) = others.next() {
                return Some(Step {
                    row: i,
                    child,
                    feature: connection::feature_of(self.tree.m, self.side, i),
                    others,
                });
            }
        }
        None
    }

    // The step behind another, if there is one: over the same row to its next child, else over a row behind it.
    #[tactic(auto, using(crate::proofs::Scan::behind_next, crate::proofs::Scan::behind_last))]
    pub(crate) fn next_step(&self, step: Step<'a>) -> Option<Step<'a>>
        requires { StepWithin self.now step }
        ensures steps { steps_behind self.now step.entry ≡ after_step self.now result }
        ensures within { Within self.now result }
    {
        let mut others = step.others;
        if let Some(child) = others.next() {
            return Some(Step {
                child,
                others,
                ..step
            });
        }
        self.step_from(step.row + 1)
    }

    // The first step of a chain of at most `left` steps, if there is one.
    #[tactic(auto, using(crate::proofs::Scan::begins_none, crate::proofs::Scan::begins))]
    pub(crate) fn first_step(&self, left: usize) -> Option<Step<'a>>
        ensures begins { Begins self.now left result }
        ensures within { Within self.now result }
    {
        if left == 0 {
            return None;
        }
        self.step_from(0)
    }
}

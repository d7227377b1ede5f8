// The rows of each connection: every pair of its ends, traced on both sides.
ghost use Rattle.std.specs.Prelude.{◌≡◌};
ghost use Rattle.as5506.specs.Tables.{source};
ghost use Rattle.as5506.specs.Tracing.{pair_rows};
ghost use Rattle.as5506.specs.Layout.{traced_block};
ghost use Rattle.child_links.specs.Trees.{of_tree, same_in};
ghost use Rattle.columns.specs.Side.{side_of};
ghost use Rattle.children.specs.Found.{children_left};
ghost use Rattle.output.specs.Blocks.{Wrote};
ghost use Rattle.semantic.specs.Rows.{pair_on, rows_beside, rows_all, rows_zip, rows_from, Inside, Along, BothAlong, EndsAlong};

use super::{Connection, Ends, Start};
use as5506::ROW_NUMBERS;
use children::Children;
use columns::{Side, connection};
use name::ConnectionPattern;
use output::Blocks;
use trace::{End, Path};

impl<'a> Connection<'a> {
    // Writes the rows of one pair of its ends.
    fn trace_pair(&self, out: &mut Blocks<ROW_NUMBERS>, from: Start, to: Start) -> Option<()>
        requires { Inside (of_tree self.now.tree.now) from × Inside (of_tree self.now.tree.now) to }
        ensures { Wrote (traced_block (of_tree self.now.tree.now))
            (pair_rows (same_in self.now.tree.now) (of_tree self.now.tree.now) self.now.limit.steps self.now.row (pair_on (of_tree self.now.tree.now) self.now.row source from to))
            out.old result out.new }
    {
        let row = self.row as u32;
        let s = End {
            component: from.component(),
            feature: connection::feature_of(self.tree.m, Side::Source, self.row),
            path: Path::of(&[row]),
            left: from.steps_under(self.limit),
        };
        let d = End {
            component: to.component(),
            feature: connection::feature_of(self.tree.m, Side::Destination, self.row),
            path: Path::new(),
            left: to.steps_under(self.limit),
        };
        trace::trace(self.tree, out, Side::Source, row, &s, &d)
    }

    // Writes the rows of a pair of which `near` stands on the side and `far` on the other. By cases: the source is the first of the two.
    #[tactic(auto, unfolding(crate::specs::Rows::pair_on))]
    fn trace_on(
        &self,
        out: &mut Blocks<ROW_NUMBERS>,
        side: Side,
        near: Start,
        far: Start,
    ) -> Option<()>
        requires { Inside (of_tree self.now.tree.now) near × Inside (of_tree self.now.tree.now) far }
        ensures { Wrote (traced_block (of_tree self.now.tree.now))
            (pair_rows (same_in self.now.tree.now) (of_tree self.now.tree.now) self.now.limit.steps self.now.row (pair_on (of_tree self.now.tree.now) self.now.row (side_of side) near far))
            out.old result out.new }
    {
        match side {
            Side::Source => self.trace_pair(out, near, far),
            Side::Destination => self.trace_pair(out, far, near),
        }
    }

    // Writes the rows of children on the side, each with the end `far` on the other.
    fn trace_beside(
        &self,
        out: &mut Blocks<ROW_NUMBERS>,
        side: Side,
        children: Children<'a>,
        far: Start,
    ) -> Option<()>
        requires along { Along (of_tree self.now.tree.now) children }
        requires inside { Inside (of_tree self.now.tree.now) far }
        ensures { Wrote (traced_block (of_tree self.now.tree.now))
            (rows_beside (same_in self.now.tree.now) self.now.limit.steps (of_tree self.now.tree.now) self.now.row (side_of side) far (children_left children.entry))
            out.old result out.new }
    {
        for i in children {
            self.trace_on(out, side, Start::Child(i as u32), far)?;
        }
        Some(())
    }

    // Writes the rows of every source child with every destination child. The destination's are gone through for each source child; where there is none,
    // the source's are not gone through.
    fn trace_all_to_all(
        &self,
        out: &mut Blocks<ROW_NUMBERS>,
        sources: Children<'a>,
        destinations: Children<'a>,
    ) -> Option<()>
        requires { BothAlong (of_tree self.now.tree.now) sources destinations }
        ensures { Wrote (traced_block (of_tree self.now.tree.now))
            (rows_all (same_in self.now.tree.now) self.now.limit.steps (of_tree self.now.tree.now) self.now.row (children_left sources.entry) (children_left destinations.entry))
            out.old result out.new }
    {
        if destinations.first().is_none() {
            return Some(());
        }
        for i in sources {
            self.trace_beside(out, Side::Destination, destinations, Start::Child(i as u32))?;
        }
        Some(())
    }

    // Writes the rows of source and destination children, pair by pair, up to the end of the shorter list.
    fn trace_one_to_one(
        &self,
        out: &mut Blocks<ROW_NUMBERS>,
        sources: Children<'a>,
        destinations: Children<'a>,
    ) -> Option<()>
        requires { BothAlong (of_tree self.now.tree.now) sources destinations }
        ensures { Wrote (traced_block (of_tree self.now.tree.now))
            (rows_zip (same_in self.now.tree.now) self.now.limit.steps (of_tree self.now.tree.now) self.now.row (children_left sources.entry) (children_left destinations.entry))
            out.old result out.new }
    {
        for (a, b) in sources.zip(destinations) {
            self.trace_pair(out, Start::Child(a as u32), Start::Child(b as u32))?;
        }
        Some(())
    }

    // Writes its rows, by its ends.
    pub fn trace(&self, out: &mut Blocks<ROW_NUMBERS>, ends: Ends<'a>) -> Option<()>
        requires { EndsAlong (of_tree self.now.tree.now) ends }
        ensures { Wrote (traced_block (of_tree self.now.tree.now)) (rows_from (same_in self.now.tree.now) self.now.limit.steps (of_tree self.now.tree.now) self.now.row ends.entry) out.old result out.new }
    {
        match ends {
            Ends::Across {
                pattern: ConnectionPattern::OneToOne,
                source,
                destination,
            } => self.trace_one_to_one(out, source, destination),
            Ends::Across {
                pattern: ConnectionPattern::AllToAll,
                source,
                destination,
            } => self.trace_all_to_all(out, source, destination),
            Ends::Edge { side, children } => {
                self.trace_beside(out, side, children, Start::Owner(self.owner()))
            }
            Ends::Faulty | Ends::Nothing => Some(()),
        }
    }
}

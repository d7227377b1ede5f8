// The diagnostics of each connection.
ghost use Rattle.std.specs.Prelude.{◌≡◌, [], ◌∷◌, true};
ghost use Rattle.as5506.specs.Rows.{diag};
ghost use Rattle.as5506.specs.Tracing.{unequal};
ghost use Rattle.as5506.specs.Layout.{diag_block};
ghost use Rattle.child_links.specs.Trees.{of_tree};
ghost use Rattle.columns.specs.Side.{side_of};
ghost use Rattle.children.specs.Found.{children_left};
ghost use Rattle.output.specs.Blocks.{Wrote};
ghost use Rattle.semantic.specs.Rows.{BothAlong, EndsAlong};
ghost use Rattle.semantic.specs.Diagnostics.{code_of, no_child_code, none_on, diags_across, diags_from};

use super::found::count;
use super::{Connection, Ends, Fault};
use as5506::DIAGNOSTIC_NUMBERS;
use children::Children;
use columns::{Side, connection};
use name::ConnectionPattern;
use output::Blocks;

impl Fault {
    // What is wrong where a side has no child. By cases: a fault has no side.
    fn no_child(side: Side) -> Fault
        ensures { code_of result ≡ no_child_code (side_of side) }
    {
        match side {
            Side::Source => Fault::NoSource,
            Side::Destination => Fault::NoDestination,
        }
    }

    // The number that stands for it in a diagnostic.
    fn code(self) -> u32
        ensures { result ≡ code_of self }
    {
        self as u32
    }
}

impl<'a> Connection<'a> {
    // Writes a diagnostic of it: what is wrong, and two numbers.
    fn put(
        &self,
        out: &mut Blocks<DIAGNOSTIC_NUMBERS>,
        fault: Fault,
        one: u32,
        two: u32,
    ) -> Option<()>
        ensures { Wrote diag_block (diag (code_of fault) self.now.row one two ∷ []) out.old result out.new }
    {
        out.put(&[fault.code(), self.row as u32, one, two])
    }

    // Writes the diagnostic that the side has no child, where `children` are none.
    fn diagnose_side(
        &self,
        out: &mut Blocks<DIAGNOSTIC_NUMBERS>,
        side: Side,
        children: Children<'a>,
    ) -> Option<()>
        ensures { Wrote diag_block (none_on (of_tree self.now.tree.now) self.now.row (side_of side) (children_left children.entry)) out.old result out.new }
    {
        if children.first().is_some() {
            return Some(());
        }
        let wanted = connection::subcomponent_of(self.tree.m, side, self.row);
        self.put(out, Fault::no_child(side), wanted, 0)
    }

    // Writes the diagnostic that the sides have s and d children, where these are not equal.
    fn diagnose_unequal(&self, out: &mut Blocks<DIAGNOSTIC_NUMBERS>, s: u32, d: u32) -> Option<()>
        ensures { Wrote diag_block (unequal true self.now.row s d) out.old result out.new }
    {
        if s == d {
            return Some(());
        }
        self.put(out, Fault::Unequal, s, d)
    }

    // Writes its diagnostics where it is between two subcomponents: children are counted only where they are paired one to one.
    fn diagnose_across(
        &self,
        out: &mut Blocks<DIAGNOSTIC_NUMBERS>,
        pattern: ConnectionPattern,
        sources: Children<'a>,
        destinations: Children<'a>,
    ) -> Option<()>
        requires { BothAlong (of_tree self.now.tree.now) sources destinations }
        ensures { Wrote diag_block
            (diags_across (of_tree self.now.tree.now) self.now.row pattern (children_left sources.entry) (children_left destinations.entry))
            out.old result out.new }
    {
        self.diagnose_side(out, Side::Source, sources)?;
        self.diagnose_side(out, Side::Destination, destinations)?;
        match pattern {
            ConnectionPattern::OneToOne => {
                self.diagnose_unequal(out, count(sources), count(destinations))
            }
            ConnectionPattern::AllToAll => Some(()),
        }
    }

    // Writes its diagnostics, by its ends.
    pub fn diagnose(&self, out: &mut Blocks<DIAGNOSTIC_NUMBERS>, ends: Ends<'a>) -> Option<()>
        requires { EndsAlong (of_tree self.now.tree.now) ends }
        ensures { Wrote diag_block (diags_from (of_tree self.now.tree.now) self.now.row ends.entry) out.old result out.new }
    {
        match ends {
            Ends::Faulty => self.put(out, Fault::NoFeature, 0, 0),
            Ends::Across {
                pattern,
                source,
                destination,
            } => self.diagnose_across(out, pattern, source, destination),
            Ends::Edge { side, children } => self.diagnose_side(out, side, children),
            Ends::Nothing => Some(()),
        }
    }
}

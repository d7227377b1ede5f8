// All connections, one after the other: of each its ends are found once, for its rows and its diagnostics.
ghost use Rattle.std.specs.Prelude.{◌≡◌, ℕ, None, Some};
ghost use Rattle.as5506.specs.Tracing.{traced, traced_diags};
ghost use Rattle.as5506.specs.Layout.{traced_block, row_numbers, diag_block, diag_numbers};
ghost use Rattle.child_links.specs.Trees.{of_tree, same_in};
ghost use Rattle.output.specs.Blocks.{Written};
ghost use Rattle.semantic.specs.Told.{ListedAll, WrittenBefore};

use super::Connection;
use as5506::{DIAGNOSTIC_NUMBERS, ROW_NUMBERS, StepLimit, X_NUMBERS};
use child_links::Tree;
use output::Blocks;

// How many rows and how many diagnostics there are: None where they found no room. Where the rows found none, the diagnostics are not counted, and None stands for
// their number too.
#[derive(Clone, Copy)]
pub struct Counts {
    pub rows: Option<usize>,
    pub diagnostics: Option<usize>,
}

// Writes the rows of all X rows under a limit, and their diagnostics. Rows that find no room end it; after a diagnostic that finds none, no other is written.
#[tactic(auto, unfolding(as5506::specs::Tracing::traced, as5506::specs::Tracing::traced_diags))]
fn list_all<'a>(
    tree: &'a Tree<'a>,
    limit: StepLimit,
    rows: &mut Blocks<ROW_NUMBERS>,
    diagnostics: &mut Blocks<DIAGNOSTIC_NUMBERS>,
) -> Option<Option<()>>
    ensures { ListedAll (same_in tree.now) limit.steps (of_tree tree.now) rows.old diagnostics.old result rows.new diagnostics.new }
{
    let mut noted = Some(());
    for row in 0..tree.m.x.len() / X_NUMBERS {
        let connection = Connection { tree, limit, row };
        let ends = connection.ends();
        connection.trace(rows, ends)?;
        if noted.is_some() {
            noted = connection.diagnose(diagnostics, ends);
        }
    }
    Some(noted)
}

// Writes the rows of all X rows under a limit and their diagnostics, each from the front of its output on. The first X row whose rows find no room ends it, and
// then the diagnostics of those before it are written, or as many of them as find room.
pub fn list_connections<'a>(
    tree: &'a Tree<'a>,
    limit: StepLimit,
    rows: &mut [u32],
    diagnostics: &mut [u32],
) -> Counts
    ensures rows { Written row_numbers (traced_block (of_tree tree.now)) (traced (same_in tree.now) limit.steps (of_tree tree.now)) rows.old 0 result.rows rows.new }
    ensures diagnostics { (k : ℕ) → result.rows ≡ Some k
        → Written diag_numbers diag_block (traced_diags (same_in tree.now) (of_tree tree.now)) diagnostics.old 0 result.diagnostics diagnostics.new }
    ensures before { result.rows ≡ None
        → WrittenBefore (same_in tree.now) limit.steps (of_tree tree.now) rows.old diagnostics.old diagnostics.new }
    ensures uncounted { result.rows ≡ None → result.diagnostics ≡ None }
{
    let mut listed = Blocks::new(rows);
    let mut noted = Blocks::new(diagnostics);
    match list_all(tree, limit, &mut listed, &mut noted) {
        Some(told) => Counts {
            rows: Some(listed.done()),
            diagnostics: told.and(Some(noted.done())),
        },
        None => Counts {
            rows: None,
            diagnostics: None,
        },
    }
}

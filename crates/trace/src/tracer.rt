// The tracer: the rows of all chains that go on from an end.
ghost use Rattle.std.specs.Prelude.{◌≡◌, [], ◌∷◌, ◌+◌, ◌≤◌, ◌<◌, length};
ghost use Rattle.as5506.specs.Tables.{c_count};
ghost use Rattle.as5506.specs.Tracing.{append_new, chains, largest_limit};
ghost use Rattle.as5506.specs.Layout.{traced_block};
ghost use Rattle.lent.specs.Model.{model};
ghost use Rattle.child_links.specs.Trees.{of_tree, same_in};
ghost use Rattle.columns.specs.Side.{side_of};
ghost use Rattle.trace.specs.Ends.{chain_places, end_of, row_along, rows_behind, Fits};
ghost use Rattle.output.specs.Blocks.{Wrote};

use crate::end::End;
use crate::step::Steps;
use as5506::{CHAIN_PLACES, PATH_PLACES, ROW_NUMBERS};
use child_links::Tree;
use columns::{Side, connection};
use lent::Tables;
use output::Blocks;
use path::Path;

// A row's path: the source's connections, then those of the destination that are not yet in it.
fn join(s: &Path<CHAIN_PLACES>, d: &Path<CHAIN_PLACES>) -> Path<PATH_PLACES>
    requires { (length s.now ≤ chain_places) × (length d.now ≤ largest_limit) }
    ensures { result ≡ append_new s.now d.now }
{
    let mut path: Path<PATH_PLACES> = Path::of(s.numbers());
    path.append_new(d.numbers());
    path
}

// The row of a connection from a source end to a destination end: eight numbers, then the places of its path.
#[tactic(auto, using(crate::proofs::Rows::row_is))]
fn row(m: &Tables, conn: u32, s: &End, d: &End) -> [u32; ROW_NUMBERS]
    requires { length d.now.path + d.now.left ≤ largest_limit }
    ensures { result ≡ traced_block (model m.now) (row_along (model m.now) conn (end_of s.now) (end_of d.now)) }
{
    let path = join(&s.path, &d.path);
    let i = conn as usize;
    let head = [
        conn,
        connection::kind_of(m, i),
        s.component,
        d.component,
        connection::name_of(m, i),
        s.feature,
        d.feature,
        path.len() as u32,
    ];
    let mut numbers = [0u32; ROW_NUMBERS];
    lent::put_all(&mut numbers, 0, &head);
    lent::put_all(&mut numbers, head.len(), path.places());
    numbers
}

// Writes that row.
fn put_row(m: &Tables, out: &mut Blocks<ROW_NUMBERS>, conn: u32, s: &End, d: &End) -> Option<()>
    requires { length d.now.path + d.now.left ≤ largest_limit }
    ensures { Wrote (traced_block (model m.now)) (row_along (model m.now) conn (end_of s.now) (end_of d.now) ∷ []) out.old result out.new }
{
    out.put(&row(m, conn, s, d))
}

// Writes the rows of all chains that go on from `here` towards the side, behind its path. The source comes first: then `other` is where the
// destination starts, and where a source chain has ended, the destination's chains go on from there. Of the destination `other` is the source's end,
// and where a destination chain has ended, its row is written.
pub fn trace<'a>(
    tree: &'a Tree<'a>,
    out: &mut Blocks<ROW_NUMBERS>,
    side: Side,
    conn: u32,
    here: &End,
    other: &End,
) -> Option<()>
    requires inside { (here.now.component < c_count (of_tree tree.now)) × (other.now.component < c_count (of_tree tree.now)) }
    requires fits { Fits side here.now other.now }
    ensures { Wrote (traced_block (of_tree tree.now))
        (rows_behind (same_in tree.now) (of_tree tree.now) (side_of side) conn other.now.left (end_of other.now) here.now.path
        (chains (same_in tree.now) (of_tree tree.now) (side_of side) here.now.left here.now.component here.now.feature))
        out.old result out.new }
{
    let steps = Steps {
        tree,
        side,
        component: here.component,
        feature: here.feature,
    };
    let Some(first) = steps.first_step(here.left) else {
        return match side {
            Side::Source => trace(tree, out, Side::Destination, conn, other, here),
            Side::Destination => put_row(tree.m, out, conn, other, here),
        };
    };
    let mut next = Some(first);
    while let Some(step) = next {
        let deeper = End {
            component: step.child as u32,
            feature: step.feature,
            path: here.path.with(step.row as u32),
            left: here.left - 1,
        };
        trace(tree, out, side, conn, &deeper, other)?;
        next = steps.next_step(step);
    }
    Some(())
}

// The traced listing (instance.rs, `compute_semantic_connections`) over the caller's tables and outputs.
#![tactic(auto)]

ghost use Rattle.std.specs.Prelude.{◌≤◌, length};
ghost use Rattle.as5506.specs.Lists.{same_bytes};
ghost use Rattle.as5506.specs.Tables.{c_count};
ghost use Rattle.lent.specs.Model.{model};
ghost use Rattle.child_links.specs.Linked.{Linked};
ghost use Rattle.child_links.specs.Trees.{of_tree, same_in};
ghost use Rattle.instance.specs.Answer.{answer_for, TracedInto};
ghost use Rattle.instance.specs.Outputs.{answer_of, Lists, ListsLinked};

use as5506::{C_NUMBERS, Listed, ROWS_LENT, Reason, Refusal, StepLimit, TABLE_ROWS};
use child_links::Tree;
use lent::Tables;
use name::Reading;

// Lists the connections of accepted tables that are linked, under a limit: the rows, and then the diagnostics. On a refusal the outputs may hold anything.
pub fn list_accepted<'a>(
    tree: &'a Tree<'a>,
    limit: StepLimit,
    rows: &mut [u32],
    diagnostics: &mut [u32],
) -> Result<Listed, Refusal>
    ensures { Lists (answer_of (same_in tree.now) limit.steps (of_tree tree.now) rows.old diagnostics.old) (of_tree tree.now) rows.old diagnostics.old result rows.new diagnostics.new }
{
    let counts = semantic::list_connections(tree, limit, rows, diagnostics);
    let rows = counts.rows.ok_or(Refusal::from(Reason::Rows))?;
    let diagnostics = counts
        .diagnostics
        .ok_or(Refusal::from(Reason::Diagnostics))?;
    Ok(Listed { rows, diagnostics })
}

// The same of tables and their link table, by the ported entry, with room for the keys of their components.
#[tactic(auto, unfolding(name::specs::Reading::comparison))]
fn list_linked(
    m: &Tables,
    limit: StepLimit,
    links: &[u32],
    keys: &mut [u32],
    rows: &mut [u32],
    diagnostics: &mut [u32],
) -> Result<Listed, Refusal>
    requires linked { Linked (model m.now) links.now }
    requires room { c_count (model m.now) ≤ length keys.old }
    ensures { Lists (answer_of same_bytes limit.steps (model m.now) rows.old diagnostics.old) (model m.now) rows.old diagnostics.old result rows.new diagnostics.new }
{
    child_links::key_names(m, keys);
    let tree = Tree {
        m: &*m,
        links: &*links,
        keys: &*keys,
        reading: Reading::Ported,
    };
    list_accepted(&tree, limit, rows, diagnostics)
}

// Checks the limit and the tables and links their components, then lists their connections, with a small room for keys where it is enough: a room is set to
// zeros before it is used. On a refusal the outputs may hold anything.
fn list(
    m: &Tables,
    limit: u64,
    links: &mut [u32],
    rows: &mut [u32],
    diagnostics: &mut [u32],
) -> Result<Listed, Refusal>
    ensures { ListsLinked
        (answer_for limit (model m.now) links.old rows.old diagnostics.old) (model m.now)
        rows.old diagnostics.old result links.new rows.new diagnostics.new }
{
    let limit = StepLimit::new(limit)?;
    child_links::check_and_link(m, links)?;
    if m.c.len() / C_NUMBERS <= ROWS_LENT {
        return list_linked(m, limit, links, &mut [0; ROWS_LENT], rows, diagnostics);
    }
    list_linked(m, limit, links, &mut [0; TABLE_ROWS], rows, diagnostics)
}

// The semantic connections of the tables, whose chains have no more steps than the limit, 64 at most, and their diagnostics, and the links of their components. The outputs hold them from the front, and zeros behind;
// on a refusal, zeros.
pub fn compute_semantic_connections(
    m: &Tables,
    limit: u64,
    links: &mut [u32],
    rows: &mut [u32],
    diagnostics: &mut [u32],
) -> Result<Listed, Refusal>
    ensures { TracedInto limit (model m.now) links.old rows.old diagnostics.old result links.new rows.new diagnostics.new }
{
    rows.fill(0);
    diagnostics.fill(0);
    let answer = list(m, limit, links, rows, diagnostics);
    if answer.is_err() {
        links.fill(0);
        rows.fill(0);
        diagnostics.fill(0);
    }
    answer
}

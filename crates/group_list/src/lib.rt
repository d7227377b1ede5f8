// The group listing (instance.rs, `expand_feature_group_connections`) over the caller's tables and outputs.
#![tactic(auto)]

ghost use Rattle.std.specs.Prelude.{◌≤◌, length};
ghost use Rattle.as5506.specs.Lists.{same_bytes};
ghost use Rattle.as5506.specs.Tables.{c_count};
ghost use Rattle.lent.specs.Model.{model};
ghost use Rattle.child_links.specs.Linked.{Linked};
ghost use Rattle.child_links.specs.Trees.{of_tree, same_in};
ghost use Rattle.group_match.specs.Matching.{MatchedInto};
ghost use Rattle.group_list.specs.Answer.{answer_for, answer_of, Lists, ListsLinked, GroupListedInto};
ghost use Rattle.group_list.specs.Ready.{MatchRoom};

use as5506::{
    C_NUMBERS, DIAGNOSTIC_NUMBERS, E_NUMBERS, FEATURE_NUMBERS, Listed, N_NUMBERS, ROW_NUMBERS,
    Reason, Refusal, TABLE_ROWS, U_NUMBERS,
};
use child_links::Tree;
use group_match::CALM_NUMBERS;
use lent::Tables;
use links::Links;
use name::Reading;
use sink::Tally;

// The names, and the group types or features, that the small room is enough for: all that the program conlist can read.
const SMALL_NAMES: usize = as5506::N_ROWS_LENT;

const SMALL_ROWS: usize = as5506::ROWS_LENT;

const SMALL_KEPT: usize = SMALL_NAMES * FEATURE_NUMBERS;

const SMALL_CALM: usize = SMALL_ROWS * CALM_NUMBERS;

// The large room, for all tables that are accepted.
const LARGE_KEPT: usize = TABLE_ROWS * FEATURE_NUMBERS;

const LARGE_CALM: usize = TABLE_ROWS * CALM_NUMBERS;

// Matches the groups of all connections of accepted tables, in room for the links of E and U rows, for a feature and a number of each name, and for
// what is known of visits. The last two are cleared for each walk, so no more of them is handed on than the tables have use for. KEPT and CALM are
// NAMES and ROWS times what each takes: a const argument is not computed.
fn match_in<const NAMES: usize, const ROWS: usize, const KEPT: usize, const CALM: usize>(
    tree: &Tree,
    rows: &mut [u32],
    notes: &mut [u32],
) -> Option<Tally>
    requires { MatchRoom (of_tree tree.now) NAMES ROWS KEPT CALM }
    ensures { MatchedInto (same_in tree.now) (of_tree tree.now) rows.old notes.old result rows.new notes.new }
{
    let m = tree.m;
    let mut nested = [0; ROWS];
    let mut extends = [0; ROWS];
    let mut inverse = [0; ROWS];
    links::link_groups(m, &mut nested, &mut extends, &mut inverse);
    let links = Links {
        nested: &nested,
        extends: &extends,
        inverse: &inverse,
    };
    let mut kept = [0; KEPT];
    let mut memo = [0; NAMES];
    let mut calm = [0; CALM];
    let names = m.n.len() / N_NUMBERS;
    let places = m.u.len() / U_NUMBERS * CALM_NUMBERS;
    group_match::match_connections(
        tree,
        links,
        &mut kept,
        &mut memo[..names],
        &mut calm[..places],
        rows,
        notes,
    )
}

// Matches them in the small room where it is enough, else in the large one: a room is set to zeros before it is used, so a small one costs less.
fn match_all(tree: &Tree, rows: &mut [u32], notes: &mut [u32]) -> Option<Tally>
    ensures { MatchedInto (same_in tree.now) (of_tree tree.now) rows.old notes.old result rows.new notes.new }
{
    let m = tree.m;
    if m.n.len() / N_NUMBERS <= SMALL_NAMES
        && m.u.len() / U_NUMBERS <= SMALL_ROWS
        && m.e.len() / E_NUMBERS <= SMALL_ROWS
    {
        return match_in::<SMALL_NAMES, SMALL_ROWS, SMALL_KEPT, SMALL_CALM>(tree, rows, notes);
    }
    match_in::<TABLE_ROWS, TABLE_ROWS, LARGE_KEPT, LARGE_CALM>(tree, rows, notes)
}

// Lists the group connections of accepted tables: first the matches, in the places of their rows; where there is room for all, their names. On a
// refusal the outputs may hold anything, but that of names is as it was where the refusal is 13 or 11.
pub fn list_accepted(
    tree: &Tree,
    rows: &mut [u32],
    names: &mut [u8],
    diagnostics: &mut [u32],
) -> Result<Listed, Refusal>
    ensures { Lists
        (answer_of (same_in tree.now) (of_tree tree.now) rows.old names.old diagnostics.old)
        rows.old names.old diagnostics.old result rows.new names.new diagnostics.new }
{
    let tally = match_all(tree, rows, diagnostics).ok_or(Refusal::from(Reason::Visits))?;
    let used = tally.used.ok_or(Refusal::from(Reason::Rows))?;
    group_names::compose_names(tree.m, &mut rows[..used], names).ok_or(Refusal::from(
        Reason::Names,
    ))?;
    let noted = tally.noted.ok_or(Refusal::from(Reason::Diagnostics))?;
    Ok(Listed {
        rows: used / ROW_NUMBERS,
        diagnostics: noted / DIAGNOSTIC_NUMBERS,
    })
}

// The same of tables and their link table, by the ported entry, with room for the keys of their components.
#[tactic(auto, unfolding(name::specs::Reading::comparison))]
fn list_linked(
    m: &Tables,
    links: &[u32],
    keys: &mut [u32],
    rows: &mut [u32],
    names: &mut [u8],
    diagnostics: &mut [u32],
) -> Result<Listed, Refusal>
    requires linked { Linked (model m.now) links.now }
    requires room { c_count (model m.now) ≤ length keys.old }
    ensures { Lists
        (answer_of same_bytes (model m.now) rows.old names.old diagnostics.old)
        rows.old names.old diagnostics.old result rows.new names.new diagnostics.new }
{
    child_links::key_names(m, keys);
    let tree = Tree {
        m: &*m,
        links: &*links,
        keys: &*keys,
        reading: Reading::Ported,
    };
    list_accepted(&tree, rows, names, diagnostics)
}

// Checks the tables and links their components, then lists their group connections, with a small room for keys where it is enough. On a refusal the
// outputs may hold anything.
fn list(
    m: &Tables,
    links: &mut [u32],
    rows: &mut [u32],
    names: &mut [u8],
    diagnostics: &mut [u32],
) -> Result<Listed, Refusal>
    ensures { ListsLinked
        (answer_for (model m.now) links.old rows.old names.old diagnostics.old) (model m.now)
        links.old rows.old names.old diagnostics.old result links.new rows.new names.new diagnostics.new }
{
    child_links::check_and_link(m, links)?;
    if m.c.len() / C_NUMBERS <= SMALL_ROWS {
        return list_linked(m, links, &mut [0; SMALL_ROWS], rows, names, diagnostics);
    }
    list_linked(m, links, &mut [0; TABLE_ROWS], rows, names, diagnostics)
}

// The rows of all group connections of the tables, their composed names and their diagnostics, and the links of their components. The outputs hold them
// from the front, and zeros behind; on a refusal, zeros.
pub fn expand_feature_group_connections(
    m: &Tables,
    links: &mut [u32],
    rows: &mut [u32],
    names: &mut [u8],
    diagnostics: &mut [u32],
) -> Result<Listed, Refusal>
    ensures { GroupListedInto
        (model m.now) links.old rows.old names.old diagnostics.old result links.new rows.new names.new diagnostics.new }
{
    rows.fill(0);
    names.fill(0);
    diagnostics.fill(0);
    let answer = list(m, links, rows, names, diagnostics);
    if answer.is_err() {
        links.fill(0);
        rows.fill(0);
        names.fill(0);
        diagnostics.fill(0);
    }
    answer
}

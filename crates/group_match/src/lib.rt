// Group connections feature by feature (instance.rs, `expand_feature_group_connections`): which features of the source have a partner in the
// destination. Nothing is lent to hold an expansion, and one may have millions of features, so only the first appearance of each name is kept of
// the destination: the first feature of an equal name is among them.
#![tactic(auto)]

ghost use Rattle.std.specs.Prelude.{false, ◌≡◌, [], suc, ◌≤◌, ◌<◌, length};
ghost use Rattle.as5506.specs.Tables.{count, letter_u, x_count};
ghost use Rattle.as5506.specs.Groups.{depth_limit};
ghost use Rattle.as5506.specs.GroupList.{endpoint as the_endpoint};
ghost use Rattle.lent.specs.Model.{model};
ghost use Rattle.child_links.specs.Trees.{of_tree, same_in};
ghost use Rattle.links.specs.declared.Links.{Links};
ghost use Rattle.links.specs.Links.{LinkedBy};
ghost use Rattle.links.specs.Walk.{groups_of, visit_link};
ghost use Rattle.sink.specs.Take.{held, taken, Ready, SameBuffers};
ghost use Rattle.group_walk.specs.Run.{going, run, state_of};
ghost use Rattle.group_walk.specs.Walks.{groups, does};
ghost use Rattle.group_match.specs.Matching.{group_at, after, connections_at, MatchedInto};
ghost use Rattle.group_match.specs.Walked.{cleared, walked_from, lists_in, listed, connection_of, connection_list};
ghost use Rattle.group_match.specs.Firsts.{KeepsFirsts};
ghost use Rattle.group_match.specs.Ready.{RoomReady, MatchReady};

use as5506::{MISSING, X_NUMBERS};
use child_links::Tree;
use columns::{Reference, Side, connection};
use group_walk::{LEVELS, Position, Walk};
use lent::Tables;
use links::Links;
use sink::{Matching, Path, Purpose, Sink, Tally};

// How many numbers of `calm` there are for a group type: one for each level.
pub const CALM_NUMBERS: usize = LEVELS;

// A group connection: its X row, its two components, and the links of their groups, where they have one.
#[derive(Clone, Copy)]
struct GroupConnection {
    connection: u32,
    source: u32,
    destination: u32,
    from: Option<u32>,
    to: Option<u32>,
}

// Walks the group that a link means, and how many visits that takes; `None` where they are too many. Nothing is remembered of a walk before; the
// outputs go on behind what is used.
fn walk_group(walk: &Walk, sink: &mut Sink, calm: &mut [u32], to: u32) -> Option<u32>
    requires { Ready walk.now.purpose (model walk.now.tables.now) (cleared (held sink.old)).memo }
    ensures walked { state_of result (held sink.new) ≡ run (does walk.now) (going (cleared (held sink.old)) 0) (visit_link (groups walk.now) (suc depth_limit) to false []) }
    ensures names { length sink.new.memo.now ≡ length sink.old.memo.now }
    ensures same { SameBuffers sink.old sink.new }
{
    sink.memo.fill(0);
    calm.fill(0);
    let start = Position {
        inverse: false,
        prefix: Path::new(),
        left: LEVELS,
    };
    walk.visit(sink, calm, to, &start, 0)
}

// Keeps the first appearance of each name of a destination's group: how many numbers these take; `None` where it has too many visits.
#[tactic(auto, using(crate::proofs::Walks::ready_first))]
fn keep_firsts<'a>(
    m: &'a Tables<'a>,
    links: &'a Links<'a>,
    kept: &mut [u32],
    memo: &mut [u32],
    calm: &mut [u32],
    to: u32,
) -> Option<usize>
    requires { RoomReady (model m.now) memo.old kept.old }
    ensures { KeepsFirsts (visit_link (groups_of (model m.now) links.now) (suc depth_limit) to false []) result (length memo.old) kept.new }
{
    let walk = Walk {
        tables: m,
        links,
        purpose: Purpose::First,
    };
    let mut sink = Sink {
        memo,
        out: kept,
        notes: &mut [],
        tally: Tally::new(),
    };
    walk_group(&walk, &mut sink, calm, to)?;
    sink.tally.used
}

// Walks the group of a source, if there is one, for a purpose: how many visits that takes; `None` where they are too many.
#[tactic(auto, using(crate::proofs::Walks::source_steps))]
fn walk_source<'a>(
    m: &'a Tables<'a>,
    links: &'a Links<'a>,
    purpose: Purpose<'a>,
    sink: &mut Sink,
    calm: &mut [u32],
    from: Option<u32>,
) -> Option<u32>
    requires { Ready purpose (model m.now) (cleared (held sink.old)).memo }
    ensures walked { state_of result (held sink.new) ≡ walked_from (taken purpose.entry (model m.now)) (group_at (groups_of (model m.now) links.now) from) (held sink.old) }
    ensures names { length sink.new.memo.now ≡ length sink.old.memo.now }
    ensures same { SameBuffers sink.old sink.new }
{
    let Some(from) = from else {
        return Some(0);
    };
    let walk = Walk {
        tables: m,
        links,
        purpose,
    };
    walk_group(&walk, sink, calm, from)
}

// Matches the groups of a connection: how many visits the source takes; `None` where an end has too many. Both are walked, always. Where the
// destination has no group the source's visits are counted, and nothing comes.
#[tactic(auto, using(crate::proofs::Walks::ready_count))]
fn match_groups<'a>(
    m: &'a Tables<'a>,
    links: &'a Links<'a>,
    pair: GroupConnection,
    kept: &mut [u32],
    sink: &mut Sink,
    calm: &mut [u32],
) -> Option<u32>
    requires { RoomReady (model m.now) sink.old.memo.now kept.old }
    ensures matched { listed result (held sink.new) ≡ after (model m.now) (connection_of (groups_of (model m.now) links.now) pair) (lists_in (held sink.old)) }
    ensures names { length sink.new.memo.now ≡ length sink.old.memo.now }
    ensures same { SameBuffers sink.old sink.new }
{
    let Some(to) = pair.to else {
        return walk_source(m, links, Purpose::Count, sink, calm, pair.from);
    };
    let used = keep_firsts(m, links, kept, sink.memo, calm, to)?;
    let purpose = Purpose::Match(Matching {
        connection: pair.connection,
        source: pair.source,
        destination: pair.destination,
        kept: &kept[..used],
    });
    walk_source(m, links, purpose, sink, calm, pair.from)
}

// The link of the group that a feature of a component stands for, if it stands for one.
fn group_link(m: &Tables, component: u32, feature: u32) -> Option<u32>
    requires { count (model m.now) letter_u ≤ 4096 }
    ensures { (l : Links) → LinkedBy (model m.now) l → group_at (groups_of (model m.now) l) result ≡ the_endpoint (model m.now) component feature }
{
    let group = endpoint::endpoint(m, component, feature)?;
    let reference = Reference {
        package: MISSING,
        type_name: group.type_name,
        implementation: MISSING,
    };
    Some(links::link(m, group.package, reference))
}

// X row `row`, if it is a group connection whose two components are found.
#[tactic(auto, using(crate::proofs::Connections::row_steps))]
fn group_connection(tree: &Tree, row: usize) -> Option<GroupConnection>
    requires { row < x_count (of_tree tree.now) }
    ensures { (l : Links) → LinkedBy (of_tree tree.now) l
        → connection_list (groups_of (of_tree tree.now) l) result ≡ connections_at (same_in tree.now) (of_tree tree.now) row }
{
    let m = tree.m;
    if !endpoint::is_group_connection(m, row) {
        return None;
    }
    let source = endpoint::end_component(tree, Side::Source, row)? as u32;
    let destination = endpoint::end_component(tree, Side::Destination, row)? as u32;
    let from = group_link(m, source, connection::feature_of(m, Side::Source, row));
    let to = group_link(
        m,
        destination,
        connection::feature_of(m, Side::Destination, row),
    );
    Some(GroupConnection {
        connection: row as u32,
        source,
        destination,
        from,
        to,
    })
}

// Matches the groups of all connections: how far the outputs of matches and diagnostics are used then, or `None` where an end has too many visits. The
// links are those of the tables; `kept`, `memo` and `calm` are room to work in, and the last two are cleared for each walk.
pub fn match_connections(
    tree: &Tree,
    links: Links,
    kept: &mut [u32],
    memo: &mut [u32],
    calm: &mut [u32],
    rows: &mut [u32],
    notes: &mut [u32],
) -> Option<Tally>
    requires { MatchReady (of_tree tree.now) links memo.old kept.old }
    ensures { MatchedInto (same_in tree.now) (of_tree tree.now) rows.old notes.old result rows.new notes.new }
{
    let mut sink = Sink {
        memo,
        out: rows,
        notes,
        tally: Tally::new(),
    };
    for row in 0..tree.m.x.len() / X_NUMBERS {
        let Some(pair) = group_connection(tree, row) else {
            continue;
        };
        match_groups(tree.m, &links, pair, kept, &mut sink, calm)?;
    }
    Some(sink.tally)
}

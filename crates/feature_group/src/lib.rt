// The expansion of a feature group (feature_group.rs, `expand_feature_group`) over the caller's tables and output.
#![tactic(auto)]

ghost use Rattle.std.specs.Prelude.{◌≡◌, [], suc, ◌/◌, length};
ghost use Rattle.as5506.specs.Groups.{depth_limit};
ghost use Rattle.as5506.specs.Listing.{expansion_within};
ghost use Rattle.as5506.specs.Layout.{feature_numbers};
ghost use Rattle.lent.specs.Model.{model};
ghost use Rattle.links.specs.Walk.{groups_of, visit_link};
ghost use Rattle.feature_group.specs.Answer.{answer_for, Gives, ExpandedInto};

use as5506::{FEATURE_NUMBERS, MISSING, Reason, Refusal, TABLE_ROWS};
use columns::Reference;
use group_walk::{LEVELS, Position, Walk};
use lent::Tables;
use links::Links;
use sink::{Path, Purpose, Sink, Tally};

// How many features were written and how many visits were made.
#[derive(Clone, Copy)]
pub struct Expanded {
    pub features: usize,
    pub visits: u32,
}

// Writes the features of the group that a link means. On a refusal the output holds anything.
fn write_features<'a>(
    m: &'a Tables<'a>,
    links: &'a Links<'a>,
    out: &mut [u32],
    to: u32,
    inverse: bool,
) -> Result<Expanded, Refusal>
    ensures { Gives
        (expansion_within (length out.old / feature_numbers) (visit_link (groups_of (model m.now) links.now) (suc depth_limit) to inverse []))
        out.old result out.new }
{
    // The purpose uses only `out`; a walk asks for the other two, which are empty.
    let mut sink = Sink {
        memo: &mut [],
        out,
        notes: &mut [],
        tally: Tally::new(),
    };
    let mut calm = [0u32; TABLE_ROWS * LEVELS];
    let walk = Walk {
        tables: m,
        links,
        purpose: Purpose::All,
    };
    let start = Position {
        inverse,
        prefix: Path::new(),
        left: LEVELS,
    };
    let visits = walk
        .visit(&mut sink, &mut calm, to, &start, 0)
        .ok_or(Refusal::from(Reason::Visits))?;
    let used = sink.tally.used.ok_or(Refusal::from(Reason::Rows))?;
    Ok(Expanded {
        features: used / FEATURE_NUMBERS,
        visits,
    })
}

// Checks the tables, then writes the features. On a refusal the output holds anything.
fn expand(
    m: &Tables,
    out: &mut [u32],
    from: u32,
    type_name: u32,
    inverse: bool,
) -> Result<Expanded, Refusal>
    ensures { Gives (answer_for (model m.now) out.old from type_name inverse) out.old result out.new }
{
    tables::check_tables(m)?;
    let mut nested = [0u32; TABLE_ROWS];
    let mut extends = [0u32; TABLE_ROWS];
    let mut inverses = [0u32; TABLE_ROWS];
    links::link_groups(m, &mut nested, &mut extends, &mut inverses);
    let links = Links {
        nested: &nested,
        extends: &extends,
        inverse: &inverses,
    };
    let group = Reference {
        package: MISSING,
        type_name,
        implementation: MISSING,
    };
    write_features(m, &links, out, links::link(m, from, group), inverse)
}

// The features of a group type, given by its name and the name of the package to ask from; with the inverse flag or without. The output holds
// them from the front, and zeros behind; on a refusal, zeros.
#[tactic(auto, using(crate::proofs::Answers::given_call, crate::proofs::Answers::refused_call))]
pub fn expand_feature_group(
    m: &Tables,
    out: &mut [u32],
    from: u32,
    type_name: u32,
    inverse: bool,
) -> Result<Expanded, Refusal>
    ensures { ExpandedInto (model m.now) out.old from type_name inverse result out.new }
{
    out.fill(0);
    let answer = expand(m, out, from, type_name, inverse);
    if answer.is_err() {
        out.fill(0);
    }
    answer
}

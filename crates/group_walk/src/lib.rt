// The expansion of a feature group (feature_group.rs, `expand_from_ref`) in three routines that call each other: `visit` visits what a link means,
// `expand_type` gives what the group type there is the inverse of, or what it extends and its own features, and `walk_features` walks these. What
// is done with a feature is `Sink::take_feature`. A walk may make 65,536 visits, and most of them change nothing: names that have come, outputs
// that are full. So a table `calm` has a number for each group type and level, in lent memory: 0, or how many visits a visit there makes that is known to change
// nothing. Such a visit is passed over, and its visits are counted.
#![tactic(auto)]

ghost use Rattle.std.specs.Prelude.{◌&&◌, ◌≡◌, eqb, get_or};
ghost use Rattle.as5506.specs.Tables.{e_holder, e_holder_kind, present};
ghost use Rattle.as5506.specs.Groups.{turned};
ghost use Rattle.lent.specs.Model.{model};
ghost use Rattle.links.specs.Walk.{rows_in, walk, type_by, visit_link};
ghost use Rattle.sink.specs.Take.{held, SameBuffers};
ghost use Rattle.group_walk.specs.Run.{going, run, state_of, Behind};
ghost use Rattle.group_walk.specs.Walks.{groups, does, dulls, VisitReady, TypeReady};
ghost use Rattle.group_walk.specs.Calm.{CalmAfter};

mod position;

use as5506::{E_NUMBERS, MISSING, VISITS};
use columns::declared;
use lent::{Tables, get_or};
use links::{Links, UNFOUND};
pub use position::Position;
pub use sink::LEVELS;
use sink::{Feature, Purpose, Sink};

// The direction of a feature that goes in, and of one that goes out. Numbers, as the tables hold them: any other stays as it is.
const IN: u32 = 0;

const OUT: u32 = 1;

// A direction with the inverse flag: in and out are swapped.
#[tactic(auto, unfolding(as5506::specs::Groups::turned))]
fn turn(inverse: bool, direction: u32) -> u32
    ensures { result ≡ turned inverse direction }
{
    if !inverse {
        return direction;
    }
    match direction {
        IN => OUT,
        OUT => IN,
        _ => direction,
    }
}

// Whether E row i is a feature of group type `row`.
fn belongs(m: &Tables, row: u32, i: usize) -> bool
    ensures { result ≡ eqb (e_holder (model m.now) i) row && eqb (e_holder_kind (model m.now) i) 1 }
{
    declared::holder_of(m, i) == row
        && declared::holder_kind_of(m, i) == declared::HOLDER_GROUP_TYPE
}

// What a walk goes over, and what for. What it carries is a `Sink`, with `calm` beside it.
#[derive(Clone, Copy)]
pub struct Walk<'a> {
    pub tables: &'a Tables<'a>,
    pub links: &'a Links<'a>,
    pub purpose: Purpose<'a>,
}

impl Walk<'_> {
    // Visits what a link means: a row of U, or nothing, behind so many visits; how many these are then, or `None` where they are over 65,536.
    // `at.left` counts this visit too. Where the visit is known to change nothing, its visits are counted only.
    #[tactic(auto, unfolding(crate::specs::Calm::CalmAfter), using(crate::proofs::Parts::too_many, crate::proofs::Parts::no_level, crate::proofs::Parts::no_row, crate::proofs::Parts::still_calm, crate::proofs::Parts::passed_over, crate::proofs::Parts::passed_done, crate::proofs::Parts::expanded_over, crate::proofs::Parts::expanded_done))]
    #[cycle(expand_type_visit_walk_features)]
    pub fn visit(
        &self,
        sink: &mut Sink,
        calm: &mut [u32],
        to: u32,
        at: &Position,
        visits: u32,
    ) -> Option<u32>
        requires { VisitReady self.now (held sink.old) calm.old }
        ensures notes_after { state_of result (held sink.new)
            ≡ run (does self.now) (going (held sink.old) visits) (visit_link (groups self.now) at.now.left to at.now.inverse at.now.prefix) }
        ensures calm_after { CalmAfter result (groups self.now) (dulls self.now) (held sink.new) calm.new }
        ensures behind { Behind (held sink.old) (held sink.new) }
        ensures same { SameBuffers sink.old sink.new }
    {
        if VISITS <= visits {
            return None;
        }
        if at.left == 0 || UNFOUND <= to {
            return Some(visits + 1);
        }
        let below = Position {
            inverse: at.inverse,
            prefix: at.prefix,
            left: at.left - 1,
        };
        let place = to as usize * LEVELS + below.left;
        let known = get_or(calm, place, 0);
        if known != 0 {
            if VISITS - visits < known {
                return None;
            }
            return Some(visits + known);
        }
        let tally = sink.tally;
        let seen = self.expand_type(sink, calm, to, &below, visits + 1)?;
        if sink.tally == tally {
            lent::put(calm, place, seen - visits);
        }
        Some(seen)
    }

    // What group type `row` gives: what it is the inverse of; else what it extends, and its own features. `at.left` counts the visits below it only.
    #[tactic(auto, using(crate::proofs::Parts::by_inverse, crate::proofs::Parts::by_own, crate::proofs::Parts::up_over, crate::proofs::Parts::up_done))]
    #[cycle(expand_type_visit_walk_features)]
    fn expand_type(
        &self,
        sink: &mut Sink,
        calm: &mut [u32],
        row: u32,
        at: &Position,
        visits: u32,
    ) -> Option<u32>
        requires { TypeReady self.now (held sink.old) calm.old at.now visits }
        ensures notes_after { state_of result (held sink.new)
            ≡ run (does self.now) (going (held sink.old) visits)
            (type_by (present (get_or self.now.links.now.inverse.now row 0)) (groups self.now)
            (visit_link (groups self.now) at.now.left) at.now.inverse at.now.prefix row) }
        ensures calm_after { CalmAfter result (groups self.now) (dulls self.now) (held sink.new) calm.new }
        ensures behind { Behind (held sink.old) (held sink.new) }
        ensures same { SameBuffers sink.old sink.new }
    {
        let place = row as usize;
        let back = get_or(self.links.inverse, place, 0);
        if back != MISSING {
            let turned = Position {
                inverse: !at.inverse,
                prefix: at.prefix,
                left: at.left,
            };
            return self.visit(sink, calm, back, &turned, visits);
        }
        let up = get_or(self.links.extends, place, 0);
        if up == MISSING {
            return self.walk_features(sink, calm, row, at, visits);
        }
        let seen = self.visit(sink, calm, up, at, visits)?;
        self.walk_features(sink, calm, row, at, seen)
    }

    // Walks the features of group type `row`. `at.left` counts the visits below it only.
    #[tactic(auto, using(crate::proofs::Parts::onward_start, crate::proofs::Parts::ended, crate::proofs::Parts::ended_calm, crate::proofs::Parts::passed, crate::proofs::Parts::stopped))]
    #[cycle(expand_type_visit_walk_features)]
    fn walk_features(
        &self,
        sink: &mut Sink,
        calm: &mut [u32],
        row: u32,
        at: &Position,
        visits: u32,
    ) -> Option<u32>
        requires { TypeReady self.now (held sink.old) calm.old at.now visits }
        ensures notes_after { state_of result (held sink.new)
            ≡ run (does self.now) (going (held sink.old) visits)
            (walk (groups self.now) (visit_link (groups self.now) at.now.left) at.now.inverse at.now.prefix (rows_in (groups self.now) row)) }
        ensures calm_after { CalmAfter result (groups self.now) (dulls self.now) (held sink.new) calm.new }
        ensures behind { Behind (held sink.old) (held sink.new) }
        ensures same { SameBuffers sink.old sink.new }
    {
        let m = self.tables;
        let mut seen = visits;
        for i in 0..m.e.len() / E_NUMBERS {
            if !belongs(m, row, i) {
                continue;
            }
            let name = declared::name_of(m, i);
            let to = get_or(self.links.nested, i, 0);
            if to == MISSING {
                let feature = Feature {
                    name,
                    kind: declared::kind_of(m, i),
                    direction: turn(at.inverse, declared::direction_of(m, i)),
                    prefix: &at.prefix,
                };
                sink.take_feature(m, &self.purpose, &feature);
                continue;
            }
            let inside = Position {
                inverse: at.inverse,
                prefix: at.prefix.with(name),
                left: at.left,
            };
            seen = self.visit(sink, calm, to, &inside, seen)?;
        }
        Some(seen)
    }
}

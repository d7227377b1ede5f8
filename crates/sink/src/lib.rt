// What is done with each feature of an expansion, by the purpose of the walk that comes to it. The outputs hold blocks from the front; where one
// finds no room, its output counts as full from then on, and the walk goes on: whether 13 strikes is known at its end only.
#![tactic(auto)]

ghost use Rattle.std.specs.Prelude.{◌≡◌, ◌+◌, ◌*◌, ◌≤◌, ◌<◌, cond, eqb, length, get_or, set, IfSome};
ghost use Rattle.as5506.specs.Layout.{feature_numbers, feature_block};
ghost use Rattle.lent.specs.Model.{model};
ghost use Rattle.sink.specs.Take.{feature_of, held, SameBuffers, first_by, partner_of, kept_count, kept_block, match_block, code_of, answer_of, match_by, Memory, taken, Ready, nothing_used};

mod feature;

use as5506::{FEATURE_NUMBERS, ROW_NUMBERS};
pub use feature::Feature;
use lent::{Tables, get_or};
use name::{name_of, same_folded};

// How many visits of a walk may lie one inside the other.
pub const LEVELS: usize = 11;

// The names of the groups that one group lies in, outermost first.
pub type Path = path::Path<LEVELS>;

impl Feature<'_> {
    // Its block: name, kind, direction, length of the prefix, its names.
    #[tactic(auto, using(crate::proofs::Blocks::block_put))]
    fn block(&self) -> [u32; FEATURE_NUMBERS]
        ensures { result ≡ feature_block (feature_of self.now) }
    {
        let names = self.prefix.numbers();
        let mut block = [0u32; FEATURE_NUMBERS];
        block[0] = self.name;
        block[KIND] = self.kind;
        block[DIRECTION] = self.direction;
        block[PREFIX_LENGTH] = names.len() as u32;
        lent::put_all(&mut block, PREFIX, names);
        block
    }
}

// What the features of a source are matched with: the connection, its two components, and the blocks of the features kept of the destination.
#[derive(Clone, Copy)]
pub struct Matching<'a> {
    pub connection: u32,
    pub source: u32,
    pub destination: u32,
    pub kept: &'a [u32],
}

// What a walk is for: to count its visits; to write all its features; to write those whose name has not come yet; to list the features that have
// a partner among those kept, and to diagnose the others. An enum and no closure: these are all, and that a visit changes nothing any more is
// proved for each of them.
#[derive(Clone, Copy)]
pub enum Purpose<'a> {
    Count,
    All,
    First,
    Match(Matching<'a>),
}

// How many numbers are used in the output of features or rows, and in that of diagnostics, none where one is full.
#[derive(Clone, Copy, PartialEq, Eq)]
pub struct Tally {
    pub used: Option<usize>,
    pub noted: Option<usize>,
}

impl Tally {
    // Nothing is used.
    pub fn new() -> Tally
        ensures { result ≡ nothing_used }
    {
        Tally {
            used: Some(0),
            noted: Some(0),
        }
    }
}

// What a walk carries: a number for each name, the output of features or rows, and that of diagnostics; and how much of both is used.
#[derive(Drop)]
pub struct Sink<'a> {
    pub memo: &'a mut [u32],
    pub out: &'a mut [u32],
    pub notes: &'a mut [u32],
    pub tally: Tally,
}

// The code of the diagnostic of a source feature that has no partner. There is no other here, so it is a constant and no enum.
const UNMATCHED: u32 = 5;

// The places in a feature's block: name, kind, direction, length of the prefix, its names.
pub const KIND: usize = 1;

const DIRECTION: usize = 2;

pub const PREFIX_LENGTH: usize = 3;

pub const PREFIX: usize = 4;

// The places of a match in its row: connection, two components, the source feature's block, its partner's.
pub const SOURCE: usize = 3;

pub const PARTNER: usize = SOURCE + FEATURE_NUMBERS;

// The memory is a lent table of numbers, one for each name: 0 for a name not yet asked for, 1 for one that has no partner, or the partner's place
// plus 2.
fn code_of(partner: Option<usize>) -> u32
    requires { IfSome partner (λ i. i < 4096) }
    ensures { result ≡ code_of partner }
{
    match partner {
        None => 1,
        Some(i) => i as u32 + 2,
    }
}

// What such a number says.
fn answer_of(code: u32) -> Option<Option<usize>>
    ensures { result ≡ answer_of code }
{
    match code {
        0 => None,
        1 => Some(None),
        _ => Some(Some(code as usize - 2)),
    }
}

// Whether a name has not come yet; from then on it has: the memory has 1 for it.
fn comes_first(memo: &mut [u32], name: u32) -> bool
    ensures first { result ≡ eqb (get_or memo.old name 0) 0 }
    ensures memo_after { memo.new ≡ cond result (set memo.old name 1) memo.old }
{
    let first = get_or(memo, name as usize, 0) == 0;
    if first {
        lent::put(memo, name as usize, 1);
    }
    first
}

impl Matching<'_> {
    // The first of the kept features whose name is equal folded to a name.
    #[tactic(auto, unfolding(crate::specs::Take::partner_of), using(as5506::proofs::Searches::search_start, as5506::proofs::Searches::search_hit, as5506::proofs::Searches::search_miss, as5506::proofs::Searches::search_end, crate::proofs::Search::tested))]
    fn find_partner(&self, m: &Tables, name: u32) -> Option<usize>
        ensures { result ≡ partner_of (model m.now) self.now.kept.now name }
    {
        let wanted = name_of(m, name);
        for i in 0..self.kept.len() / FEATURE_NUMBERS {
            let kept = get_or(self.kept, i * FEATURE_NUMBERS, 0);
            if same_folded(wanted, name_of(m, kept)) {
                return Some(i);
            }
        }
        None
    }

    // The same, searched once for each name.
    #[tactic(auto, using(crate::proofs::Search::recalled, crate::proofs::Search::recalled_memo, crate::proofs::Search::partner_few))]
    fn partner(&self, m: &Tables, memo: &mut [u32], name: u32) -> Option<usize>
        requires { (kept_count self.now.kept.now ≤ 4096) × Memory (model m.now) self.now.kept.now memo.old }
        ensures value { result ≡ partner_of (model m.now) self.now.kept.now name }
        ensures memo_after { memo.new ≡ set memo.old name (code_of (partner_of (model m.now) self.now.kept.now name)) }
    {
        if let Some(known) = answer_of(get_or(memo, name as usize, 0)) {
            return known;
        }
        let found = self.find_partner(m, name);
        lent::put(memo, name as usize, code_of(found));
        found
    }

    // The row of a source feature and the kept feature at place i, until its names are composed.
    fn row(&self, feature: &Feature, i: usize) -> [u32; ROW_NUMBERS]
        requires { i * feature_numbers + feature_numbers ≤ length self.now.kept.now }
        ensures { result ≡ match_block self.now.connection self.now.source self.now.destination (feature_block (feature_of feature.now)) (kept_block self.now.kept.now i) }
    {
        let mut row = [0u32; ROW_NUMBERS];
        row[0] = self.connection;
        row[1] = self.source;
        row[2] = self.destination;
        lent::put_all(&mut row, SOURCE, &feature.block());
        let partner = lent::part(self.kept, i * FEATURE_NUMBERS, FEATURE_NUMBERS);
        lent::put_all(&mut row, PARTNER, partner);
        row
    }
}

impl Sink<'_> {
    // What a feature does whose name may have come already.
    #[tactic(auto, unfolding(crate::specs::Take::first_by))]
    fn take_first(&mut self, feature: &Feature)
        ensures taken { held self.new ≡ first_by (eqb (get_or self.old.memo.now feature.now.name 0) 0) (feature_of feature.now) (held self.old) }
        ensures same { SameBuffers self.old self.new }
    {
        if comes_first(self.memo, feature.name) {
            self.tally.used = lent::append(self.out, self.tally.used, &feature.block());
        }
    }

    // What a feature does that is to be matched. Where the output of rows is full, no row is made.
    #[tactic(auto, unfolding(as5506::specs::Layout::diag_block, lent::specs::Append::append_behind, crate::specs::Take::match_by), using(crate::proofs::Search::partner_whole))]
    fn take_match(&mut self, m: &Tables, matching: &Matching, feature: &Feature)
        requires { (kept_count matching.now.kept.now ≤ 4096) × Memory (model m.now) matching.now.kept.now self.old.memo.now }
        ensures taken { held self.new ≡ match_by (partner_of (model m.now) matching.now.kept.now feature.now.name) matching.now (feature_of feature.now) (held self.old) }
        ensures same { SameBuffers self.old self.new }
    {
        match matching.partner(m, self.memo, feature.name) {
            None => {
                let note = [UNMATCHED, matching.connection, feature.name, 0];
                self.tally.noted = lent::append(self.notes, self.tally.noted, &note);
            }
            Some(_) if self.tally.used.is_none() => {}
            Some(i) => {
                let row = matching.row(feature, i);
                self.tally.used = lent::append(self.out, self.tally.used, &row);
            }
        }
    }

    // What a feature does, by the purpose of the walk.
    #[tactic(auto, unfolding(crate::specs::Take::taken), using(crate::proofs::Ready::match_few, crate::proofs::Ready::match_memory))]
    pub fn take_feature(&mut self, m: &Tables, purpose: &Purpose, feature: &Feature)
        requires { Ready purpose.now (model m.now) self.old.memo.now }
        ensures taken { held self.new ≡ taken purpose.now (model m.now) (feature_of feature.now) (held self.old) }
        ensures same { SameBuffers self.old self.new }
    {
        match purpose {
            Purpose::Count => {}
            Purpose::All => {
                self.tally.used = lent::append(self.out, self.tally.used, &feature.block());
            }
            Purpose::First => self.take_first(feature),
            Purpose::Match(matching) => self.take_match(m, matching, feature),
        }
    }
}

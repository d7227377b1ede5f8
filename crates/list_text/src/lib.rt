// The list of the connections that tables hold, as text. The listings' outputs are lent here, as document 01 says how many of each.
#![tactic(auto)]

ghost use Rattle.std.specs.Prelude.{length};
ghost use Rattle.as5506.specs.Text.{text_within};
ghost use Rattle.as5506.specs.Program.{text_or_refusal, conlist_text};
ghost use Rattle.lent.specs.Model.{model};
ghost use Rattle.name.specs.Reading.{comparison};
ghost use Rattle.text.specs.Listed.{listings_text};
ghost use Rattle.shown.specs.Shown.{Shown};

use as5506::{
    DIAGNOSTIC_NUMBERS, DIAGNOSTICS_LENT, LINK_NUMBERS, LISTED_LENT, NAMES_LENT, ROW_NUMBERS,
    ROWS_LENT,
};
use lent::Tables;
use name::Reading;
use text::Listings;

// Prints the list of what both listings gave, or refusal 15 where it has no room: how many bytes of text there are. Not by `shown::print`: what a closure
// promises that captures tables, which name a lifetime, the check does not see.
fn print_listings(m: &Tables, list: &Listings, text: &mut [u8]) -> usize
    ensures { Shown (text_or_refusal (text_within (length text.old) (listings_text (model m.now) list.now))) text.old result text.new }
{
    text.fill(0);
    let used = text::print_list(m, list, text);
    shown::finish(used, text)
}

// Lists what the tables hold, by a reading of names and under a limit, and prints the list, or the refusal's line: how many bytes of text there are. Behind them the output is
// zero.
#[tactic(auto, unfolding(as5506::specs::Program::conlist_text), using(crate::proofs::Listed::listing))]
pub fn list_tables(m: &Tables, reading: Reading, limit: u64, text: &mut [u8]) -> usize
    ensures { Shown (conlist_text (comparison reading) limit (length text.old) (model m.now)) text.old result text.new }
{
    let mut links = [0u32; ROWS_LENT * LINK_NUMBERS];
    let mut rows = [0u32; LISTED_LENT * ROW_NUMBERS];
    let mut diagnostics = [0u32; DIAGNOSTICS_LENT * DIAGNOSTIC_NUMBERS];
    let mut group_rows = [0u32; LISTED_LENT * ROW_NUMBERS];
    let mut names = [0u8; NAMES_LENT];
    let mut group_diagnostics = [0u32; DIAGNOSTICS_LENT * DIAGNOSTIC_NUMBERS];
    match listing::list_connections(
        m,
        reading,
        limit,
        &mut links,
        &mut rows,
        &mut diagnostics,
        &mut group_rows,
        &mut names,
        &mut group_diagnostics,
    ) {
        Err(reason) => shown::tell(reason, text),
        Ok(both) => {
            let list = Listings {
                traced: &rows.as_chunks().0[..both.traced.rows],
                group: &group_rows.as_chunks().0[..both.group.rows],
                names: &names,
                diagnostics: &diagnostics.as_chunks().0[..both.traced.diagnostics],
                group_diagnostics: &group_diagnostics.as_chunks().0[..both.group.diagnostics],
            };
            print_listings(m, &list, text)
        }
    }
}

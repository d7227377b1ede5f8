// The whole list, and a refusal.
ghost use Rattle.std.specs.Prelude.{◌≡◌, map, drop};
ghost use Rattle.as5506.specs.Lists.{each};
ghost use Rattle.as5506.specs.Layout.{group_back, names_behind};
ghost use Rattle.as5506.specs.Text.{row_text};
ghost use Rattle.lent.specs.Model.{model};
ghost use Rattle.lent.specs.Printed.{Printed};
ghost use Rattle.output.specs.Put.{Put};
ghost use Rattle.text.specs.Printing.{group_rows, traced_text, diagnostic_text, refusal_of};
ghost use Rattle.text.specs.Listed.{listings_text};

use super::{diagnostics, lines};
use as5506::{DIAGNOSTIC_NUMBERS, ROW_NUMBERS, Refusal};
use lent::Tables;
use output::Output;

// What both listings gave: the rows of each as blocks of numbers, the composed names of the group rows, one behind the other, and the diagnostics of each.
#[derive(Clone, Copy)]
pub struct Listings<'a> {
    pub traced: &'a [[u32; ROW_NUMBERS]],
    pub group: &'a [[u32; ROW_NUMBERS]],
    pub names: &'a [u8],
    pub diagnostics: &'a [[u32; DIAGNOSTIC_NUMBERS]],
    pub group_diagnostics: &'a [[u32; DIAGNOSTIC_NUMBERS]],
}

// Prints a traced row from its block, which has at 4 to 6 the names of the row, its source and its destination, as rows of the tables.
#[tactic(auto, using(crate::proofs::Pieces::traced_row_put))]
fn put_traced_row(m: &Tables, block: &[u32; ROW_NUMBERS], out: &mut Output)
    ensures { Put (traced_text (model m.now) block.now) out.old out.new }
{
    let name = name::name_of(m, block[4]);
    let source = name::name_of(m, block[5]);
    let destination = name::name_of(m, block[6]);
    lines::put_row(block, name, source, destination, out);
}

// Prints the traced rows.
#[tactic(auto, using(decimal::proofs::Each::printing_each))]
fn put_traced(m: &Tables, rows: &[[u32; ROW_NUMBERS]], out: &mut Output)
    ensures { Put (each (traced_text (model m.now)) rows.now) out.old out.new }
{
    for block in rows {
        put_traced_row(m, block, out);
    }
}

// What stands behind the first len bytes of names.
fn behind(names: &[u8], len: u32) -> &[u8]
    ensures { result.now ≡ drop len names.now }
{
    names.get(len as usize..).unwrap_or_default()
}

// What stands behind the three names of a group row, whose block has at 4 to 6 how long they are.
#[tactic(auto, unfolding(as5506::specs::Layout::names_behind))]
fn names_behind<'a>(block: &[u32; ROW_NUMBERS], names: &'a [u8]) -> &'a [u8]
    ensures { result.now ≡ names_behind block.now names.now }
{
    behind(behind(behind(names, block[4]), block[5]), block[6])
}

// Prints a group row from its block, which has at 4 to 6 how long the names of the row, its source and its destination are: with these the composed names
// begin.
#[tactic(auto, using(crate::proofs::Pieces::group_row_put))]
fn put_group_row(block: &[u32; ROW_NUMBERS], names: &[u8], out: &mut Output)
    ensures { Put (row_text (group_back block.now names.now)) out.old out.new }
{
    let second = behind(names, block[4]);
    let third = behind(second, block[5]);
    let name = lent::part(names, 0, block[4] as usize);
    let source = lent::part(second, 0, block[5] as usize);
    let destination = lent::part(third, 0, block[6] as usize);
    lines::put_row(block, name, source, destination, out);
}

// Prints the group rows.
#[tactic(auto, using(crate::proofs::Pieces::printing_rows))]
fn put_group(rows: &[[u32; ROW_NUMBERS]], names: &[u8], out: &mut Output)
    ensures { Put (each row_text (group_rows rows.now names.now)) out.old out.new }
{
    let mut left = names;
    for block in rows {
        put_group_row(block, left, out);
        left = names_behind(block, left);
    }
}

// Prints diagnostics.
#[tactic(auto, using(decimal::proofs::Each::printing_each))]
fn put_diagnostics(m: &Tables, list: &[[u32; DIAGNOSTIC_NUMBERS]], out: &mut Output)
    ensures { Put (each (diagnostic_text (model m.now)) list.now) out.old out.new }
{
    for block in list {
        diagnostics::put_diagnostic(m, block, out);
    }
}

// Prints the list: traced rows, group rows, traced diagnostics, group diagnostics, and the number of rows of each listing.
#[tactic(auto, using(crate::proofs::Pieces::list_put))]
fn put_list(m: &Tables, list: &Listings, out: &mut Output)
    ensures { Put (listings_text (model m.now) list.now) out.old out.new }
{
    put_traced(m, list.traced, out);
    put_group(list.group, list.names, out);
    put_diagnostics(m, list.diagnostics, out);
    put_diagnostics(m, list.group_diagnostics, out);
    lines::put_counts(list.traced.len(), list.group.len(), out);
}

// Prints the list: how many bytes it has, none where the output is too short.
#[tactic(auto, using(crate::proofs::Pieces::printed_pieces))]
pub fn print_list(m: &Tables, list: &Listings, text: &mut [u8]) -> Option<usize>
    ensures { Printed (listings_text (model m.now) list.now) text.old result text.new }
{
    let mut out = Output::new(text);
    put_list(m, list, &mut out);
    out.done()
}

// Prints a refusal: `R`, its number, its place and the letter of its place.
#[tactic(auto, using(crate::proofs::Pieces::refusal_put))]
fn put_refusal(refusal: Refusal, out: &mut Output)
    ensures { Put (refusal_of refusal) out.old out.new }
{
    out.put(b"R");
    decimal::put_column(refusal.number as usize, out);
    decimal::put_column(refusal.place as usize, out);
    out.put(&[b' ', refusal.letter, b'\n']);
}

// Prints a refusal: how many bytes it has, none where the output is too short.
#[tactic(auto, using(crate::proofs::Pieces::printed_pieces))]
pub fn print_refusal(refusal: Refusal, text: &mut [u8]) -> Option<usize>
    ensures { Printed (refusal_of refusal) text.old result text.new }
{
    let mut out = Output::new(text);
    put_refusal(refusal, &mut out);
    out.done()
}

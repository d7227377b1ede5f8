// The lines of a row, and a text between two others.
ghost use Rattle.std.specs.Prelude.{◌≡◌, ◌++◌, [], ◌∷◌, get_or, take, drop};
ghost use Rattle.as5506.specs.Lists.{bytes_of};
ghost use Rattle.as5506.specs.Text.{number_line, row_text};
ghost use Rattle.output.specs.Put.{Put};
ghost use Rattle.text.specs.Printing.{row_named};

use as5506::ROW_NUMBERS;
use output::Output;

// Prints a text with what stands before it and behind it.
#[tactic(auto, using(crate::proofs::Pieces::three_put))]
pub fn put_between(before: &[u8], s: &[u8], behind: &[u8], out: &mut Output)
    ensures { Put (before.now ++ s.now ++ behind.now) out.old out.new }
{
    out.put(before);
    out.put(s);
    out.put(behind);
}

// The path in a row's block, as much of it as there are places for: how long it is stands at 7, and it begins at 8.
fn path_of(block: &[u32; ROW_NUMBERS]) -> &[u32]
    ensures { result.now ≡ take (get_or block.now 7 0) (drop 8 block.now) }
{
    lent::part(block, 8, block[7] as usize)
}

// Prints a row from its block of numbers, which begins with its connection, kind, source and destination, and its three names.
#[tactic(auto, using(crate::proofs::Pieces::row_put))]
pub fn put_row(
    block: &[u32; ROW_NUMBERS],
    name: &[u8],
    source: &[u8],
    destination: &[u8],
    out: &mut Output,
)
    ensures { Put (row_text (row_named block.now name.now source.now destination.now)) out.old out.new }
{
    let path = path_of(block);
    out.put(b"S");
    decimal::put_columns(&block[..4], out);
    decimal::put_column(path.len(), out);
    decimal::put_columns(path, out);
    out.put(b"\n");
    put_between(b"= ", name, b"\n", out);
    put_between(b"< ", source, b"\n", out);
    put_between(b"> ", destination, b"\n", out);
}

// Prints `Z` and two numbers: of a list how many rows each listing has, of selections how many there are and whether they are cut.
#[tactic(auto, using(crate::proofs::Pieces::counts_put))]
pub fn put_counts(first: usize, second: usize, out: &mut Output)
    ensures { Put (number_line (bytes_of "Z") (first ∷ second ∷ [])) out.old out.new }
{
    out.put(b"Z");
    decimal::put_column(first, out);
    decimal::put_column(second, out);
    out.put(b"\n");
}

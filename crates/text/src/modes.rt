// What modes and mode print.
ghost use Rattle.std.specs.Prelude.{cond, ◌++◌, [], ◌∷◌};
ghost use Rattle.as5506.specs.Lists.{bytes_of};
ghost use Rattle.as5506.specs.Text.{number_line, text_line};
ghost use Rattle.lent.specs.Printed.{Printed};
ghost use Rattle.output.specs.Put.{Put};

use super::lines;
use output::Output;

// Prints `Z`, how many selections there are, and 1 where the list of them was cut, else 0. How many bytes that has, none where the output is
// too short.
#[tactic(auto, using(crate::proofs::Pieces::printed_pieces))]
pub fn print_modes(number: usize, cut: bool, text: &mut [u8]) -> Option<usize>
    ensures { Printed (number_line (bytes_of "Z") (number ∷ cond cut 1 0 ∷ [])) text.old result text.new }
{
    let mut out = Output::new(text);
    lines::put_counts(number, usize::from(cut), &mut out);
    out.done()
}

// Prints a selection: `M` with its rows, then `= ` and its name.
#[tactic(auto, using(crate::proofs::Pieces::selection_put))]
fn put_selection(rows: &[u32], name: &[u8], out: &mut Output)
    ensures { Put (number_line (bytes_of "M") rows.now ++ text_line (bytes_of "=") name.now) out.old out.new }
{
    out.put(b"M");
    decimal::put_columns(rows, out);
    out.put(b"\n");
    lines::put_between(b"= ", name, b"\n", out);
}

// Prints a selection: how many bytes it has, none where the output is too short.
#[tactic(auto, using(crate::proofs::Pieces::printed_pieces))]
pub fn print_selection(rows: &[u32], name: &[u8], text: &mut [u8]) -> Option<usize>
    ensures { Printed (number_line (bytes_of "M") rows.now ++ text_line (bytes_of "=") name.now) text.old result text.new }
{
    let mut out = Output::new(text);
    put_selection(rows, name, &mut out);
    out.done()
}

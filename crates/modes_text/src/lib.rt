// What modes and mode print of tables. The outputs of a selection are lent here: as many numbers as a sheet can have M rows, and for the joined name as many
// bytes as conlist lends for composed names.
#![tactic(auto)]

ghost use Rattle.std.specs.Prelude.{length};
ghost use Rattle.as5506.specs.Program.{modes_text, mode_text};
ghost use Rattle.lent.specs.Model.{model};
ghost use Rattle.shown.specs.Shown.{Shown};

use as5506::{NAMES_LENT, ROWS_LENT};
use lent::Tables;

// Counts the selections of modes and prints their number, or the refusal's line: how many bytes of text there are. Behind them the output is zero.
#[tactic(auto, unfolding(as5506::specs::Program::modes_text), using(shown::proofs::Fits::refusal_shown))]
pub fn count_tables(m: &Tables, text: &mut [u8]) -> usize
    ensures { Shown (modes_text (length text.old) (model m.now)) text.old result text.new }
{
    match operation_modes::count_selections(m) {
        Err(reason) => shown::tell(reason, text),
        Ok(modes) => shown::print(
            text,
            |text| text::print_modes(modes.number, modes.cut, text),
        ),
    }
}

// Prints the selection of modes at a number, or the refusal's line: how many bytes of text there are. Behind them the output is zero.
#[tactic(auto, unfolding(as5506::specs::Program::mode_text), using(crate::proofs::Selected::selecting))]
pub fn select_tables(m: &Tables, number: u64, text: &mut [u8]) -> usize
    ensures { Shown (mode_text number (length text.old) (model m.now)) text.old result text.new }
{
    let mut rows = [0u32; ROWS_LENT];
    let mut name = [0u8; NAMES_LENT];
    match operation_modes::select_modes(m, &mut rows, &mut name, number) {
        Err(reason) => shown::tell(reason, text),
        Ok(selected) => {
            let rows = &rows[..selected.rows];
            let name = &name[..selected.bytes];
            shown::print(text, |text| text::print_selection(rows, name, text))
        }
    }
}

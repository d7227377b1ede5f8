// Operation modes (02, (xi)): how many selections of modes there are, and the selection at a number. A selection is one mode, an M row, of each
// component with modes that counts. None of them is built but the one that is asked for. Each call goes once over the M rows, to link them, and
// once over the components, to count the combinations; the call for a selection goes over the components once more, to choose.
#![tactic(auto)]

mod choose;
mod combine;
mod join;
mod link;
mod select;

ghost use Rattle.std.specs.Prelude.{◌≡◌, ◌≤◌, length};
ghost use Rattle.as5506.specs.Tables.{letter_c, letter_m, count};
ghost use Rattle.as5506.specs.Answers.{handed};
ghost use Rattle.as5506.specs.Modes.{modes_answer, selection_answer};
ghost use Rattle.lent.specs.Model.{model};
ghost use Rattle.operation_modes.specs.Answer.{modes_told, Selects, SelectedInto};

use as5506::Refusal;
use lent::Tables;

// How many selections there are, and whether the list of them was cut.
#[derive(Clone, Copy)]
pub struct Modes {
    pub number: usize,
    pub cut: bool,
}

// How many M rows and bytes of the joined name were written.
#[derive(Clone, Copy)]
pub struct Selected {
    pub rows: usize,
    pub bytes: usize,
}

// Tables that are accepted, and so have few components and modes.
#[derive(Clone, Copy)]
struct Accepted<'a, 'b> {
    m: &'a Tables<'b>,
    ghost few_components: { count (model m.now) letter_c ≤ 4096 },
    ghost few_modes: { count (model m.now) letter_m ≤ 4096 },
}

// How many selections of modes the tables have, and whether the list was cut.
#[tactic(auto, using(crate::proofs::Calls::count_refused, crate::proofs::Calls::count_given))]
pub fn count_selections(m: &Tables) -> Result<Modes, Refusal>
    ensures { result ≡ handed modes_told (modes_answer (model m.now)) }
{
    tables::check_tables(m)?;
    Ok(Accepted { m }.count_modes())
}

// Checks the tables, then writes the selection at a number. On a refusal the outputs hold anything.
#[tactic(auto, using(crate::proofs::Calls::select_given))]
fn check_and_select(
    m: &Tables,
    rows: &mut [u32],
    name: &mut [u8],
    number: u64,
) -> Result<Selected, Refusal>
    ensures { Selects (selection_answer (length rows.old) (length name.old) (model m.now) number) rows.old name.old result rows.new name.new }
{
    tables::check_tables(m)?;
    Accepted { m }.select(rows, name, number)
}

// The selection of modes at a number, as M rows, and the names of these modes joined by underscores. The outputs hold them from the front, and zeros
// behind; on a refusal, zeros.
#[tactic(auto, using(crate::proofs::Calls::given_call))]
pub fn select_modes(
    m: &Tables,
    rows: &mut [u32],
    name: &mut [u8],
    number: u64,
) -> Result<Selected, Refusal>
    ensures { SelectedInto (model m.now) number rows.old name.old result rows.new name.new }
{
    rows.fill(0);
    name.fill(0);
    let answer = check_and_select(m, rows, name, number);
    if answer.is_err() {
        rows.fill(0);
        name.fill(0);
    }
    answer
}

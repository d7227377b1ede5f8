// 10: whole rows, not too many of them, and good names.
ghost use Rattle.std.specs.Prelude.{◌≡◌};
ghost use Rattle.lent.specs.Model.{model};
ghost use Rattle.as5506.specs.Lists.{each};
ghost use Rattle.as5506.specs.Tables.{letter_n};
ghost use Rattle.as5506.specs.Columns.{order};
ghost use Rattle.as5506.specs.Refusals.{broken_rows, too_many_rows, bad_name, row_faults};
ghost use Rattle.tables.specs.Answer.{checked};
ghost use Rattle.tables.specs.Letter.{letter_of};

use crate::letter::{Letter, check_letters, count_of, refused_at, table_of, width_of};
use crate::{FewRows, RowNumber, Rule};
use as5506::{Refusal, TABLE_ROWS};
use lent::Tables;

// Refuses a table of no whole number of rows.
#[tactic(auto, unfolding(as5506::specs::Refusals::broken_rows))]
fn check_table(m: &Tables, letter: Letter) -> Result<(), Refusal>
    ensures { result ≡ checked (broken_rows (model m.now) (letter_of letter)) }
{
    if table_of(m, letter).len() % width_of(letter) != 0 {
        return Err(refused_at(Rule::Form, letter, 0));
    }
    Ok(())
}

// Refuses the first table of no whole number of rows.
pub fn check_whole(m: &Tables) -> Result<(), Refusal>
    ensures { result ≡ checked (each (broken_rows (model m.now)) order) }
{
    check_letters(|letter| check_table(m, letter))
}

// Refuses a table of too many rows.
#[tactic(auto, unfolding(as5506::specs::Refusals::too_many_rows))]
fn check_count(m: &Tables, letter: Letter) -> Result<(), Refusal>
    ensures { result ≡ checked (too_many_rows (model m.now) (letter_of letter)) }
{
    if TABLE_ROWS < count_of(m, letter) {
        return Err(refused_at(Rule::Form, letter, TABLE_ROWS as u32));
    }
    Ok(())
}

// Refuses the first table of too many rows.
pub fn check_few(m: &Tables) -> Result<(), Refusal>
    ensures { result ≡ checked (each (too_many_rows (model m.now)) order) }
{
    check_letters(|letter| check_count(m, letter))
}

impl FewRows<'_, '_> {
    // Whether a name leaves the byte table, or has a bad byte or length.
    #[tactic(auto, unfolding(as5506::specs::Refusals::bad_name))]
    fn bad_name(&self, row: RowNumber) -> bool
        ensures { result ≡ bad_name (model self.now.m.now) row.i }
    {
        let start = self.field(Letter::N, row, 0) as usize;
        let length = self.field(Letter::N, row, 1) as usize;
        self.m.bytes.len() < start + length || !name::good_name(name::name_of(self.m, row.i as u32))
    }

    // Refuses the first bad name.
    pub fn check_names(&self) -> Result<(), Refusal>
        ensures { result ≡ checked (row_faults 10 (model self.now.m.now) letter_n (bad_name (model self.now.m.now))) }
    {
        self.check_rows(Rule::Form, Letter::N, |row| self.bad_name(row))
    }
}

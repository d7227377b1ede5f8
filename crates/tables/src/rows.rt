// What the tables hold, row by row, and the check that goes over the rows of a table.
ghost use Rattle.std.specs.Prelude.{◌≡◌, ◌≤◌};
ghost use Rattle.lent.specs.Model.{model};
ghost use Rattle.as5506.specs.Refusals.{row_faults};
ghost use Rattle.as5506.specs.Tables.{count, at};
ghost use Rattle.tables.specs.Answer.{checked};
ghost use Rattle.tables.specs.Rule.{number_of};
ghost use Rattle.tables.specs.Letter.{letter_of};
ghost use Rattle.tables.specs.Rows.{Tests};

use crate::letter::{Letter, count_of, refused_at, table_of, width_of};
use crate::{FewRows, RowNumber, Rule};
use as5506::Refusal;

impl FewRows<'_, '_> {
    // The rows of a table.
    pub fn count_of(&self, letter: Letter) -> usize
        ensures value { result ≡ count (model self.now.m.now) (letter_of letter) }
        ensures upper_bound { result ≤ 4096 }
    {
        count_of(self.m, letter)
    }

    // Number j of a row, 0 past the end of the table.
    pub fn field(&self, letter: Letter, row: RowNumber, j: u8) -> u32
        ensures { result ≡ at (model self.now.m.now) (letter_of letter) row.i j }
    {
        lent::get_or(
            table_of(self.m, letter),
            row.i * width_of(letter) + j as usize,
            0,
        )
    }

    // Refuses the lowest bad row of a letter's table.
    pub fn check_rows<F: Fn(RowNumber) -> bool>(
        &self,
        rule: Rule,
        letter: Letter,
        is_bad: F,
    ) -> Result<(), Refusal>
        requires { F.IsAlwaysCallable is_bad }
        ensures { (bad : _) → Tests (F.post is_bad) bad → result ≡ checked (row_faults (number_of rule) (model self.now.m.now) (letter_of letter) bad) }
    {
        for i in 0..self.count_of(letter) {
            if is_bad(RowNumber { i }) {
                return Err(refused_at(rule, letter, i as u32));
            }
        }
        Ok(())
    }
}

// 6: the numbers of a row in their ranges.
ghost use Rattle.std.specs.Prelude.{◌≡◌, ◌≤◌, not, map, length};
ghost use Rattle.lent.specs.Model.{model};
ghost use Rattle.as5506.specs.Columns.{columns, field_cells};
ghost use Rattle.as5506.specs.Refusals.{in_range, good_long, allows, allows_from, bad_row, row_faults, faults6};
ghost use Rattle.tables.specs.Answer.{checked};
ghost use Rattle.tables.specs.Letter.{letter_of};
ghost use Rattle.tables.specs.Column.{meaning_of, column_of};

use crate::letter::{Letter, check_letters};
use crate::{FewRows, RowNumber, Rule};
use as5506::{MISSING, Refusal};
use columns::declared;

// What a number of a row is: a name number, a row of a letter, a row of the holder's table, a number below a bound, or any number but missing.
#[derive(Clone, Copy)]
enum Meaning {
    Name,
    Row(Letter),
    Holder,
    Below(u32),
    Anything,
}

// A field of a row: a number, one that may be missing, or the three numbers of an array index.
#[derive(Clone, Copy)]
enum Column {
    Needed(Meaning),
    Optional(Meaning),
    Long,
}

// The fields of a letter's rows.
fn columns_of(letter: Letter) -> &'static [Column]
    ensures columns { map column_of result.now ≡ columns (letter_of letter) }
    ensures few { length result.now ≤ 9 }
{
    use Column::{Long, Needed, Optional};
    use Meaning::{Anything, Below, Holder, Name, Row};
    match letter {
        Letter::N => &[],
        Letter::C => &[
            Needed(Name),
            Optional(Row(Letter::C)),
            Long,
            Needed(Name),
            Needed(Name),
            Optional(Name),
            Needed(Anything),
        ],
        Letter::F => &[Needed(Name), Needed(Row(Letter::C)), Needed(Below(10))],
        Letter::X => &[
            Needed(Name),
            Needed(Row(Letter::C)),
            Needed(Below(5)),
            Optional(Name),
            Optional(Name),
            Optional(Name),
            Optional(Name),
        ],
        Letter::P => &[Needed(Name)],
        Letter::I => &[Needed(Row(Letter::P)), Needed(Name)],
        Letter::T => &[Needed(Row(Letter::P)), Needed(Name), Needed(Below(2))],
        Letter::Q => &[
            Needed(Row(Letter::P)),
            Needed(Name),
            Needed(Name),
            Needed(Below(2)),
        ],
        Letter::U => &[
            Needed(Row(Letter::P)),
            Needed(Name),
            Needed(Below(2)),
            Optional(Name),
            Optional(Name),
            Optional(Name),
            Optional(Name),
            Optional(Name),
            Optional(Name),
        ],
        Letter::E => &[
            Needed(Below(2)),
            Needed(Holder),
            Needed(Name),
            Needed(Below(10)),
            Optional(Below(3)),
            Optional(Name),
            Optional(Name),
            Optional(Name),
        ],
        Letter::R => &[
            Needed(Row(Letter::P)),
            Needed(Below(3)),
            Needed(Name),
            Needed(Name),
            Optional(Name),
        ],
        Letter::M => &[Needed(Name), Needed(Row(Letter::C)), Needed(Below(2))],
    }
}

// Whether three numbers are an array index: there and any, or not there and 0.
fn good_long(there: u32, high: u32, low: u32) -> bool
    ensures { result ≡ good_long there high low }
{
    there == 1 || (there == 0 && high == 0 && low == 0)
}

// The numbers that a field takes. By cases: the other columns take one.
fn cells_of(column: Column) -> u8
    ensures cells { result ≡ field_cells (column_of column) }
    ensures few { result ≤ 3 }
{
    match column {
        Column::Long => 3,
        _ => 1,
    }
}

impl FewRows<'_, '_> {
    // Whether the number v in a row is in the range that its meaning gives.
    fn in_range(&self, row: RowNumber, meaning: Meaning, v: u32) -> bool
        ensures { result ≡ in_range (model self.now.m.now) row.i (meaning_of meaning) v }
    {
        match meaning {
            Meaning::Name => (v as usize) < self.count_of(Letter::N),
            Meaning::Row(letter) => (v as usize) < self.count_of(letter),
            Meaning::Holder => {
                let holder = if declared::holder_kind_of(self.m, row.i)
                    == declared::HOLDER_COMPONENT_TYPE
                {
                    Letter::T
                } else {
                    Letter::U
                };
                (v as usize) < self.count_of(holder)
            }
            Meaning::Below(bound) => v < bound,
            Meaning::Anything => v != MISSING,
        }
    }

    // Whether the field of a row from number j on is in its range. (That j is small, so that the numbers behind it have
    // a place in a byte too.)
    fn allows(&self, letter: Letter, row: RowNumber, j: u8, column: Column) -> bool
        requires { j ≤ 27 }
        ensures { result ≡ allows (model self.now.m.now) (letter_of letter) row.i j (column_of column) }
    {
        let v = self.field(letter, row, j);
        match column {
            Column::Needed(meaning) => self.in_range(row, meaning, v),
            Column::Optional(meaning) => v == MISSING || self.in_range(row, meaning, v),
            Column::Long => good_long(
                v,
                self.field(letter, row, j + 1),
                self.field(letter, row, j + 2),
            ),
        }
    }

    // Whether a number of a row is past its range. (`j` is no index of the loop: a field takes one number or three.)
    fn bad_row(&self, letter: Letter, row: RowNumber) -> bool
        ensures { result ≡ bad_row (model self.now.m.now) (letter_of letter) row.i }
    {
        let mut j: u8 = 0;
        for column in columns_of(letter) {
            if !self.allows(letter, row, j, *column) {
                return true;
            }
            j += cells_of(*column);
        }
        false
    }

    // Refuses the first row of a letter with a number past its range.
    fn check_letter(&self, letter: Letter) -> Result<(), Refusal>
        ensures { result ≡ checked (row_faults 6 (model self.now.m.now) (letter_of letter) (bad_row (model self.now.m.now) (letter_of letter))) }
    {
        self.check_rows(Rule::Range, letter, |row| self.bad_row(letter, row))
    }

    // Refuses the first row with a number past its range.
    #[tactic(auto, unfolding(as5506::specs::Refusals::faults6))]
    pub fn check_fields(&self) -> Result<(), Refusal>
        ensures { result ≡ checked (faults6 (model self.now.m.now)) }
    {
        check_letters(|letter| self.check_letter(letter))
    }
}

// The fields of a sheet's line, of any letter: which may be missing and which are long is data, a mark for each. For the reader (crate sheet) and its
// trials. Definitions: as5506, Columns and Fields; specs/Fields.antt says how the code holds a field and its columns.
#![tactic(auto)]

ghost use Rattle.std.specs.Prelude.{◌≡◌, true, false, ◌+◌, ◌≤◌, length, drop};
ghost use Rattle.std.specs.Bool.{then_some};
ghost use Rattle.std.proofs.lemmas.List.Edits.{sets};
ghost use Rattle.as5506.specs.Columns.{field_bytes, field_cells, line_bytes, row_cells};
ghost use Rattle.as5506.specs.Fields.{unspaced, decimal_from, is_number, field_of, fits, number_of, long_numbers, numbers_of, fields_fit, field_numbers};
ghost use Rattle.fields.specs.Fields.{shown, Short, spelt, column, columns_of, is_short};

// What a field may be.
#[derive(Clone, Copy)]
pub enum Mark {
    // A number of six columns.
    Needed,
    // The same, or missing.
    Optional,
    // A number of twenty columns, or missing.
    Long,
}

// What the columns of a field say: a number, a lone `-`, or something against the sheet's rules. Three cases, as the definition has them: an Option
// could not tell the last two apart.
#[derive(Clone, Copy)]
enum Field {
    Value(u64),
    Dash,
    Bad,
}

// What the high number of a long field counts.
const TWO_TO_32: u64 = 4294967296;

impl Mark {
    // The columns of a line that a field takes. By cases: two marks take six.
    fn columns(self) -> usize
        ensures { result ≡ field_bytes (column self) }
    {
        match self {
            Mark::Needed | Mark::Optional => 6,
            Mark::Long => 20,
        }
    }
}

// What follows the spaces in front. No `for`: nothing is counted; each turn takes one space off, until the first byte is none.
#[tactic(auto, using(crate::proofs::Laws::space_laws))]
fn unspaced(f: &[u8]) -> &[u8]
    ensures { result.now ≡ unspaced f.now }
{
    let mut rest = f;
    while let [b' ', more @ ..] = rest {
        rest = more;
    }
    rest
}

// The number that bytes spell, where all are digits and it has 64 bits at most.
#[tactic(auto, using(crate::proofs::Laws::digit_laws))]
fn digits(s: &[u8]) -> Option<u64>
    ensures { result ≡ spelt 0 s.now }
{
    let mut v: u64 = 0;
    for b in s {
        if !b.is_ascii_digit() {
            return None;
        }
        v = v.checked_mul(10)?.checked_add((*b - b'0') as u64)?;
    }
    Some(v)
}

// The same where there is a digit at all, and a 0 in front stands alone: a number that stands by itself, without columns, as an argument of a program.
// By cases of the bytes: it asks how they begin, and hands them on.
#[tactic(auto, using(crate::proofs::Laws::number_laws))]
pub fn number_in(s: &[u8]) -> Option<u64>
    ensures { result ≡ then_some (is_number s.now) (decimal_from 0 s.now) }
{
    match s {
        [] | [b'0', _, ..] => None,
        _ => digits(s),
    }
}

// A field, of however many columns.
#[tactic(auto, using(crate::proofs::Laws::field_laws))]
fn field_of(f: &[u8]) -> Field
    ensures { shown result ≡ field_of f.now }
{
    match unspaced(f) {
        b"-" => Field::Dash,
        s => number_in(s).map_or(Field::Bad, Field::Value),
    }
}

impl Field {
    // "missing, allowed only in fields marked ?": whether a field keeps the rules.
    fn fits(self, mark: Mark) -> bool
        ensures { result ≡ fits (column mark) (shown self) }
    {
        match (self, mark) {
            (Field::Bad, _) | (Field::Dash, Mark::Needed) => false,
            _ => true,
        }
    }

    // The number that a table holds for a field that is not long. By cases: a lone `-` is missing, and a bad field, which no table gets, 0.
    fn number(self) -> u32
        requires { Short (shown self) }
        ensures { result ≡ number_of (shown self) }
    {
        match self {
            Field::Value(v) => v as u32,
            Field::Dash => as5506::MISSING,
            Field::Bad => 0,
        }
    }

    // The numbers that it holds for a long one: present, high, low. By cases, as `number`.
    fn long_numbers(self) -> [u32; 3]
        ensures { result ≡ long_numbers (shown self) }
    {
        match self {
            Field::Value(v) => [1, (v / TWO_TO_32) as u32, (v % TWO_TO_32) as u32],
            Field::Dash | Field::Bad => [0, 0, 0],
        }
    }

    // Writes the numbers of a field to `table` from index `at` on, and gives the index behind them.
    fn put(self, mark: Mark, table: &mut [u32], at: usize) -> usize
        requires { (is_short mark ≡ true → Short (shown self)) × (at + field_cells (column mark) ≤ length table.old) }
        ensures { (result ≡ at + field_cells (column mark)) × (table.new ≡ sets table.old at (numbers_of (column mark) (shown self))) }
    {
        match mark {
            Mark::Long => {
                lent::put_all(table, at, &self.long_numbers());
                at + 3
            }
            Mark::Needed | Mark::Optional => {
                table[at] = self.number();
                at + 1
            }
        }
    }
}

// Whether the fields behind a line's letter keep the rules of their marks.
#[tactic(auto, using(crate::proofs::Laws::fit_laws))]
pub fn fields_fit(fields: &[u8], marks: &[Mark]) -> bool
    requires { length fields.now ≡ line_bytes (columns_of marks.now) }
    ensures { result ≡ fields_fit (columns_of marks.now) fields.now }
{
    let mut rest = fields;
    for mark in marks {
        let (field, behind) = rest.split_at(mark.columns());
        if !field_of(field).fits(*mark) {
            return false;
        }
        rest = behind;
    }
    true
}

// Writes the numbers of the fields behind a line's letter to `table`, from index `at` on.
#[tactic(auto, using(crate::proofs::Laws::put_laws))]
pub fn put_fields(fields: &[u8], marks: &[Mark], table: &mut [u32], at: usize)
    requires { (length fields.now ≡ line_bytes (columns_of marks.now)) × (at + row_cells (columns_of marks.now) ≤ length table.old) }
    ensures { table.new ≡ sets table.old at (field_numbers (columns_of marks.now) fields.now) }
{
    let mut rest = fields;
    let mut place = at;
    for mark in marks {
        let (field, behind) = rest.split_at(mark.columns());
        place = field_of(field).put(*mark, table, place);
        rest = behind;
    }
}

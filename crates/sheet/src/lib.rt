// The reader of a sheet: from any bytes to tables, or to one refusal. A first pass checks every line and writes nothing; then the lines of each letter
// are written to its table (those of N to the byte table too) by a pass of their own, which begins where the pass of the letter before ended: the
// letters stand in order. So nothing has to be taken back, and the contract of a pass speaks of its tables alone. (Each line is checked once and
// written once. bench/sheet says how long that takes.)
// Definitions: as5506, Sheet and Fields; specs/Read.antt says what a call gives, specs/Steps.antt what the private functions say beside that.
// Laws for callers: proofs/Model.antt.
#![tactic(auto)]

ghost use Rattle.std.specs.Prelude.{◌≡◌, ◌≢◌, true, List, [], ◌∷◌, map, reverse, ℕ, ◌+◌, ◌≤◌, ◌<◌, length, drop, take, slice_index, MatchOption, Some};
ghost use Rattle.std.proofs.lemmas.List.Edits.{sets};
ghost use Rattle.as5506.specs.Lists.{each};
ghost use Rattle.as5506.specs.Columns.{letter_count};
ghost use Rattle.as5506.specs.Tables.{letter_n};
ghost use Rattle.as5506.specs.Answers.{refusal, line, told};
ghost use Rattle.as5506.specs.Sheet.{letter_of, line_feed, lines_of, lines_with, line_name, keeps_rules, placed, rows_read, tables_read, read_sheet};
ghost use Rattle.sheet.specs.Read.{counts_of, sheet_read, ReadInto};
ghost use Rattle.sheet.specs.Steps.{fault_number, letter_at, FormOf, place_of, index_of, lent_by, has_room, Small, Counted, Checked, answer_from, texts, in_order, Left, Cleared};
ghost use Rattle.lent.specs.Lent.{tables_to_fill, tables_left};

use as5506::{LETTER_COUNT, LETTERS, Refusal, WIDTHS};
use fields::Mark::{self, Long, Needed, Optional};

// The bytes of names, and the rows of each letter, that were read: named as the tables are (lent::Tables), which callers cut to that length.
#[derive(Clone, Copy)]
pub struct Counts {
    pub bytes: usize,
    pub n: usize,
    pub c: usize,
    pub f: usize,
    pub x: usize,
    pub p: usize,
    pub i: usize,
    pub t: usize,
    pub q: usize,
    pub u: usize,
    pub e: usize,
    pub r: usize,
    pub m: usize,
}

// The form of a letter's lines: a mark for each field, and the columns that these take together.
#[derive(Clone, Copy)]
struct Form {
    marks: &'static [Mark],
    columns: usize,
}

// By letter. (The line of N is a name.) A letter goes by its place in the order, by which forms, widths and counts stand in tables: an enum would be turned
// to that place wherever it is used, and made from it where a line's letter is found.
const FORMS: [Form; LETTER_COUNT] = [
    Form {
        marks: &[],
        columns: 0,
    },
    Form {
        marks: &[Needed, Optional, Long, Needed, Needed, Optional, Needed],
        columns: 56,
    },
    Form {
        marks: &[Needed, Needed, Needed],
        columns: 18,
    },
    Form {
        marks: &[
            Needed, Needed, Needed, Optional, Optional, Optional, Optional,
        ],
        columns: 42,
    },
    Form {
        marks: &[Needed],
        columns: 6,
    },
    Form {
        marks: &[Needed, Needed],
        columns: 12,
    },
    Form {
        marks: &[Needed, Needed, Needed],
        columns: 18,
    },
    Form {
        marks: &[Needed, Needed, Needed, Needed],
        columns: 24,
    },
    Form {
        marks: &[
            Needed, Needed, Needed, Optional, Optional, Optional, Optional, Optional, Optional,
        ],
        columns: 54,
    },
    Form {
        marks: &[
            Needed, Needed, Needed, Needed, Optional, Optional, Optional, Optional,
        ],
        columns: 48,
    },
    Form {
        marks: &[Needed, Needed, Needed, Needed, Optional],
        columns: 30,
    },
    Form {
        marks: &[Needed, Needed, Needed],
        columns: 18,
    },
];

// The form of the lines of the letter k. Each function that takes a letter's place asks that it is one, since it, or one that it calls, goes by it into an
// array. (No struct with a ghost field: two of them ask for more of the place, and it would be made of a literal at each `put_rows`.)
fn form_of(k: usize) -> Form
    requires { k < letter_count }
    ensures { FormOf k result }
{
    FORMS[k]
}

// The bytes of the byte table and the numbers of each letter's table: those that the caller lends, or those that lines take.
#[derive(Clone, Copy)]
struct Sizes {
    bytes: usize,
    numbers: [usize; LETTER_COUNT],
}

// What the lines seen so far take, and the last one's letter.
#[derive(Clone, Copy)]
struct Seen {
    last: usize,
    used: Sizes,
}

// ---- lines

// The index of the first `b`.
fn index_of(s: &[u8], b: u8) -> Option<usize>
    ensures { MatchOption result
        ((k : ℕ) → k < length s.now → slice_index s.now k ≢ b)
        (λ i. (i < length s.now) × (slice_index s.now i ≡ b) × ((k : ℕ) → k < i → slice_index s.now k ≢ b)) }
{
    s.iter().position(|x| *x == b)
}

// A sheet's first line without its LF, and what follows that; none where no line ends.
#[tactic(auto, using(crate::proofs::Lines::index_none))]
fn first_line(sheet: &[u8]) -> Option<(&[u8], &[u8])>
    ensures { MatchOption result
        (index_of line_feed sheet.now ≡ length sheet.now)
        (λ p. (index_of line_feed sheet.now < length sheet.now)
        × (p.0.now ≡ take (index_of line_feed sheet.now) sheet.now)
        × (p.1.now ≡ drop (index_of line_feed sheet.now + 1) sheet.now)) }
{
    let end = index_of(sheet, b'\n')?;
    Some((&sheet[..end], &sheet[end + 1..]))
}

// The place of a line's letter, where that is known. (An empty line's first byte is 0, which is no letter.)
fn letter(line: &[u8]) -> Option<usize>
    ensures { result ≡ place_of (letter_of line.now) }
{
    index_of(&LETTERS, lent::get_or(line, 0, 0))
}

// ---- no. 4

// Whether an N line keeps the rules: one space, then a name.
#[tactic(auto, using(crate::proofs::Check::name_laws))]
fn name_ok(line: &[u8]) -> bool
    ensures { result ≡ keeps_rules letter_n line.now }
{
    match line {
        [_, b' ', name @ ..] => name::good_name(name),
        _ => false,
    }
}

// Whether a line of any other letter k does: its length, then its fields.
#[tactic(auto, using(crate::proofs::Check::row_laws))]
fn row_ok(line: &[u8], k: usize) -> bool
    requires { (0 < k) × (k < letter_count) }
    ensures { result ≡ keeps_rules (letter_at k) line.now }
{
    let form = form_of(k);
    line.len() == 1 + form.columns && fields::fields_fit(&line[1..], form.marks)
}

// "length, field or name against the sheet's rules": whether a line of the letter k keeps them.
fn line_ok(line: &[u8], k: usize) -> bool
    requires { k < letter_count }
    ensures { result ≡ keeps_rules (letter_at k) line.now }
{
    if k == 0 {
        name_ok(line)
    } else {
        row_ok(line, k)
    }
}

// ---- the check

// What is wrong where a sheet is refused.
#[derive(Clone, Copy)]
enum Fault {
    // The sheet has too many bytes.
    TooLong = 1,
    // A line's letter is not known, or the last line has no LF.
    NoLetter = 2,
    // A line's letter stands before the letter of the line above.
    OutOfOrder = 3,
    // A line's length, a field or a name is against the rules.
    BadLine = 4,
    // A line has no place in the table of its letter, or its name none in the byte table.
    NoRoom = 5,
}

impl Fault {
    // The refusal that tells it of a line, by its number; 0 where it has no place.
    fn at_line(self, place: u32) -> Refusal
        ensures { result ≡ told (refusal (fault_number self) (line place)) }
    {
        Refusal {
            number: self as u32,
            place,
            letter: b'-',
        }
    }
}

// One more line is seen, of the letter k: at N it takes its name's bytes too.
fn count_line(line: &[u8], k: usize, seen: &mut Seen)
    requires { (k < letter_count) × (Some k ≡ place_of (letter_of line.now)) × (length line.now ≤ 16384) × Small seen.old.used }
    ensures { (before : List (List ℕ)) → Counted seen.old before → Counted seen.new (line.now ∷ before) }
{
    seen.last = k;
    seen.used.numbers[k] += WIDTHS[k];
    if k == 0 {
        seen.used.bytes += line.len().saturating_sub(2);
    }
}

// No. 5: whether lines of which the last is of the letter k have a place: their rows in that letter's table, and at N their names in the byte table.
fn has_room(k: usize, used: &Sizes, room: &Sizes) -> bool
    requires { k < letter_count }
    ensures { result ≡ has_room k used.now room.now }
{
    used.numbers[k] <= room.numbers[k] && (k != 0 || used.bytes <= room.bytes)
}

// One more line is seen, or refused. "The table is the order of checks."
#[tactic(auto, using(crate::proofs::Check::told_2))]
fn check_line(line: &[u8], place: u32, seen: &mut Seen, room: &Sizes) -> Result<(), Refusal>
    requires { (length line.now ≤ 16384) × Small seen.old.used }
    ensures { (before : List (List ℕ)) → Counted seen.old before → Checked (lent_by room.now) before place line.now seen.new result }
{
    let Some(k) = letter(line) else {
        return Err(Fault::NoLetter.at_line(place));
    };
    if k < seen.last {
        return Err(Fault::OutOfOrder.at_line(place));
    }
    if !line_ok(line, k) {
        return Err(Fault::BadLine.at_line(place));
    }
    count_line(line, k, seen);
    if !has_room(k, &seen.used, room) {
        return Err(Fault::NoRoom.at_line(place));
    }
    Ok(())
}

// The rows of each letter, from the numbers in its table.
#[tactic(auto, using(crate::proofs::Check::counted_rows))]
fn counted(seen: &Seen) -> Counts
    ensures { (before : List (List ℕ)) → Counted seen.now before → result ≡ counts_of (tables_read (reverse before)) }
{
    let numbers = &seen.used.numbers;
    Counts {
        bytes: seen.used.bytes,
        n: numbers[0] / as5506::N_NUMBERS,
        c: numbers[1] / as5506::C_NUMBERS,
        f: numbers[2] / as5506::F_NUMBERS,
        x: numbers[3] / as5506::X_NUMBERS,
        p: numbers[4] / as5506::P_NUMBERS,
        i: numbers[5] / as5506::I_NUMBERS,
        t: numbers[6] / as5506::T_NUMBERS,
        q: numbers[7] / as5506::Q_NUMBERS,
        u: numbers[8] / as5506::U_NUMBERS,
        e: numbers[9] / as5506::E_NUMBERS,
        r: numbers[10] / as5506::R_NUMBERS,
        m: numbers[11] / as5506::M_NUMBERS,
    }
}

// "Lines go singly through 2 to 5, up to the first bad one." No `for` over `split_inclusive(..).enumerate()` (tried): what a turn gives is told of
// the closure alone, so laws would stand beside those of `first_line`, which `put_names` needs too; and an own iterator of lines is longer than the loop.
fn check_lines(sheet: &[u8], room: &Sizes) -> Result<Counts, Refusal>
    requires { length sheet.now ≤ 16384 }
    ensures { result ≡ answer_from (lent_by room.now) [] 1 (lines_of sheet.now) }
{
    let mut seen = Seen {
        last: 0,
        used: Sizes {
            bytes: 0,
            numbers: [0; LETTER_COUNT],
        },
    };
    let mut rest = sheet;
    let mut place: u32 = 1;
    while !rest.is_empty() {
        let Some((line, behind)) = first_line(rest) else {
            return Err(Fault::NoLetter.at_line(place));
        };
        check_line(line, place, &mut seen, room)?;
        rest = behind;
        place += 1;
    }
    Ok(counted(&seen))
}

// The reader's answer. Nothing is written.
#[tactic(auto, using(crate::proofs::Check::length_laws))]
fn check_sheet(sheet: &[u8], room: &Sizes) -> Result<Counts, Refusal>
    ensures { result ≡ sheet_read (read_sheet (lent_by room.now) sheet.now) }
{
    if as5506::SHEET_BYTES < sheet.len() {
        return Err(Fault::TooLong.at_line(0));
    }
    check_lines(sheet, room)
}

// ---- the tables

// Writes the names one after the other to the byte table, and each one's offset and length there to the table of N, and gives what follows the N lines. Two
// tables and no struct: each is lent by itself, as to `read_sheet`. No `for`: the loop ends where the lines do. (`used` is itself written; of `at` holds what
// `put_rows` says of chunks.)
fn put_names<'a>(sheet: &'a [u8], bytes: &mut [u8], n: &mut [u32]) -> &'a [u8]
    requires { (length sheet.now ≤ 16384) × (in_order 0 (lines_of sheet.now) ≡ true)
        × (length (each line_name (lines_with letter_n (texts sheet.now))) ≤ length bytes.old)
        × (length (placed 0 (map line_name (lines_with letter_n (texts sheet.now)))) ≤ length n.old) }
    ensures { Left sheet.now 1 result.now
        × (bytes.new ≡ sets bytes.old 0 (each line_name (lines_with letter_n (texts sheet.now))))
        × (n.new ≡ sets n.old 0 (placed 0 (map line_name (lines_with letter_n (texts sheet.now))))) }
{
    let mut rest = sheet;
    let mut used = 0;
    let mut at = 0;
    while lent::get_or(rest, 0, 0) == b'N' {
        let (line, behind) = first_line(rest).unwrap();
        let name = &line[2..];
        lent::put_all(bytes, used, name);
        lent::put_all(n, at, &[used as u32, name.len() as u32]);
        used += name.len();
        at += 2;
        rest = behind;
    }
    rest
}

// Writes the rows of a letter k other than N, whose lines come first in a sheet, to its table, and gives what follows those lines.
// Every line of the letter takes the same columns, so its LF need not be looked for. No `for row in table.chunks_exact_mut(WIDTHS[k])`, which would end
// where the letter's lines do (tried: the returns do not close): no clause of std says what a slice holds when its chunks have been written.
fn put_rows<'a>(sheet: &'a [u8], k: usize, table: &mut [u32]) -> &'a [u8]
    requires { (0 < k) × (k < letter_count) × (in_order k (lines_of sheet.now) ≡ true) × (length (rows_read (letter_at k) (texts sheet.now)) ≤ length table.old) }
    ensures { Left sheet.now (k + 1) result.now
        × (table.new ≡ sets table.old 0 (rows_read (letter_at k) (texts sheet.now))) }
{
    let form = form_of(k);
    let mut rest = sheet;
    let mut at = 0;
    while lent::get_or(rest, 0, 0) == LETTERS[k] {
        let (line, behind) = rest.split_at(1 + form.columns);
        fields::put_fields(&line[1..], form.marks, table, at);
        at += WIDTHS[k];
        rest = &behind[1..];
    }
    rest
}

// ---- the whole

// Makes every lent place 0. (Slice by slice, as `read_sheet` takes them.)
fn clear_all(
    bytes: &mut [u8],
    n: &mut [u32],
    c: &mut [u32],
    f: &mut [u32],
    x: &mut [u32],
    p: &mut [u32],
    i: &mut [u32],
    t: &mut [u32],
    q: &mut [u32],
    u: &mut [u32],
    e: &mut [u32],
    r: &mut [u32],
    m: &mut [u32],
)
    ensures { Cleared
        (tables_to_fill bytes n c f x p i t q u e r m)
        (tables_left bytes n c f x p i t q u e r m) }
{
    bytes.fill(0);
    n.fill(0);
    c.fill(0);
    f.fill(0);
    x.fill(0);
    p.fill(0);
    i.fill(0);
    t.fill(0);
    q.fill(0);
    u.fill(0);
    e.fill(0);
    r.fill(0);
    m.fill(0);
}

// THE READER: the answer, and every lent slice afterwards. The tables are cleared first; a refusal leaves it at that.
// (The thirteen slices stay parameters of their own, as the C interface hands them over and as each pass takes them: a struct of them would be made at
// every call and taken apart here.)
pub fn read_sheet(
    sheet: &[u8],
    bytes: &mut [u8],
    n: &mut [u32],
    c: &mut [u32],
    f: &mut [u32],
    x: &mut [u32],
    p: &mut [u32],
    i: &mut [u32],
    t: &mut [u32],
    q: &mut [u32],
    u: &mut [u32],
    e: &mut [u32],
    r: &mut [u32],
    m: &mut [u32],
) -> Result<Counts, Refusal>
    ensures { ReadInto
        (tables_to_fill bytes n c f x p i t q u e r m)
        sheet.now result
        (tables_left bytes n c f x p i t q u e r m) }
{
    let room = Sizes {
        bytes: bytes.len(),
        numbers: [
            n.len(),
            c.len(),
            f.len(),
            x.len(),
            p.len(),
            i.len(),
            t.len(),
            q.len(),
            u.len(),
            e.len(),
            r.len(),
            m.len(),
        ],
    };
    clear_all(bytes, n, c, f, x, p, i, t, q, u, e, r, m);
    let counts = check_sheet(sheet, &room)?;
    // Call by call, and no loop over an array of the slices: an array of `&mut` of different lifetimes is not covered by the check.
    let from_c = put_names(sheet, bytes, n);
    let from_f = put_rows(from_c, 1, c);
    let from_x = put_rows(from_f, 2, f);
    let from_p = put_rows(from_x, 3, x);
    let from_i = put_rows(from_p, 4, p);
    let from_t = put_rows(from_i, 5, i);
    let from_q = put_rows(from_t, 6, t);
    let from_u = put_rows(from_q, 7, q);
    let from_e = put_rows(from_u, 8, u);
    let from_r = put_rows(from_e, 9, e);
    let from_m = put_rows(from_r, 10, r);
    put_rows(from_m, 11, m);
    Ok(counts)
}

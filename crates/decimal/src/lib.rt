// Numbers in decimal, the one place that prints them: by subtracting powers of ten, with no division and no remainder. Laws for callers:
// proofs/Columns.antt.
#![tactic(auto)]

ghost use Rattle.std.specs.Prelude.{◌≡◌, ◌++◌, ◌+◌, ◌*◌, ◌/◌, ◌%◌, ◌^◌, ◌<◌, ◌≤◌, length, drop};
ghost use Rattle.as5506.specs.Lists.{each};
ghost use Rattle.as5506.specs.Text.{digits, column};
ghost use Rattle.output.specs.Put.{Put};
ghost use Rattle.decimal.specs.Powers.{PowersOfTen};

use output::Output;

const POWERS: [usize; 20] = [
    1,
    10,
    100,
    1000,
    10000,
    100000,
    1000000,
    10000000,
    100000000,
    1000000000,
    10000000000,
    100000000000,
    1000000000000,
    10000000000000,
    100000000000000,
    1000000000000000,
    10000000000000000,
    100000000000000000,
    1000000000000000000,
    10000000000000000000,
];

// The powers of ten that 64 bits hold, each ten times the one before. They go from 1 upwards, so that small numbers, which are most, look at the front only.
// Laid out once and lent: of a `static` the compiler puts the entries into the code, and compares with some of them by a shift (tests/no_division).
#[derive(Drop)]
struct Powers {
    of_ten: [usize; 20],
    ghost rule: { PowersOfTen of_ten },
}

impl Powers {
    #[tactic(auto, unfolding(crate::specs::Powers::tenfold))]
    fn new() -> Powers {
        Powers { of_ten: POWERS }
    }

    // The power at a place.
    #[tactic(auto, using(crate::proofs::Table::power_at))]
    fn at(&self, k: usize) -> usize
        requires { k < 20 }
        ensures { result ≡ 10 ^ k }
    {
        self.of_ten[k]
    }
}

// A digit, and what is left of its number.
#[derive(Clone, Copy)]
struct Digit {
    byte: u8,
    rest: usize,
}

// The first digit of a number below ten times a power: how often the power can be subtracted. That is known only when it no longer can, so the loop is
// no `for`; a division would tell it, and there is to be none.
#[tactic(auto, using(crate::proofs::Spelt::subtracting))]
fn first_digit(n: usize, power: usize) -> Digit
    requires { (0 < power) × (n < 10 * power) }
    ensures { (result.byte ≡ 48 + n / power) × (result.rest ≡ n % power) }
{
    let mut byte = b'0';
    let mut rest = n;
    while power <= rest {
        rest -= power;
        byte += 1;
    }
    Digit { byte, rest }
}

// How many digits a number has: the lowest power beyond it, or all of the table.
#[tactic(auto, using(crate::proofs::Digits::digits_some, crate::proofs::Digits::digits_short, crate::proofs::Digits::digits_long))]
fn digit_count(n: usize, powers: &Powers) -> usize
    ensures { (result ≤ 20) × (result ≡ length (digits n)) }
{
    for k in 1..20 {
        if n < powers.at(k) {
            return k;
        }
    }
    20
}

// Prints n in decimal over the end of `columns`: what it leaves of them stands before it, and a longer number stands in full.
#[tactic(auto, using(crate::proofs::Spelt::spelling))]
fn put_digits(n: usize, powers: &Powers, columns: &[u8], out: &mut Output)
    ensures { Put (drop (length (digits n)) columns.now ++ digits n) out.old out.new }
{
    let count = digit_count(n, powers);
    out.put(lent::part(columns, count, columns.len()));
    let mut rest = n;
    for k in (0..count).rev() {
        let digit = first_digit(rest, powers.at(k));
        out.put(&[digit.byte]);
        rest = digit.rest;
    }
}

// The same over six columns.
#[tactic(auto, using(output::proofs::Put::put_as, crate::proofs::Columns::decimal_column))]
fn put_in_six(n: usize, powers: &Powers, out: &mut Output)
    ensures { Put (column n) out.old out.new }
{
    put_digits(n, powers, b"      ", out)
}

// Prints n in decimal over the end of `columns`.
pub fn put_decimal(n: usize, columns: &[u8], out: &mut Output)
    ensures { Put (drop (length (digits n)) columns.now ++ digits n) out.old out.new }
{
    put_digits(n, &Powers::new(), columns, out)
}

// Prints a number in six columns.
pub fn put_column(n: usize, out: &mut Output)
    ensures { Put (column n) out.old out.new }
{
    put_in_six(n, &Powers::new(), out)
}

// Prints numbers, each in six columns.
#[tactic(auto, using(crate::proofs::Each::printing_each))]
pub fn put_columns(numbers: &[u32], out: &mut Output)
    ensures { Put (each column numbers.now) out.old out.new }
{
    let powers = Powers::new();
    for &number in numbers {
        put_in_six(number as usize, &powers, out);
    }
}

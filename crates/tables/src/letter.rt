// The letters of the tables, in their order.
ghost use Rattle.std.specs.Prelude.{◌≡◌, ◌≤◌, ◌<◌};
ghost use Rattle.lent.specs.Model.{model};
ghost use Rattle.as5506.specs.Tables.{table, width, count};
ghost use Rattle.as5506.specs.Columns.{order, letter_byte};
ghost use Rattle.as5506.specs.Answers.{refusal, told, row};
ghost use Rattle.as5506.specs.Lists.{each};
ghost use Rattle.tables.specs.Answer.{checked};
ghost use Rattle.tables.specs.Rule.{number_of};
ghost use Rattle.tables.specs.Letter.{letter_of, Gives};

use crate::Rule;
use as5506::{LETTERS, Refusal, WIDTHS};
use lent::Tables;

// A letter.
#[derive(Clone, Copy)]
pub enum Letter {
    N,
    C,
    F,
    X,
    P,
    I,
    T,
    Q,
    U,
    E,
    R,
    M,
}

const ORDER: [Letter; as5506::LETTER_COUNT] = [
    Letter::N,
    Letter::C,
    Letter::F,
    Letter::X,
    Letter::P,
    Letter::I,
    Letter::T,
    Letter::Q,
    Letter::U,
    Letter::E,
    Letter::R,
    Letter::M,
];

// The table of a letter. By cases: each is a field of its own.
pub fn table_of<'a>(m: &Tables<'a>, letter: Letter) -> &'a [u32]
    ensures { result.now ≡ table (model m.now) (letter_of letter) }
{
    match letter {
        Letter::N => m.n,
        Letter::C => m.c,
        Letter::F => m.f,
        Letter::X => m.x,
        Letter::P => m.p,
        Letter::I => m.i,
        Letter::T => m.t,
        Letter::Q => m.q,
        Letter::U => m.u,
        Letter::E => m.e,
        Letter::R => m.r,
        Letter::M => m.m,
    }
}

// The numbers of a row.
pub fn width_of(letter: Letter) -> usize
    ensures width { result ≡ width (letter_of letter) }
    ensures some { 0 < result }
    ensures few { result ≤ 9 }
{
    WIDTHS[letter as usize]
}

// The rows of a table.
pub fn count_of(m: &Tables, letter: Letter) -> usize
    ensures { result ≡ count (model m.now) (letter_of letter) }
{
    table_of(m, letter).len() / width_of(letter)
}

impl Rule {
    // The number that it has in a refusal.
    fn number(self) -> u32
        ensures { result ≡ number_of self }
    {
        self as u32
    }
}

// A refusal at a row of a letter's table.
pub fn refused_at(rule: Rule, letter: Letter, place: u32) -> Refusal
    ensures { result ≡ told (refusal (number_of rule) (row (letter_of letter) place)) }
{
    Refusal {
        number: rule.number(),
        place,
        letter: LETTERS[letter as usize],
    }
}

// The first refusal that a check of each letter gives.
pub fn check_letters<F: Fn(Letter) -> Result<(), Refusal>>(check: F) -> Result<(), Refusal>
    requires { F.IsAlwaysCallable check }
    ensures { (faults_of : _) → Gives (F.post check) faults_of → result ≡ checked (each faults_of order) }
{
    for letter in ORDER {
        check(letter)?;
    }
    Ok(())
}

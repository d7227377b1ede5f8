// An answer as numbers.
ghost use Rattle.std.specs.Prelude.{◌≡◌, ◌≤◌, List, ℕ};
ghost use Rattle.conlist_c.specs.Numbers.{refused_numbers, answer_numbers, none_numbers, read_numbers, expanded_numbers, listed_numbers, both_numbers, modes_numbers, selected_numbers};

use as5506::{Listed, Refusal};
use feature_group::Expanded;
use listing::Both;
use operation_modes::{Modes, Selected};
use sheet::Counts;

// What is told as N numbers where it is given: 0, and what there is of each thing.
pub trait Given<const N: usize> {
    ghost numbers: { Self → List ℕ };

    fn numbers(self) -> [u64; N]
        ensures { result ≡ numbers self };
}

// An answer as N numbers: what is given, or the refusal's number, which is never 0, its place and its letter, and zeros.
pub fn told<T: Given<N>, const N: usize>(answer: Result<T, Refusal>) -> [u64; N]
    requires { 3 ≤ N }
    ensures { result ≡ answer_numbers N T.numbers answer }
{
    match answer {
        Ok(given) => given.numbers(),
        Err(reason) => refused(reason),
    }
}

fn refused<const N: usize>(reason: Refusal) -> [u64; N]
    requires { 3 ≤ N }
    ensures { result ≡ refused_numbers N reason }
{
    let mut told = [0; N];
    told[0] = u64::from(reason.number);
    told[1] = u64::from(reason.place);
    told[2] = u64::from(reason.letter);
    told
}

// Tables that are accepted.
impl Given<3> for () {
    ghost numbers = { none_numbers };

    fn numbers(self) -> [u64; 3] {
        [0; 3]
    }
}

impl Given<14> for Counts {
    ghost numbers = { read_numbers };

    fn numbers(self) -> [u64; 14] {
        [
            0,
            self.bytes as u64,
            self.n as u64,
            self.c as u64,
            self.f as u64,
            self.x as u64,
            self.p as u64,
            self.i as u64,
            self.t as u64,
            self.q as u64,
            self.u as u64,
            self.e as u64,
            self.r as u64,
            self.m as u64,
        ]
    }
}

impl Given<3> for Expanded {
    ghost numbers = { expanded_numbers };

    fn numbers(self) -> [u64; 3] {
        [0, self.features as u64, u64::from(self.visits)]
    }
}

impl Given<3> for Listed {
    ghost numbers = { listed_numbers };

    fn numbers(self) -> [u64; 3] {
        [0, self.rows as u64, self.diagnostics as u64]
    }
}

impl Given<5> for Both {
    ghost numbers = { both_numbers };

    fn numbers(self) -> [u64; 5] {
        [
            0,
            self.traced.rows as u64,
            self.traced.diagnostics as u64,
            self.group.rows as u64,
            self.group.diagnostics as u64,
        ]
    }
}

impl Given<3> for Modes {
    ghost numbers = { modes_numbers };

    fn numbers(self) -> [u64; 3] {
        [0, self.number as u64, u64::from(self.cut)]
    }
}

impl Given<3> for Selected {
    ghost numbers = { selected_numbers };

    fn numbers(self) -> [u64; 3] {
        [0, self.rows as u64, self.bytes as u64]
    }
}

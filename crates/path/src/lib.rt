// A path: numbers in the order in which they were gone over, in fixed memory, since nothing is allocated.
#![tactic(auto)]

ghost use Rattle.std.specs.Prelude.{◌≡◌, List, [], ◌∷◌, ◌++◌, ℕ, ◌+◌, ◌<◌, ◌≤◌, length, take};
ghost use Rattle.as5506.specs.Lists.{has, padded};
ghost use Rattle.as5506.specs.Tracing.{append_new};
ghost use Rattle.path.specs.Places.{front-size};
ghost use Rattle.std.proofs.Common.{ap₂, sym};

use std::marker::Model;

// At most N numbers, one behind the other. A contract sees their list.
#[derive(Clone, Copy)]
pub struct Path<const N: usize> {
    // The numbers, and zeros behind them.
    places: [u32; N],
    // How many places are taken.
    len: usize,
}

impl<const N: usize> Model for Path<N> {
    ghost Value = { List ℕ };

    ghost view = { λ p. take p.len p.places };

    ghost invariant = { λ p. (p.len ≤ N) × (p.places ≡ padded N (take p.len p.places)) };

    ghost inverse = { λ l. record { places = padded N l; len = length l } };

    ghost inverse_ok = { λ p h. ap₂ (λ places len. record { places = places; len = len }) (sym h.1) (front-size N p.len p.places h.0 h.1) };
}

impl<const N: usize> Path<N> {
    // None of them.
    #[tactic(auto, using(crate::proofs::Places::places_none))]
    pub fn new() -> Self
        ensures { result ≡ [] }
    {
        Path {
            places: [0u32; N],
            len: 0,
        }
    }

    // These numbers.
    #[tactic(auto, using(crate::proofs::Places::places_of))]
    pub fn of(numbers: &[u32]) -> Self
        requires { length numbers.now ≤ N }
        ensures { result ≡ numbers.now }
    {
        let mut places = [0u32; N];
        places[..numbers.len()].copy_from_slice(numbers);
        Path {
            places,
            len: numbers.len(),
        }
    }

    // How many there are.
    pub fn len(&self) -> usize
        ensures value { result ≡ length self.now }
        ensures upper_bound { result ≤ N }
    {
        self.len
    }

    // The numbers, a part of the path's own.
    pub fn numbers(&self) -> &[u32]
        ensures { result.now ≡ self.now }
    {
        &self.places[..self.len]
    }

    // All N places: the numbers, and zeros behind.
    pub fn places(&self) -> &[u32]
        ensures { result.now ≡ padded N self.now }
    {
        &self.places
    }

    // Whether v is among them.
    pub fn contains(&self, v: u32) -> bool
        ensures { result ≡ has v self.now }
    {
        self.numbers().contains(&v)
    }

    // Puts v behind them.
    pub fn push(&mut self, v: u32)
        requires { length self.old < N }
        ensures { self.new ≡ self.old ++ (v ∷ []) }
    {
        self.places[self.len] = v;
        self.len += 1;
    }

    // The same with v behind them.
    pub fn with(&self, v: u32) -> Self
        requires { length self.now < N }
        ensures { result ≡ self.now ++ (v ∷ []) }
    {
        let mut longer = *self;
        longer.push(v);
        longer
    }

    // Puts those of the numbers behind that are not yet among them.
    #[tactic(auto, using(crate::proofs::Places::one_more, crate::proofs::Places::append_old, crate::proofs::Places::append_more, crate::proofs::Places::append_done))]
    pub fn append_new(&mut self, numbers: &[u32])
        requires { length self.old + length numbers.now ≤ N }
        ensures { self.new ≡ append_new self.old numbers.now }
    {
        for v in numbers {
            if !self.contains(*v) {
                self.push(*v);
            }
        }
    }
}

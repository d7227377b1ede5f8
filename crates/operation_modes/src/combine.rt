// How many combinations of modes there are.
ghost use Rattle.std.specs.Prelude.{◌≡◌, ℕ, ◌≤◌, ◌<◌, length, ltb};
ghost use Rattle.operation_modes.specs.Linked.{modes_linked};
ghost use Rattle.operation_modes.specs.Combining.{with_next, Counts, number_of};

use crate::link::Linked;
use as5506::SELECTIONS;

// Of the components below `end`: how many combinations of their modes there are, and how many components have modes and so are chosen from.
#[derive(Clone, Copy)]
pub struct Combined {
    pub product: usize,
    pub end: usize,
    pub chosen: usize,
}

impl Combined {
    // Combines the modes of one component after the other, of `count`, until the combinations pass the limit. Later components are missing from each
    // selection.
    #[tactic(auto, using(crate::proofs::Combining::combining_over, crate::proofs::Combining::combining_whole))]
    pub fn of(linked: &Linked, count: usize) -> Combined
        requires { (count ≤ 4096) × ((o : ℕ) → length (modes_linked linked.now o) ≤ 4096) }
        ensures { Counts (modes_linked linked.now) count result }
    {
        let mut so = Combined {
            product: 1,
            end: 0,
            chosen: 0,
        };
        for i in 0..count {
            if so.is_over() {
                return so;
            }
            so = so.with_next(linked.size(i));
        }
        so
    }

    // The same with component `end` too, which has `size` modes.
    fn with_next(self, size: usize) -> Combined
        requires { (self.product ≤ 10000) × (self.end < 4096) × (self.chosen ≤ self.end) × (size ≤ 4096) }
        ensures { result ≡ with_next self size }
    {
        let end = self.end + 1;
        if size == 0 {
            return Combined { end, ..self };
        }
        Combined {
            product: self.product * size,
            end,
            chosen: self.chosen + 1,
        }
    }

    // Whether there are more combinations than the list may have selections.
    pub fn is_over(&self) -> bool
        ensures { result ≡ ltb 10000 self.now.product }
    {
        SELECTIONS < self.product
    }

    // How many selections there are.
    pub fn number(&self) -> usize
        ensures { result ≡ number_of self.now }
    {
        if self.is_over() {
            return SELECTIONS;
        }
        if self.chosen == 0 {
            return 0;
        }
        self.product
    }
}

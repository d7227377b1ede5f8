// Blocks of numbers, written one behind the other into an output that is lent for them.
ghost use Rattle.std.specs.Prelude.{◌≡◌, [], ◌∷◌, ◌*◌, ◌≤◌, ◌<◌, length};

// Blocks of N numbers, one behind the other, in an output that is lent for them, and how many of them stand there.
#[derive(Drop)]
pub struct Blocks<'a, const N: usize> {
    numbers: &'a mut [u32],
    count: usize,
    ghost sized: { 0 < N },
    ghost inside: { count * N ≤ length numbers.now },
}

impl<'a, const N: usize> Blocks<'a, N> {
    ghost use Rattle.output.specs.Blocks.{BeginsBlocks, Wrote, itself};

    // The output that these numbers are, no block written yet.
    pub fn new(numbers: &'a mut [u32]) -> Blocks<'a, N>
        requires { 0 < N }
        ensures { BeginsBlocks numbers.entry result }
    {
        Blocks { numbers, count: 0 }
    }

    // Writes a block behind those that stand there, if there is room for it.
    pub fn put(&mut self, block: &[u32; N]) -> Option<()>
        ensures { Wrote itself (block.now ∷ []) self.old result self.new }
    {
        if self.numbers.len() - self.count * N < N {
            return None;
        }
        lent::put_all(self.numbers, self.count * N, block);
        self.count += 1;
        Some(())
    }

    // How many blocks stand there.
    pub fn done(self) -> usize
        ensures { (result ≡ self.entry.count) × (self.exit.0.now ≡ self.entry.numbers.now) }
    {
        let Blocks { numbers: _, count } = self;
        count
    }
}

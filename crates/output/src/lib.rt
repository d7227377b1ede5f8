// What is written piece by piece into an output that is lent for it: a text (`Output`), and blocks of numbers (`Blocks`). Where a piece of a text finds no
// room the output counts as full from then on; where a block finds none, the call that puts it says so.
// Laws for callers: proofs/Put.antt and proofs/Writing.antt.
#![tactic(auto)]

ghost use Rattle.std.specs.Prelude.{◌≡◌};
ghost use Rattle.lent.specs.Append.{append};
ghost use Rattle.output.specs.Put.{Begins, Put, output_of};

mod blocks;

pub use blocks::Blocks;

// An output of text and how much of it is used, none where a piece found no room.
pub struct Output<'a> {
    bytes: &'a mut [u8],
    used: Option<usize>,
}

impl<'a> Output<'a> {
    // The output that these bytes are, nothing of it used.
    pub fn new(bytes: &'a mut [u8]) -> Output<'a>
        ensures { Begins bytes.entry result }
    {
        Output {
            bytes,
            used: Some(0),
        }
    }

    // The output that these bytes are, `used` of it used, none where it is full.
    pub fn behind(bytes: &'a mut [u8], used: Option<usize>) -> Output<'a>
        ensures same { result.bytes.ghost_name ≡ bytes.entry.ghost_name }
        ensures now { result.bytes.now ≡ bytes.entry.now }
        ensures used { result.used ≡ used }
    {
        Output { bytes, used }
    }

    // Prints a piece behind what is used, if there is room for the whole of it.
    #[tactic(auto, using(crate::proofs::Put::put_piece))]
    pub fn put(&mut self, piece: &[u8])
        ensures put { Put piece.now self.old self.new }
        ensures appended { output_of self.new ≡ append piece.now (output_of self.old) }
    {
        self.used = lent::append(self.bytes, self.used, piece);
    }

    // How much of the output is used, none where something found no room.
    pub fn used(&self) -> Option<usize>
        ensures { result ≡ self.now.used }
    {
        self.used
    }

    // The same, at the end of its use.
    pub fn done(self) -> Option<usize>
        ensures { (result ≡ self.entry.used) × (self.exit.0.now ≡ self.entry.bytes.now) }
    {
        let Output { bytes: _, used } = self;
        used
    }
}

// Reading from and writing into slices that the caller lends. Every function takes any numbers: past the end a stand-in is read and nothing is
// written. Definitions: `get_or`, `take`, `drop`, `set` of lib.ListN, `sets` of lib.Seq, `append` of specs/Append.antt. Laws for callers:
// proofs/Sets.antt, proofs/Padded.antt, proofs/Pieces.antt and proofs/Answered.antt.
#![tactic(auto)]

mod slices;
mod tables;

pub use slices::{append, get_or, part, put, put_all};
pub use tables::Tables;

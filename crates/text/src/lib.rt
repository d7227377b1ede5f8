// What the programs print: numbers in six columns, names, messages in the Rust's words. Every function prints into an output of text; where something finds
// no room the output counts as full from then on, so that refusal 15 is known at the end. Laws for callers: proofs/Printed.antt.
#![tactic(auto)]

mod diagnostics;
mod lines;
mod list;
mod modes;

pub use list::{Listings, print_list, print_refusal};
pub use modes::{print_modes, print_selection};

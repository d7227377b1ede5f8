// The library for Rust and C. Each slice crosses as two arguments, a pointer and a count, so a call lists the thirteen tables and its outputs one by
// one; inside, the tables are one `Tables`. An answer is told in numbers.
#![tactic(auto)]

mod both;
mod check;
mod diagnostic;
mod expand;
mod group;
mod ignoring_case;
mod modes;
mod numbers;
mod printing;
mod read;
mod traced;

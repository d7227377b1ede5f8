// The fields of the rows of C, F, X, U, E and M, by name; what a search by key reads of P, I, T, Q, U and R is in crate resolver. A row
// goes by its number, from 0. Every function takes any row number: past the end 0 is read.
// The functions differ in a column alone, and stand beside one another: each contract cites the definition's own word for its column, which one
// function of any column would have to be handed.
#![tactic(auto)]

pub mod component;
pub mod connection;
pub mod declared;
pub mod feature;
mod field;
pub mod group_type;
pub mod mode;
mod reference;

pub use field::field_at;
pub use reference::Reference;

// The kind of a feature that is a group, of F and of E rows: a number as the tables hold it, since no other kind of a feature is asked for.
pub const FEATURE_GROUP: u32 = 8;

// The two ends of a connection.
#[derive(Clone, Copy)]
pub enum Side {
    Source,
    Destination,
}

// Children by links, 02 (xiii): of each component its first child and its next sibling, in a table that the caller lends.
#![tactic(auto)]

mod fill;
mod keys;
mod tree;

pub use fill::check_and_link;
pub use keys::{key_names, key_of};
pub use tree::Tree;

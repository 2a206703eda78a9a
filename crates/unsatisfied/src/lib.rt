// How many vertices of a block are unsatisfied, and by how much that changes where a bit is set.
#![tactic(auto)]

mod count;
mod set;

pub use count::{count_unsatisfied, missed_word};
pub use set::set_bit;

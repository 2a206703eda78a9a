// Tables of nearest patterns, one for each class of words that differ by a codeword: building one, and looking words up there.
#![tactic(auto)]

mod building;
mod looking;
mod numbering;

pub use building::build_table;
pub use looking::look_up;
pub use numbering::{free_digits, squeeze};

// Lent to the crates above: these ask what their callers prove.
pub use building::fill;
pub use looking::pattern_of;

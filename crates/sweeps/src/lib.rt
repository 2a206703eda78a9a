// One sweep of a checked plan. No service stands here.
#![tactic(auto)]

mod sweep;

pub use sweep::{News, Tally};

// Lent to the crates above: these ask what their callers prove.
pub use sweep::{all_codewords, all_satisfied, nearest_on, sweep_first, sweep_right, sweep_turn};

// The margin: how many flipped bits a plan is promised to mend, and in how many sweeps.
#![tactic(auto)]

mod chain;
mod margins;
mod numbers;

pub use margins::margin_sweeps;
pub use numbers::{PlanNumbers, plan_numbers};

// Lent to the crates above: these ask what their callers prove.
pub use chain::{first_uncovered, sweeps_named};

// The meeting numbers of a wiring's left vertices, and the spread, which says how evenly they meet.
#![tactic(auto)]

mod ends;
mod spread;

pub use spread::plan_spread;

// Lent to the crates above: this asks what its callers prove.
pub use spread::measured_spread;

// One sweep of a block, with the change of the number of unsatisfied vertices that it makes.
#![tactic(auto)]

mod once;
mod sweep;
mod telling;

pub use once::sweep_once;

// The panel's state: the number of unsatisfied vertices and the sweep number of a block, kept in bytes that the host lends. It is loaded, swept
// once a call, and a bit of its block is set; no call counts all vertices again.
#![tactic(auto)]

mod load;
mod set;
mod shown;
mod state;
mod sweep;

pub use load::load_state;
pub use set::set_bit;
pub use shown::Shown;
pub use sweep::sweep_state;

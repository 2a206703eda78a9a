// The bipartite graph: the wiring's check, a right vertex's piece, the ends of edges, the word of a vertex, blocks and the locator.
#![tactic(auto)]

mod access;
mod block;
mod ends;
mod locator;
mod parts;
mod piece;
mod places;
mod plan;
mod side;

pub use block::{BitsError, check_bits, check_block};
pub use locator::{code_of, locate};
pub use parts::{CheckedPlan, PlanParts};
pub use piece::piece_of;
pub use plan::{MAX_EDGES, MAX_VERTICES, check_plan};
pub use side::{SideCode, SideName, Vertex};

// Lent to the crates above: these ask what their callers prove.
pub use access::{bit_of, edge_at, gathered, read_word, vertex_at};
pub use ends::note_ends;
pub use locator::first_unsatisfied;
pub use places::note_places;

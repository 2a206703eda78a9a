// Sweeps in turn, and the decoder.
#![tactic(auto)]

mod decoding;
mod settle;

pub use decoding::{Decoding, decode};
pub use settle::SUMS;

// Lent to the crates above: this asks what its callers prove.
pub use decoding::decode_checked;

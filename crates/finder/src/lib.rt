// The finder of nearest words: what finds those of a whole side.
#![tactic(auto)]

mod finder;

pub use finder::FINDER_WORDS;

// Lent to the crates above: these ask what their callers prove.
pub use finder::{find_nearest, is_codeword, prepare_finder};

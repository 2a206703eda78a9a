// Messages: the encoder and the reader, for blocks of up to 512 bits.
#![tactic(auto)]

mod columns;
mod encoder;
mod output;
mod reader;
mod solver;

pub use encoder::encode;
pub use reader::read_block;

// The inner code: the sheet's check, codewords, distance, the nearest word and the house code.
#![tactic(auto)]

mod codewords;
mod house;
mod membership;
mod nearest;
mod refusal;
mod sheet;

pub use codewords::{MAX_CODEWORDS, distance, double, list_codewords};
pub use house::HouseCode;
pub use membership::residue;
pub use nearest::{Step, nearest_listed, nearest_word, put_on};
pub use refusal::Refusal;
pub use sheet::{CheckedSheet, MAX_DEGREE, MAX_ROWS, Sheet, check_into, check_sheet};

// Looking a word up in a table.
ghost use Rattle.std.specs.Prelude.{◌≡◌, ◌%◌, ◌^◌, ◌≤◌, cond, eqb};
ghost use Rattle.inner_code.specs.Answer.{nearest_reply};
ghost use Rattle.tables.specs.Classes.{tie_mark};
ghost use Rattle.tables.specs.Answer.{look_up_answer};

use crate::numbering::{free_digits, squeeze};
use inner_code::{Refusal, Step, check_into, residue};

// The mark for a tie.
const MARK: u16 = 65535;

// The word that a table has for a word, and how many bits it changes: on a table built for the sheet the nearest word. Any bytes are taken for
// a table: of an entry the low d bits count, and FFFF leaves the word as it is. Refusals 1 to 6, then 12 for a word at or above 2^d, then 13
// for a table that is too short.
pub fn look_up(sheet: &[u8], word: u64, table: &[u8]) -> Result<Step, Refusal>
    ensures { nearest_reply result ≡ look_up_answer sheet.now word table.now }
{
    let mut basis = [0u16; 11];
    let values = check_into(sheet, &mut basis)?;
    if 1u64 << values.d <= word {
        return Err(Refusal::StrayBit);
    }
    if table.len() < 2usize << (values.d - values.k) {
        return Err(Refusal::OutputShort);
    }
    let word = word as u16;
    let left = residue(&basis, values.k, word);
    let class = squeeze(free_digits(&basis, values.k), left) as usize;
    let pattern = pattern_of(bits::pair(table, 2 * class), values.d);
    Ok(Step {
        word: word ^ pattern,
        changed: pattern.count_ones(),
    })
}

// The pattern of an entry: its low d bits, and none at the mark.
pub fn pattern_of(entry: u16, d: usize) -> u16
    requires { d ≤ 16 }
    ensures { result ≡ cond (eqb entry tie_mark) 0 (entry % 2 ^ d) }
{
    if entry == MARK {
        return 0;
    }
    (entry as u32 % (1u32 << d)) as u16
}

// The nearest word: of all error patterns that turn a word into a codeword the one with the fewest ones is put on it. Where more than one has
// them, the word stays as it is.
ghost use Rattle.std.specs.Prelude.{◌≡◌, ◌^◌, ◌≤◌, min, length};
ghost use Rattle.std.specs.Int.Bits.{bit_xor};
ghost use Rattle.bits.specs.Window.{at};
ghost use Rattle.inner_code.specs.Answer.{nearest_answer, nearest_reply};
ghost use Rattle.inner_code.specs.Sheet.{row_of};
ghost use Rattle.inner_code.specs.Code.{combination};
ghost use Rattle.inner_code.specs.Reduction.{searched, sole, step_to};

use crate::codewords::{MAX_CODEWORDS, list_codewords};
use crate::refusal::Refusal;
use crate::sheet::check_into;

// Where the rows are few there is room for their codewords alone: clearing room for every code costs more than searching so few words.
const FEW_ROWS: usize = 5;

const FEW_CODEWORDS: usize = 32;

// One step of the nearest word: the word that takes another's place, and how many bits that changes.
#[derive(Clone, Copy, Debug, PartialEq, Eq)]
pub struct Step {
    pub word: u16,
    pub changed: u32,
}

// The step to the nearest word of a word, by the sheet's rows. Refusals 1 to 6, then 12 for a word at or above 2^d.
pub fn nearest_word(sheet: &[u8], word: u64) -> Result<Step, Refusal>
    ensures { nearest_reply result ≡ nearest_answer sheet.now word }
{
    let mut basis = [0u16; 11];
    let values = check_into(sheet, &mut basis)?;
    if 1u64 << values.d <= word {
        return Err(Refusal::StrayBit);
    }
    Ok(nearest_of_rows(sheet, values.k, word as u16))
}

// The step to the nearest word by the first k rows; a k above 11 counts as 11.
fn nearest_of_rows(sheet: &[u8], k: usize, word: u16) -> Step
    ensures { result ≡ step_to word (searched (combination (row_of sheet.now) (min k 11)) (2 ^ min k 11) word) }
{
    if k <= FEW_ROWS {
        return list_and_search::<FEW_CODEWORDS>(sheet, k, word);
    }
    list_and_search::<MAX_CODEWORDS>(sheet, k, word)
}

// The same, where N is room for the codewords: they are listed there and searched.
fn list_and_search<const N: usize>(sheet: &[u8], k: usize, word: u16) -> Step
    requires room { 2 ^ min k 11 ≤ N }
    requires most { N ≤ 2048 }
    ensures { result ≡ step_to word (searched (combination (row_of sheet.now) (min k 11)) (2 ^ min k 11) word) }
{
    let mut words = [0u16; N];
    let count = list_codewords(sheet, k, &mut words);
    nearest_listed(&words[..count], word)
}

// More than ones * 65536 + pattern is for any pattern of 16 bits.
const NO_KEY: u32 = 1114112;

// The step to the word of a list that is nearest to `word`. Patterns are compared by the one number ones * 65536 + pattern, and by
// ones * 65536 + 65535 - pattern too: the least of the one is the first, the least of the other the last of the patterns with the fewest
// ones. Where these differ there is a tie, and the step is to `word` itself, as it is for an empty list.
pub fn nearest_listed(words: &[u16], word: u16) -> Step
    ensures { result ≡ step_to word (searched (at words.now) (length words.now) word) }
{
    let mut least: u32 = NO_KEY;
    let mut back: u32 = NO_KEY;
    for listed in words {
        let pattern = *listed ^ word;
        let ones = pattern.count_ones() * 65536;
        least = least.min(ones + pattern as u32);
        back = back.min(ones + (65535 - pattern as u32));
    }
    let first = (least % 65536) as u16;
    let last = 65535 - (back % 65536) as u16;
    put_on(word, sole(first, last))
}

// The first of the patterns with the fewest ones, where it is their last too, and else none.
fn sole(first: u16, last: u16) -> u16
    ensures { result ≡ sole first last }
{
    if first == last {
        return first;
    }
    0
}

// The step that a pattern makes: it is put on the word and changes as many bits as it has ones.
pub fn put_on(word: u16, pattern: u16) -> Step
    ensures { result ≡ step_to word (bit_xor word pattern) }
{
    Step {
        word: word ^ pattern,
        changed: pattern.count_ones(),
    }
}

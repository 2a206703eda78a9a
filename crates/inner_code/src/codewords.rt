// The codewords as a list, and the inner distance.
ghost use Rattle.std.specs.Prelude.{◌≡◌, length};
ghost use Rattle.bits.specs.Window.{at};
ghost use Rattle.inner_code.specs.Sheet.{row_of};
ghost use Rattle.inner_code.specs.Reduction.{Lists, Doubles, fewest_ones};

use crate::sheet::MAX_ROWS;

// The most codewords of a sheet, 2^11.
pub const MAX_CODEWORDS: usize = 2048;

// Lists the codewords that the sheet's first k rows make at the front of `words` and answers how many there are, 2^k. A k
// above 11 counts as 11. The rest of `words` stays as it was. Room for fewer words is left as it was, and the answer is 0.
pub fn list_codewords(sheet: &[u8], k: usize, words: &mut [u16]) -> usize
    ensures { Lists (row_of sheet.now) k words.old result words.new }
{
    let rows = k.min(MAX_ROWS);
    if words.len() < 1usize << rows {
        return 0;
    }
    words[0] = 0;
    let mut count: usize = 1;
    for i in 0..rows {
        double(words, count, bits::pair(sheet, 2 + 2 * i));
        count = 2 * count;
    }
    count
}

// Words 0 to count - 1 again, with `row` put on each, behind themselves, where there is room for them; where there is none nothing is written.
pub fn double(words: &mut [u16], count: usize, row: u16)
    ensures { Doubles count row words.old words.new }
{
    if words.len() / 2 < count {
        return;
    }
    for m in 0..count {
        words[count + m] = words[m] ^ row;
    }
}

// The fewest ones in a nonzero word of a list, 17 where there is none: of the listed codewords the inner distance D.
pub fn distance(words: &[u16]) -> u32
    ensures { result ≡ fewest_ones (at words.now) (length words.now) }
{
    let mut fewest: u32 = 17;
    for word in words {
        if *word != 0 {
            fewest = fewest.min(word.count_ones());
        }
    }
    fewest
}

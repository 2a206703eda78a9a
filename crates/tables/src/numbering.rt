// The number of a word's class in the order of smallest words. An echelon form of the rows leaves of a word the smallest word of its class:
// the highest digits of the echelon form's rows are all cleared. So two smallest words compare as their other digits do, the free ones, and
// the number of a class is its smallest word with all but the free digits squeezed out.
ghost use Rattle.std.specs.Prelude.{◌≡◌, min};
ghost use Rattle.bits.specs.Window.{at};
ghost use Rattle.tables.specs.Numbering.{top_digit, free_mask, squeezed_by};

// The free digits of 16, as a word, by the first k rows of an echelon form, as `check_into` gives it; a k above 11 counts as 11.
pub fn free_digits(basis: &[u16; 11], k: usize) -> u16
    ensures { result ≡ free_mask (at basis.now) (min k 11) }
{
    let mut mask: u16 = 65535;
    for i in 0..k.min(11) {
        mask ^= top_digit(basis[i]);
    }
    mask
}

// The highest digit of a word, as a word; 0 has none.
fn top_digit(word: u16) -> u16
    ensures { result ≡ top_digit word }
{
    if word == 0 {
        return 0;
    }
    1u16 << (15 - u16::leading_zeros(word))
}

// The number that the free digits of a word make, all others squeezed out.
pub fn squeeze(mask: u16, word: u16) -> u16
    ensures { result ≡ squeezed_by mask 16 word }
{
    let mut number: u16 = 0;
    let mut place: u32 = 0;
    for b in 0..16u32 {
        let free = (mask >> b) % 2;
        number ^= ((word >> b) % 2 * free) << place;
        place += free as u32;
    }
    number
}

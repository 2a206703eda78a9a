// Membership of a word in as many steps as the code has rows.
ghost use Rattle.std.specs.Prelude.{◌≡◌, min};
ghost use Rattle.bits.specs.Window.{at};
ghost use Rattle.inner_code.specs.Reduction.{reduced_by};

// What is left of a word after it is reduced by the first `count` rows of `basis` in turn; a count above 11 counts as 11. With
// the echelon form of a sheet's k rows (`check_into`) and the count k, 0 is left exactly of a codeword.
pub fn residue(basis: &[u16; 11], count: usize, word: u16) -> u16
    ensures { result ≡ reduced_by (at basis.now) (min count 11) word }
{
    let mut left = word;
    for i in 0..count.min(11) {
        left = left.min(left ^ basis[i]);
    }
    left
}

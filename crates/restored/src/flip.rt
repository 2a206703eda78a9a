// Flips.
ghost use Rattle.std.specs.Prelude.{◌≡◌, ◌≤◌, ◌<◌};
ghost use Rattle.bits.specs.Bit.{flips};
ghost use Rattle.restored.specs.Flip.{Flipped};

// Flips bits of a block of 64 bits that equal the sent ones, at most so many of them: each byte of `positions` names one, by its
// remainder by 64.
pub fn flip_some(positions: &[u8], most: u64, sent: &[u8], block: &mut [u8])
    ensures { Flipped sent.now block.old block.new most }
{
    let mut flipped: u64 = 0;
    for position in positions {
        if flipped < most {
            let place = (*position % 64) as usize;
            flipped += flip_one(sent, block, place);
        }
    }
}

// Flips one bit of a block if it equals the sent one, and answers how many bits it flipped.
fn flip_one(sent: &[u8], block: &mut [u8], place: usize) -> u64
    requires { place < 64 }
    ensures at_most_one { result ≤ 1 }
    ensures flipped { Flipped sent.now block.old block.new result }
{
    let bit = bits::bit(block, place);
    if bit == bits::bit(sent, place) {
        bits::put_bit(block, place, 1 - bit);
        return 1;
    }
    0
}

// The number of bits in which two blocks of 64 bits differ.
pub fn differing(a: &[u8], b: &[u8]) -> u64
    ensures { result ≡ flips 64 a.now b.now }
{
    let mut count: u64 = 0;
    for i in 0..64 {
        count += bits::bit(a, i) ^ bits::bit(b, i);
    }
    count
}

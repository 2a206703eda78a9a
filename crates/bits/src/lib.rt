// Bits of byte strings and two-byte numbers, with the laws that every other crate cites.
#![tactic(auto)]

ghost use Rattle.std.specs.Prelude.{true, false, ◌≡◌, ℕ, ◌+◌, ◌%◌, ◌^◌, ◌<◌, ◌≤◌, length};
ghost use Rattle.bits.specs.Window.{at, word_at, turned};
ghost use Rattle.bits.specs.Bit.{bit_at, with_bit, pair_at, written};

// Bit i of a byte string, 0 past its end. Bit 0 has weight 128 in byte 0, and every bit is moved there: that takes a step less than moving it to
// weight 1.
pub fn bit(bytes: &[u8], i: usize) -> u64
    ensures { result ≡ bit_at bytes.now i }
{
    let at = i / 8;
    if bytes.len() <= at {
        return 0;
    }
    ((bytes[at] as u64) << (i % 8)) / 128 % 2
}

// Makes bit i of a byte string equal to the last binary digit of b. Nothing is written past the end.
pub fn put_bit(bytes: &mut [u8], i: usize, b: u64)
    ensures { bytes.new ≡ with_bit bytes.old i (b % 2) }
{
    let at = i / 8;
    if at < bytes.len() {
        let x = bytes[at];
        let place = 7 - i % 8;
        bytes[at] = x ^ ((((x >> place) % 2) ^ ((b % 2) as u8)) << place);
    }
}

// Turns bit i of a byte string: 0 becomes 1, and 1 becomes 0. Nothing is written past the end.
pub fn turn_bit(bytes: &mut [u8], i: usize)
    ensures { bytes.new ≡ turned bytes.old i 1 }
{
    let at = i / 8;
    if at < bytes.len() {
        bytes[at] = bytes[at] ^ (1u8 << (7 - i % 8));
    }
}

// The two-byte number that begins at the index `at`, high byte first. A missing byte counts as 0.
pub fn pair(bytes: &[u8], at: usize) -> u16
    ensures { result ≡ pair_at bytes.now at }
{
    if bytes.len() <= at {
        return 0;
    }
    let high = (bytes[at] as u16) * 256;
    if bytes.len() - at == 1 {
        return high;
    }
    high + (bytes[at + 1] as u16)
}

// Whether two byte strings are the same.
pub fn same(a: &[u8], b: &[u8]) -> bool
    ensures when_true { result ≡ true → a.now ≡ b.now }
    ensures when_false { result ≡ false → a.now ≡ b.now → ⊥ }
{
    a == b
}

// Whether every byte of a byte string is 0. Every byte is looked at: with no way out of the loop the compiler takes sixteen of them in a step.
pub fn is_zero(bytes: &[u8]) -> bool
    ensures when_true { result ≡ true → (i : ℕ) → at bytes.now i ≡ 0 }
    ensures when_false { result ≡ false → ((i : ℕ) → at bytes.now i ≡ 0) → ⊥ }
{
    let mut largest = 0u8;
    for byte in bytes {
        largest = largest.max(*byte);
    }
    largest == 0
}

// Byte i of a byte string, 0 past its end.
fn byte(bytes: &[u8], i: usize) -> u32
    ensures { (result ≡ at bytes.now i) × (result < 256) }
{
    if bytes.len() <= i {
        return 0;
    }
    bytes[i] as u32
}

// Lent to the crates above: these ask what their callers prove.

// The number that the d bits from bit i on make, bit i of the highest weight, out of the three bytes that hold them. Past the end bits are 0.
pub fn word_at(bytes: &[u8], i: usize, d: usize) -> u16
    requires { d ≤ 16 }
    ensures { result ≡ word_at bytes.now i d }
{
    let first = i / 8;
    let high = byte(bytes, first) * 65536;
    let middle = byte(bytes, first + 1) * 256;
    let low = byte(bytes, first + 2);
    let window = high + middle + low;
    ((window >> (24 - i % 8 - d)) % (1u32 << d)) as u16
}

// The number of the highest digit of a number that is set.
pub fn highest(x: u16) -> usize
    requires { 0 < x }
    ensures power_low { 2 ^ result ≤ x }
    ensures power_high { x < 2 ^ (result + 1) }
    ensures fits_word { result < 16 }
{
    15 - x.leading_zeros() as usize
}

// The number with digit i alone set.
pub fn power(i: usize) -> u16
    requires { i < 16 }
    ensures { result ≡ 2 ^ i }
{
    1u16 << i
}

// Copies bytes to the front of a buffer: by a loop, since std's copy_from_slice calls memmove, which the archive may not ask of its host.
pub fn copy_front(from: &[u8], to: &mut [u8])
    requires { length from.now ≤ length to.old }
    ensures { to.new ≡ written from.now to.old }
{
    for i in 0..from.len() {
        to[i] = from[i];
    }
}

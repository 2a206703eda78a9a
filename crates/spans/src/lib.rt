// Lost spans: pairs of bit offset and length, two bytes each, high byte first. Refusals 24 to 26, the lost bits of a block all made 0 or 1, and
// the bits outside the spans in which two blocks differ.
#![tactic(auto)]

ghost use Rattle.std.specs.Prelude.{◌≡◌, ℕ, ◌+◌, ◌-◌, ◌*◌, ◌%◌, ◌^◌, ◌≤◌, ◌<◌, length, get_or};
ghost use Rattle.inner_code.specs.Refusal.{check_reply};
ghost use Rattle.spans.specs.Spans.{start_of, length_of, spans_check, filled};
ghost use Rattle.spans.specs.Walking.{made, flips_between, flips_around};

use inner_code::Refusal;

// A pair is four bytes.
const PAIR_BYTES: usize = 4;

// Checks a list for a block of `bits` bits: its length by 24, then each pair in turn, by 25 and by 26.
pub fn check_spans(bits: usize, lost: &[u8]) -> Result<(), Refusal>
    ensures { check_reply result ≡ spans_check bits lost.now }
{
    if lost.len() % PAIR_BYTES != 0 {
        return Err(Refusal::SpansLengthWrong);
    }
    let pairs = lost.len() / PAIR_BYTES;
    let mut before = 0;
    for j in 0..pairs {
        let start = start_of(lost, j);
        let length = length_of(lost, j);
        let end = start + length;
        if length == 0 || bits < end {
            return Err(Refusal::SpanOutOfBlock);
        }
        if start < before {
            return Err(Refusal::SpanOutOfOrder);
        }
        before = end;
    }
    Ok(())
}

// Makes every lost bit of a block the last binary digit of `value`.
pub fn fill(lost: &[u8], value: u64, block: &mut [u8])
    ensures { block.new ≡ filled (value % 2) lost.now block.old }
{
    let pairs = lost.len() / PAIR_BYTES;
    for j in 0..pairs {
        let start = start_of(lost, j);
        make(start, start + length_of(lost, j), value, block);
    }
}

// In how many of the first `bits` bits two blocks differ that are in no span, where the list passes its check. Each bit is counted once whatever
// the list is: those before a pair and behind all pairs before it, and those behind the last.
pub fn flips_outside(bits: usize, lost: &[u8], a: &[u8], b: &[u8]) -> usize
    ensures { result ≡ flips_around bits lost.now a.now b.now }
{
    let pairs = lost.len() / PAIR_BYTES;
    let mut count = 0;
    let mut reach = 0;
    for j in 0..pairs {
        let start = start_of(lost, j);
        let end = start + length_of(lost, j);
        count += flips_between(a, b, reach, start);
        reach = reach.max(end);
    }
    count + flips_between(a, b, reach, bits)
}

// The first bit of pair j.
fn start_of(lost: &[u8], j: usize) -> usize
    requires { 4 * j + 3 < length lost.now }
    ensures { (result ≡ start_of lost.now j) × (result < 65536) }
{
    bits::pair(lost, PAIR_BYTES * j) as usize
}

// How many bits pair j has.
fn length_of(lost: &[u8], j: usize) -> usize
    requires { 4 * j + 3 < length lost.now }
    ensures { (result ≡ length_of lost.now j) × (result < 65536) }
{
    bits::pair(lost, PAIR_BYTES * j + 2) as usize
}

// Makes the bits from `from` to before `to` the last binary digit of `value`, whole bytes at once.
fn make(from: usize, to: usize, value: u64, block: &mut [u8])
    requires { (from ≤ to) × (to < 131072) }
    ensures { block.new ≡ made (value % 2) from (to - from) block.old }
{
    let first = (from + 7) / 8;
    let last = to / 8;
    if last <= first {
        make_bits(from, to, value, block);
        return;
    }
    make_bits(from, 8 * first, value, block);
    make_bytes(first, last, value, block);
    make_bits(8 * last, to, value, block);
}

// The same bit by bit.
fn make_bits(from: usize, to: usize, value: u64, block: &mut [u8])
    requires { from ≤ to }
    ensures { block.new ≡ made (value % 2) from (to - from) block.old }
{
    for i in from..to {
        bits::put_bit(block, i, value);
    }
}

// The same for all bits of the bytes from `first` to before `last`.
fn make_bytes(first: usize, last: usize, value: u64, block: &mut [u8])
    requires { first ≤ last }
    ensures { block.new ≡ made (value % 2) (8 * first) (8 * (last - first)) block.old }
{
    let byte = (value % 2 * 255) as u8;
    for i in first..last.min(block.len()) {
        block[i] = byte;
    }
}

// In how many of the bits from `from` to before `to` two blocks differ, whole bytes at once.
fn flips_between(a: &[u8], b: &[u8], from: usize, to: usize) -> usize
    requires { from < 131072 }
    ensures { result ≡ flips_between a.now b.now from to }
{
    let first = (from + 7) / 8;
    let last = to / 8;
    if last <= first || a.len() < last || b.len() < last {
        return flips_of_bits(a, b, from, to);
    }
    flips_of_bits(a, b, from, 8 * first)
        + flips_of_bytes(a, b, first, last)
        + flips_of_bits(a, b, 8 * last, to)
}

// The same bit by bit.
fn flips_of_bits(a: &[u8], b: &[u8], from: usize, to: usize) -> usize
    ensures { (result ≡ flips_between a.now b.now from to) × (result ≤ to - from) }
{
    let mut count = 0;
    for i in from..to {
        count += (bits::bit(a, i) ^ bits::bit(b, i)) as usize;
    }
    count
}

// The same for all bits of the bytes from `first` to before `last`, which are few enough to count.
fn flips_of_bytes(a: &[u8], b: &[u8], first: usize, last: usize) -> usize
    requires { (first ≤ last) × (last ≤ length a.now) × (last ≤ length b.now) × (8 * last < 2 ^ 64) }
    ensures { (result ≡ flips_between a.now b.now (8 * first) (8 * last)) × (result ≤ 8 * (last - first)) }
{
    let mut count = 0;
    for i in first..last {
        count += (a[i] ^ b[i]).count_ones() as usize;
    }
    count
}

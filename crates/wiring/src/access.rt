// The word of one vertex, read from a block, on either side; and entries, their bits and their vertices.
ghost use Rattle.std.specs.Prelude.{◌≡◌, ℕ, ◌+◌, ◌*◌, ◌/◌, ◌≤◌, ◌<◌, length};
ghost use Rattle.wiring.specs.Plan.{edge_of, side_bit};
ghost use Rattle.wiring.specs.Access.{word_from, read_word, Readable};

use crate::side::SideName;

// The word that vertex v of a side of degree d reads, its first edge of the highest weight. A left vertex's bits stand in a row and are read at
// once.
pub fn read_word(side: SideName, wiring: &[u8], d: usize, block: &[u8], v: usize) -> u16
    requires { Readable side wiring.now d block.now v }
    ensures { result ≡ read_word side wiring.now d block.now v }
{
    let base = v * d;
    match side {
        SideName::Left => bits::word_at(block, base, d),
        SideName::Right => gathered(wiring, base, d, block),
    }
}

// The word at the d entries of the wiring from `base` on, bit by bit. A bit is moved to weight 128 and not to weight 1, which takes two steps
// fewer: `scaled` is 128 times the word.
pub fn gathered(wiring: &[u8], base: usize, d: usize, block: &[u8]) -> u16
    requires d_bound { d ≤ 16 }
    requires d_in_bounds { 2 * (base + d) ≤ length wiring.now }
    requires edges_in_block { (j : ℕ) → j < d → edge_of wiring.now (base + j) < length block.now * 8 }
    ensures { result ≡ word_from (edge_of wiring.now) block.now base d }
{
    let mut scaled: u32 = 0;
    for j in 0..d {
        let edge = edge_at(wiring, base + j);
        let moved = (block[edge / 8] as u32) << (edge % 8);
        scaled = scaled * 2 + moved / 128 % 2 * 128;
    }
    (scaled / 128) as u16
}

// Entry i of the wiring: the edge that stands there.
pub fn edge_at(wiring: &[u8], i: usize) -> usize
    requires { 2 * i + 1 < length wiring.now }
    ensures { result ≡ edge_of wiring.now i }
{
    (wiring[2 * i] as usize) * 256 + (wiring[2 * i + 1] as usize)
}

// The bit of the block at entry i of a side.
pub fn bit_of(side: SideName, wiring: &[u8], i: usize) -> usize
    requires { 2 * i + 1 < length wiring.now }
    ensures { result ≡ side_bit side wiring.now i }
{
    match side {
        SideName::Left => i,
        SideName::Right => edge_at(wiring, i),
    }
}

// The vertex of degree d that has an entry. Large plans have d 8 or 16, by which it takes no division.
pub fn vertex_at(entry: usize, d: usize) -> usize
    requires { 0 < d }
    ensures { result ≡ entry / d }
{
    if d == 16 {
        return entry / 16;
    }
    if d == 8 {
        return entry / 8;
    }
    entry / d
}

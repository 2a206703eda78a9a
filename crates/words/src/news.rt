// News: which vertices of a side have a bit that the sweep before changed. The marks of both sides stand behind the words of the right side in one
// list, sixteen to a number, the first vertex of the highest weight, so that the next vertex with news is found by the highest digit.
ghost use Rattle.std.specs.Prelude.{◌≡◌, ◌+◌, ◌*◌, ◌≤◌, ◌<◌, length};
ghost use Rattle.words.specs.Marks.{news_of, marked, Cleared};

use wiring::{MAX_VERTICES, SideName};

// The numbers that hold one side's marks.
pub(crate) const MARKS: usize = MAX_VERTICES / 16;

// The words of the right side, the marks of the left and those of the right.
pub const KEPT: usize = MAX_VERTICES + 2 * MARKS;

// Where the marks of a side begin.
pub fn news_of(side: SideName) -> usize
    ensures { result ≡ news_of side }
{
    match side {
        SideName::Left => MAX_VERTICES,
        SideName::Right => MAX_VERTICES + MARKS,
    }
}

// Marks vertex v of the side whose marks begin at `from`. No branch asks whether it is marked already: it would often be guessed wrong.
pub(crate) fn mark(kept: &mut [u16; KEPT], from: usize, v: usize)
    requires kept_len { length kept.old ≡ 2304 }
    requires from_bound { from + 128 ≤ 2304 }
    requires v_bound { v < 2048 }
    ensures { kept.new ≡ marked kept.old from v }
{
    let i = from + v / 16;
    let digit = 15 - v % 16;
    let marks = kept[i];
    kept[i] = marks ^ ((1 - (marks >> digit) % 2) << digit);
}

// How many numbers hold the marks of n vertices.
pub fn numbers_of(n: usize) -> usize
    requires { n ≤ 2048 }
    ensures { (n ≤ 16 * result) × (result ≤ 128) }
{
    n.div_ceil(16)
}

// Takes all marks off.
pub fn clear_marks(kept: &mut [u16; KEPT])
    requires { length kept.old ≡ 2304 }
    ensures { Cleared kept.new }
{
    kept[MAX_VERTICES..].fill(0);
}

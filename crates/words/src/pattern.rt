// A pattern put on the bits of one vertex: each of its ones turns a bit of the block. It costs as many steps as the pattern has ones.
ghost use Rattle.std.specs.Prelude.{[], ◌≡◌, ◌+◌, ◌-◌, ◌*◌, ◌/◌, ◌^◌, ◌≤◌, ◌<◌, length};
ghost use Rattle.inner_code.specs.Sheet.{degree};
ghost use Rattle.wiring.specs.PlanParts.{plan_in};
ghost use Rattle.wiring.specs.Plan.{side_of, sheet_of, count_of, side_bit};
ghost use Rattle.wiring.specs.declared.side.SideName.{SideName};
ghost use Rattle.words.specs.Words.{pattern_put, WordsRead};
ghost use Rattle.wiring.specs.Places.{PlacesNoted, Across};
ghost use Rattle.words.specs.Marks.{told_right, PutAt};

use crate::news::{KEPT, mark, news_of};
use wiring::{CheckedPlan, SideName, Vertex};

// Puts a pattern on the d bits at the entries of a side from `base` on, its highest digit at the first.
pub fn put_pattern(
    side: SideName,
    wiring: &[u8],
    base: usize,
    d: usize,
    pattern: u16,
    block: &mut [u8],
)
    requires d_bound { d ≤ 16 }
    requires pattern_bound { pattern < 2 ^ d }
    requires d_in_bounds { 2 * (base + d) ≤ length wiring.now }
    ensures { block.new ≡ pattern_put (side_bit side wiring.now) d base pattern d block.old }
{
    let mut rest = pattern;
    // A while: each turn takes the highest digit of what is left, and no index counts them.
    while rest != 0 {
        let high = bits::highest(rest);
        bits::turn_bit(block, wiring::bit_of(side, wiring, base + (d - 1 - high)));
        rest = rest - bits::power(high);
    }
}

// Puts a pattern on the bits of a vertex, and tells the vertices at the other ends: each of them has news, and where they are right ones, their
// words are kept up with the block. A right vertex's own word is kept up too.
pub fn put_told(
    plan: &CheckedPlan<'_, '_>,
    vertex: Vertex,
    pattern: u16,
    places: &[u16],
    kept: &mut [u16; KEPT],
    block: &mut [u8],
)
    requires v_bound { vertex.v < count_of (plan_in plan.now.parts) vertex.side }
    requires pattern_bound { pattern < 2 ^ degree (sheet_of (plan_in plan.now.parts) vertex.side) }
    requires across { Across plan.now.parts.wiring.now vertex.side places.now }
    requires words_read { WordsRead (side_of (plan_in plan.now.parts) SideName.Right) block.old kept.old }
    ensures { PutAt (plan_in plan.now.parts) vertex.side vertex.v pattern block.old kept.old block.new kept.new }
{
    let side = vertex.side;
    match side {
        SideName::Left => put_left(plan, vertex.v, pattern, places, kept, block),
        SideName::Right => put_right(plan, vertex.v, pattern, kept, block),
    }
}

// The same for left vertex v. The place of an edge tells the right vertex at its other end.
fn put_left(
    plan: &CheckedPlan<'_, '_>,
    v: usize,
    pattern: u16,
    places: &[u16],
    kept: &mut [u16; KEPT],
    block: &mut [u8],
)
    requires v_lt_nl { v < plan.now.parts.nl }
    requires pattern_bound { pattern < 2 ^ degree plan.now.parts.left_sheet.now }
    requires places_noted { PlacesNoted plan.now.parts.wiring.now places.now }
    requires words_read { WordsRead (side_of (plan_in plan.now.parts) SideName.Right) block.old kept.old }
    ensures { PutAt (plan_in plan.now.parts) SideName.Left v pattern block.old kept.old block.new kept.new }
{
    let d = plan.left.d;
    let dr = plan.right.d;
    let base = v * d;
    let mut rest = pattern;
    // A while: each turn takes the highest digit of what is left, and no index counts them.
    while rest != 0 {
        let high = bits::highest(rest);
        let edge = base + (d - 1 - high);
        let place = places[edge] as usize;
        bits::turn_bit(block, edge);
        tell_right(dr, place, kept);
        rest = rest - bits::power(high);
    }
}

// Turns the bit at entry `place` of the right side, whose vertices have degree d, in the word of the vertex that reads it, and marks the vertex.
fn tell_right(d: usize, place: usize, kept: &mut [u16; KEPT])
    requires d_nonzero { (0 < d) × (d ≤ 16) }
    requires kept_len { length kept.old ≡ 2304 }
    requires d_bound { place / d < 2048 }
    ensures { kept.new ≡ told_right d place kept.old }
{
    let v = wiring::vertex_at(place, d);
    kept[v] = kept[v] ^ bits::power(d - 1 - (place - v * d));
    mark(kept, news_of(SideName::Right), v);
}

// The same for right vertex v. The number of a bit tells its left vertex.
fn put_right(
    plan: &CheckedPlan<'_, '_>,
    v: usize,
    pattern: u16,
    kept: &mut [u16; KEPT],
    block: &mut [u8],
)
    requires v_lt_nr { v < plan.now.parts.nr }
    requires pattern_bound { pattern < 2 ^ degree plan.now.parts.right_sheet.now }
    requires words_read { WordsRead (side_of (plan_in plan.now.parts) SideName.Right) block.old kept.old }
    ensures { PutAt (plan_in plan.now.parts) SideName.Right v pattern block.old kept.old block.new kept.new }
{
    let d = plan.right.d;
    let dl = plan.left.d;
    let base = v * d;
    let mut rest = pattern;
    // A while: each turn takes the highest digit of what is left, and no index counts them.
    while rest != 0 {
        let high = bits::highest(rest);
        let edge = wiring::edge_at(plan.parts.wiring, base + (d - 1 - high));
        bits::turn_bit(block, edge);
        kept[v] = kept[v] ^ bits::power(high);
        mark(kept, news_of(SideName::Left), wiring::vertex_at(edge, dl));
        rest = rest - bits::power(high);
    }
}

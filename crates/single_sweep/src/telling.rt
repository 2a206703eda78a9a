// Bits that change, told to the vertices of the other side.
ghost use Rattle.std.specs.Prelude.{◌≡◌, ◌+◌, ◌*◌, ◌^◌, ◌≤◌, ◌<◌, length};
ghost use Rattle.inner_code.specs.Sheet.{degree};
ghost use Rattle.bits.specs.Window.{turned};
ghost use Rattle.wiring.specs.Plan.{Plan, side_of, sheet_of, count_of, edge_count, side_bit, other};
ghost use Rattle.wiring.specs.PlanParts.{plan_in};
ghost use Rattle.wiring.specs.Places.{Across};
ghost use Rattle.wiring.specs.declared.side.SideName.{SideName};
ghost use Rattle.unsatisfied.specs.Count.{unsatisfied_at};
ghost use Rattle.words.specs.Words.{pattern_put};
ghost use Rattle.single_sweep.specs.Telling.{across_from};

use unsatisfied::missed_word;
use wiring::{CheckedPlan, SideName};

// Puts a pattern on the bits of vertex v of a side, its highest digit at the first, and tells by how much the number of unsatisfied vertices of
// the other side is above what it was, 65,536 added.
pub(crate) fn put_told(
    plan: CheckedPlan<'_, '_>,
    side: SideName,
    v: usize,
    pattern: u16,
    places: &[u16],
    block: &mut [u8],
) -> usize
    requires v_bound { v < count_of (plan_in plan.parts) side }
    requires pattern_bound { pattern < 2 ^ degree (sheet_of (plan_in plan.parts) side) }
    requires across { Across plan.parts.wiring.now side places.now }
    requires room { edge_count (plan_in plan.parts) ≤ length block.old * 8 }
    ensures told { let sides = side_of (plan_in plan.entry.parts) in
        result + unsatisfied_at (sides (other side)) block.old ≡ 65536 + unsatisfied_at (sides (other side)) block.new }
    ensures block_after { let d = degree (sheet_of (plan_in plan.entry.parts) side) in
        block.new ≡ pattern_put (side_bit side plan.entry.parts.wiring.now) d (v * d) pattern d block.old }
{
    let wiring = plan.parts.wiring;
    let d = plan.side(side).d;
    let base = v * d;
    let mut told = 65536;
    let mut rest = pattern;
    // A while: each turn takes the highest digit away, and jumps over the zeros below it.
    while rest != 0 {
        let high = bits::highest(rest);
        let place = place_across(side, wiring, places, base + (d - 1 - high));
        let one = turn_told(plan, side.other(), place, block);
        told = told + one - 1;
        rest = rest - bits::power(high);
    }
    told
}

// Turns the bit at an entry of a side, and tells by how much the number of unsatisfied vertices of that side is above what it was, 1 added: the
// word of the vertex that reads the bit is fetched once and tested with the bit as it was and turned.
fn turn_told(plan: CheckedPlan<'_, '_>, side: SideName, place: usize, block: &mut [u8]) -> usize
    requires place_bound { place < edge_count (plan_in plan.parts) }
    requires room { edge_count (plan_in plan.parts) ≤ length block.old * 8 }
    ensures told { let here = side_of (plan_in plan.entry.parts) side in
        result + unsatisfied_at here block.old ≡ 1 + unsatisfied_at here block.new }
    ensures block_after { block.new ≡ turned block.old (side_bit side plan.entry.parts.wiring.now place) 1 }
{
    let code = plan.side(side);
    let wiring = plan.parts.wiring;
    let d = code.d;
    let word = wiring::read_word(side, wiring, d, block, place / d);
    let before = missed_word(code, word);
    let after = missed_word(code, word ^ bits::power(d - 1 - place % d));
    bits::turn_bit(block, wiring::bit_of(side, wiring, place));
    1 + after - before
}

// The entry of the other side at which the bit stands that entry i of a side has.
fn place_across(side: SideName, wiring: &[u8], places: &[u16], i: usize) -> usize
    requires i_bound { i < 32768 }
    requires i_in_bounds { side ≡ SideName.Left → i < length places.now }
    ensures { result ≡ across_from side wiring.now places.now i }
{
    match side {
        SideName::Left => places[i] as usize,
        SideName::Right => bits::pair(wiring, 2 * i) as usize,
    }
}

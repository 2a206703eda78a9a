// One bit of a block set: only the two vertices that read it are tested, before and after.
ghost use Rattle.std.specs.Prelude.{◌≡◌};
ghost use Rattle.bits.specs.Window.{turned};
ghost use Rattle.wiring.specs.Plan.{side_of};
ghost use Rattle.wiring.specs.PlanParts.{plan_in};
ghost use Rattle.unsatisfied.specs.Count.{count_change};
ghost use Rattle.unsatisfied.specs.Answer.{CheckedBit, entry_with, bit_answer, bit_block, counted_reply};

use crate::count::missed_at;
use inner_code::Refusal;
use wiring::{CheckedPlan, PlanParts, SideName};

// What is added to a change of the count, so that it is never negative.
pub const UNCHANGED: usize = 65536;

// Makes a bit of a block the last binary digit of `value`, and tells by how much the number of unsatisfied vertices is above what it was,
// UNCHANGED added. Refusals 1 to 12, 23 and 27; a refusal writes nothing.
pub fn set_bit(
    plan: PlanParts<'_, '_>,
    bit: usize,
    value: u64,
    block: &mut [u8],
) -> Result<usize, Refusal>
    ensures result_value { counted_reply result ≡ bit_answer (plan_in plan.entry) bit value block.old }
    ensures block_after { block.new ≡ bit_block (plan_in plan.entry) bit value block.old }
{
    let checked = wiring::check_plan(plan)?;
    let edges = checked.edges();
    wiring::check_block(edges, block)?;
    if edges <= bit {
        return Err(Refusal::BitTooLarge);
    }
    if bits::bit(block, bit) == value % 2 {
        return Ok(UNCHANGED);
    }
    Ok(turn_counted(checked, bit, block))
}

// Turns a bit, and tells the change of the count.
fn turn_counted(plan: CheckedPlan<'_, '_>, bit: usize, block: &mut [u8]) -> usize
    requires { CheckedBit (plan_in plan.parts) bit block.old }
    ensures value { result ≡ count_change (side_of (plan_in plan.entry.parts)) block.old (turned block.old bit 1) }
    ensures block_after { block.new ≡ turned block.old bit 1 }
{
    let left = plan.left;
    let right = plan.right;
    let wiring = plan.parts.wiring;
    let u = bit / left.d;
    let v = entry_with(wiring, bit) / right.d;
    let left_before = missed_at(left, SideName::Left, wiring, block, u);
    let right_before = missed_at(right, SideName::Right, wiring, block, v);
    bits::turn_bit(block, bit);
    let left_after = missed_at(left, SideName::Left, wiring, block, u);
    let right_after = missed_at(right, SideName::Right, wiring, block, v);
    UNCHANGED + left_after + right_after - left_before - right_before
}

// The first entry of the wiring at which an edge stands, their number where it stands at none.
fn entry_with(wiring: &[u8], edge: usize) -> usize
    ensures { result ≡ entry_with wiring.now edge }
{
    let entries = wiring.len() / 2;
    for i in 0..entries {
        if wiring::edge_at(wiring, i) == edge {
            return i;
        }
    }
    entries
}

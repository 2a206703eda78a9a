// One sweep of the side that is named, on a block that is checked.
ghost use Rattle.std.specs.Prelude.{[], ◌≡◌};
ghost use Rattle.inner_code.specs.Reply.{done};
ghost use Rattle.wiring.specs.Plan.{edge_count, side_of};
ghost use Rattle.wiring.specs.PlanParts.{plan_in};
ghost use Rattle.wiring.specs.Block.{block_check};
ghost use Rattle.unsatisfied.specs.Count.{count_change};
ghost use Rattle.unsatisfied.specs.Answer.{counted_reply};
ghost use Rattle.sweeps.specs.Sweep.{sweep};
ghost use Rattle.single_sweep.specs.Answer.{once_answer, once_block};

use crate::sweep::sweep_told;
use finder::FINDER_WORDS;
use inner_code::Refusal;
use wiring::{CheckedPlan, MAX_EDGES, PlanParts, SideName};

// Puts the nearest word at every vertex of a side, and tells by how much the number of unsatisfied vertices, left and right, is above what it
// was, 65,536 added. Refusals 1 to 12 and 23; a refusal writes nothing.
pub fn sweep_once(
    plan: PlanParts<'_, '_>,
    side: SideName,
    block: &mut [u8],
) -> Result<usize, Refusal>
    ensures result_value { counted_reply result ≡ once_answer (plan_in plan.entry) side block.old }
    ensures block_after { block.new ≡ once_block (plan_in plan.entry) side block.old }
{
    let checked = wiring::check_plan(plan)?;
    wiring::check_block(checked.edges(), block)?;
    Ok(sweep_side(checked, side, block))
}

// Sweeps a side of a checked block. From a left bit the vertex that reads it on the right is found by the place of its edge. From a right bit
// the bit's number tells its left vertex, and no places are noted.
fn sweep_side(plan: CheckedPlan<'_, '_>, side: SideName, block: &mut [u8]) -> usize
    requires { block_check (edge_count (plan_in plan.parts)) block.old ≡ done [] }
    ensures value { result ≡ count_change (side_of (plan_in plan.entry.parts)) block.old block.new }
    ensures block_after { block.new ≡ sweep (side_of (plan_in plan.entry.parts) side) block.old }
{
    let code = plan.side(side);
    let basis = code.basis;
    let mut finder = [0u16; FINDER_WORDS];
    finder::prepare_finder(plan.sheet(side), code.k, &basis, &mut finder);
    match side {
        SideName::Left => {
            let mut places = [0u16; MAX_EDGES];
            wiring::note_places(plan.parts.wiring, &mut places);
            sweep_told(plan, side, &mut finder, &places, block)
        }
        SideName::Right => sweep_told(plan, side, &mut finder, &[], block),
    }
}

// The true count of a block: every vertex of both sides is tested.
ghost use Rattle.std.specs.Prelude.{◌≡◌, ◌≤◌, []};
ghost use Rattle.inner_code.specs.Reply.{done};
ghost use Rattle.wiring.specs.Plan.{edge_count, side_of};
ghost use Rattle.wiring.specs.PlanParts.{plan_in};
ghost use Rattle.wiring.specs.Block.{block_check};
ghost use Rattle.wiring.specs.Access.{Readable};
ghost use Rattle.unsatisfied.specs.Count.{unsatisfied_at};
ghost use Rattle.unsatisfied.specs.Answer.{missed_of, missed_by, count_answer, counted_reply};

use inner_code::Refusal;
use wiring::{CheckedPlan, PlanParts, SideCode, SideName};

// How many vertices of a block are unsatisfied, left and right. Refusals 1 to 12 and 23.
pub fn count_unsatisfied(plan: PlanParts<'_, '_>, block: &[u8]) -> Result<usize, Refusal>
    ensures { counted_reply result ≡ count_answer (plan_in plan.entry) block.now }
{
    let checked = wiring::check_plan(plan)?;
    wiring::check_block(checked.edges(), block)?;
    let here = missed_on(checked, SideName::Left, block);
    let there = missed_on(checked, SideName::Right, block);
    Ok(here + there)
}

// How many vertices of a side are unsatisfied.
fn missed_on(plan: CheckedPlan<'_, '_>, side: SideName, block: &[u8]) -> usize
    requires { block_check (edge_count (plan_in plan.parts)) block.now ≡ done [] }
    ensures counted { result ≡ unsatisfied_at (side_of (plan_in plan.entry.parts) side) block.now }
    ensures few { result ≤ 2048 }
{
    let code = plan.side(side);
    let mut count = 0;
    for v in 0..code.n {
        count += missed_at(code, side, plan.parts.wiring, block, v);
    }
    count
}

// 1 for a vertex that fails the test, 0 for one that passes.
pub(crate) fn missed_at(
    code: SideCode,
    side: SideName,
    wiring: &[u8],
    block: &[u8],
    v: usize,
) -> usize
    requires { Readable side wiring.now code.d block.now v }
    ensures { (result ≡ missed_by code side wiring.now block.now v) × (result ≤ 1) }
{
    missed_word(code, wiring::read_word(side, wiring, code.d, block, v))
}

// 1 for a word of which its side's basis leaves something: with a side of a checked plan, for one that is no codeword. 0 for any other.
pub fn missed_word(code: SideCode, word: u16) -> usize
    ensures { (result ≡ missed_of code word) × (result ≤ 1) }
{
    let basis = code.basis;
    (inner_code::residue(&basis, code.k, word) != 0) as usize
}

// The bytes of a state: count and sweep number, two bytes each, high byte first, and then the block.
ghost use Rattle.std.specs.Prelude.{◌≡◌, ◌≤◌, ◌<◌, length};
ghost use Rattle.bits.specs.Bit.{pair_at};
ghost use Rattle.inner_code.specs.Refusal.{number_of, place_of, check_reply};
ghost use Rattle.inner_code.specs.Reply.{refused, and_then};
ghost use Rattle.wiring.specs.PlanParts.{plan_in};
ghost use Rattle.wiring.specs.Wiring.{plan_check};
ghost use Rattle.panel.specs.State.{block_in, state_of};
ghost use Rattle.panel.specs.Answer.{state_check};

use crate::shown::Shown;
use inner_code::Refusal;
use wiring::PlanParts;

// The bytes before the block.
pub(crate) const HEAD: usize = 4;

// Reads count and sweep number of a state.
pub(crate) fn read_head(state: &[u8]) -> Shown
    ensures count_value { (result.count ≡ pair_at state.now 0) × (result.count < 65536) }
    ensures sweeps_value { (result.sweeps ≡ pair_at state.now 2) × (result.sweeps < 65536) }
{
    let count = bits::pair(state, 0) as usize;
    let sweeps = bits::pair(state, 2) as usize;
    Shown { count, sweeps }
}

// Why a call on fewer bytes than stand before a block is turned back: the plan's refusal, or 11.
pub(crate) fn refuse_short(plan: PlanParts<'_, '_>) -> Refusal
    ensures { refused (number_of result) (place_of result) ≡ and_then (plan_check (plan_in plan.entry)) (refused 11 0) }
{
    match wiring::check_plan(plan) {
        Err(r) => r,
        Ok(_) => Refusal::BlockLengthWrong,
    }
}

// Checks a plan and a state of it: refusals 1 to 10 and 23, 11 for another length than a state of this plan has, 12.
pub(crate) fn check_state(plan: PlanParts<'_, '_>, state: &[u8]) -> Result<(), Refusal>
    requires { 4 ≤ length state.now }
    ensures { check_reply result ≡ state_check (plan_in plan.entry) state.now }
{
    let checked = wiring::check_plan(plan)?;
    wiring::check_block(checked.edges(), &state[HEAD..])
}

// Writes count and sweep number before a block.
pub(crate) fn put_head(shown: Shown, state: &mut [u8])
    requires in_bounds { 4 ≤ length state.old }
    requires count_bound { shown.count < 65536 }
    requires sweeps_bound { shown.sweeps < 65536 }
    ensures { state.new ≡ state_of shown.count shown.sweeps (block_in state.old) }
{
    state[..2].copy_from_slice(&(shown.count as u16).to_be_bytes());
    state[2..HEAD].copy_from_slice(&(shown.sweeps as u16).to_be_bytes());
}

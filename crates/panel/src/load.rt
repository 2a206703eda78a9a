// Loading a state.
ghost use Rattle.std.specs.Prelude.{◌≡◌};
ghost use Rattle.wiring.specs.PlanParts.{plan_in};
ghost use Rattle.panel.specs.Answer.{load_answer, load_output, shown_reply};

use crate::shown::Shown;
use crate::state::{HEAD, put_head};
use inner_code::Refusal;
use wiring::PlanParts;

// Puts the state of a block at the front of `state`: the number of its unsatisfied vertices, sweep 0, and the block. Refusals 1 to 13 and 23; a
// refusal writes nothing.
pub fn load_state(plan: PlanParts<'_, '_>, block: &[u8], state: &mut [u8]) -> Result<Shown, Refusal>
    ensures result_value { shown_reply result ≡ load_answer (plan_in plan.entry) block.now state.old }
    ensures state_after { state.new ≡ load_output (plan_in plan.entry) block.now state.old }
{
    let count = unsatisfied::count_unsatisfied(plan, block)?;
    if state.len() < HEAD || state.len() - HEAD < block.len() {
        return Err(Refusal::OutputShort);
    }
    let shown = Shown { count, sweeps: 0 };
    put_head(shown, state);
    bits::copy_front(block, &mut state[HEAD..]);
    Ok(shown)
}

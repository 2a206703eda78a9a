// One bit of a state's block set.
ghost use Rattle.std.specs.Prelude.{◌≡◌};
ghost use Rattle.wiring.specs.PlanParts.{plan_in};
ghost use Rattle.panel.specs.State.{set_to};
ghost use Rattle.panel.specs.Answer.{set_answer, set_output, shown_reply};

use crate::shown::Shown;
use crate::state::{HEAD, put_head, read_head, refuse_short};
use inner_code::Refusal;
use wiring::PlanParts;

// Sets a bit of a state's block, to 0 for the value 0 and to 1 for any other, and begins again at sweep 0, also where the bit has that value.
// Answers the state's count and sweep number afterwards. Refusals 1 to 12, 23 and 27; a refusal writes nothing.
pub fn set_bit(
    plan: PlanParts<'_, '_>,
    bit: usize,
    value: u64,
    state: &mut [u8],
) -> Result<Shown, Refusal>
    ensures result_value { shown_reply result ≡ set_answer (plan_in plan.entry) bit value state.old }
    ensures state_after { state.new ≡ set_output (plan_in plan.entry) bit value state.old }
{
    if state.len() < HEAD {
        return Err(refuse_short(plan));
    }
    let head = read_head(state);
    let change = unsatisfied::set_bit(plan, bit, one_or_zero(value), &mut state[HEAD..])?;
    let shown = Shown {
        count: (head.count + change) % 65536,
        sweeps: 0,
    };
    put_head(shown, state);
    Ok(shown)
}

// What a bit is set to.
fn one_or_zero(value: u64) -> u64
    ensures { result ≡ set_to value }
{
    (value != 0) as u64
}

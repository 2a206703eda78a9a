// One sweep of a state.
ghost use Rattle.std.specs.Prelude.{◌≡◌};
ghost use Rattle.wiring.specs.PlanParts.{plan_in};
ghost use Rattle.sweeps.specs.Sweep.{turn};
ghost use Rattle.panel.specs.Answer.{sweep_answer, sweep_output, shown_reply};

use crate::shown::Shown;
use crate::state::{HEAD, check_state, put_head, read_head, refuse_short};
use inner_code::Refusal;
use wiring::{PlanParts, SideName};

// The sweep number from which on an unsettled state is swept no more.
const MAX_SWEEPS: usize = 4096;

// Makes the next sweep of a state, left at an even number and right at an odd one, and answers its count and sweep number afterwards. A state
// whose count is 0 is settled: nothing changes, at any number and on any block. Refusals 1 to 12, 23 and 28; a refusal writes nothing.
pub fn sweep_state(plan: PlanParts<'_, '_>, state: &mut [u8]) -> Result<Shown, Refusal>
    ensures result_value { shown_reply result ≡ sweep_answer (plan_in plan.entry) state.old }
    ensures state_after { state.new ≡ sweep_output (plan_in plan.entry) state.old }
{
    if state.len() < HEAD {
        return Err(refuse_short(plan));
    }
    let head = read_head(state);
    let settled = head.count == 0;
    if settled || MAX_SWEEPS <= head.sweeps {
        check_state(plan, state)?;
        if settled {
            return Ok(head);
        }
        return Err(Refusal::SweepsSpent);
    }
    let change = single_sweep::sweep_once(plan, side_at(head.sweeps), &mut state[HEAD..])?;
    let shown = Shown {
        count: (head.count + change) % 65536,
        sweeps: head.sweeps + 1,
    };
    put_head(shown, state);
    Ok(shown)
}

// The side that the sweep after so many is of.
fn side_at(sweeps: usize) -> SideName
    ensures { result ≡ turn sweeps }
{
    if sweeps % 2 == 0 {
        return SideName::Left;
    }
    SideName::Right
}

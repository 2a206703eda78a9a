// The margin: the sweeps within which a number of flipped bits is mended.
ghost use Rattle.std.specs.Prelude.{◌≡◌, ◌≤◌};
ghost use Rattle.wiring.specs.Plan.{edge_count};
ghost use Rattle.wiring.specs.PlanParts.{plan_in};
ghost use Rattle.radius.specs.Answer.{margin_of, margin_answer, margin_reply};

use crate::chain::{first_bound, sweeps_named};
use crate::numbers::{measured_distance, measured_numbers};
use inner_code::Refusal;
use wiring::{CheckedPlan, PlanParts, check_plan};

// The sweeps within which so many flipped bits are mended, whichever they are. Refusals 1 to 10 and 23, 17 for more flips than the block
// has bits, 18 for flips that are not covered.
pub fn margin_sweeps(plan: PlanParts<'_, '_>, flips: u64) -> Result<u64, Refusal>
    ensures { margin_reply result ≡ margin_answer (plan_in plan.entry) flips }
{
    let checked = check_plan(plan)?;
    let edges = checked.edges();
    if (edges as u64) < flips {
        return Err(Refusal::FlipsTooMany);
    }
    let sweeps = measured_sweeps(checked, flips);
    if sweeps == 0 {
        return Err(Refusal::FlipsNotCovered);
    }
    Ok(sweeps)
}

// The sweeps named for so many flips of a checked plan's bits; 0 where they are not covered. Where the first b is 0 the spread does not
// enter, and it takes by far the longest to measure.
fn measured_sweeps(plan: CheckedPlan<'_, '_>, flips: u64) -> u64
    requires { flips ≤ edge_count (plan_in plan.parts) }
    ensures { result ≡ margin_of (plan_in plan.entry.parts) flips }
{
    let distance = measured_distance(plan.parts.left_sheet, plan.left.k);
    if first_bound(distance, flips) == 0 {
        return 1;
    }
    sweeps_named(measured_numbers(plan), flips)
}

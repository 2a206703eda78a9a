// A right vertex's piece of the wiring.
ghost use Rattle.std.specs.Prelude.{◌≡◌};
ghost use Rattle.wiring.specs.PlanParts.{plan_in};
ghost use Rattle.wiring.specs.Answer.{piece_of};

use crate::parts::PlanParts;
use crate::plan::check_plan;

// The part of the lent wiring that holds the dr entries of right vertex v. It is empty for a faulty plan, and for a v of nr or more; no
// refusal number is given.
pub fn piece_of<'w>(plan: PlanParts<'_, 'w>, v: usize) -> &'w [u8]
    ensures { result.now ≡ piece_of (plan_in plan.entry) v }
{
    match check_plan(plan) {
        Err(_) => &plan.wiring[0..0],
        Ok(checked) => {
            if v < plan.nr {
                let d = checked.right.d;
                let start = 2 * (v * d);
                let end = start + 2 * d;
                return &plan.wiring[start..end];
            }
            &plan.wiring[0..0]
        }
    }
}

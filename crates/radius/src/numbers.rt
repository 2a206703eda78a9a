// A plan's numbers: of each side n, d, k and the inner distance D, and the spread R of the wiring.
ghost use Rattle.std.specs.Prelude.{◌≡◌, min};
ghost use Rattle.inner_code.specs.Code.{distance};
ghost use Rattle.inner_code.specs.Sheet.{row_of};
ghost use Rattle.wiring.specs.PlanParts.{plan_in};
ghost use Rattle.radius.specs.Answer.{numbers_of, numbers_answer, numbers_reply};

use inner_code::{MAX_CODEWORDS, Refusal};
use meetings::measured_spread;
use wiring::{CheckedPlan, PlanParts, check_plan};

// A plan's numbers, in the order in which the program `margin` writes them: the sides' vertex counts n, degrees d, row counts k and inner
// distances, left before right, and the spread of the wiring.
#[derive(Clone, Copy, Debug, PartialEq, Eq)]
pub struct PlanNumbers {
    pub nl: u64,
    pub nr: u64,
    pub dl: u64,
    pub dr: u64,
    pub kl: u64,
    pub kr: u64,
    pub left_distance: u64,
    pub right_distance: u64,
    pub spread: u64,
}

// Checks a plan and answers the n, d and k of its sides, the inner distances of its sheets and the spread of its wiring. Refusals 1 to 10
// and 23.
pub fn plan_numbers(plan: PlanParts<'_, '_>) -> Result<PlanNumbers, Refusal>
    ensures { numbers_reply result ≡ numbers_answer (plan_in plan.entry) }
{
    Ok(measured_numbers(check_plan(plan)?))
}

// The numbers of a checked plan.
pub(crate) fn measured_numbers(plan: CheckedPlan<'_, '_>) -> PlanNumbers
    ensures { result ≡ numbers_of (plan_in plan.entry.parts) }
{
    PlanNumbers {
        nl: plan.left.n as u64,
        nr: plan.right.n as u64,
        dl: plan.left.d as u64,
        dr: plan.right.d as u64,
        kl: plan.left.k as u64,
        kr: plan.right.k as u64,
        left_distance: measured_distance(plan.parts.left_sheet, plan.left.k),
        right_distance: measured_distance(plan.parts.right_sheet, plan.right.k),
        spread: measured_spread(plan.parts),
    }
}

// The inner distance of the code that the sheet's first k rows make; a k above 11 counts as 11.
pub(crate) fn measured_distance(sheet: &[u8], k: usize) -> u64
    ensures { result ≡ distance (row_of sheet.now) (min k 11) }
{
    let mut words = [0u16; MAX_CODEWORDS];
    let count = inner_code::list_codewords(sheet, k, &mut words);
    inner_code::distance(&words[0..count]) as u64
}

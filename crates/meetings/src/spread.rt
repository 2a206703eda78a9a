// The spread, measured from the wiring's own entries: for each left vertex the walk goes over its edges, and then over the edges of
// each right vertex met, and counts where it ends.
ghost use Rattle.std.specs.Prelude.{◌≡◌, ◌*◌, ◌≤◌, ◌<◌};
ghost use Rattle.bits.specs.Window.{at};
ghost use Rattle.wiring.specs.Plan.{side_of};
ghost use Rattle.wiring.specs.PlanParts.{plan_in};
ghost use Rattle.wiring.specs.Checking.{WiredPlan};
ghost use Rattle.meetings.specs.Spread.{spread};
ghost use Rattle.meetings.specs.Answer.{spread_answer, spread_reply};
ghost use Rattle.meetings.specs.Walk.{arrivals, walked, Fresh, Countable, Counted, Summable, uneven_by, largest_walked};

use crate::ends::EdgeEnds;
use inner_code::Refusal;
use wiring::{PlanParts, check_plan};

// Checks a plan and answers the spread of its wiring: the smaller, the more evenly its left vertices meet. Refusals 1 to 10 and 23.
pub fn plan_spread(plan: PlanParts<'_, '_>) -> Result<u64, Refusal>
    ensures { spread_reply result ≡ spread_answer (plan_in plan.entry) }
{
    Ok(measured_spread(check_plan(plan)?.parts))
}

// The spread R of an accepted wiring: nothing is asked of the sheets but their degrees.
pub fn measured_spread(plan: PlanParts<'_, '_>) -> u64
    requires { WiredPlan (plan_in plan) }
    ensures { result ≡ spread (side_of (plan_in plan.entry)) }
{
    let dl = plan.left_sheet[0] as usize;
    let dr = plan.right_sheet[0] as usize;
    let mut lefts = [0u16; 32768];
    let mut rights = [0u16; 32768];
    wiring::note_ends(plan.wiring, plan.nl * dl, dl, dr, &mut lefts, &mut rights);
    largest_unevenness(EdgeEnds {
        lefts: &lefts,
        rights: &rights,
        nl: plan.nl,
        nr: plan.nr,
        dl,
        dr,
    })
}

// The largest sum that the walk of a left vertex gives.
fn largest_unevenness(ends: EdgeEnds<'_>) -> u64
    ensures { result ≡ largest_walked (at ends.entry.lefts.now) (at ends.entry.rights.now) ends.entry.nl ends.entry.nr ends.entry.dl ends.entry.dr ends.entry.nl }
{
    let mut counts = [0u32; 2048];
    let mut largest: u64 = 0;
    for u in 0..ends.nl {
        counts[..ends.nl].fill(0);
        walk(ends, u, &mut counts);
        largest = largest.max(unevenness_of(&counts, ends.nl, ends.nr, ends.dl));
    }
    largest
}

// One for each edge of each right vertex that the edges of left vertex u meet, at that edge's left vertex.
fn walk(ends: EdgeEnds<'_>, u: usize, counts: &mut [u32])
    requires is_vertex { u < ends.nl }
    requires fresh { Fresh ends.nl counts.old }
    ensures { Counted (walked (at ends.entry.lefts.now) (at ends.entry.rights.now) ends.entry.dr (u * ends.entry.dl) ends.entry.dl) counts.old counts.new }
{
    let base = u * ends.dl;
    for &right in &ends.rights[base..base + ends.dl] {
        count_edges(ends.lefts, right as usize * ends.dr, ends.dr, counts);
    }
}

// One for each of the d entries from `from` on, at its left vertex.
fn count_edges(lefts: &[u16], from: usize, d: usize, counts: &mut [u32])
    requires { Countable lefts.now from d counts.old }
    ensures { Counted (arrivals (at lefts.now) from d) counts.old counts.new }
{
    for &left in &lefts[from..from + d] {
        counts[left as usize] += 1;
    }
}

// The sum over all left vertices of the absolute value of nr * count - dl * dl.
fn unevenness_of(counts: &[u32], nl: usize, nr: usize, dl: usize) -> u64
    requires summable { Summable nl nr counts.now }
    requires dl_bound { dl ≤ 16 }
    ensures { result ≡ uneven_by (at counts.now) nr dl nl }
{
    let even = (dl * dl) as u32;
    let factor = nr as u32;
    let mut sum: u32 = 0;
    for &count in &counts[..nl] {
        let met = factor * count;
        sum += met.abs_diff(even);
    }
    sum as u64
}

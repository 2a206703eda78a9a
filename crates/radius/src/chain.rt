// The margin's numbers alone.
ghost use Rattle.std.specs.Prelude.{◌≡◌, suc, ◌*◌, ◌/◌, ◌≤◌};
ghost use Rattle.wiring.specs.Plan.{right};
ghost use Rattle.radius.specs.Chain.{chain_sweeps};
ghost use Rattle.radius.specs.Margin.{sweeps_named, beyond};
ghost use Rattle.radius.specs.Ranges.{distance_to, measures_by, InRange};

use crate::numbers::PlanNumbers;
use wiring::SideName;

// The sweeps named for `flips` flipped bits on a plan of these numbers; 0 where so many flips are not covered. dr, kl and kr do not matter.
pub fn sweeps_named(plan: PlanNumbers, flips: u64) -> u64
    requires { InRange plan }
    ensures { result ≡ sweeps_named (measures_by plan) flips }
{
    if plan.nl * plan.dl < flips {
        return 0;
    }
    chain(plan, first_bound(plan.left_distance, flips))
}

// The first number of flips, from 0 up, that is not covered on a plan of these numbers.
pub fn first_uncovered(plan: PlanNumbers) -> u64
    requires { InRange plan }
    ensures { result ≡ beyond (measures_by plan) }
{
    let edges = plan.nl * plan.dl;
    for flips in 0..=edges {
        if sweeps_named(plan, flips) == 0 {
            return flips;
        }
    }
    edges + 1
}

// The first b of the chain: 2F/D, rounded down, with the D of the left side.
pub(crate) fn first_bound(distance: u64, flips: u64) -> u64
    requires { (1 ≤ distance) × (flips ≤ 32768) }
    ensures { result ≡ 2 * flips / distance }
{
    2 * flips / distance
}

// The place of the first zero of the chain that begins with `first` and steps right first, counted from 1; 0 where a step on the way is
// not covered. A covered step leads to a smaller b, so the chain ends.
fn chain(plan: PlanNumbers, first: u64) -> u64
    requires in_range { InRange plan }
    requires first_bound { first ≤ 65536 }
    ensures { result ≡ chain_sweeps (measures_by plan) right (suc first) first }
{
    let limit = 4 * plan.nr * plan.spread;
    let mut to = SideName::Right;
    let mut b = first;
    let mut place: u64 = 1;
    // A while: the steps go along the chain of b, whose length is what is asked for.
    while 0 < b {
        let whole = distance_to(plan, to) * plan.nr;
        let taken = 2 * plan.dl * b;
        if whole <= taken {
            return 0;
        }
        let slack = whole - taken;
        let square = slack * slack;
        if square <= limit {
            return 0;
        }
        b = limit * b / square;
        place += 1;
        to = to.other();
    }
    place
}

// The inner distance of the side that a step goes to.
fn distance_to(plan: PlanNumbers, to: SideName) -> u64
    ensures { result ≡ distance_to plan to }
{
    match to {
        SideName::Left => plan.left_distance,
        SideName::Right => plan.right_distance,
    }
}

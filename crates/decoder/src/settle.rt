// Sweeps in turn, up to the first count after which the block is a codeword. The first two sweeps go over all vertices; the later ones, over those
// with news.
ghost use Rattle.std.specs.Prelude.{false, List, [], ◌≡◌, ℕ, ◌+◌, ◌≤◌, ◌<◌, length};
ghost use Rattle.inner_code.specs.Reply.{done};
ghost use Rattle.wiring.specs.Plan.{edge_count};
ghost use Rattle.wiring.specs.PlanParts.{plan_in};
ghost use Rattle.wiring.specs.Block.{block_check};
ghost use Rattle.sweeps.specs.Sweeping.{Ready, BothSwept};
ghost use Rattle.wiring.specs.Places.{PlacesNoted};
ghost use Rattle.decoder.specs.Turns.{Tried, noted, added_visits, ended_to, Opened, OpenedSome};

use sweeps::{Tally, all_codewords, all_satisfied, sweep_first, sweep_right, sweep_turn};
use wiring::{CheckedPlan, SideName};
use words::{KEPT, clear_marks, read_words};

// The sweeps whose sums are told.
pub const SUMS: usize = 64;

// After how many sweeps a block settled, one more than the limit where it did not, how many bits each sweep up to there changed, and how many
// vertices they visited.
#[derive(Clone, Copy)]
pub(crate) struct Settling {
    pub count: usize,
    pub sums: [u16; SUMS],
    pub visits: u64,
}

// What the first two sweeps come to: where `ended` is set the same as above, and else what stands after both, a third one being needed.
#[derive(Clone, Copy)]
pub(crate) struct Opening {
    pub limit: usize,
    pub ended: bool,
    pub count: usize,
    pub sums: [u16; SUMS],
    pub visits: u64,
}

// The first two sweeps. The test before each sweep is of both sides, and takes no pass of its own: a sweep that changes no bit and leaves no tie
// found its side satisfied, and the side swept before is satisfied where that sweep left no tie. Where the second sweep changes nothing it is the
// last: the side swept before reads what it read, so no later sweep changes anything either, and the block settled there or never does. Where it
// changes something and leaves no tie, the left words are tested before a third sweep is made. Sums and visits of a sweep beyond the limit are
// not told.
pub(crate) fn open(
    plan: &CheckedPlan<'_, '_>,
    left_finder: &mut [u16],
    right_finder: &mut [u16],
    limit: usize,
    kept: &mut [u16; KEPT],
    block: &mut [u8],
) -> Opening
    requires limit_bound { limit ≤ 4096 }
    requires kept_len { length kept.old ≡ 2304 }
    requires ready { Ready (plan_in plan.now.parts) left_finder.old right_finder.old }
    requires block_value { block_check (edge_count (plan_in plan.now.parts)) block.old ≡ done [] }
    ensures still_ready { Ready (plan_in plan.now.parts) left_finder.new right_finder.new }
    ensures opened { Opened (plan_in plan.now.parts) block.old limit result kept.new block.new }
{
    let firsts = sweep_firsts(plan, left_finder, right_finder, kept, block);
    let first = firsts.left;
    let second = firsts.right;
    let one = add_visits(0, 0, limit, plan.parts.nl as u64);
    let two = add_visits(one, 1, limit, plan.parts.nr as u64);
    let mut sums = [0u16; SUMS];
    note(&mut sums, 0, limit, first.changed);
    if second.changed == 0 {
        if first.changed == 0 {
            return ended(limit, 0, first.ties + second.ties, sums, 0, two);
        }
        return ended(limit, 1, first.ties + second.ties, sums, one, two);
    }
    note(&mut sums, 1, limit, second.changed);
    if limit < 2 {
        return Opening {
            limit,
            ended: true,
            count: limit + 1,
            sums,
            visits: two,
        };
    }
    if second.ties == 0 && all_codewords(plan.parts.left_sheet, plan.parts.nl, left_finder, block) {
        return Opening {
            limit,
            ended: true,
            count: 2,
            sums,
            visits: two,
        };
    }
    Opening {
        limit,
        ended: false,
        count: 2,
        sums,
        visits: two,
    }
}

// Where the second sweep changed nothing: the block settled at `count` with so many visits where no sweep left a tie, and else it never does, and
// the visits are those of the two sweeps.
fn ended(
    limit: usize,
    count: usize,
    ties: usize,
    sums: [u16; SUMS],
    visits: u64,
    both: u64,
) -> Opening
    requires { limit ≤ 4096 }
    ensures { result ≡ ended_to limit count ties sums visits both }
{
    if ties == 0 {
        return Opening {
            limit,
            ended: true,
            count,
            sums,
            visits,
        };
    }
    Opening {
        limit,
        ended: true,
        count: limit + 1,
        sums,
        visits: both,
    }
}

// What a left sweep and the right one after it tell.
#[derive(Clone, Copy)]
struct Tallies {
    left: Tally,
    right: Tally,
}

// The first two sweeps. The words of the right side are fetched between them.
fn sweep_firsts(
    plan: &CheckedPlan<'_, '_>,
    left_finder: &mut [u16],
    right_finder: &mut [u16],
    kept: &mut [u16; KEPT],
    block: &mut [u8],
) -> Tallies
    requires ready { Ready (plan_in plan.now.parts) left_finder.old right_finder.old }
    requires block_value { block_check (edge_count (plan_in plan.now.parts)) block.old ≡ done [] }
    requires kept_len { length kept.old ≡ 2304 }
    ensures both_swept { BothSwept (plan_in plan.now.parts) block.old result.left result.right block.new kept.new }
    ensures still_ready { Ready (plan_in plan.now.parts) left_finder.new right_finder.new }
{
    let first = sweep_first(
        plan.parts.left_sheet,
        plan.parts.nl,
        plan.parts.wiring,
        left_finder,
        block,
    );
    clear_marks(kept);
    read_words(plan, block, kept);
    let second = sweep_right(plan, left_finder, right_finder, kept, block);
    Tallies {
        left: first,
        right: second,
    }
}

// The sweeps from the third on, where two do not end it. Each goes over the vertices with news: any other was visited two sweeps before, reads
// what it read then, and would stay. One that changes nothing is the last: no vertex has news of it. The block is then tested once, since a tie
// may have waited without news.
pub(crate) fn finish(
    plan: &CheckedPlan<'_, '_>,
    left_finder: &mut [u16],
    right_finder: &mut [u16],
    opening: Opening,
    places: &[u16],
    kept: &mut [u16; KEPT],
    block: &mut [u8],
) -> Settling
    requires ready { Ready (plan_in plan.now.parts) left_finder.old right_finder.old }
    requires opened_some { OpenedSome (plan_in plan.now.parts) opening kept.old block.old }
    requires places_noted { opening.ended ≡ false → PlacesNoted plan.now.parts.wiring.now places.now }
    ensures still_ready { Ready (plan_in plan.now.parts) left_finder.new right_finder.new }
    ensures settles { (received : List ℕ) → Opened (plan_in plan.now.parts) received opening.limit opening kept.old block.old
        → Tried (plan_in plan.now.parts) received opening.limit result.count result.sums result.visits block.new }
{
    let limit = opening.limit;
    let mut sums = opening.sums;
    let mut visits = opening.visits;
    if opening.ended {
        return Settling {
            count: opening.count,
            sums,
            visits,
        };
    }
    let mut side = SideName::Left;
    for count in 2..=limit {
        let here = sweep_turn(plan, left_finder, right_finder, side, places, kept, block);
        if here.changed == 0 {
            if all_satisfied(plan, left_finder, right_finder, kept, block) {
                return Settling {
                    count,
                    sums,
                    visits,
                };
            }
            return Settling {
                count: limit + 1,
                sums,
                visits: add_visits(visits, count, limit, here.visits),
            };
        }
        note(&mut sums, count, limit, here.changed);
        visits = add_visits(visits, count, limit, here.visits);
        side = side.other();
    }
    Settling {
        count: limit + 1,
        sums,
        visits,
    }
}

// Notes how many bits sweep `i` + 1 changed, where it is within the limit and its sum is told.
fn note(sums: &mut [u16; SUMS], i: usize, limit: usize, changed: usize)
    requires sums_len { length sums.old ≡ 64 }
    requires changed_bound { changed < 65536 }
    ensures { sums.new ≡ noted sums.old i limit changed }
{
    if i < limit && i < SUMS {
        sums[i] = changed as u16;
    }
}

// The visits with those of sweep `i` + 1, where it is within the limit.
fn add_visits(visits: u64, i: usize, limit: usize, more: u64) -> u64
    requires { visits + more < 18446744073709551616 }
    ensures { result ≡ added_visits visits i limit more }
{
    if i < limit {
        return visits + more;
    }
    visits
}

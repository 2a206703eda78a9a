// The decoder: refusals 1 to 15 and 23 to 26.
ghost use Rattle.std.specs.Prelude.{true, false, List, [], ◌≡◌, ℕ, ◌/◌, ◌%◌, ◌≤◌, ◌<◌, length, take, replicate, IfOk, Err};
ghost use Rattle.bits.specs.Bit.{written};
ghost use Rattle.inner_code.specs.Reply.{done};
ghost use Rattle.wiring.specs.Plan.{edge_count, side_of};
ghost use Rattle.wiring.specs.PlanParts.{plan_in};
ghost use Rattle.wiring.specs.Block.{block_check, located};
ghost use Rattle.wiring.specs.Checking.{plan_reply, Permuted};
ghost use Rattle.wiring.specs.Code.{code_of};
ghost use Rattle.wiring.specs.declared.side.SideName.{SideName};
ghost use Rattle.spans.specs.Spans.{filled};
ghost use Rattle.spans.specs.Walking.{flips_around};
ghost use Rattle.sweeps.specs.Sweeping.{Ready};
ghost use Rattle.wiring.specs.Places.{PlacesNoted};
ghost use Rattle.decoder.specs.Turns.{Tried, Opened, OpenedSome, ByTrial};
ghost use Rattle.decoder.specs.Answer.{decode_check, Decodes};

use crate::settle::{Opening, SUMS, Settling, finish, open};
use finder::FINDER_WORDS;
use inner_code::Refusal;
use wiring::{CheckedPlan, MAX_EDGES, PlanParts};
use words::KEPT;

// The most sweeps that a call may allow.
const MAX_LIMIT: usize = 4096;

// The bytes of the largest block.
const MAX_BLOCK: usize = MAX_EDGES / 8;

// Plans of so few edges have room of their own for the places of the edges.
const FEW_EDGES: usize = 1024;

// A block of so few bytes is first tested by the rows.
const SMALL_BLOCK: usize = 32;

// The whole answer of a decoder call: the sweeps after which the block settled, or the refusal, and with either how many bits each of the first sweeps changed, 0 for a sweep that was not made, and
// how many vertices the sweeps visited.
#[derive(Clone, Copy)]
pub struct Decoding {
    pub outcome: Result<usize, Refusal>,
    pub sums: [u16; SUMS],
    pub visits: u64,
}

// Decodes a received block, of which `lost` lists the spans that were lost, into the front of `output`, and answers after how many sweeps it
// settled. It is tried with the lost bits all 0 and with all 1; of two trials that settle, the one that changes fewer bits outside the spans
// is kept, the first where they change as many. Refusals 1 to 15 and 23 to 26; with 15 the front of `output` holds the received block, and no
// other refusal writes a byte. Sums and visits are those of the trial that is kept, with 15 those of the first; with any other refusal they are 0.
pub fn decode(
    plan: PlanParts<'_, '_>,
    received: &[u8],
    lost: &[u8],
    output: &mut [u8],
    limit: usize,
) -> Decoding
    ensures { Decodes (plan_in plan.entry) received.now lost.now output.old limit result output.new }
{
    match check_call(plan, received, lost, output, limit) {
        Ok(checked) => decode_checked(checked, received, lost, output, limit),
        Err(refusal) => refuse(refusal),
    }
}

// What stops a call before it decodes: refusals 1 to 14 and 23 to 26; else the checked plan.
fn check_call<'s, 'w>(
    plan: PlanParts<'s, 'w>,
    received: &[u8],
    lost: &[u8],
    output: &[u8],
    limit: usize,
) -> Result<CheckedPlan<'s, 'w>, Refusal>
    ensures answer { plan_reply result ≡ decode_check (plan_in plan.entry) received.now lost.now output.now limit }
    ensures parts { IfOk result (λ p. plan_in p.parts ≡ plan_in plan.entry) }
{
    let checked = wiring::check_plan(plan)?;
    wiring::check_block(checked.edges(), received)?;
    spans::check_spans(checked.edges(), lost)?;
    if output.len() < received.len() {
        return Err(Refusal::OutputShort);
    }
    if MAX_LIMIT < limit {
        return Err(Refusal::LimitTooLarge);
    }
    Ok(checked)
}

// Decodes where nothing stops the call, with the sides that the plan's check has told, so that a caller with many blocks checks their plan once.
// One finder serves both sides where they have the same sheet.
pub fn decode_checked(
    plan: CheckedPlan<'_, '_>,
    received: &[u8],
    lost: &[u8],
    output: &mut [u8],
    limit: usize,
) -> Decoding
    requires { decode_check (plan_in plan.parts) received.now lost.now output.old limit ≡ done [] }
    ensures { Decodes (plan_in plan.entry.parts) received.now lost.now output.old limit result output.new }
{
    let parts = plan.parts;
    if lost.is_empty() && is_codeword_at_sight(&plan, received) {
        bits::copy_front(received, output);
        return Decoding {
            outcome: Ok(0),
            sums: [0; SUMS],
            visits: 0,
        };
    }
    let given = Received {
        block: received,
        lost,
    };
    let left_basis = plan.left.basis;
    let mut left_finder = [0u16; FINDER_WORDS];
    finder::prepare_finder(parts.left_sheet, plan.left.k, &left_basis, &mut left_finder);
    if bits::same(parts.left_sheet, parts.right_sheet) {
        let mut none = [0u16; 0];
        return decode_trials(&plan, &mut left_finder, &mut none, given, output, limit);
    }
    let right_basis = plan.right.basis;
    let mut right_finder = [0u16; FINDER_WORDS];
    finder::prepare_finder(
        parts.right_sheet,
        plan.right.k,
        &right_basis,
        &mut right_finder,
    );
    decode_trials(
        &plan,
        &mut left_finder,
        &mut right_finder,
        given,
        output,
        limit,
    )
}

// What was received: the block, and the list of the spans that were lost.
#[derive(Clone, Copy)]
struct Received<'a> {
    block: &'a [u8],
    lost: &'a [u8],
}

// Decodes with the finders of both sides. The trial with zeros is made at the front of the output. Most blocks settle in its first two sweeps; what
// else there is to do needs more room.
fn decode_trials(
    plan: &CheckedPlan<'_, '_>,
    left_finder: &mut [u16],
    right_finder: &mut [u16],
    received: Received<'_>,
    output: &mut [u8],
    limit: usize,
) -> Decoding
    requires ready { Ready (plan_in plan.now.parts) left_finder.old right_finder.old }
    requires limit_value { decode_check (plan_in plan.now.parts) received.block.now received.lost.now output.old limit ≡ done [] }
    ensures { Decodes (plan_in plan.now.parts) received.entry.block.now received.entry.lost.now output.old limit result output.new }
{
    let size = received.block.len();
    lay_out(received, 0, output);
    let mut kept = [0u16; KEPT];
    let opening = open(
        plan,
        left_finder,
        right_finder,
        limit,
        &mut kept,
        &mut output[..size],
    );
    let count = opening.count;
    let sums = opening.sums;
    let visits = opening.visits;
    if at_once(received.lost.len(), opening.ended, count, limit) {
        return Decoding {
            outcome: Ok(count),
            sums,
            visits,
        };
    }
    decode_on(
        plan,
        left_finder,
        right_finder,
        received,
        opening,
        &mut kept,
        output,
    )
}

// Whether nothing more is to do after two sweeps: no bit is lost, and the block settled.
fn at_once(lost_bytes: usize, ended: bool, count: usize, limit: usize) -> bool
    ensures { result ≡ true → (lost_bytes ≡ 0) × ((ended ≡ true) × (count ≤ limit)) }
{
    lost_bytes == 0 && ended && count <= limit
}

// Goes on from the first two sweeps of the trial with zeros, at the front of the output. Room for the places of the edges is cleared from here on
// and not before (`decode_with`), and less of it for a small plan, since clearing all of it takes longer than such a call.
fn decode_on(
    plan: &CheckedPlan<'_, '_>,
    left_finder: &mut [u16],
    right_finder: &mut [u16],
    received: Received<'_>,
    opening: Opening,
    kept: &mut [u16; KEPT],
    output: &mut [u8],
) -> Decoding
    requires ready { Ready (plan_in plan.now.parts) left_finder.old right_finder.old }
    requires limit_value { decode_check (plan_in plan.now.parts) received.block.now received.lost.now output.old opening.limit ≡ done [] }
    requires opened { Opened (plan_in plan.now.parts) (filled 0 received.lost.now received.block.now) opening.limit opening kept.old
        (take (length received.block.now) output.old) }
    ensures { Decodes (plan_in plan.now.parts) received.entry.block.now received.entry.lost.now output.old opening.limit result output.new }
{
    if plan.parts.wiring.len() <= 2 * FEW_EDGES {
        return decode_with::<FEW_EDGES>(
            plan,
            left_finder,
            right_finder,
            received,
            opening,
            kept,
            output,
        );
    }
    decode_with::<MAX_EDGES>(
        plan,
        left_finder,
        right_finder,
        received,
        opening,
        kept,
        output,
    )
}

// The same with room for the places of N edges.
fn decode_with<const N: usize>(
    plan: &CheckedPlan<'_, '_>,
    left_finder: &mut [u16],
    right_finder: &mut [u16],
    received: Received<'_>,
    opening: Opening,
    kept: &mut [u16; KEPT],
    output: &mut [u8],
) -> Decoding
    requires ready { Ready (plan_in plan.now.parts) left_finder.old right_finder.old }
    requires limit_value { decode_check (plan_in plan.now.parts) received.block.now received.lost.now output.old opening.limit ≡ done [] }
    requires n_bound { N ≤ 32768 }
    requires plan_in_bounds { edge_count (plan_in plan.now.parts) ≤ N }
    requires opened { Opened (plan_in plan.now.parts) (filled 0 received.lost.now received.block.now) opening.limit opening kept.old
        (take (length received.block.now) output.old) }
    ensures { Decodes (plan_in plan.now.parts) received.entry.block.now received.entry.lost.now output.old opening.limit result output.new }
{
    let mut places = [0u16; N];
    decode_placed(
        plan,
        left_finder,
        right_finder,
        received,
        opening,
        &mut places,
        kept,
        output,
    )
}

// The same with room for the places of the edges, which are noted once for both trials, where one of them makes a third sweep. The trial with ones is
// made in a buffer of its own. Where the first settles and changes no bit outside the spans, it is kept whatever the second would give; where no
// bit is lost there is no second. Where none settles the received block is put back, its lost bits as they were received.
fn decode_placed(
    plan: &CheckedPlan<'_, '_>,
    left_finder: &mut [u16],
    right_finder: &mut [u16],
    received: Received<'_>,
    opening: Opening,
    places: &mut [u16],
    kept: &mut [u16; KEPT],
    output: &mut [u8],
) -> Decoding
    requires ready { Ready (plan_in plan.now.parts) left_finder.old right_finder.old }
    requires limit_value { decode_check (plan_in plan.now.parts) received.block.now received.lost.now output.old opening.limit ≡ done [] }
    requires plan_in_bounds { edge_count (plan_in plan.now.parts) ≤ length places.old }
    requires opened { Opened (plan_in plan.now.parts) (filled 0 received.lost.now received.block.now) opening.limit opening kept.old
        (take (length received.block.now) output.old) }
    ensures { Decodes (plan_in plan.now.parts) received.entry.block.now received.entry.lost.now output.old opening.limit result output.new }
{
    let size = received.block.len();
    let limit = opening.limit;
    let first = finish_trial(
        plan,
        left_finder,
        right_finder,
        received,
        opening,
        false,
        places,
        kept,
        output,
    );
    let zeros = first.settling;
    let zeros_changed = first.changed;
    if keeps_zeros(received.lost.len(), limit, zeros.count, zeros_changed) {
        return answer_by(limit, zeros, received.block, output);
    }
    let mut other = [0u8; MAX_BLOCK];
    lay_out(received, 1, &mut other);
    *kept = [0u16; KEPT];
    let again = open(
        plan,
        left_finder,
        right_finder,
        limit,
        kept,
        &mut other[..size],
    );
    let second = finish_trial(
        plan,
        left_finder,
        right_finder,
        received,
        again,
        first.noted,
        places,
        kept,
        &mut other,
    );
    let ones = second.settling;
    if keeps_ones(
        limit,
        zeros.count,
        zeros_changed,
        ones.count,
        second.changed,
    ) {
        bits::copy_front(&other[..size], output);
        return answer_by(limit, ones, received.block, output);
    }
    answer_by(limit, zeros, received.block, output)
}

// What a trial comes to: how many received bits outside the spans it changes is counted where some are lost. With it, whether the places of the edges
// are noted.
#[derive(Clone, Copy)]
struct Attempt {
    settling: Settling,
    changed: usize,
    noted: bool,
}

// Goes on from the first two sweeps of a trial, at the front of `room`. The places are noted where a third sweep is made and they are not yet.
fn finish_trial(
    plan: &CheckedPlan<'_, '_>,
    left_finder: &mut [u16],
    right_finder: &mut [u16],
    received: Received<'_>,
    opening: Opening,
    noted: bool,
    places: &mut [u16],
    kept: &mut [u16; KEPT],
    room: &mut [u8],
) -> Attempt
    requires ready { Ready (plan_in plan.now.parts) left_finder.old right_finder.old }
    requires received_in_bounds { length received.block.now ≤ length room.old }
    requires opened_some { OpenedSome (plan_in plan.now.parts) opening kept.old (take (length received.block.now) room.old) }
    requires plan_in_bounds { edge_count (plan_in plan.now.parts) ≤ length places.old }
    requires places_noted { noted ≡ true → PlacesNoted plan.now.parts.wiring.now places.old }
    ensures still_ready { Ready (plan_in plan.now.parts) left_finder.new right_finder.new }
    ensures places_noted_after { result.noted ≡ true → PlacesNoted plan.now.parts.wiring.now places.new }
    ensures room_after { room.new ≡ written (take (length received.entry.block.now) room.new) room.old }
    ensures settles { (block : List ℕ)
        → Opened (plan_in plan.now.parts) block opening.limit opening kept.old (take (length received.entry.block.now) room.old)
        → Tried (plan_in plan.now.parts) block opening.limit result.settling.count result.settling.sums result.settling.visits
        (take (length received.entry.block.now) room.new) }
    ensures changed_value { (length received.entry.lost.now ≡ 0 → ⊥)
        → result.changed ≡ flips_around (length plan.now.parts.wiring.now / 2) received.entry.lost.now received.entry.block.now (take (length received.entry.block.now) room.new) }
{
    let size = received.block.len();
    let noted = places_for(plan.parts.wiring, opening.ended, noted, places);
    let settling = finish(
        plan,
        left_finder,
        right_finder,
        opening,
        places,
        kept,
        &mut room[..size],
    );
    if received.lost.is_empty() {
        return Attempt {
            settling,
            changed: 0,
            noted,
        };
    }
    let changed = spans::flips_outside(
        plan.parts.wiring.len() / 2,
        received.lost,
        received.block,
        &room[..size],
    );
    Attempt {
        settling,
        changed,
        noted,
    }
}

// Notes the places of the edges where a third sweep needs them and they are not yet noted, and tells whether they are noted.
fn places_for(wiring: &[u8], ended: bool, noted: bool, places: &mut [u16]) -> bool
    requires permuted { Permuted (length wiring.now / 2) wiring.now }
    requires wiring_len_bound { length wiring.now / 2 ≤ 32768 }
    requires wiring_in_bounds { length wiring.now / 2 ≤ length places.old }
    requires places_noted { noted ≡ true → PlacesNoted wiring.now places.old }
    ensures places_noted_after { result ≡ true → PlacesNoted wiring.now places.new }
    ensures value { ended ≡ false → result ≡ true }
{
    if ended || noted {
        return noted;
    }
    wiring::note_places(wiring, places);
    true
}

// Whether the trial with zeros is kept whatever the one with ones gives: no bit is lost, or it settles and changes no bit outside the spans.
fn keeps_zeros(lost_bytes: usize, limit: usize, zeros: usize, changed: usize) -> bool
    ensures when_true { result ≡ true → (lost_bytes ≡ 0 → ⊥) → (zeros ≤ limit) × (changed ≡ 0) }
    ensures when_false { result ≡ false → lost_bytes ≡ 0 → ⊥ }
{
    lost_bytes == 0 || zeros <= limit && changed == 0
}

// Whether the trial with ones is kept: it settles, and where the one with zeros does too, it changes fewer bits outside the spans.
fn keeps_ones(
    limit: usize,
    zeros: usize,
    zeros_changed: usize,
    ones: usize,
    ones_changed: usize,
) -> bool
    ensures when_true { result ≡ true → (ones ≤ limit) × (zeros ≤ limit → ones_changed < zeros_changed) }
    ensures when_false { result ≡ false → ones ≤ limit → (zeros ≤ limit) × (zeros_changed ≤ ones_changed) }
{
    ones <= limit && (limit < zeros || ones_changed < zeros_changed)
}

// Puts the received block at the front of a buffer, with every lost bit made the last binary digit of `value`.
fn lay_out(received: Received<'_>, value: u64, room: &mut [u8])
    requires { length received.block.now ≤ length room.old }
    ensures { room.new ≡ written (filled (value % 2) received.entry.lost.now received.entry.block.now) room.old }
{
    bits::copy_front(received.block, room);
    let size = received.block.len();
    spans::fill(received.lost, value, &mut room[..size]);
}

// The answer of a call that is worked through, by the trial that is kept, whose block stands at the front of the output: where it does not settle,
// the received block is put back there.
fn answer_by(limit: usize, trial: Settling, received: &[u8], output: &mut [u8]) -> Decoding
    requires { length received.now ≤ length output.old }
    ensures { ByTrial received.now limit trial output.old result output.new }
{
    let count = trial.count;
    let sums = trial.sums;
    let visits = trial.visits;
    if limit < count {
        bits::copy_front(received, output);
        return Decoding {
            outcome: Err(Refusal::Unsettled),
            sums,
            visits,
        };
    }
    Decoding {
        outcome: Ok(count),
        sums,
        visits,
    }
}

// The answer of a call that is stopped before it decodes: no sweep is made.
fn refuse(refusal: Refusal) -> Decoding
    ensures outcome_value { result.outcome ≡ Err refusal }
    ensures sums_value { result.sums ≡ replicate 64 0 }
    ensures visits_value { result.visits ≡ 0 }
{
    Decoding {
        outcome: Err(refusal),
        sums: [0; SUMS],
        visits: 0,
    }
}

// Whether a block is found to be a codeword with no finder set up: one of zeros, which is a codeword of every plan, or one of few bits, by the
// rows of each side. Of any other block nothing is said. Setting up a finder costs more than testing so few vertices by the rows.
fn is_codeword_at_sight(plan: &CheckedPlan<'_, '_>, block: &[u8]) -> bool
    requires { block_check (edge_count (plan_in plan.now.parts)) block.now ≡ done [] }
    ensures { result ≡ true → located (side_of (plan_in plan.now.parts)) block.now ≡ [] }
{
    if bits::is_zero(block) {
        return true;
    }
    if SMALL_BLOCK < block.len() {
        return false;
    }
    wiring::first_unsatisfied(plan.left, plan.right, plan.parts.wiring, block).is_none()
}

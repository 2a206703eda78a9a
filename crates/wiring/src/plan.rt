// Both sheets and the wiring together: refusals 1 to 10 and 23.
ghost use Rattle.std.specs.Prelude.{true, [], ◌≡◌, ℕ, ◌*◌, ◌^◌, ◌≤◌, length};
ghost use Rattle.inner_code.specs.Reply.{done};
ghost use Rattle.inner_code.specs.Refusal.{check_reply};
ghost use Rattle.inner_code.specs.Checking.{SheetChecked};
ghost use Rattle.wiring.specs.Plan.{edge_of};
ghost use Rattle.wiring.specs.PlanParts.{plan_in};
ghost use Rattle.wiring.specs.Wiring.{count_faulty, entries_check, wiring_check};
ghost use Rattle.wiring.specs.Checking.{PlanChecked};

use crate::access::edge_at;
use crate::parts::{CheckedPlan, PlanParts};
use crate::side::SideCode;
use inner_code::{CheckedSheet, Refusal};

// The most vertices on a side.
pub const MAX_VERTICES: usize = 2048;

// The most edges of a plan.
pub const MAX_EDGES: usize = MAX_VERTICES * inner_code::MAX_DEGREE;

// A plan with no more edges than this is checked by so many bytes: to clear one for each of MAX_EDGES would cost it more than all else.
const FEW_EDGES: usize = 1024;

// Checks a plan: the left sheet and then the right one by refusals 1 to 6, both numbers of vertices by 7, and the wiring by 23, 8, 9 and 10.
pub fn check_plan<'s, 'w>(parts: PlanParts<'s, 'w>) -> Result<CheckedPlan<'s, 'w>, Refusal>
    ensures { PlanChecked (plan_in parts.entry) result }
{
    let left_checked = inner_code::check_sheet(parts.left_sheet);
    let left = left_checked.sheet?;
    let right_checked = check_right(parts.left_sheet, parts.right_sheet, left_checked);
    let right = right_checked.sheet?;
    check_wiring(left.d, right.d, parts.nl, parts.nr, parts.wiring)?;
    let left_basis = left_checked.basis;
    let right_basis = right_checked.basis;
    Ok(CheckedPlan {
        parts,
        left: SideCode {
            n: parts.nl,
            d: left.d,
            k: left.k,
            basis: left_basis,
        },
        right: SideCode {
            n: parts.nr,
            d: right.d,
            k: right.k,
            basis: right_basis,
        },
    })
}

// The check of the right sheet, by that of the left one where both are the same.
fn check_right(left: &[u8], right: &[u8], left_checked: CheckedSheet) -> CheckedSheet
    requires { SheetChecked left.now left_checked }
    ensures { SheetChecked right.now result }
{
    if bits::same(left, right) {
        return left_checked;
    }
    inner_code::check_sheet(right)
}

// Refusals 7, 23 and 8 to 10 of a wiring between nl left vertices of degree dl and nr right ones of degree dr.
fn check_wiring(dl: usize, dr: usize, nl: usize, nr: usize, wiring: &[u8]) -> Result<(), Refusal>
    requires { (dl ≤ 16) × (dr ≤ 16) }
    ensures { check_reply result ≡ wiring_check dl dr nl nr wiring.now }
{
    if is_count_faulty(nl) || is_count_faulty(nr) {
        return Err(Refusal::VerticesOutOfRange);
    }
    let edges = nl * dl;
    if edges != nr * dr {
        return Err(Refusal::EdgeCountsDiffer);
    }
    if wiring.len() != 2 * edges {
        return Err(Refusal::WiringLengthWrong);
    }
    check_entries(edges, wiring)
}

// Whether no side has so many vertices.
fn is_count_faulty(n: usize) -> bool
    ensures { result ≡ count_faulty n }
{
    n < 1 || MAX_VERTICES < n
}

// Entries in order, each by 9 and then 10. All are first passed over with no test at each: an accepted wiring ends there.
fn check_entries(edges: usize, wiring: &[u8]) -> Result<(), Refusal>
    requires edges_bound { edges ≤ 32768 }
    requires wiring_len { length wiring.now ≡ 2 * edges }
    ensures { check_reply result ≡ entries_check edges (edge_of wiring.now) edges }
{
    if all_stand(edges, wiring) {
        return Ok(());
    }
    test_entries(edges, wiring)
}

// Tests entry by entry. One bit for each edge tells whether it has stood before. A function of its own, as `every_edge_stands` is.
#[inline(never)]
fn test_entries(edges: usize, wiring: &[u8]) -> Result<(), Refusal>
    requires edges_bound { edges ≤ 32768 }
    requires wiring_len { length wiring.now ≡ 2 * edges }
    ensures { check_reply result ≡ entries_check edges (edge_of wiring.now) edges }
{
    let mask: [u8; 8] = [128, 64, 32, 16, 8, 4, 2, 1];
    let mut seen = [0u8; 4096];
    for i in 0..edges {
        let edge = edge_at(wiring, i);
        if edges <= edge {
            return Err(Refusal::EntryTooLarge { entry: i as u32 });
        }
        let byte = seen[edge / 8];
        let bit = mask[edge % 8];
        if byte & bit != 0 {
            return Err(Refusal::EntryRepeated { entry: i as u32 });
        }
        seen[edge / 8] = byte ^ bit;
    }
    Ok(())
}

// True only if every edge below `edges` stands at an entry, by as many bytes as the plan asks for.
fn all_stand(edges: usize, wiring: &[u8]) -> bool
    requires edges_bound { edges ≤ 32768 }
    requires wiring_len { length wiring.now ≡ 2 * edges }
    ensures { result ≡ true → entries_check edges (edge_of wiring.now) edges ≡ done [] }
{
    if edges <= FEW_EDGES {
        return every_edge_stands::<FEW_EDGES>(edges, wiring);
    }
    every_edge_stands::<MAX_EDGES>(edges, wiring)
}

// True only if every edge below `edges` stands at an entry: then each stands at one and there is no other, since there are as many
// entries as edges. One byte for each edge tells it, of N, a power of two. An edge past them marks the byte of its low digits and shows in
// `digits`, the binary digits of all edges. Unlike their maximum these take one step an entry, and so does the mask, where a remainder by a
// size that is not written here would be a division. No loop ends early, so that loads and stores overlap. It stays a function of its own: put
// into `check_plan`, behind all its tests, its loops would be taken for rare ones and begin anywhere; a call on a plan of 512 edges then takes
// up to a quarter longer.
#[inline(never)]
fn every_edge_stands<const N: usize>(edges: usize, wiring: &[u8]) -> bool
    requires edges_bound { edges ≤ N }
    requires wiring_len { length wiring.now ≡ 2 * edges }
    requires is_power { (k : ℕ) × (N ≡ 2 ^ k) }
    ensures { result ≡ true → entries_check edges (edge_of wiring.now) edges ≡ done [] }
{
    let mask = N - 1;
    let mut marks = [0u8; N];
    let mut digits = 0;
    for i in 0..edges {
        let edge = edge_at(wiring, i);
        digits = digits | edge;
        marks[edge & mask] = 1;
    }
    if mask < digits {
        return false;
    }
    let mut least = 1u8;
    for e in 0..edges {
        least = least.min(marks[e]);
    }
    least == 1
}

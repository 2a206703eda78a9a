// The rows that are left once every check of a plan has dropped its pivot.
ghost use Rattle.std.specs.Prelude.{◌≡◌, ◌<◌, ◌≤◌};
ghost use Rattle.wiring.specs.Plan.{edge_count};
ghost use Rattle.wiring.specs.PlanParts.{plan_in};
ghost use Rattle.messages.specs.Columns.{no_columns, UnitResidues, Uses, Within, FailSet, lowest_row, Spread, CheckMade, Eliminated, Solved};

use crate::columns::{COLUMN_WORDS, SET_WORDS, WORD_BITS, add_column, row_bit, unit_columns};
use inner_code::MAX_DEGREE;
use wiring::{CheckedPlan, SideCode, SideName};

// One check: a digit of what the reduction leaves at a vertex, of whose d entries on its side `base` is the first. `residues` has what it
// leaves of each word with a single 1.
#[derive(Clone, Copy)]
struct Check<'a> {
    side: SideName,
    wiring: &'a [u8],
    residues: &'a [u16; MAX_DEGREE],
    d: usize,
    base: usize,
    digit: usize,
}

// Finds the rows of a checked plan of at most 512 edges: a row is left for each message position, and the others are 0.
pub(crate) fn solve(plan: CheckedPlan<'_, '_>, columns: &mut [u64; COLUMN_WORDS])
    requires edges_bound { edge_count (plan_in plan.parts) ≤ 512 }
    requires columns_value { columns.old ≡ no_columns }
    ensures { Solved (plan_in plan.entry.parts) columns.new }
{
    unit_columns(plan.edges(), columns);
    eliminate(plan, SideName::Left, columns);
    eliminate(plan, SideName::Right, columns);
}

// All checks of a side in order. Where no residue has the check's digit, no row can fail it.
fn eliminate(plan: CheckedPlan<'_, '_>, side: SideName, columns: &mut [u64; COLUMN_WORDS])
    requires { edge_count (plan_in plan.parts) ≤ 512 }
    ensures { Eliminated (plan_in plan.entry.parts) side (edge_count (plan_in plan.entry.parts)) columns.old columns.new }
{
    let edges = plan.edges();
    let code = plan.side(side);
    let residues = unit_residues(code);
    let used = used_digits(&residues, code.d);
    for m in 0..edges {
        let digit = m % code.d;
        if (used >> digit) % 2 == 1 {
            let check = Check {
                side,
                wiring: plan.parts.wiring,
                residues: &residues,
                d: code.d,
                base: m / code.d * code.d,
                digit,
            };
            put_check(check, edges, columns);
        }
    }
}

// What the side's basis leaves of each word with a single 1, that at edge i as entry i.
fn unit_residues(code: SideCode) -> [u16; MAX_DEGREE]
    requires { code.d ≤ 16 }
    ensures { UnitResidues code.basis code.k code.d result }
{
    let basis = code.basis;
    let mut residues = [0u16; MAX_DEGREE];
    for i in 0..code.d {
        residues[i] = inner_code::residue(&basis, code.k, 1 << (code.d - 1 - i));
    }
    residues
}

// The digits that some residue of an edge has.
fn used_digits(residues: &[u16; MAX_DEGREE], d: usize) -> u16
    requires { d ≤ 16 }
    ensures { Uses d residues.now result }
{
    let mut used = 0;
    for i in 0..d {
        used |= residues[i];
    }
    used
}

// A check done: its pivot, the lowest row that fails it, is put on every row that fails, and so is 0 from then on.
fn put_check(check: Check<'_>, edges: usize, columns: &mut [u64; COLUMN_WORDS])
    requires within { Within check }
    requires edges_bound { edges ≤ 512 }
    ensures { CheckMade edges check.entry columns.old columns.new }
{
    let hits = find_hits(check, columns);
    let pivot = lowest(edges, &hits);
    if pivot < edges {
        spread(edges, pivot, &hits, columns);
    }
}

// The rows that fail a check.
fn find_hits(check: Check<'_>, columns: &[u64; COLUMN_WORDS]) -> [u64; SET_WORDS]
    requires { Within check }
    ensures { FailSet check.entry.d check.entry columns.now result }
{
    let Check {
        side,
        wiring,
        residues,
        d,
        base,
        digit,
    } = check;
    let mut hits = [0u64; SET_WORDS];
    for i in 0..d {
        if (residues[i] >> digit) % 2 == 1 {
            add_column(
                columns,
                wiring::bit_of(side, wiring, base + i),
                &mut hits,
                0,
            );
        }
    }
    hits
}

// The lowest row in a set, `edges` where none below it is.
fn lowest(edges: usize, hits: &[u64; SET_WORDS]) -> usize
    requires { edges ≤ 512 }
    ensures { result ≡ lowest_row hits.now edges }
{
    for (w, word) in hits.iter().enumerate() {
        if *word != 0 {
            return edges.min(w * WORD_BITS + word.trailing_zeros() as usize);
        }
    }
    edges
}

// Puts row p on every row of a set.
fn spread(edges: usize, p: usize, hits: &[u64; SET_WORDS], columns: &mut [u64; COLUMN_WORDS])
    requires edges_bound { edges ≤ 512 }
    requires p_lt_edges { p < edges }
    ensures { Spread edges p hits.now columns.old columns.new }
{
    for e in 0..edges {
        if row_bit(columns, p, e) == 1 {
            add_column(hits, 0, columns, e);
        }
    }
}

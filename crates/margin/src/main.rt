// The program `margin`: reads a plan from standard input, both sheets, both numbers of vertices and the wiring, and writes its margin sheet,
// or the refusal.
// No contract can say what is written. So each function that writes numbers is lent the input, and requires that they are those which
// are defined for it.
#![tactic(auto)]

mod margin_input;

ghost use Rattle.std.specs.Prelude.{◌≡◌, length, ◌<◌};
ghost use Rattle.inner_code.specs.Reply.{done, refused};
ghost use Rattle.inner_code.specs.Refusal.{number_of, place_of};
ghost use Rattle.radius.specs.Margin.{beyond};
ghost use Rattle.radius.specs.Answer.{measures_of, margin_of, in_order, numbers_answer};
ghost use Rattle.margin.specs.Output.{plan_part};

use inner_code::{MAX_DEGREE, MAX_ROWS, Refusal};
use margin_input::split_input;
use radius::PlanNumbers;
use std::io;
use wiring::{MAX_VERTICES, PlanParts};

// The largest accepted input, of 65,588 bytes: for each side d and k, 11 rows of two bytes and n, and 2,048 · 16 entries of two bytes.
const LARGEST_INPUT: usize = 2 * (2 + 2 * MAX_ROWS + 2) + 2 * MAX_VERTICES * MAX_DEGREE;

// What is read must be able to exceed it. No byte behind the first 65,589 matters (proofs/LongInputs): they have the answer of the whole
// input (`read_answer`), and where it is accepted they are all of it (`read-accepted`).
const SPACE: usize = LARGEST_INPUT + 1;

fn main(rt: HostRuntime) -> io::Result<()> {
    let mut space = [0u8; SPACE];
    read_margins(&rt, &mut rt.stdin(), &mut space)
}

// Reads an input, or its first bytes, into the space, and writes its margin sheet.
fn read_margins(rt: &impl Print, from: &mut impl io::Read, space: &mut [u8]) -> io::Result<()>
    requires { length space.old ≡ 65589 }
{
    let got = reading::read_full(from, space)?;
    write_margins(rt, &space[..got])
}

// What the program writes for an input.
fn write_margins(rt: &impl Print, input: &[u8]) -> io::Result<()> {
    let parts = split_input(input);
    let plan = PlanParts {
        left_sheet: &input[..parts.left],
        right_sheet: &input[parts.left..parts.right],
        nl: parts.nl,
        nr: parts.nr,
        wiring: &input[parts.wiring..],
    };
    match radius::plan_numbers(plan) {
        Ok(numbers) => write_plan(rt, input, numbers),
        Err(refusal) => write_refusal(rt, input, refusal),
    }
}

fn write_refusal(rt: &impl Print, input: &[u8], refusal: Refusal) -> io::Result<()>
    requires { refused (number_of refusal) (place_of refusal) ≡ numbers_answer (plan_part input.now) }
{
    println!(rt; "{refusal}")
}

// The plan's numbers; a line with F and its sweeps for each covered F; the first F that is not covered.
fn write_plan(rt: &impl Print, input: &[u8], plan: PlanNumbers) -> io::Result<()>
    requires { done (in_order plan) ≡ numbers_answer (plan_part input.now) }
{
    write_numbers(rt, input, plan)?;
    let beyond = radius::first_uncovered(plan);
    let mut lines = 0;
    for flips in 0..beyond {
        let sweeps = radius::sweeps_named(plan, flips);
        write_line(rt, input, flips, sweeps)?;
        lines += 1;
    }
    write_beyond(rt, input, lines)
}

// The nine numbers, of those that each side has the left one first.
fn write_numbers(rt: &impl Print, input: &[u8], plan: PlanNumbers) -> io::Result<()>
    requires { done (in_order plan) ≡ numbers_answer (plan_part input.now) }
{
    print!(rt;
        "n {} {} d {} {} k {} {}",
        plan.nl, plan.nr, plan.dl, plan.dr, plan.kl, plan.kr
    )?;
    println!(rt;
        " distance {} {} spread {}",
        plan.left_distance, plan.right_distance, plan.spread
    )
}

fn write_line(rt: &impl Print, input: &[u8], flips: u64, sweeps: u64) -> io::Result<()>
    requires { (sweeps ≡ margin_of (plan_part input.now) flips) × (0 < sweeps) }
{
    println!(rt; "{flips} {sweeps}")
}

fn write_beyond(rt: &impl Print, input: &[u8], flips: u64) -> io::Result<()>
    requires { flips ≡ beyond (measures_of (plan_part input.now)) }
{
    println!(rt; "beyond {flips}")
}

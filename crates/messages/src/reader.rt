// The reader: the message that a codeword carries.
ghost use Rattle.std.specs.Prelude.{◌≡◌, ◌≤◌};
ghost use Rattle.wiring.specs.PlanParts.{plan_in};
ghost use Rattle.messages.specs.Answer.{taken_reply, read_answer, read_output};
ghost use Rattle.messages.specs.Columns.{bits_taken};

use crate::columns::{COLUMN_WORDS, MAX_EDGES, count_live, row_bit};
use crate::output::clear;
use crate::solver::solve;
use inner_code::Refusal;
use wiring::{PlanParts, check_block, check_plan, first_unsatisfied};

// Writes the message that a codeword block carries, its bits at the message positions in rising order, to the front of `output`.
// Refusals 1 to 10, 23, 19, 11, 12, 22 and 13; a refusal writes nothing.
pub fn read_block(plan: PlanParts<'_, '_>, block: &[u8], output: &mut [u8]) -> Result<(), Refusal>
    ensures result_value { taken_reply result ≡ read_answer (plan_in plan.entry) block.now output.old }
    ensures output_after { output.new ≡ read_output (plan_in plan.entry) block.now output.old }
{
    let checked = check_plan(plan)?;
    let edges = checked.edges();
    if MAX_EDGES < edges {
        return Err(Refusal::PlanTooLarge);
    }
    check_block(edges, block)?;
    if first_unsatisfied(checked.left, checked.right, checked.parts.wiring, block).is_some() {
        return Err(Refusal::NoCodeword);
    }
    let mut columns = [0u64; COLUMN_WORDS];
    solve(checked, &mut columns);
    let bytes = count_live(edges, &columns).div_ceil(8);
    if output.len() < bytes {
        return Err(Refusal::OutputShort);
    }
    clear(bytes, output);
    take_bits(edges, &columns, block, output);
    Ok(())
}

// Puts the block's bits at the rows left, in rising order, at the front of `output`.
fn take_bits(edges: usize, columns: &[u64; COLUMN_WORDS], block: &[u8], output: &mut [u8])
    requires { edges ≤ 512 }
    ensures { output.new ≡ bits_taken columns.now block.now edges output.old }
{
    let mut rank = 0;
    for p in 0..edges {
        if row_bit(columns, p, p) == 1 {
            bits::put_bit(output, rank, bits::bit(block, p));
            rank += 1;
        }
    }
}

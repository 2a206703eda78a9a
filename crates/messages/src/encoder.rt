// The encoder: the codeword that carries a message.
ghost use Rattle.std.specs.Prelude.{◌≡◌, ◌<◌, ◌≤◌};
ghost use Rattle.inner_code.specs.Refusal.{check_reply};
ghost use Rattle.wiring.specs.PlanParts.{plan_in};
ghost use Rattle.messages.specs.Message.{message_check};
ghost use Rattle.messages.specs.Answer.{encode_reply, encode_answer, encode_output};
ghost use Rattle.messages.specs.Columns.{Chosen, column_parity, BitsPut};

use crate::columns::{COLUMN_WORDS, MAX_EDGES, SET_WORDS, WORD_BITS, count_live, row_bit};
use crate::output::clear;
use crate::solver::solve;
use inner_code::Refusal;
use wiring::{BitsError, PlanParts, check_bits, check_plan};

// Writes the one codeword that has the message's bits at the message positions, in rising order, to the front of `output`. The
// message's first bit has weight 128. Refusals 1 to 10, 23, 19, 20, 21 and 13; a refusal writes nothing.
pub fn encode(plan: PlanParts<'_, '_>, message: &[u8], output: &mut [u8]) -> Result<(), Refusal>
    ensures result_value { encode_reply result ≡ encode_answer (plan_in plan.entry) message.now output.old }
    ensures output_after { output.new ≡ encode_output (plan_in plan.entry) message.now output.old }
{
    let checked = check_plan(plan)?;
    let edges = checked.edges();
    if MAX_EDGES < edges {
        return Err(Refusal::PlanTooLarge);
    }
    let mut columns = [0u64; COLUMN_WORDS];
    solve(checked, &mut columns);
    check_message(count_live(edges, &columns), message)?;
    let bytes = edges.div_ceil(8);
    if output.len() < bytes {
        return Err(Refusal::OutputShort);
    }
    let chosen = choose(edges, &columns, message);
    clear(bytes, output);
    put_bits(edges, &columns, &chosen, output);
    Ok(())
}

// Checks a message of `bits` bits by refusals 20 and 21.
fn check_message(bits: usize, message: &[u8]) -> Result<(), Refusal>
    ensures { check_reply result ≡ message_check bits message.now }
{
    match check_bits(bits, message) {
        Ok(()) => Ok(()),
        Err(BitsError::LengthWrong) => Err(Refusal::MessageLengthWrong),
        Err(BitsError::StrayBit) => Err(Refusal::MessageStrayBit),
    }
}

// The rows left whose bit in the message is 1, the message's bits in rising order of the rows.
fn choose(edges: usize, columns: &[u64; COLUMN_WORDS], message: &[u8]) -> [u64; SET_WORDS]
    requires { edges ≤ 512 }
    ensures { Chosen edges columns.now message.now result }
{
    let mut chosen = [0u64; SET_WORDS];
    let mut rank = 0;
    for p in 0..edges {
        let live = row_bit(columns, p, p);
        let bit = live * bits::bit(message, rank);
        chosen[p / WORD_BITS] ^= bit << (p % WORD_BITS);
        rank += live as usize;
    }
    chosen
}

// Puts the bits of the chosen rows, put together, at the front of `output`.
fn put_bits(
    edges: usize,
    columns: &[u64; COLUMN_WORDS],
    chosen: &[u64; SET_WORDS],
    output: &mut [u8],
)
    requires { edges ≤ 512 }
    ensures { BitsPut edges chosen.now columns.now output.old output.new }
{
    for e in 0..edges {
        bits::put_bit(output, e, parity_of(columns, chosen, e));
    }
}

// Bit e of the chosen rows put together: 1 where an odd number of them has a 1 there. Words are put together before their ones are
// counted, which keeps the parity.
fn parity_of(columns: &[u64; COLUMN_WORDS], chosen: &[u64; SET_WORDS], e: usize) -> u64
    requires { e < 512 }
    ensures { result ≡ column_parity chosen.now columns.now e }
{
    let mut common = 0u64;
    for w in 0..SET_WORDS {
        common ^= chosen[w] & columns[SET_WORDS * e + w];
    }
    u64::from(common.count_ones() % 2)
}

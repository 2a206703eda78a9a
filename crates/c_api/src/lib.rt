// The services as a C host calls them: numbers and byte slices in, one struct out by value. A slice is a pointer and a length in C;
// include/lembikat.h is the other side. Nothing is kept between calls.
#![tactic(auto)]

ghost use Rattle.std.specs.Prelude.{[], ◌∷◌, ◌≡◌};
ghost use Rattle.inner_code.specs.Reply.{done, refused};
ghost use Rattle.inner_code.specs.Refusal.{number_of, place_of};
ghost use Rattle.inner_code.specs.Answer.{nearest_answer, nearest_reply};
ghost use Rattle.tables.specs.Answer.{build_answer, build_output, look_up_answer};
ghost use Rattle.wiring.specs.Plan.{plan_at};
ghost use Rattle.wiring.specs.PlanParts.{plan_in};
ghost use Rattle.wiring.specs.Answer.{locate_answer, side_number};
ghost use Rattle.decoder.specs.Answer.{decode_answer, decode_sums, decode_visits, decode_output};
ghost use Rattle.report.specs.Answer.{report_answer, report_list};
ghost use Rattle.meetings.specs.Answer.{spread_answer};
ghost use Rattle.radius.specs.Answer.{margin_answer};
ghost use Rattle.messages.specs.Answer.{encode_answer, encode_output, read_answer, read_output};
ghost use Rattle.panel.specs.Answer.{load_answer, load_output, sweep_answer, sweep_output, set_answer, set_output, shown_reply};
ghost use Rattle.c_api.specs.Answer.{told, told_word, told_decode, told_place, told_state};

use decoder::SUMS;
use inner_code::{Refusal, Step};
use panel::Shown;
use wiring::{PlanParts, SideName, Vertex};

// What a call answers. Number 0: the call is done, and `value` is its value. Any other number is the paper's refusal, and `place` the
// row or entry at fault. The locator alone uses both fields of a call that is done: `place` is 0 for none, 1 for left and 2 for right, and
// `value` the vertex.
#[repr(C)]
#[derive(Clone, Copy, Debug, PartialEq, Eq)]
pub struct Answer {
    pub number: u32,
    pub place: u32,
    pub value: u64,
}

// What the nearest word and the look-up answer: as above, and how many bits it changed, 0 with a refusal.
#[repr(C)]
#[derive(Clone, Copy, Debug, PartialEq, Eq)]
pub struct WordAnswer {
    pub number: u32,
    pub place: u32,
    pub value: u64,
    pub changed: u64,
}

// What the decoder answers: as above, and how many bits each of the first sweeps changed, 0 for a sweep that was not made, and how many vertices the
// sweeps visited.
#[repr(C)]
#[derive(Clone, Copy, Debug, PartialEq, Eq)]
pub struct DecodeAnswer {
    pub number: u32,
    pub place: u32,
    pub value: u64,
    pub sums: [u16; SUMS],
    pub visits: u64,
}

// What a call on a state answers: as above, the value being the number of unsatisfied vertices that the state has after the call, and beside it
// its sweep number; both are 0 with a refusal.
#[repr(C)]
#[derive(Clone, Copy, Debug, PartialEq, Eq)]
pub struct StateAnswer {
    pub number: u32,
    pub place: u32,
    pub value: u64,
    pub sweeps: u64,
}

// The nearest word of a word, and how many bits it changes. Refusals 1 to 6 and 12.
#[unsafe(no_mangle)]
pub extern "C" fn lembikat_nearest_word(sheet: &[u8], word: u64) -> WordAnswer
    ensures { result ≡ told_word (nearest_answer sheet.now word) }
{
    word_answer(inner_code::nearest_word(sheet, word))
}

// Builds the table of a sheet at the front of `output`. Refusals 1 to 6 and 13; a refusal writes nothing.
#[unsafe(no_mangle)]
pub extern "C" fn lembikat_build_table(sheet: &[u8], output: &mut [u8]) -> Answer
    ensures value { result ≡ told (build_answer sheet.now output.old) }
    ensures output_after { output.new ≡ build_output sheet.now output.old }
{
    match tables::build_table(sheet, output) {
        Ok(()) => done(0),
        Err(r) => refused(r),
    }
}

// The word that a table has for a word, and how many bits it changes: on a table built for the sheet the nearest word. Refusals 1 to 6, 12 and
// 13.
#[unsafe(no_mangle)]
pub extern "C" fn lembikat_look_up(sheet: &[u8], word: u64, table: &[u8]) -> WordAnswer
    ensures { result ≡ told_word (look_up_answer sheet.now word table.now) }
{
    word_answer(tables::look_up(sheet, word, table))
}

// The first unsatisfied vertex of a block, the left side before the right, the lowest number first. Refusals 1 to 12 and 23.
#[unsafe(no_mangle)]
pub extern "C" fn lembikat_locate(
    left: &[u8],
    right: &[u8],
    nl: usize,
    nr: usize,
    wiring: &[u8],
    block: &[u8],
) -> Answer
    ensures { result ≡ told_place (locate_answer (plan_at left right nl nr wiring) block.now) }
{
    match wiring::locate(parts(left, right, nl, nr, wiring), block) {
        Ok(None) => done(0),
        Ok(Some(vertex)) => found(vertex),
        Err(r) => refused(r),
    }
}

// Decodes a received block, of which `lost` lists the lost spans, into the front of `output`; the value is the number of sweeps. Refusals 1 to
// 15 and 23 to 26; with 15 the front of `output` holds the received block, and no other refusal writes a byte. The sums and
// the visits are told with 15 too; with any other refusal they are 0.
#[unsafe(no_mangle)]
pub extern "C" fn lembikat_decode(
    left: &[u8],
    right: &[u8],
    nl: usize,
    nr: usize,
    wiring: &[u8],
    received: &[u8],
    lost: &[u8],
    output: &mut [u8],
    limit: usize,
) -> DecodeAnswer
    ensures value { result ≡ told_decode (decode_answer (plan_at left right nl nr wiring) received.now lost.now output.old limit)
        (decode_sums (plan_at left right nl nr wiring) received.now lost.now output.old limit)
        (decode_visits (plan_at left right nl nr wiring) received.now lost.now output.old limit) }
    ensures output_after { output.new ≡ decode_output (plan_at left right nl nr wiring) received.now lost.now output.old limit }
{
    let plan = parts(left, right, nl, nr, wiring);
    let decoding = decoder::decode(plan, received, lost, output, limit);
    let sums = decoding.sums;
    match decoding.outcome {
        Ok(sweeps) => DecodeAnswer {
            number: 0,
            place: 0,
            value: sweeps as u64,
            sums,
            visits: decoding.visits,
        },
        Err(refusal) => DecodeAnswer {
            number: refusal.number(),
            place: refusal.place(),
            value: 0,
            sums,
            visits: decoding.visits,
        },
    }
}

// Lists the runs of bits at which a received and a settled block differ; the value is their number. Refusals 1 to 12, 16 and 23; a refusal
// writes nothing.
#[unsafe(no_mangle)]
pub extern "C" fn lembikat_report(
    left: &[u8],
    right: &[u8],
    nl: usize,
    nr: usize,
    wiring: &[u8],
    received: &[u8],
    settled: &[u8],
    list: &mut [u8],
) -> Answer
    ensures value { result ≡ told (report_answer (plan_at left right nl nr wiring) received.now settled.now list.old) }
    ensures list_after { list.new ≡ report_list (plan_at left right nl nr wiring) received.now settled.now list.old }
{
    match report::report_runs(parts(left, right, nl, nr, wiring), received, settled, list) {
        Ok(pairs) => done(pairs as u64),
        Err(r) => refused(r),
    }
}

// The spread of a plan. Refusals 1 to 10 and 23.
#[unsafe(no_mangle)]
pub extern "C" fn lembikat_spread(
    left: &[u8],
    right: &[u8],
    nl: usize,
    nr: usize,
    wiring: &[u8],
) -> Answer
    ensures { result ≡ told (spread_answer (plan_at left right nl nr wiring)) }
{
    match meetings::plan_spread(parts(left, right, nl, nr, wiring)) {
        Ok(spread) => done(spread),
        Err(r) => refused(r),
    }
}

// The sweeps within which so many flipped bits are mended, whichever they are. Refusals 1 to 10, 17, 18 and 23.
#[unsafe(no_mangle)]
pub extern "C" fn lembikat_margin(
    left: &[u8],
    right: &[u8],
    nl: usize,
    nr: usize,
    wiring: &[u8],
    flips: u64,
) -> Answer
    ensures { result ≡ told (margin_answer (plan_at left right nl nr wiring) flips) }
{
    match radius::margin_sweeps(parts(left, right, nl, nr, wiring), flips) {
        Ok(sweeps) => done(sweeps),
        Err(r) => refused(r),
    }
}

// Writes the codeword that carries a message to the front of `output`. Refusals 1 to 10, 13, 19, 20, 21 and 23; a refusal writes nothing.
#[unsafe(no_mangle)]
pub extern "C" fn lembikat_encode(
    left: &[u8],
    right: &[u8],
    nl: usize,
    nr: usize,
    wiring: &[u8],
    message: &[u8],
    output: &mut [u8],
) -> Answer
    ensures value { result ≡ told (encode_answer (plan_at left right nl nr wiring) message.now output.old) }
    ensures output_after { output.new ≡ encode_output (plan_at left right nl nr wiring) message.now output.old }
{
    match messages::encode(parts(left, right, nl, nr, wiring), message, output) {
        Ok(()) => done(0),
        Err(r) => refused(r),
    }
}

// Writes the message that a codeword block carries to the front of `output`. Refusals 1 to 13, 19, 22 and 23; a refusal writes
// nothing.
#[unsafe(no_mangle)]
pub extern "C" fn lembikat_read(
    left: &[u8],
    right: &[u8],
    nl: usize,
    nr: usize,
    wiring: &[u8],
    block: &[u8],
    output: &mut [u8],
) -> Answer
    ensures value { result ≡ told (read_answer (plan_at left right nl nr wiring) block.now output.old) }
    ensures output_after { output.new ≡ read_output (plan_at left right nl nr wiring) block.now output.old }
{
    match messages::read_block(parts(left, right, nl, nr, wiring), block, output) {
        Ok(()) => done(0),
        Err(r) => refused(r),
    }
}

// Puts the state of a block at the front of `state`: the number of its unsatisfied vertices, sweep 0, and the block. Refusals 1 to 13 and 23; a
// refusal writes nothing.
#[unsafe(no_mangle)]
pub extern "C" fn lembikat_load_state(
    left: &[u8],
    right: &[u8],
    nl: usize,
    nr: usize,
    wiring: &[u8],
    block: &[u8],
    state: &mut [u8],
) -> StateAnswer
    ensures value { result ≡ told_state (load_answer (plan_at left right nl nr wiring) block.now state.old) }
    ensures state_after { state.new ≡ load_output (plan_at left right nl nr wiring) block.now state.old }
{
    shown(panel::load_state(parts(left, right, nl, nr, wiring), block, state))
}

// Makes the next sweep of a state; one whose count is 0 is settled and stays as it is. Refusals 1 to 12, 23 and 28; a refusal writes nothing.
#[unsafe(no_mangle)]
pub extern "C" fn lembikat_sweep_state(
    left: &[u8],
    right: &[u8],
    nl: usize,
    nr: usize,
    wiring: &[u8],
    state: &mut [u8],
) -> StateAnswer
    ensures value { result ≡ told_state (sweep_answer (plan_at left right nl nr wiring) state.old) }
    ensures state_after { state.new ≡ sweep_output (plan_at left right nl nr wiring) state.old }
{
    shown(panel::sweep_state(parts(left, right, nl, nr, wiring), state))
}

// Sets a bit of a state's block, to 0 for the value 0 and to 1 for any other, and begins again at sweep 0. Refusals 1 to 12, 23 and 27; a refusal
// writes nothing.
#[unsafe(no_mangle)]
pub extern "C" fn lembikat_set_bit(
    left: &[u8],
    right: &[u8],
    nl: usize,
    nr: usize,
    wiring: &[u8],
    bit: usize,
    value: u64,
    state: &mut [u8],
) -> StateAnswer
    ensures value { result ≡ told_state (set_answer (plan_at left right nl nr wiring) bit value state.old) }
    ensures state_after { state.new ≡ set_output (plan_at left right nl nr wiring) bit value state.old }
{
    shown(panel::set_bit(parts(left, right, nl, nr, wiring), bit, value, state))
}

// The parts of a plan.
fn parts<'a>(
    left: &'a [u8],
    right: &'a [u8],
    nl: usize,
    nr: usize,
    wiring: &'a [u8],
) -> PlanParts<'a, 'a>
    ensures { plan_in result ≡ plan_at left right nl nr wiring }
{
    PlanParts {
        left_sheet: left,
        right_sheet: right,
        nl,
        nr,
        wiring,
    }
}

// The answer of the nearest word and of the look-up.
fn word_answer(answer: Result<Step, Refusal>) -> WordAnswer
    ensures { result ≡ told_word (nearest_reply answer) }
{
    match answer {
        Ok(step) => WordAnswer {
            number: 0,
            place: 0,
            value: step.word as u64,
            changed: step.changed as u64,
        },
        Err(refusal) => WordAnswer {
            number: refusal.number(),
            place: refusal.place(),
            value: 0,
            changed: 0,
        },
    }
}

// The answer of a call on a state.
fn shown(answer: Result<Shown, Refusal>) -> StateAnswer
    ensures { result ≡ told_state (shown_reply answer) }
{
    match answer {
        Ok(shown) => StateAnswer {
            number: 0,
            place: 0,
            value: shown.count as u64,
            sweeps: shown.sweeps as u64,
        },
        Err(refusal) => StateAnswer {
            number: refusal.number(),
            place: refusal.place(),
            value: 0,
            sweeps: 0,
        },
    }
}

// The locator's answer where it has found a vertex.
fn found(vertex: Vertex) -> Answer
    ensures { result ≡ told_place (done (side_number vertex.side ∷ vertex.v ∷ [])) }
{
    let value = vertex.v as u64;
    match vertex.side {
        SideName::Left => Answer {
            number: 0,
            place: 1,
            value,
        },
        SideName::Right => Answer {
            number: 0,
            place: 2,
            value,
        },
    }
}

// The answer of a call that is done.
fn done(value: u64) -> Answer
    ensures { result ≡ told (done (value ∷ [])) }
{
    Answer {
        number: 0,
        place: 0,
        value,
    }
}

// The answer of a call that is turned back.
fn refused(r: Refusal) -> Answer
    ensures { result ≡ told (refused (number_of r) (place_of r)) }
{
    Answer {
        number: r.number(),
        place: r.place(),
        value: 0,
    }
}

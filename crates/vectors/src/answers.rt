// One call of a service, with its line.
use crate::input::SPACE;
use crate::service::Service;
use crate::{input, output};
use inner_code::{Refusal, Step};
use std::io;
use wiring::{PlanParts, SideName};

// Reads the fields of a record and writes what the service answers. The service says which fields there are, so it is looked at before any is read.
pub fn answer(rt: &impl Print, from: &mut impl io::Read, service: Service) -> io::Result<()> {
    match service {
        Service::Nearest | Service::BuildTable | Service::LookUp => on_sheet(rt, from, service)?,
        _ => read_plan(rt, from, service)?,
    }
    println!(rt)
}

// The services that take a sheet alone.
fn on_sheet(rt: &impl Print, from: &mut impl io::Read, service: Service) -> io::Result<()> {
    let mut space = [0u8; SPACE];
    let sheet = input::bytes(from, &mut space)?;
    match service {
        Service::BuildTable => build(rt, from, &space[..sheet]),
        Service::Nearest => nearest(rt, from, &space[..sheet]),
        _ => look_up(rt, from, &space[..sheet]),
    }
}

// The parts of a plan.
fn read_plan(rt: &impl Print, from: &mut impl io::Read, service: Service) -> io::Result<()> {
    let mut left_space = [0u8; SPACE];
    let left = input::bytes(from, &mut left_space)?;
    let mut right_space = [0u8; SPACE];
    let right = input::bytes(from, &mut right_space)?;
    let nl = input::number(from)?;
    let nr = input::number(from)?;
    let mut wiring_space = [0u8; SPACE];
    let wiring = input::bytes(from, &mut wiring_space)?;
    let plan = PlanParts {
        left_sheet: &left_space[..left],
        right_sheet: &right_space[..right],
        nl: nl as usize,
        nr: nr as usize,
        wiring: &wiring_space[..wiring],
    };
    on_plan(rt, from, service, plan)
}

// The services that take a plan.
fn on_plan(
    rt: &impl Print,
    from: &mut impl io::Read,
    service: Service,
    plan: PlanParts<'_, '_>,
) -> io::Result<()> {
    match service {
        Service::Piece => piece(rt, from, plan),
        Service::Spread => number(rt, meetings::plan_spread(plan)),
        Service::Margin => margin(rt, from, plan),
        Service::Sweep => sweep(rt, from, plan),
        Service::SetBit => set_bit(rt, from, plan),
        _ => read_block(rt, from, service, plan),
    }
}

// The block or the message beside the plan.
fn read_block(
    rt: &impl Print,
    from: &mut impl io::Read,
    service: Service,
    plan: PlanParts<'_, '_>,
) -> io::Result<()> {
    let mut space = [0u8; SPACE];
    let block = input::bytes(from, &mut space)?;
    match service {
        Service::Locate => locate(rt, plan, &space[..block]),
        _ => on_block(rt, from, service, plan, &space[..block]),
    }
}

// The services that take a second run of bytes beside a block or a message.
fn on_block(
    rt: &impl Print,
    from: &mut impl io::Read,
    service: Service,
    plan: PlanParts<'_, '_>,
    block: &[u8],
) -> io::Result<()> {
    let mut space = [0u8; SPACE];
    let second = input::bytes(from, &mut space)?;
    match service {
        Service::Report => report(rt, from, plan, block, &space[..second]),
        Service::Decode => decode_around(rt, from, plan, block, &space[..second]),
        Service::Load => load(rt, plan, block, &mut space[..second]),
        Service::Encode => encode(rt, plan, block, &mut space[..second]),
        _ => read(rt, plan, block, &mut space[..second]),
    }
}

// `ok`, or the refusal.
fn done(rt: &impl Print, answer: Result<(), Refusal>) -> io::Result<()> {
    match answer {
        Ok(()) => print!(rt; "ok"),
        Err(refusal) => print!(rt; "{refusal}"),
    }
}

// A number, or the refusal.
fn number(rt: &impl Print, answer: Result<u64, Refusal>) -> io::Result<()> {
    match answer {
        Ok(value) => print!(rt; "ok {value}"),
        Err(refusal) => print!(rt; "{refusal}"),
    }
}

// A word and the number of bits changed, or the refusal.
fn word(rt: &impl Print, answer: Result<Step, Refusal>) -> io::Result<()> {
    match answer {
        Ok(step) => print!(rt; "ok {} {}", step.word, step.changed),
        Err(refusal) => print!(rt; "{refusal}"),
    }
}

// What stands in a lent buffer after the call.
fn left_in(rt: &impl Print, buffer: &[u8]) -> io::Result<()> {
    print!(rt; " ")?;
    output::bytes(rt, buffer)
}

fn nearest(rt: &impl Print, from: &mut impl io::Read, sheet: &[u8]) -> io::Result<()> {
    let given = input::number(from)?;
    word(rt, inner_code::nearest_word(sheet, given))
}

fn build(rt: &impl Print, from: &mut impl io::Read, sheet: &[u8]) -> io::Result<()> {
    let mut space = [0u8; SPACE];
    let size = input::bytes(from, &mut space)?;
    build_into(rt, sheet, &mut space[..size])
}

fn build_into(rt: &impl Print, sheet: &[u8], table: &mut [u8]) -> io::Result<()> {
    done(rt, tables::build_table(sheet, table))?;
    left_in(rt, table)
}

fn look_up(rt: &impl Print, from: &mut impl io::Read, sheet: &[u8]) -> io::Result<()> {
    let given = input::number(from)?;
    let mut space = [0u8; SPACE];
    let table = input::bytes(from, &mut space)?;
    word(rt, tables::look_up(sheet, given, &space[..table]))
}

fn piece(rt: &impl Print, from: &mut impl io::Read, plan: PlanParts<'_, '_>) -> io::Result<()> {
    let v = input::number(from)?;
    print!(rt; "piece ")?;
    output::bytes(rt, wiring::piece_of(plan, v as usize))
}

fn locate(rt: &impl Print, plan: PlanParts<'_, '_>, block: &[u8]) -> io::Result<()> {
    match wiring::locate(plan, block) {
        Ok(None) => print!(rt; "ok none"),
        Ok(Some(vertex)) => match vertex.side {
            SideName::Left => print!(rt; "ok left {}", vertex.v),
            SideName::Right => print!(rt; "ok right {}", vertex.v),
        },
        Err(refusal) => print!(rt; "{refusal}"),
    }
}

fn report(
    rt: &impl Print,
    from: &mut impl io::Read,
    plan: PlanParts<'_, '_>,
    received: &[u8],
    settled: &[u8],
) -> io::Result<()> {
    let mut space = [0u8; SPACE];
    let size = input::bytes(from, &mut space)?;
    report_into(rt, plan, received, settled, &mut space[..size])
}

fn report_into(
    rt: &impl Print,
    plan: PlanParts<'_, '_>,
    received: &[u8],
    settled: &[u8],
    list: &mut [u8],
) -> io::Result<()> {
    match report::report_runs(plan, received, settled, list) {
        Ok(pairs) => print!(rt; "ok {pairs}")?,
        Err(refusal) => print!(rt; "{refusal}")?,
    }
    left_in(rt, list)
}

fn margin(rt: &impl Print, from: &mut impl io::Read, plan: PlanParts<'_, '_>) -> io::Result<()> {
    let flips = input::number(from)?;
    number(rt, radius::margin_sweeps(plan, flips))
}

// The fields of the decoder behind the lost spans.
fn decode_around(
    rt: &impl Print,
    from: &mut impl io::Read,
    plan: PlanParts<'_, '_>,
    received: &[u8],
    lost: &[u8],
) -> io::Result<()> {
    let mut space = [0u8; SPACE];
    let size = input::bytes(from, &mut space)?;
    let limit = input::number(from)?;
    decode(rt, plan, received, lost, &mut space[..size], limit as usize)
}

fn decode(
    rt: &impl Print,
    plan: PlanParts<'_, '_>,
    received: &[u8],
    lost: &[u8],
    output: &mut [u8],
    limit: usize,
) -> io::Result<()> {
    let decoding = decoder::decode(plan, received, lost, output, limit);
    let sums = decoding.sums;
    match decoding.outcome {
        Ok(sweeps) => print!(rt; "ok {sweeps}")?,
        Err(refusal) => print!(rt; "{refusal}")?,
    }
    left_in(rt, output)?;
    print!(rt; " ")?;
    output::sums(rt, &sums)?;
    print!(rt; " {}", decoding.visits)
}

fn encode(
    rt: &impl Print,
    plan: PlanParts<'_, '_>,
    message: &[u8],
    output: &mut [u8],
) -> io::Result<()> {
    done(rt, messages::encode(plan, message, output))?;
    left_in(rt, output)
}

fn read(
    rt: &impl Print,
    plan: PlanParts<'_, '_>,
    block: &[u8],
    output: &mut [u8],
) -> io::Result<()> {
    done(rt, messages::read_block(plan, block, output))?;
    left_in(rt, output)
}

// The count and the sweep number that a call on a state answers stand in the state itself, which the line shows.

fn load(
    rt: &impl Print,
    plan: PlanParts<'_, '_>,
    block: &[u8],
    state: &mut [u8],
) -> io::Result<()> {
    done(rt, panel::load_state(plan, block, state).map(|_| ()))?;
    left_in(rt, state)
}

fn sweep(rt: &impl Print, from: &mut impl io::Read, plan: PlanParts<'_, '_>) -> io::Result<()> {
    let mut space = [0u8; SPACE];
    let size = input::bytes(from, &mut space)?;
    sweep_in(rt, plan, &mut space[..size])
}

fn sweep_in(rt: &impl Print, plan: PlanParts<'_, '_>, state: &mut [u8]) -> io::Result<()> {
    done(rt, panel::sweep_state(plan, state).map(|_| ()))?;
    left_in(rt, state)
}

fn set_bit(rt: &impl Print, from: &mut impl io::Read, plan: PlanParts<'_, '_>) -> io::Result<()> {
    let bit = input::number(from)?;
    let value = input::number(from)?;
    let mut space = [0u8; SPACE];
    let size = input::bytes(from, &mut space)?;
    set_in(rt, plan, bit as usize, value, &mut space[..size])
}

fn set_in(
    rt: &impl Print,
    plan: PlanParts<'_, '_>,
    bit: usize,
    value: u64,
    state: &mut [u8],
) -> io::Result<()> {
    done(rt, panel::set_bit(plan, bit, value, state).map(|_| ()))?;
    left_in(rt, state)
}

// Runs a stream of calls through the library and writes one line for each: standard input to standard output.
#![tactic(auto)]

mod answers;
mod input;
mod output;
mod service;

use service::Service;
use std::io;

// Records are worked through until the input ends.
fn main(rt: HostRuntime) -> io::Result<()> {
    let mut from = rt.stdin();
    for _ in 0..4294967296u64 {
        let service = input::byte(&mut from)?;
        if service == 0 {
            return Ok(());
        }
        answers::answer(&rt, &mut from, Service::from(service))?;
    }
    Ok(())
}

// The guarantee at work, on the square plan with the house code. Whatever bytes stand on standard input are taken as flip positions on a
// codeword, and at most three distinct bits are flipped, which the margin covers. Expected is then all that the guarantee says: the
// decoder settles within the sweeps named, however many it may take, on the codeword; it settles at the count that it answers and at
// none before; and another codeword is further away than the flips that are covered. Every call of `expect` is proved for every input,
// so this program cannot fail.
#![tactic(auto)]

mod flip;
mod outcome;
mod plan;

ghost use Rattle.restored.specs.Sent.{Received};

use std::io;

// How many bits are flipped at most: as many as the margin covers.
const FLIPS: u64 = 3;

// The sweeps that the margin names for so many flips.
const NAMED: usize = 2;

// The sweeps that the decoder is allowed: the most that a call may allow.
const LIMIT: usize = 4096;

fn main(rt: HostRuntime) -> io::Result<()> {
    let mut positions = [0u8; 4096];
    let got = reading::read_full(&mut rt.stdin(), &mut positions)?;
    send(&positions[..got]);
    Ok(())
}

// Sends the codeword and flips bits of it at the positions. What the guarantee says of the received block is expected.
fn send(positions: &[u8]) {
    let sent = plan::sent_block();
    let mut received = plan::sent_block();
    flip::flip_some(positions, FLIPS, &sent, &mut received);
    restore(&received);
    tell_apart(&received);
}

// Decodes a received block, and expects the sent one within the sweeps named. With the limit at the count of sweeps answered the block is
// expected to settle again, and with one sweep less not to.
fn restore(received: &[u8])
    requires { Received received.now }
{
    let sent = plan::sent_block();
    let mut output = [0u8; 8];
    let count = outcome::sweeps(plan::decode(received, &mut output, LIMIT));
    check::expect(count <= NAMED);
    check::expect(output == sent);
    let again = plan::decode(received, &mut output, count);
    check::expect(outcome::sweeps(again) == count);
    if 0 < count {
        let sooner = plan::decode(received, &mut output, count - 1);
        check::expect(outcome::is_unsettled(sooner));
    }
}

// Expects that the codeword of zeros differs from a received block in more bits than are covered.
fn tell_apart(received: &[u8])
    requires { Received received.now }
{
    let other = [0u8; 8];
    check::expect(FLIPS < flip::differing(&other, received));
}

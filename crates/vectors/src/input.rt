// The fields of a record on standard input. A field that the input cuts off counts as if zeros or nothing followed.
ghost use Rattle.std.specs.Prelude.{◌≡◌, ◌≤◌, length, OnErr};
ghost use Rattle.std.specs.Io.{ReadsAtMost};

use std::io;

// The room for the bytes of one field.
pub const SPACE: usize = 70000;

// The next byte, 0 at the end of the input.
pub fn byte(from: &mut impl io::Read) -> io::Result<u8> {
    let mut one = [0u8; 1];
    reading::read_full(from, &mut one)?;
    Ok(one[0])
}

// Fills a field of zeros with the next bytes. The end of the input stands for one byte of 0, and the bytes behind it are asked for again: at a
// terminal more may follow.
fn fill(from: &mut impl io::Read, field: &mut [u8]) -> io::Result<()>
    requires { length field.old ≤ 8 }
    ensures { length field.new ≡ length field.old }
{
    let got = reading::read_full(from, field)?;
    for i in got + 1..field.len() {
        field[i] = byte(from)?;
    }
    Ok(())
}

// A number of 8 bytes, high byte first.
pub fn number(from: &mut impl io::Read) -> io::Result<u64> {
    let mut eight = [0u8; 8];
    fill(from, &mut eight)?;
    Ok(u64::from_be_bytes(eight))
}

// Bytes behind their length of 4 bytes, high byte first: put at the start of `space`, and how many they are. Bytes that `space`
// has no room for are not read. Where reading fails, `space` may hold a part of them.
pub fn bytes(from: &mut impl io::Read, space: &mut [u8]) -> io::Result<usize>
    ensures read { ReadsAtMost result space.new }
    ensures err { OnErr result (length space.new ≡ length space.old) }
{
    let mut four = [0u8; 4];
    fill(from, &mut four)?;
    let length = u32::from_be_bytes(four) as usize;
    if space.len() < length {
        return Ok(0);
    }
    reading::read_full(from, &mut space[..length])
}

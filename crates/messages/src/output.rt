// The front of a lent output, before bits are put there.
ghost use Rattle.std.specs.Prelude.{◌≡◌, ◌≤◌, length, replicate};
ghost use Rattle.bits.specs.Bit.{written};

// Makes the first `count` bytes 0.
pub(crate) fn clear(count: usize, output: &mut [u8])
    requires { count ≤ length output.old }
    ensures { output.new ≡ written (replicate count 0) output.old }
{
    output[..count].fill(0);
}

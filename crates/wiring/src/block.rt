// Strings of N bits, blocks among them: refusals 11 and 12, and a message's 20 and 21.
ghost use Rattle.std.specs.Prelude.{◌≡◌, ℕ};
ghost use Rattle.wiring.specs.Block.{bits_check, block_check};
ghost use Rattle.wiring.specs.Checking.{bits_reply};
ghost use Rattle.inner_code.specs.Refusal.{check_reply};

use inner_code::Refusal;

// What is wrong with a string of bits: it has another length than they take, or a bit after the last is set.
#[derive(Clone, Copy, Debug, PartialEq, Eq)]
pub enum BitsError {
    LengthWrong,
    StrayBit,
}

// Checks a string of `bits` bits: its length is bits / 8 rounded up, and no bit after the last is set. By which numbers the call is turned back
// else, its caller decides.
pub fn check_bits(bits: usize, bytes: &[u8]) -> Result<(), BitsError>
    ensures { (length_wrong stray_bit : ℕ) → bits_reply length_wrong stray_bit result ≡ bits_check length_wrong stray_bit bits bytes.now }
{
    let whole = bits / 8;
    let rest = bits % 8;
    if rest == 0 {
        if bytes.len() != whole {
            return Err(BitsError::LengthWrong);
        }
        return Ok(());
    }
    if bytes.len() != whole + 1 {
        return Err(BitsError::LengthWrong);
    }
    let spare = 1u8 << (8 - rest);
    if bytes[whole] % spare != 0 {
        return Err(BitsError::StrayBit);
    }
    Ok(())
}

// Checks a block of `bits` bits by refusals 11 and 12.
pub fn check_block(bits: usize, block: &[u8]) -> Result<(), Refusal>
    ensures { check_reply result ≡ block_check bits block.now }
{
    match check_bits(bits, block) {
        Ok(()) => Ok(()),
        Err(BitsError::LengthWrong) => Err(Refusal::BlockLengthWrong),
        Err(BitsError::StrayBit) => Err(Refusal::StrayBit),
    }
}

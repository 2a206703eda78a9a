// The square plan with the house code on both sides, and a codeword of it.
ghost use Rattle.std.specs.Prelude.{[], ◌≡◌};
ghost use Rattle.wiring.specs.Square.{square_wiring, square_plan};
ghost use Rattle.decoder.specs.Answer.{decode_answer, decode_output, decode_reply};
ghost use Rattle.restored.specs.Sent.{sent_block};

use inner_code::Refusal;
use wiring::PlanParts;

// The decoder on the square plan, where no bit is lost.
pub fn decode(received: &[u8], output: &mut [u8], limit: usize) -> Result<usize, Refusal>
    ensures result_value { decode_reply result ≡ decode_answer square_plan received.now [] output.old limit }
    ensures output_after { output.new ≡ decode_output square_plan received.now [] output.old limit }
{
    let sheet = inner_code::HouseCode::sheet();
    let wiring = square_wiring();
    let plan = PlanParts {
        left_sheet: &sheet,
        right_sheet: &sheet,
        nl: 8,
        nr: 8,
        wiring: &wiring,
    };
    decoder::decode(plan, received, &[], output, limit).outcome
}

// The square plan's wiring: n = d = 8, entry v * 8 + j is edge 8 * j + v.
fn square_wiring() -> [u8; 128]
    ensures { result ≡ square_wiring }
{
    [
        0, 0, 0, 8, 0, 16, 0, 24, 0, 32, 0, 40, 0, 48, 0, 56, 0, 1, 0, 9, 0, 17, 0, 25, 0, 33, 0,
        41, 0, 49, 0, 57, 0, 2, 0, 10, 0, 18, 0, 26, 0, 34, 0, 42, 0, 50, 0, 58, 0, 3, 0, 11, 0,
        19, 0, 27, 0, 35, 0, 43, 0, 51, 0, 59, 0, 4, 0, 12, 0, 20, 0, 28, 0, 36, 0, 44, 0, 52, 0,
        60, 0, 5, 0, 13, 0, 21, 0, 29, 0, 37, 0, 45, 0, 53, 0, 61, 0, 6, 0, 14, 0, 22, 0, 30, 0,
        38, 0, 46, 0, 54, 0, 62, 0, 7, 0, 15, 0, 23, 0, 31, 0, 39, 0, 47, 0, 55, 0, 63,
    ]
}

// A codeword of the square plan: left vertices read 0F where 33 has a 1 and 00 where it has a 0, right vertices 33 or 00.
pub fn sent_block() -> [u8; 8]
    ensures { result ≡ sent_block }
{
    [0, 0, 15, 15, 0, 0, 15, 15]
}

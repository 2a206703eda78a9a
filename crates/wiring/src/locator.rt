// The locator: the first vertex that reads no inner codeword.
ghost use Rattle.std.specs.Prelude.{◌≡◌};
ghost use Rattle.wiring.specs.Access.{both_codes, AllReadable, located_by};
ghost use Rattle.wiring.specs.PlanParts.{plan_in};
ghost use Rattle.wiring.specs.Answer.{locate_answer, locate_reply, place_found};

use crate::access::read_word;
use crate::block::check_block;
use crate::parts::PlanParts;
use crate::plan::check_plan;
use crate::side::{SideCode, SideName, Vertex};
use inner_code::Refusal;

// The first unsatisfied vertex of a block, the left side before the right, the lowest number first; none of a codeword. Refusals 1 to 12 and
// 23.
pub fn locate(plan: PlanParts<'_, '_>, block: &[u8]) -> Result<Option<Vertex>, Refusal>
    ensures { locate_reply result ≡ locate_answer (plan_in plan.entry) block.now }
{
    let checked = check_plan(plan)?;
    check_block(checked.edges(), block)?;
    Ok(first_unsatisfied(checked.left, checked.right, checked.parts.wiring, block))
}

// The first vertex of which the first k rows of its side's basis leave something, the left side before the right: with the sides of a
// checked plan the first that is unsatisfied.
pub fn first_unsatisfied(
    left: SideCode,
    right: SideCode,
    wiring: &[u8],
    block: &[u8],
) -> Option<Vertex>
    requires { AllReadable (both_codes left right) wiring.now block.now }
    ensures { place_found result ≡ located_by (both_codes left right) wiring.now block.now }
{
    'search: {
        for side in [SideName::Left, SideName::Right] {
            let code = code_of(side, left, right);
            let basis = code.basis;
            for v in 0..code.n {
                let word = read_word(side, wiring, code.d, block, v);
                if inner_code::residue(&basis, code.k, word) != 0 {
                    break 'search Some(Vertex { side, v });
                }
            }
        }
        None
    }
}

// The side of a name, of any two.
pub fn code_of(side: SideName, left: SideCode, right: SideCode) -> SideCode
    ensures { result ≡ both_codes left right side }
{
    match side {
        SideName::Left => left,
        SideName::Right => right,
    }
}

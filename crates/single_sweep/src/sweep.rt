// The vertices of a side visited in turn. A vertex that takes another word is counted before and after, and so is, for each bit that changes,
// the vertex of the other side that reads it: no other vertex reads another word than before.
ghost use Rattle.std.specs.Prelude.{[], ◌≡◌};
ghost use Rattle.inner_code.specs.Reply.{done};
ghost use Rattle.finder.specs.Finding.{Finds};
ghost use Rattle.wiring.specs.Plan.{edge_count, side_of, sheet_of};
ghost use Rattle.wiring.specs.PlanParts.{plan_in};
ghost use Rattle.wiring.specs.Block.{block_check};
ghost use Rattle.wiring.specs.Places.{Across};
ghost use Rattle.unsatisfied.specs.Count.{count_change};
ghost use Rattle.sweeps.specs.Sweep.{sweep};

use crate::telling::put_told;
use wiring::{CheckedPlan, SideName};

// Sweeps a side with its finder, and tells the change of the count.
pub(crate) fn sweep_told(
    plan: CheckedPlan<'_, '_>,
    side: SideName,
    finder: &mut [u16],
    places: &[u16],
    block: &mut [u8],
) -> usize
    requires block_done { block_check (edge_count (plan_in plan.parts)) block.old ≡ done [] }
    requires finds { Finds (sheet_of (plan_in plan.parts) side) finder.old }
    requires across { Across plan.parts.wiring.now side places.now }
    ensures value { result ≡ count_change (side_of (plan_in plan.entry.parts)) block.old block.new }
    ensures block_after { block.new ≡ sweep (side_of (plan_in plan.entry.parts) side) block.old }
{
    let code = plan.side(side);
    let sheet = plan.sheet(side);
    let wiring = plan.parts.wiring;
    let mut change = 65536;
    for v in 0..code.n {
        let word = wiring::read_word(side, wiring, code.d, block, v);
        if finder::is_codeword(finder, word) {
            continue;
        }
        let step = finder::find_nearest(sheet, finder, word);
        let told = put_told(plan, side, v, word ^ step.word, places, block);
        // A vertex that read no codeword takes one and is mended, but for a tie, which changes no bit: it stays unsatisfied.
        let mended = (step.changed != 0) as usize;
        change = change + told - 65536 - mended;
    }
    change
}

// Words: that of a left vertex as it stands in the block, and those of all right vertices, fetched in one pass over the wiring.
ghost use Rattle.std.specs.Prelude.{[], ◌≡◌, ◌+◌, ◌*◌, ◌≤◌, ◌<◌};
ghost use Rattle.bits.specs.Window.{word_at};
ghost use Rattle.inner_code.specs.Reply.{done};
ghost use Rattle.wiring.specs.Plan.{side_of, edge_count};
ghost use Rattle.wiring.specs.PlanParts.{plan_in};
ghost use Rattle.wiring.specs.Block.{block_check};
ghost use Rattle.wiring.specs.declared.side.SideName.{SideName};
ghost use Rattle.words.specs.Words.{WordsRead};
ghost use Rattle.words.specs.Marks.{Cleared};

use crate::news::KEPT;
use wiring::CheckedPlan;

// The word that left vertex v reads: one or two whole bytes where d is 8 or 16, which is what large plans have. It stays small enough for the
// compiler to put it into the sweeps' loops.
pub fn left_word(block: &[u8], v: usize, d: usize) -> u16
    requires v_bound { v < 2048 }
    requires d_bound { d ≤ 16 }
    ensures { result ≡ word_at block.now (v * d) d }
{
    if d == 8 {
        if v < block.len() {
            return block[v] as u16;
        }
        return 0;
    }
    if d == 16 {
        return bits::pair(block, 2 * v);
    }
    bits::word_at(block, v * d, d)
}

// The words that all vertices of the right side read, in front of a list that keeps more.
pub fn read_words(plan: &CheckedPlan<'_, '_>, block: &[u8], kept: &mut [u16; KEPT])
    requires block_value { block_check (edge_count (plan_in plan.now.parts)) block.now ≡ done [] }
    requires cleared { Cleared kept.old }
    ensures words_read { WordsRead (side_of (plan_in plan.now.parts) SideName.Right) block.now kept.new }
    ensures still_cleared { Cleared kept.new }
{
    let d = plan.right.d;
    let wiring = plan.parts.wiring;
    for v in 0..plan.parts.nr {
        kept[v] = wiring::gathered(wiring, v * d, d, block);
    }
}

// One sweep: every vertex of a side is visited in turn, or from the third sweep on those with news. A visit fetches the vertex's word once and gives
// it to the finder as a number, which has neither block nor wiring. A word that is no codeword takes its nearest word; in a tie that is itself. The
// words of the right side are fetched all at once, after the first left sweep, and kept: from then on a bit that changes is turned in the block and
// in the word of the right vertex that reads it, and the vertex of the other side that reads it has news.
ghost use Rattle.std.specs.Prelude.{true, false, cond, eqb, List, [], ◌≡◌, ℕ, ◌^◌, ◌≤◌, ◌<◌, length};
ghost use Rattle.inner_code.specs.Sheet.{degree};
ghost use Rattle.finder.specs.Finding.{Finds, Found, codeword_by};
ghost use Rattle.wiring.specs.Plan.{sheet_of, count_of, side_by, side_of};
ghost use Rattle.wiring.specs.PlanParts.{plan_in};
ghost use Rattle.wiring.specs.Block.{vertex_word, satisfied, is_codeword_block};
ghost use Rattle.bits.specs.Window.{at};
ghost use Rattle.wiring.specs.declared.side.SideName.{SideName};
ghost use Rattle.sweeps.specs.Sweeping.{Ready, SideReady, SideSwept, VisitedAt, Hears, NewsSwept};
ghost use Rattle.words.specs.Words.{WordsRead};
ghost use Rattle.wiring.specs.Places.{Across};
ghost use Rattle.words.specs.Marks.{Listening};
ghost use Rattle.wiring.specs.Access.{sheet_for};

use inner_code::Step;
use wiring::{CheckedPlan, SideName, Vertex};
use words::{KEPT, left_word, news_of, numbers_of, put_pattern, put_told};

// What a sweep tells: how many bits it changed, and at how many vertices it left a tie. Every other vertex of its side now reads a codeword.
#[derive(Clone, Copy, Debug, PartialEq, Eq)]
pub struct Tally {
    pub changed: usize,
    pub ties: usize,
}

// The first sweep of a left side, which has this sheet and n vertices: puts the nearest word at every vertex and tells what the steps tell,
// added up. No word of a right vertex is kept yet.
pub fn sweep_first(
    sheet: &[u8],
    n: usize,
    wiring: &[u8],
    finder: &mut [u16],
    block: &mut [u8],
) -> Tally
    requires { SideReady sheet.now n wiring.now finder.old }
    ensures side_swept { SideSwept (side_by sheet.now n wiring.now SideName.Left) block.old result block.new }
    ensures finds { Finds sheet.now finder.new }
{
    let d = sheet[0] as usize;
    let mut changed = 0;
    let mut ties = 0;
    for v in 0..n {
        let word = left_word(block, v, d);
        if !finder::is_codeword(finder, word) {
            let step = finder::find_nearest(sheet, finder, word);
            put_pattern(SideName::Left, wiring, v * d, d, word ^ step.word, block);
            changed += step.changed as usize;
            ties += tie(step.changed);
        }
    }
    Tally { changed, ties }
}

// What a sweep by news tells: how many bits it changed, and how many vertices it visited.
#[derive(Clone, Copy, Debug, PartialEq, Eq)]
pub struct News {
    pub changed: usize,
    pub visits: u64,
}

// The second sweep, of every vertex of the right side, by the words that they read, with a finder for the right sheet.
fn sweep_second(
    plan: &CheckedPlan<'_, '_>,
    finder: &mut [u16],
    kept: &mut [u16; KEPT],
    block: &mut [u8],
) -> Tally
    requires finds { Finds plan.now.parts.right_sheet.now finder.old }
    requires listening { Listening (plan_in plan.now.parts) SideName.Right block.old block.old kept.old }
    ensures side_swept { SideSwept (side_of (plan_in plan.now.parts) SideName.Right) block.old result block.new }
    ensures still_finds { Finds plan.now.parts.right_sheet.now finder.new }
    ensures listening_left { Listening (plan_in plan.now.parts) SideName.Left block.old block.new kept.new }
{
    let none = [0u16; 0];
    let mut changed = 0;
    let mut ties = 0;
    for v in 0..plan.parts.nr {
        if !finder::is_codeword(finder, kept[v]) {
            let bits = visit(
                plan,
                Vertex {
                    side: SideName::Right,
                    v,
                },
                finder,
                &none,
                kept,
                block,
            );
            changed += bits as usize;
            ties += tie(bits);
        }
    }
    Tally { changed, ties }
}

// The second sweep of a checked plan, with the finder of the right side; where there is none, both sides have the left sheet, and its finder
// serves both.
pub fn sweep_right(
    plan: &CheckedPlan<'_, '_>,
    left_finder: &mut [u16],
    right_finder: &mut [u16],
    kept: &mut [u16; KEPT],
    block: &mut [u8],
) -> Tally
    requires ready { Ready (plan_in plan.now.parts) left_finder.old right_finder.old }
    requires listening { Listening (plan_in plan.now.parts) SideName.Right block.old block.old kept.old }
    ensures side_swept { SideSwept (side_of (plan_in plan.now.parts) SideName.Right) block.old result block.new }
    ensures still_ready { Ready (plan_in plan.now.parts) left_finder.new right_finder.new }
    ensures listening_left { Listening (plan_in plan.now.parts) SideName.Left block.old block.new kept.new }
{
    if right_finder.len() == 0 {
        return sweep_second(plan, left_finder, kept, block);
    }
    sweep_second(plan, right_finder, kept, block)
}

// A later sweep of a checked plan, of the side that is named: with its finder, or the left one where it serves both.
pub fn sweep_turn(
    plan: &CheckedPlan<'_, '_>,
    left_finder: &mut [u16],
    right_finder: &mut [u16],
    side: SideName,
    places: &[u16],
    kept: &mut [u16; KEPT],
    block: &mut [u8],
) -> News
    requires ready { Ready (plan_in plan.now.parts) left_finder.old right_finder.old }
    requires across { Across plan.now.parts.wiring.now side places.now }
    requires hears { Hears (plan_in plan.now.parts) side block.old kept.old }
    ensures news_swept { NewsSwept (plan_in plan.now.parts) side block.old kept.old result block.new kept.new }
    ensures still_ready { Ready (plan_in plan.now.parts) left_finder.new right_finder.new }
{
    match side {
        SideName::Left => sweep_news(plan, side, left_finder, places, kept, block),
        SideName::Right => {
            if right_finder.len() == 0 {
                return sweep_news(plan, side, left_finder, places, kept, block);
            }
            sweep_news(plan, side, right_finder, places, kept, block)
        }
    }
}

// Visits the vertices of a side that have news, in their order. Their marks are taken off, sixteen at a time.
fn sweep_news(
    plan: &CheckedPlan<'_, '_>,
    side: SideName,
    finder: &mut [u16],
    places: &[u16],
    kept: &mut [u16; KEPT],
    block: &mut [u8],
) -> News
    requires finds { Finds (sheet_of (plan_in plan.now.parts) side) finder.old }
    requires across { Across plan.now.parts.wiring.now side places.now }
    requires hears { Hears (plan_in plan.now.parts) side block.old kept.old }
    ensures news_swept { NewsSwept (plan_in plan.now.parts) side block.old kept.old result block.new kept.new }
    ensures still_finds { Finds (sheet_of (plan_in plan.now.parts) side) finder.new }
{
    let numbers = numbers_of(plan.parts.count(side));
    let from = news_of(side);
    let mut changed = 0;
    let mut visits: u64 = 0;
    for i in 0..numbers {
        let mut rest = kept[from + i];
        kept[from + i] = 0;
        // A while: each turn takes the highest digit of what is left, and no index counts them.
        while rest != 0 {
            let high = bits::highest(rest);
            let v = 16 * i + (15 - high);
            let bits = visit(plan, Vertex { side, v }, finder, places, kept, block);
            changed += bits as usize;
            visits += 1;
            rest = rest - bits::power(high);
        }
    }
    News { changed, visits }
}

// Visits a vertex: puts the nearest word there, and tells how many bits that changes.
fn visit(
    plan: &CheckedPlan<'_, '_>,
    vertex: Vertex,
    finder: &mut [u16],
    places: &[u16],
    kept: &mut [u16; KEPT],
    block: &mut [u8],
) -> u32
    requires v_bound { vertex.v < count_of (plan_in plan.now.parts) vertex.side }
    requires finds { Finds (sheet_of (plan_in plan.now.parts) vertex.side) finder.old }
    requires across { Across plan.now.parts.wiring.now vertex.side places.now }
    requires words_read { WordsRead (side_of (plan_in plan.now.parts) SideName.Right) block.old kept.old }
    ensures visited_at { VisitedAt (plan_in plan.now.parts) vertex.side vertex.v result block.old kept.old block.new kept.new }
    ensures still_finds { Finds (sheet_of (plan_in plan.now.parts) vertex.side) finder.new }
{
    let word = word_of(plan, vertex, kept, block);
    if finder::is_codeword(finder, word) {
        return 0;
    }
    let side = vertex.side;
    let step = nearest_on(
        plan.parts.left_sheet,
        plan.parts.right_sheet,
        side,
        finder,
        word,
    );
    put_told(plan, vertex, word ^ step.word, places, kept, block);
    step.changed
}

// The word that a vertex reads: a left one's stands in the block, a right one's is kept.
fn word_of(plan: &CheckedPlan<'_, '_>, vertex: Vertex, kept: &[u16; KEPT], block: &[u8]) -> u16
    requires v_bound { vertex.v < count_of (plan_in plan.now.parts) vertex.side }
    requires words_read { WordsRead (side_of (plan_in plan.now.parts) SideName.Right) block.now kept.now }
    ensures { result ≡ vertex_word (side_of (plan_in plan.now.parts) vertex.side) block.now vertex.v }
{
    let side = vertex.side;
    let v = vertex.v;
    match side {
        SideName::Left => left_word(block, v, plan.left.d),
        SideName::Right => kept[v],
    }
}

// The step to the nearest word of a side's sheet.
pub fn nearest_on(left: &[u8], right: &[u8], side: SideName, finder: &mut [u16], word: u16) -> Step
    requires finds { Finds (sheet_for side left.now right.now) finder.old }
    requires word_bound { word < 2 ^ degree (sheet_for side left.now right.now) }
    ensures { Found (sheet_for side left.now right.now) word result finder.new }
{
    match side {
        SideName::Left => finder::find_nearest(left, finder, word),
        SideName::Right => finder::find_nearest(right, finder, word),
    }
}

// 1 for a step from a word that is no codeword, where it changes no bit: a tie.
fn tie(changed: u32) -> usize
    ensures { result ≡ cond (eqb changed 0) 1 0 }
{
    usize::from(changed == 0)
}

// Whether every word of a left side is a codeword. Its bits stand in a row, so it does not matter how it is wired.
pub fn all_codewords(sheet: &[u8], n: usize, finder: &[u16], block: &[u8]) -> bool
    requires n_bound { n ≤ 2048 }
    requires finds { Finds sheet.now finder.now }
    ensures when_true { result ≡ true → (wiring : List ℕ) (v : ℕ) → v < n → satisfied (side_by sheet.now n wiring SideName.Left) block.now v ≡ true }
    ensures when_false { result ≡ false → (wiring : List ℕ) → (v : ℕ) × (v < n) × (satisfied (side_by sheet.now n wiring SideName.Left) block.now v ≡ false) }
{
    let d = sheet[0] as usize;
    for v in 0..n {
        let word = left_word(block, v, d);
        if !finder::is_codeword(finder, word) {
            return false;
        }
    }
    true
}

// Whether every vertex of both sides reads a codeword.
pub fn all_satisfied(
    plan: &CheckedPlan<'_, '_>,
    left_finder: &[u16],
    right_finder: &[u16],
    kept: &[u16; KEPT],
    block: &[u8],
) -> bool
    requires ready { Ready (plan_in plan.now.parts) left_finder.now right_finder.now }
    requires words_read { WordsRead (side_of (plan_in plan.now.parts) SideName.Right) block.now kept.now }
    ensures { result ≡ is_codeword_block (side_of (plan_in plan.now.parts)) block.now }
{
    if !all_codewords(plan.parts.left_sheet, plan.parts.nl, left_finder, block) {
        return false;
    }
    if right_finder.len() == 0 {
        return kept_codewords(plan.parts.nr, left_finder, kept);
    }
    kept_codewords(plan.parts.nr, right_finder, kept)
}

// Whether the first n of the words kept are codewords.
fn kept_codewords(n: usize, finder: &[u16], kept: &[u16; KEPT]) -> bool
    requires n_bound { n ≤ 2048 }
    requires kept_len { length kept.now ≡ 2304 }
    requires finder_len { length finder.now ≡ 4640 }
    ensures when_true { result ≡ true → (v : ℕ) → v < n → codeword_by finder.now (at kept.now v) ≡ true }
    ensures when_false { result ≡ false → (v : ℕ) × (v < n) × (codeword_by finder.now (at kept.now v) ≡ false) }
{
    kept[..n]
        .iter()
        .all(|word| finder::is_codeword(finder, *word))
}

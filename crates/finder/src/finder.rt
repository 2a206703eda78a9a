// The finder of nearest words: one lent slice of FINDER_WORDS numbers that holds all that finding a sheet's nearest words needs, set up once by
// `prepare_finder`, asked by `is_codeword` and `find_nearest`.
ghost use Rattle.std.specs.Prelude.{ℕ, ◌≡◌, ◌+◌, ◌-◌, ◌*◌, ◌/◌, ◌^◌, ◌≤◌, ◌<◌, min, length};
ghost use Rattle.std.specs.Int.Bits.{bit_xor};
ghost use Rattle.inner_code.specs.Sheet.{degree, row_count};
ghost use Rattle.inner_code.specs.Reduction.{step_to, listed};
ghost use Rattle.tables.specs.Folding.{Sized};
ghost use Rattle.finder.specs.Finding.{Preparable, WellFormed, Finds, Unkept, Found, Fewer, codeword_by, digits_in, left_in, entry_in, numbers_pay};
ghost use Rattle.finder.specs.Finding.{power_left, power_number, single_more, single_in, searched_in, sought_by, entries_of, sheet_entries, PowersBy, with_halves};
ghost use Rattle.finder.specs.Finding.{renumbered_finder};

use inner_code::{Step, check_into, double, list_codewords, nearest_listed, put_on, residue};
use tables::{fill, free_digits, pattern_of, squeeze};

// How many numbers of 16 bits a finder has. Its large parts begin at multiples of 32 numbers, which fill a cache line.
pub const FINDER_WORDS: usize = 4640;

// The head: how many codewords are listed, d, whether classes are numbered, and how often codewords were searched.
const LISTED: usize = 0;

const DEGREE: usize = 1;

const NUMBERED: usize = 2;

const SEARCHES: usize = 3;

// What the rows leave of the words below 256, and of 256 times a number below 256: of any word they leave the exclusive-or of what they
// leave of its two halves. Where classes are numbered, the numbers of their classes stand here, which go together in the same way.
const LOW: usize = 32;

const HIGH: usize = 288;

// Two numbers a slot: what the rows leave of the words of a coset, which names it, and the nearest pattern of these words, 0 in a tie. Nothing
// is left of codewords, which are never looked for here, so 0 names no coset: such a slot is empty. Where classes are numbered, the nearest
// patterns of all of them, 2,048 at most, stand here in place of the slots, 0 in a tie.
const SLOTS: usize = 544;

const SLOT_COUNT: u16 = 1024;

// The codewords, 2,048 at most.
const WORDS: usize = 2592;

// More than one pattern: no pattern of 16 bits is this number.
const MANY: u32 = 65536;

// What numbering costs beside the entries, in words searched.
const BESIDE: u64 = 1024;

// So few codewords are searched as quickly as the patterns of a single one are tried.
const FEW: u16 = 64;

// Sets a finder of zeros up for an accepted sheet, its k and its echelon form, as `check_sheet` gives them. No pattern is kept yet.
pub fn prepare_finder(sheet: &[u8], k: usize, basis: &[u16; 11], finder: &mut [u16])
    requires { Preparable sheet.now k basis.now finder.old }
    ensures { Finds sheet.now finder.new }
{
    let d = sheet[0] as usize;
    tabulate_halves(|word| residue(basis, k, word), d, finder);
    let count = list_codewords(sheet, k, &mut finder[WORDS..FINDER_WORDS]);
    finder[LISTED] = count as u16;
    finder[DEGREE] = d as u16;
}

// Whether a word is a codeword: exactly if the rows leave nothing of it.
pub fn is_codeword(finder: &[u16], word: u16) -> bool
    requires { length finder.now ≡ 4640 }
    ensures { result ≡ codeword_by finder.now word }
{
    left_of(finder, word) == 0
}

// The step to a word's nearest word: the word itself where the rows leave nothing of it, and else what its class's nearest pattern leads to.
// `sheet` is the one that the finder was set up for.
pub fn find_nearest(sheet: &[u8], finder: &mut [u16], word: u16) -> Step
    requires finds { Finds sheet.now finder.old }
    requires word_bound { word < 2 ^ degree sheet.now }
    ensures { Found sheet.now word result finder.new }
{
    let left = left_of(finder, word);
    if left == 0 {
        return put_on(word, 0);
    }
    if finder[NUMBERED] == 1 {
        return by_entry(finder, word, left);
    }
    let slot = SLOTS + 2 * ((left ^ left / 32) % SLOT_COUNT) as usize;
    if finder[slot] == left {
        return put_on(word, finder[slot + 1]);
    }
    find_missed(sheet, finder, word, left)
}

// The same, by the entry of a class, of which the number is `left`.
fn by_entry(finder: &[u16], word: u16, left: u16) -> Step
    requires finder_len { length finder.now ≡ 4640 }
    requires left_bound { left < 2048 }
    ensures { result ≡ step_to word (bit_xor word (entry_in finder.now left)) }
{
    put_on(word, finder[SLOTS + left as usize])
}

// The same, where classes are named and no pattern is kept for the word's class. The rows leave the same of all words of a class, and these have
// one nearest pattern, so a class is searched once, as long as its slot is not taken by another. Where the searches have cost as much as
// entries for all classes do, the classes are numbered. It is rare, and put into `find_nearest` its room would be made for every word.
#[inline(never)]
fn find_missed(sheet: &[u8], finder: &mut [u16], word: u16, left: u16) -> Step
    requires { Unkept sheet.now finder.old word left }
    ensures { Found sheet.now word result finder.new }
{
    let single = single_pattern(finder, left);
    if single == 0 {
        if numbers_pay(finder) {
            return find_numbered(sheet, finder, word);
        }
    }
    let step = sought(finder, word, single);
    let slot = SLOTS + 2 * ((left ^ left / 32) % SLOT_COUNT) as usize;
    finder[slot] = left;
    finder[slot + 1] = word ^ step.word;
    finder[SEARCHES] = finder[SEARCHES].saturating_add(1);
    step
}

// Whether it is time to number the classes: there are no more than there is room for, and searching the codewords once more would bring the
// words searched to four for each class and BESIDE more, which cost somewhat less than numbering does.
fn numbers_pay(finder: &[u16]) -> bool
    requires { WellFormed finder.now }
    ensures { result ≡ numbers_pay finder.now }
{
    let listed = finder[LISTED] as u64;
    let words = 1u64 << digits_in(finder);
    if 2048 * listed < words {
        return false;
    }
    4 * words + BESIDE * listed <= (finder[SEARCHES] as u64 + 1) * listed * listed
}

// Numbers the classes, gives each its entry, and finds the nearest word so. The sheet is known to be accepted, and is checked for its echelon
// form alone.
fn find_numbered(sheet: &[u8], finder: &mut [u16], word: u16) -> Step
    requires finds { Finds sheet.now finder.old }
    requires word_bound { word < 2 ^ degree sheet.now }
    requires sheet_bound { degree sheet.now - row_count sheet.now ≤ 11 }
    ensures { Found sheet.now word result finder.new }
{
    let mut basis = [0u16; 11];
    let _ = check_into(sheet, &mut basis);
    number_classes(sheet, &basis, finder);
    by_entry(finder, word, left_of(finder, word))
}

// Puts the numbers of classes in place of what the rows leave, and the entries of all classes in place of the slots, by an accepted sheet and its
// echelon form.
fn number_classes(sheet: &[u8], basis: &[u16; 11], finder: &mut [u16])
    requires finder_len { length finder.old ≡ 4640 }
    requires fewer { Fewer sheet.now basis.now }
    ensures { finder.new ≡ renumbered_finder sheet.now basis.now finder.old }
{
    let d = sheet[0] as usize;
    let k = sheet[1] as usize;
    let size = 2usize << (d - k);
    let mut table = [0u8; 4096];
    let mut costs = [0u8; 2048];
    make_entries(
        sheet,
        basis,
        &mut table[0..size],
        &mut costs,
        &mut finder[SLOTS..WORDS],
    );
    let mask = free_digits(basis, k);
    tabulate_halves(|word| squeeze(mask, residue(basis, k, word)), d, finder);
    finder[NUMBERED] = 1;
}

// The patterns of all classes at the front of a list, 0 for a tie, by way of a table of the right length with room for its costs.
fn make_entries(
    sheet: &[u8],
    basis: &[u16; 11],
    table: &mut [u8],
    costs: &mut [u8],
    entries: &mut [u16],
)
    requires sized { Sized sheet.now basis.now table.old }
    requires costs_room { length table.old ≤ 2 * length costs.old }
    requires entries_room { length table.old ≤ 2 * length entries.old }
    ensures { entries.new ≡ sheet_entries sheet.now entries.old }
{
    let d = sheet[0] as usize;
    fill(sheet, basis, table, costs);
    take_entries(table, d, entries);
}

// The patterns of a table's entries at the front of a list, 0 for a tie.
fn take_entries(table: &[u8], d: usize, entries: &mut [u16])
    requires d_bound { d ≤ 16 }
    requires table_len_bound { length table.now ≤ 2 * length entries.old }
    ensures { entries.new ≡ entries_of d table.now (length table.now / 2) entries.old }
{
    let count = table.len() / 2;
    for c in 0..count {
        entries[c] = pattern_of(bits::pair(table, 2 * c), d);
    }
}

// What the rows leave of a word; where classes are numbered, the number of its class.
fn left_of(finder: &[u16], word: u16) -> u16
    requires { length finder.now ≡ 4640 }
    ensures { result ≡ left_in finder.now word }
{
    finder[LOW + (word % 256) as usize] ^ finder[HIGH + (word / 256) as usize]
}

// The step to the nearest word of a word for which no pattern is at hand, by what is found of the patterns of a single one. MANY stands for the
// pattern 0 here.
fn sought(finder: &[u16], word: u16, single: u32) -> Step
    requires { WellFormed finder.now }
    ensures { result ≡ step_to word (sought_by finder.now single word) }
{
    if single == 0 {
        return search(finder, word);
    }
    put_on(word, (single % 65536) as u16)
}

// The pattern of a single one, of d digits, of which the rows leave `left`: MANY where there are more of them, and 0 where there is none, or
// where the codewords are few, which are searched at once.
fn single_pattern(finder: &[u16], left: u16) -> u32
    requires { WellFormed finder.now }
    ensures { result ≡ single_in finder.now left }
{
    if finder[LISTED] <= FEW {
        return 0;
    }
    let digits = digits_in(finder);
    let mut found: u32 = 0;
    for b in 0..digits {
        let pattern = 1u16 << b;
        if left_of(finder, pattern) == left {
            found = single_more(found, pattern);
        }
    }
    found
}

// One more pattern of a single one that is found: it, or MANY where it is not the first.
fn single_more(found: u32, pattern: u16) -> u32
    ensures { result ≡ single_more found pattern }
{
    if found == 0 {
        return pattern as u32;
    }
    MANY
}

// The step to the nearest of the codewords that are listed.
fn search(finder: &[u16], word: u16) -> Step
    requires { WellFormed finder.now }
    ensures { result ≡ step_to word (searched_in finder.now word) }
{
    let end = WORDS + widened(finder[LISTED]);
    nearest_listed(&finder[WORDS..end], word)
}

// The number of digits of a word, d.
fn digits_in(finder: &[u16]) -> usize
    requires { length finder.now ≡ 4640 }
    ensures { result ≡ digits_in finder.now }
{
    widened(finder[DEGREE])
}

// A number of the finder as a count.
fn widened(number: u16) -> usize
    ensures { result ≡ number }
{
    number as usize
}

// Fills the tables of the low and of the high halves of words by what `of` makes of the powers of 2.
fn tabulate_halves<F: Fn(u16) -> u16 + Copy>(of: F, d: usize, finder: &mut [u16])
    requires callable { F.IsAlwaysCallable of }
    requires finder_len { length finder.old ≡ 4640 }
    requires d_bound { d ≤ 16 }
    ensures { (row : ℕ → ℕ → ℕ) → PowersBy (F.post of) row → finder.new ≡ with_halves row d finder.old }
{
    tabulate(of, 0, 8, &mut finder[LOW..HIGH]);
    tabulate(of, 8, d.saturating_sub(8), &mut finder[HIGH..SLOTS]);
}

// Lists at the front of `table`, of each number of so many digits, the exclusive-or of what `of` makes of its digits' powers of 2 times 2^from.
fn tabulate<F: Fn(u16) -> u16>(of: F, from: usize, digits: usize, table: &mut [u16])
    requires callable { F.IsAlwaysCallable of }
    requires in_bounds { 256 ≤ length table.old }
    requires from_bound { from ≤ 8 }
    requires digits_bound { digits ≤ 8 }
    ensures { (row : ℕ → ℕ → ℕ) → PowersBy (F.post of) row → table.new ≡ listed (row from) digits table.old }
{
    table[0] = 0;
    let mut count: usize = 1;
    for b in 0..digits {
        double(table, count, of(1u16 << (from + b)));
        count *= 2;
    }
}

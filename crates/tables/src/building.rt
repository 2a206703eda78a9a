// Building a table. Patterns are tried by their digits: of those below 2^b each class that they reach has its lightest, and digit b doubles
// the patterns. Where it is free it leads to as many classes again; where it is not, each class gets those of one other class with the digit
// put on. So the table is done after fewer than k + 2 turns over its entries, that of the marks included, and no pattern is tried by itself.
ghost use Rattle.std.specs.Prelude.{◌≡◌, ℕ, ◌+◌, ◌*◌, ◌^◌, ◌≤◌, ◌<◌, length};
ghost use Rattle.std.specs.Int.Bits.{bit_xor};
ghost use Rattle.bits.specs.Window.{at};
ghost use Rattle.tables.specs.Answer.{table_of, build_answer, build_output, built_reply};
ghost use Rattle.tables.specs.Folding.{key_at, lighter, Room, marked_byte, Puts, Paired, Copied, Folded, Marked, Sized};

use crate::numbering::{free_digits, squeeze};
use inner_code::{Refusal, check_into, residue};

// The mark for a tie is this byte twice.
const MARK: u8 = 255;

// One more of the ones in a key.
const ONE_MORE: u32 = 131072;

// Where the classes are few there is room for their costs alone: clearing room for every table costs more than building one so small.
const FEW_CLASSES: usize = 256;

const MAX_CLASSES: usize = 32768;

// Builds the table of a sheet at the front of `output`: an entry of two bytes, high byte first, for each class of words that differ by a
// codeword, in the order of their smallest words. It is the pattern with the fewest ones that turns words of the class into codewords, or FFFF
// where more than one has them. What lies behind the table stays as it was, and with a refusal, 1 to 6 or 13, the whole output does.
pub fn build_table(sheet: &[u8], output: &mut [u8]) -> Result<(), Refusal>
    ensures result_value { built_reply result ≡ build_answer sheet.now output.old }
    ensures output_after { output.new ≡ build_output sheet.now output.old }
{
    let mut basis = [0u16; 11];
    let values = check_into(sheet, &mut basis)?;
    let size = 2usize << (values.d - values.k);
    if output.len() < size {
        return Err(Refusal::OutputShort);
    }
    fill_table(sheet, &basis, &mut output[..size]);
    Ok(())
}

// Fills a table of the right length, by an accepted sheet and its echelon form.
fn fill_table(sheet: &[u8], basis: &[u16; 11], table: &mut [u8])
    requires { Sized sheet.now basis.now table.old }
    ensures { table.new ≡ table_of sheet.now }
{
    if table.len() <= 2 * FEW_CLASSES {
        fill_in::<FEW_CLASSES>(sheet, basis, table);
    } else {
        fill_in::<MAX_CLASSES>(sheet, basis, table);
    }
}

// The same with room of its own for the costs of N classes.
fn fill_in<const N: usize>(sheet: &[u8], basis: &[u16; 11], table: &mut [u8])
    requires sized { Sized sheet.now basis.now table.old }
    requires table_len_bound { length table.old ≤ 2 * N }
    requires size_bound { N ≤ 32768 }
    ensures { table.new ≡ table_of sheet.now }
{
    let mut costs = [0u8; N];
    fill(sheet, basis, table, &mut costs);
}

// The same with room for the costs of all classes. What stands there is not read before it is written, and of no use in the end.
pub fn fill(sheet: &[u8], basis: &[u16; 11], table: &mut [u8], costs: &mut [u8])
    requires sized { Sized sheet.now basis.now table.old }
    requires table_len_bound { length table.old ≤ 2 * length costs.old }
    ensures { table.new ≡ table_of sheet.now }
{
    let d = sheet[0] as usize;
    let k = sheet[1] as usize;
    let mask = free_digits(basis, k);
    put_key(table, costs, 0, 0);
    let mut count: usize = 1;
    for b in 0..d {
        let digit = 1u16 << b;
        let left = residue(basis, k, digit);
        if left == digit {
            copy_with(table, costs, count, digit);
            count = 2 * count;
        } else {
            fold(table, costs, count, squeeze(mask, left), digit);
        }
    }
    mark_ties(table, costs, count);
}

// The keys of the first classes again, with a digit put on their patterns, behind themselves.
fn copy_with(table: &mut [u8], costs: &mut [u8], count: usize, digit: u16)
    requires room { Room (2 * count) table.old costs.old }
    requires costs_low { (c : ℕ) → c < count → at costs.old c < 254 }
    ensures { Copied count digit count table.old costs.old table.new costs.new }
{
    let [high, low] = digit.to_be_bytes();
    for c in 0..count {
        costs[count + c] = costs[c] + 2;
        table[2 * (count + c)] = table[2 * c] ^ high;
        table[2 * (count + c) + 1] = table[2 * c + 1] ^ low;
    }
}

// Each of the first classes gets the lighter of its own key and that of the class `apart` from it, with a digit put on that one's pattern. Two
// classes are apart from each other, and one turn serves both.
fn fold(table: &mut [u8], costs: &mut [u8], count: usize, apart: u16, digit: u16)
    requires room { Room count table.old costs.old }
    requires apart_low { (c : ℕ) → c < count → bit_xor c apart < count }
    ensures { Folded count apart digit count table.old costs.old table.new costs.new }
{
    for c in 0..count {
        let other = c ^ apart as usize;
        if c < other {
            fold_pair(table, costs, c, other, digit);
        }
    }
}

// Each of two classes gets the lighter of its own key and the other's, with a digit put on that one's pattern.
fn fold_pair(table: &mut [u8], costs: &mut [u8], c: usize, other: usize, digit: u16)
    requires c_lt_other { c < other }
    requires room { Room (other + 1) table.old costs.old }
    ensures { Paired c other digit table.old costs.old table.new costs.new }
{
    let here = key_at(table, costs, c);
    let there = key_at(table, costs, other);
    put_key(
        table,
        costs,
        c,
        lighter(here, there + (ONE_MORE + digit as u32)),
    );
    put_key(
        table,
        costs,
        other,
        lighter(there, here + (ONE_MORE + digit as u32)),
    );
}

// Of two keys of one class, for different patterns, the one of fewer ones. Where they have the same ones there is a tie.
fn lighter(here: u32, other: u32) -> u32
    ensures { result ≡ lighter here other }
{
    if here / ONE_MORE == other / ONE_MORE {
        return here / ONE_MORE * ONE_MORE + 65536 + here % 65536;
    }
    if other < here {
        return other;
    }
    here
}

// Puts the mark at every tie of the first classes.
fn mark_ties(table: &mut [u8], costs: &[u8], count: usize)
    requires { Room count table.old costs.now }
    ensures { Marked count table.old costs.now table.new }
{
    for c in 0..count {
        table[2 * c] = marked_byte(costs[c], table[2 * c]);
        table[2 * c + 1] = marked_byte(costs[c], table[2 * c + 1]);
    }
}

// A byte of an entry: the mark's at a tie. Every byte is put anew, since where ties stand is hard to foretell for a processor.
fn marked_byte(cost: u8, byte: u8) -> u8
    ensures { result ≡ marked_byte cost byte }
{
    if cost % 2 == 1 {
        return MARK;
    }
    byte
}

// The key of a class.
fn key_at(table: &[u8], costs: &[u8], c: usize) -> u32
    requires table_room { 2 * c + 2 ≤ length table.now }
    requires costs_room { c + 1 ≤ length costs.now }
    ensures { (result ≡ key_at table.now costs.now c) × (result < 16777216) }
{
    u32::from_be_bytes([0, costs[c], table[2 * c], table[2 * c + 1]])
}

// Puts the key of a class.
fn put_key(table: &mut [u8], costs: &mut [u8], c: usize, key: u32)
    requires table_room { 2 * c + 2 ≤ length table.old }
    requires costs_room { c + 1 ≤ length costs.old }
    requires key_bound { key < 16777216 }
    ensures { Puts c key table.old costs.old table.new costs.new }
{
    let [_, cost, high, low] = key.to_be_bytes();
    costs[c] = cost;
    table[2 * c] = high;
    table[2 * c + 1] = low;
}

// Sets of up to 512 rows as columns of eight words.
ghost use Rattle.std.specs.Prelude.{◌≡◌, ◌+◌, ◌*◌, ◌<◌, ◌≤◌, length};
ghost use Rattle.messages.specs.Elimination.{start};
ghost use Rattle.messages.specs.Columns.{row_bit, no_columns, ColumnPut, Stores, live_before};

// The most edges of a plan whose messages are encoded and read, and so the most rows.
pub(crate) const MAX_EDGES: usize = 512;

// The bits of a word.
pub(crate) const WORD_BITS: usize = 64;

// The words of a set of rows, and so of a column.
pub(crate) const SET_WORDS: usize = MAX_EDGES / WORD_BITS;

// The words of the columns of so many rows.
pub(crate) const COLUMN_WORDS: usize = SET_WORDS * MAX_EDGES;

// Bit e of row p.
pub(crate) fn row_bit(columns: &[u64], p: usize, e: usize) -> u64
    requires p_bound { p < 512 }
    requires e_in_bounds { 8 * e + 8 ≤ length columns.now }
    ensures { result ≡ row_bit columns.now p e }
{
    (columns[SET_WORDS * e + p / WORD_BITS] >> (p % WORD_BITS)) % 2
}

// Puts column a of `from` on column b of `to`.
pub(crate) fn add_column(from: &[u64], a: usize, to: &mut [u64], b: usize)
    requires a_in_bounds { 8 * a + 8 ≤ length from.now }
    requires b_in_bounds { 8 * b + 8 ≤ length to.old }
    ensures { ColumnPut from.now a to.old b to.new }
{
    for w in 0..SET_WORDS {
        to[SET_WORDS * b + w] ^= from[SET_WORDS * a + w];
    }
}

// The columns of the unit rows: row p has its one 1 at p.
pub(crate) fn unit_columns(edges: usize, columns: &mut [u64; COLUMN_WORDS])
    requires edges_bound { edges ≤ 512 }
    requires columns_value { columns.old ≡ no_columns }
    ensures { Stores edges (start edges) columns.new }
{
    for p in 0..edges {
        columns[SET_WORDS * p + p / WORD_BITS] = 1 << (p % WORD_BITS);
    }
}

// How many of the first `edges` rows are left: those that have a 1 at their own place.
pub(crate) fn count_live(edges: usize, columns: &[u64; COLUMN_WORDS]) -> usize
    requires { edges ≤ 512 }
    ensures { result ≡ live_before columns.now edges }
{
    let mut live = 0;
    for p in 0..edges {
        live += row_bit(columns, p, p) as usize;
    }
    live
}

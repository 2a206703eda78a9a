// The input of the program `margin`: left sheet, right sheet, nl, nr and wiring, one behind the other.
ghost use Rattle.std.specs.Prelude.{◌≡◌, ◌+◌, ◌≤◌, length};
ghost use Rattle.margin.specs.Input.{sheet_end, count_at, input_parts};

// Where the parts of the input lie: the left sheet is its first `left` bytes, the right one goes on up to `right`, and the wiring begins at
// `wiring`.
#[derive(Clone, Copy, Debug, PartialEq, Eq)]
pub struct MarginInput {
    pub left: usize,
    pub right: usize,
    pub nl: usize,
    pub nr: usize,
    pub wiring: usize,
}

// Splits the input. Each sheet takes 2 + 2k bytes, or what there is; nl and nr are two bytes each, high byte first, and 0 where they are
// missing or cut; all that follows is the wiring.
pub fn split_input(input: &[u8]) -> MarginInput
    ensures { result ≡ input_parts input.now }
{
    let left = sheet_end(input, 0);
    let right = sheet_end(input, left);
    let nl = count_behind(input, right, 0);
    let nr = count_behind(input, right, 2);
    let wiring = (right + 4).min(input.len());
    MarginInput {
        left,
        right,
        nl,
        nr,
        wiring,
    }
}

// Where the sheet that begins at `from` ends.
fn sheet_end(input: &[u8], from: usize) -> usize
    requires { from ≤ length input.now }
    ensures { (result ≡ sheet_end input.now from) × (result ≤ length input.now) }
{
    let bytes = input.len();
    if bytes - from < 2 {
        return bytes;
    }
    let sheet = 2 + 2 * (input[from + 1] as usize);
    (from + sheet).min(bytes)
}

// The count that stands `behind` bytes behind the sheets, which end at `end`; 0 where it is missing or cut.
fn count_behind(input: &[u8], end: usize, behind: usize) -> usize
    requires end_in_bounds { end ≤ length input.now }
    requires behind_bound { behind ≤ 2 }
    ensures { result ≡ count_at input.now (end + behind) }
{
    let rest = input.len() - end;
    if rest < behind + 2 {
        return 0;
    }
    bits::pair(input, end + behind) as usize
}

// The inner sheet: bytes d, k, then k rows of two bytes, high byte first.
ghost use Rattle.std.specs.Prelude.{◌≡◌, ◌≤◌};
ghost use Rattle.inner_code.specs.Checking.{SheetInto, RowsInto, SheetChecked};

use crate::membership::residue;
use crate::refusal::Refusal;

// The largest degree d and the most rows k of a sheet.
pub const MAX_DEGREE: usize = 16;

pub const MAX_ROWS: usize = 11;

// An accepted sheet's values.
#[derive(Clone, Copy, Debug, PartialEq, Eq)]
pub struct Sheet {
    pub d: usize,
    pub k: usize,
}

// Checks a sheet by refusals 1 to 6, and puts an echelon form of its rows at the front of `basis`, as many rows as come before the first
// faulty one, all k of an accepted sheet. The rest of `basis` stays.
pub fn check_into(sheet: &[u8], basis: &mut [u16; 11]) -> Result<Sheet, Refusal>
    ensures { SheetInto sheet.now basis.old result basis.new }
{
    if sheet.len() < 2 {
        return Err(Refusal::SheetShort);
    }
    let d = sheet[0] as usize;
    let k = sheet[1] as usize;
    if d < 2 || MAX_DEGREE < d {
        return Err(Refusal::DegreeOutOfRange);
    }
    if k < 1 || MAX_ROWS < k || d < k {
        return Err(Refusal::RowsOutOfRange);
    }
    if sheet.len() != 2 + 2 * k {
        return Err(Refusal::SheetLengthWrong);
    }
    check_rows(sheet, d, k, basis)
}

// Rows 0 to k - 1 in order, each by 5 and then 6, and their echelon form in `basis`.
fn check_rows(sheet: &[u8], d: usize, k: usize, basis: &mut [u16; 11]) -> Result<Sheet, Refusal>
    requires d_bound { d ≤ 16 }
    requires k_bound { k ≤ 11 }
    ensures { RowsInto sheet.now d k basis.old result basis.new }
{
    let limit = 1u32 << d;
    for i in 0..k {
        let row = bits::pair(sheet, 2 + 2 * i);
        if limit <= row as u32 {
            return Err(Refusal::RowTooLarge { row: i as u32 });
        }
        let left = residue(basis, i, row);
        if left == 0 {
            return Err(Refusal::RowDependent { row: i as u32 });
        }
        basis[i] = left;
    }
    Ok(Sheet { d, k })
}

// A checked sheet: its values or its refusal, and an echelon form of its rows, as many as come before the first faulty one, all k
// of an accepted sheet. The rest of `basis` is 0.
#[derive(Clone, Copy, Debug, PartialEq, Eq)]
pub struct CheckedSheet {
    pub sheet: Result<Sheet, Refusal>,
    pub basis: [u16; 11],
}

// The same check with the echelon form in its answer.
pub fn check_sheet(sheet: &[u8]) -> CheckedSheet
    ensures { SheetChecked sheet.now result }
{
    let mut basis = [0u16; 11];
    let values = check_into(sheet, &mut basis);
    CheckedSheet {
        sheet: values,
        basis,
    }
}

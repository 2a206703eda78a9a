// The house code: d 8, k 4, rows FF, 0F, 33, 55, with D = 4. Its nearest words come from a table.
ghost use Rattle.std.specs.Prelude.{◌≡◌};
ghost use Rattle.inner_code.specs.Code.{nearest_word};
ghost use Rattle.inner_code.specs.Sheet.{row_of};
ghost use Rattle.inner_code.specs.House.{house_sheet, house_code, HouseTable};

// The nearest word of each of the 256 words: a codeword, or the word itself in a tie.
const NEAREST: [u8; 256] = [
    0, 0, 0, 3, // 03: the patterns 03, 0C, 30 and C0 tie, so it keeps its bits
    0, 5, 6, 15, 0, 9, 10, 15, 12, 15, 15, 15, 0, 17, 18, 51, 20, 85, 150, 23, 24, 153, 90, 27, 60,
    29, 30, 15, 0, 33, 34, 51, 36, 165, 102, 39, 40, 105, 170, 43, 60, 45, 46, 15, 48, 51, 51, 51,
    60, 53, 54, 51, 60, 57, 58, 51, 60, 60, 60, 63, 0, 65, 66, 195, 68, 85, 102, 71, 72, 105, 90,
    75, 204, 77, 78, 15, 80, 85, 90, 83, 85, 85, 86, 85, 90, 89, 90, 90, 92, 85, 90, 95, 96, 105,
    102, 99, 102, 101, 102, 102, 105, 105, 106, 105, 108, 105, 102, 111, 240, 113, 114, 51, 116,
    85, 102, 119, 120, 105, 90, 123, 60, 125, 126, 255, 0, 129, 130, 195, 132, 165, 150, 135, 136,
    153, 170, 139, 204, 141, 142, 15, 144, 153, 150, 147, 150, 149, 150, 150, 153, 153, 154, 153,
    156, 153, 150, 159, 160, 165, 170, 163, 165, 165, 166, 165, 170, 169, 170, 170, 172, 165, 170,
    175, 240, 177, 178, 51, 180, 165, 150, 183, 184, 153, 170, 187, 60, 189, 190, 255, 192, // C0: as 03
    195, 195, 195, 204, 197, 198, 195, 204, 201, 202, 195, 204, 204, 204, 207, 240, 209, 210, 195,
    212, 85, 150, 215, 216, 153, 90, 219, 204, 221, 222, 255, 240, 225, 226, 195, 228, 165, 102,
    231, 232, 105, 170, 235, 204, 237, 238, 255, 240, 240, 240, 243, 240, 245, 246, 255, 240, 249,
    250, 255, 252, 255, 255, 255,
];

// The house code's own values.
#[derive(Clone, Copy)]
pub struct HouseCode {
    pub d: usize,
    pub k: usize,
    pub distance: u32,
    pub rows: [u16; 4],
}

impl HouseCode {
    pub const D: usize = 8;

    pub const K: usize = 4;

    pub const DISTANCE: u32 = 4;

    pub const ROWS: [u16; 4] = [0xFF, 0x0F, 0x33, 0x55];

    // The values of the house code.
    pub fn new() -> Self
        ensures { result ≡ house_code }
    {
        HouseCode {
            d: HouseCode::D,
            k: HouseCode::K,
            distance: HouseCode::DISTANCE,
            rows: HouseCode::ROWS,
        }
    }

    // Its sheet, as the services take it. Its d is 8, so the high byte of each row is 0.
    pub fn sheet() -> [u8; 10]
        ensures { result ≡ house_sheet }
    {
        let rows = HouseCode::ROWS;
        let d = HouseCode::D as u8;
        let k = HouseCode::K as u8;
        [
            d,
            k,
            0,
            rows[0] as u8,
            0,
            rows[1] as u8,
            0,
            rows[2] as u8,
            0,
            rows[3] as u8,
        ]
    }

    // All its nearest words, for a caller that keeps them.
    pub fn nearest_words() -> [u8; 256]
        ensures { HouseTable result }
    {
        NEAREST
    }

    // The nearest word of a word, from the table.
    pub fn nearest(word: u8) -> u8
        ensures { result ≡ nearest_word (row_of house_sheet) 4 8 word }
    {
        NEAREST[word as usize]
    }
}

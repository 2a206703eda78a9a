// The two sides of the graph: their names, and what the code holds of a side of a checked plan.
ghost use Rattle.std.specs.Prelude.{◌≡◌};
ghost use Rattle.wiring.specs.Plan.{other};

// The left side or the right side.
#[derive(Clone, Copy, Debug, PartialEq, Eq)]
pub enum SideName {
    Left,
    Right,
}

// A vertex: its side and its number there.
#[derive(Clone, Copy, Debug, PartialEq, Eq)]
pub struct Vertex {
    pub side: SideName,
    pub v: usize,
}

// A side: n vertices that read d bits each. The first k rows of the basis, an echelon form of the sheet's rows, leave nothing of a word
// exactly if it is a codeword; the rest of `basis` is 0.
#[derive(Clone, Copy, Debug, PartialEq, Eq)]
pub struct SideCode {
    pub n: usize,
    pub d: usize,
    pub k: usize,
    pub basis: [u16; 11],
}

impl SideName {
    // The other side.
    pub fn other(self) -> SideName
        ensures { result ≡ other self }
    {
        match self {
            SideName::Left => SideName::Right,
            SideName::Right => SideName::Left,
        }
    }
}

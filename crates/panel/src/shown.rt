// What a call on a state answers, and what stands before a state's block.

// A state's count and sweep number.
#[derive(Clone, Copy, Debug, PartialEq, Eq)]
pub struct Shown {
    pub count: usize,
    pub sweeps: usize,
}

// Refusals: why a call is turned back, with the row or entry at fault where there is one.
ghost use Rattle.std.specs.Prelude.{◌≡◌};
ghost use Rattle.inner_code.specs.Refusal.{number_of, place_of};

use std::error::Error;
use std::fmt;

// Why a call is turned back.
#[derive(Clone, Copy, Debug, PartialEq, Eq)]
pub enum Refusal {
    // the sheet
    SheetShort,
    DegreeOutOfRange,
    RowsOutOfRange,
    SheetLengthWrong,
    RowTooLarge { row: u32 },
    RowDependent { row: u32 },

    // the wiring
    VerticesOutOfRange,
    EdgeCountsDiffer,
    WiringLengthWrong,
    EntryTooLarge { entry: u32 },
    EntryRepeated { entry: u32 },

    // a block; the second also of a word at or above 2^d
    BlockLengthWrong,
    StrayBit,

    // a list of lost spans
    SpansLengthWrong,
    SpanOutOfBlock,
    SpanOutOfOrder,

    // output, decoder and report
    OutputShort,
    LimitTooLarge,
    Unsettled,
    ListShort,

    // the margin
    FlipsTooMany,
    FlipsNotCovered,

    // the panel's state
    BitTooLarge,
    SweepsSpent,

    // messages
    PlanTooLarge,
    MessageLengthWrong,
    MessageStrayBit,
    NoCodeword,
}

impl Refusal {
    // Its number in the table of refusals.
    pub fn number(self) -> u32
        ensures { result ≡ number_of self }
    {
        match self {
            Refusal::SheetShort => 1,
            Refusal::DegreeOutOfRange => 2,
            Refusal::RowsOutOfRange => 3,
            Refusal::SheetLengthWrong => 4,
            Refusal::RowTooLarge { row: _ } => 5,
            Refusal::RowDependent { row: _ } => 6,
            Refusal::VerticesOutOfRange => 7,
            Refusal::EdgeCountsDiffer => 23,
            Refusal::WiringLengthWrong => 8,
            Refusal::EntryTooLarge { entry: _ } => 9,
            Refusal::EntryRepeated { entry: _ } => 10,
            Refusal::BlockLengthWrong => 11,
            Refusal::StrayBit => 12,
            Refusal::SpansLengthWrong => 24,
            Refusal::SpanOutOfBlock => 25,
            Refusal::SpanOutOfOrder => 26,
            Refusal::OutputShort => 13,
            Refusal::LimitTooLarge => 14,
            Refusal::Unsettled => 15,
            Refusal::ListShort => 16,
            Refusal::FlipsTooMany => 17,
            Refusal::FlipsNotCovered => 18,
            Refusal::BitTooLarge => 27,
            Refusal::SweepsSpent => 28,
            Refusal::PlanTooLarge => 19,
            Refusal::MessageLengthWrong => 20,
            Refusal::MessageStrayBit => 21,
            Refusal::NoCodeword => 22,
        }
    }

    // The row or entry at fault, 0 where none is.
    pub fn place(self) -> u32
        ensures { result ≡ place_of self }
    {
        match self {
            Refusal::RowTooLarge { row } => row,
            Refusal::RowDependent { row } => row,
            Refusal::EntryTooLarge { entry } => entry,
            Refusal::EntryRepeated { entry } => entry,
            _ => 0,
        }
    }
}

impl fmt::Display for Refusal {
    ghost use Rattle.std.specs.Prelude.{Some};
    ghost use Rattle.inner_code.specs.Refusal.{refusal_text};

    ghost output = { λ r. Some (refusal_text r) };

    fn fmt<W: fmt::Write>(&self, f: &mut fmt::Formatter<W>) -> fmt::Result {
        write!(f, "refused {} {}", self.number(), self.place())
    }
}

impl Error for Refusal {}

// The services, by the byte that a record begins with.

// Which service is called.
#[derive(Clone, Copy, Debug, PartialEq, Eq)]
pub enum Service {
    Nearest,
    Piece,
    Locate,
    Decode,
    Report,
    Spread,
    Margin,
    Encode,
    Read,
    BuildTable,
    LookUp,
    Load,
    Sweep,
    SetBit,
}

impl From<u8> for Service {
    // A byte that is no other service's calls `Read`.
    fn from(byte: u8) -> Service {
        match byte {
            1 => Service::Nearest,
            2 => Service::Piece,
            3 => Service::Locate,
            4 => Service::Decode,
            5 => Service::Report,
            6 => Service::Spread,
            7 => Service::Margin,
            8 => Service::Encode,
            10 => Service::BuildTable,
            11 => Service::LookUp,
            12 => Service::Load,
            13 => Service::Sweep,
            14 => Service::SetBit,
            _ => Service::Read,
        }
    }
}

// The colour of a cell.

/// The numbers of which the scrambling of a cell is made: mobile country code, at most 1023, mobile network code, at
/// most 16383, and colour code, at most 63 (EN 300 392-2 clause 8.2.5).
#[derive(Clone, Copy, PartialEq, Eq, Debug)]
pub struct Colour {
    pub mcc: u16,
    pub mnc: u16,
    pub cc: u8,
}

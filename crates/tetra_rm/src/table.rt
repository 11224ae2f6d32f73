// The rows.
ghost use Rattle.std.specs.Prelude.{◌≡◌};
ghost use Rattle.tetra_rm.specs.Access.{access_rows};

/// The 14 rows of an access code. The 16 bits behind a message are the sum modulo 2 of the rows of its bits that are 1,
/// the most significant bit of a row first.
#[derive(Clone, Copy, PartialEq, Eq, Debug)]
pub struct Rows(pub [u16; 14]);

/// The rows of this project's own access code: row r is the rest of `X^(14 - r) X^15` modulo
/// `X^15 + X^11 + X^10 + X^9 + X^8 + X^7 + X^5 + X^3 + X^2 + X + 1`, highest coefficient first, followed by
/// the bit that gives the message bit and these an even number of ones.
pub fn own_rows() -> Rows
    ensures { result ≡ access_rows }
{
    Rows([
        0x643C, 0x321E, 0x96A1, 0x4B51, 0x25A9, 0x12D5, 0x096B, 0x8B1A, 0xCA23, 0xEABE, 0xFAF1,
        0x7D79, 0x3EBD, 0x1F5F,
    ])
}

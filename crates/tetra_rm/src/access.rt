// The access code of given rows.
ghost use Rattle.std.specs.Prelude.{◌≡◌, ◌<◌, ◌≤◌, ◌*◌, ℕ, length};
ghost use Rattle.tetra_bits.specs.Digits.{digits};
ghost use Rattle.tetra_bits.specs.Least.{FirstLeast};
ghost use Rattle.tetra_bits.specs.Soft.{AllWithin};
ghost use Rattle.tetra_rm.specs.Code.{access_metric, best_access};

use crate::keys::{message_of, metric_of};
use crate::searching::{RmReading, least_key};
use crate::sums::part_sums;
use crate::table::Rows;
use std::marker::Model;
use tetra_bits::Soft;

/// The access code of given rows with the tables of its search, which are made once. Seen as its rows. This project's own.
#[derive(Drop)]
pub struct AccessCode {
    rows: Rows,
    front: [u16; 64],
    middle: [u16; 64],
    last: [u16; 64],
}

impl Model for AccessCode {
    ghost use Rattle.tetra_rm.specs.Search.{AreTables};
    ghost use Rattle.tetra_rm.specs.declared.table.Rows.{Rows};

    ghost Value = { Rows };

    ghost view = { λ s. s.rows };

    ghost invariant = { λ s. AreTables s.rows.0 s.front s.middle s.last };
}

impl AccessCode {
    /// The code of these rows.
    pub fn of(rows: &Rows) -> AccessCode
        ensures { result ≡ rows.now }
    {
        AccessCode {
            rows: *rows,
            front: part_sums(rows, 0, 5),
            middle: part_sums(rows, 5, 6),
            last: part_sums(rows, 11, 3),
        }
    }

    /// The first-least message over 30 soft values, and its metric: that of the word which costs least, and of equal
    /// ones the first in bit order. This project's own.
    pub fn decode(&self, soft: &Soft) -> RmReading
        requires { length soft.now ≡ 30 }
        ensures message { result.message < 16384 }
        ensures best { digits 14 result.message ≡ best_access self.now.0 soft.now }
        ensures first { FirstLeast 14 (access_metric self.now.0 soft.now) (digits 14 result.message) }
        ensures metric { result.metric ≡ access_metric self.now.0 soft.now (digits 14 result.message) }
        ensures within { (top : ℕ) → AllWithin top soft.now → result.metric ≤ top * 30 }
    {
        let _len = soft.len();
        let key = least_key(&self.front, &self.middle, &self.last, soft);
        RmReading {
            message: message_of(key),
            metric: metric_of(key),
        }
    }
}

/// The same over rows whose tables are made for this one search: the first-least message over 30 soft values, and its
/// metric. This project's own.
pub fn decode(rows: &Rows, soft: &Soft) -> RmReading
    requires { length soft.now ≡ 30 }
    ensures message { result.message < 16384 }
    ensures best { digits 14 result.message ≡ best_access rows.now.0 soft.now }
    ensures first { FirstLeast 14 (access_metric rows.now.0 soft.now) (digits 14 result.message) }
    ensures metric { result.metric ≡ access_metric rows.now.0 soft.now (digits 14 result.message) }
    ensures within { (top : ℕ) → AllWithin top soft.now → result.metric ≤ top * 30 }
{
    AccessCode::of(rows).decode(soft)
}

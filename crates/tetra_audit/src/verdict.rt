// What an audit answers.
use tetra_cert::Rule;

/// Why a field is refused: the first of five tests, in this order, that fails. This project's own.
#[derive(Clone, Copy, PartialEq, Eq, Debug, Drop)]
pub enum FieldWhy {
    /// A pad bit is 1.
    Pad,
    /// The bits of a part that comes by no trellis are not the defined ones.
    Bits,
    /// The checker of certificates refuses the claimed message with its certificate, at this step, state and rule.
    Cert { step: u16, state: u8, rule: Rule },
    /// The metric is not the defined one.
    Metric,
    /// The mark is not the defined one.
    Mark,
}

/// What is answered about a claimed reading record. This project's own.
#[derive(Clone, Copy, PartialEq, Eq, Debug, Drop)]
pub enum SlotVerdict {
    /// No test fails.
    Agrees,
    /// The letter is not that of the slot.
    Kind,
    /// A field is refused, the first that is; fields count from 0.
    Field { index: u8, why: FieldWhy },
}

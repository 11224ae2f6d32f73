// Over how many slots the blocks of a timeslot are spread.
ghost use Rattle.std.specs.Prelude.{◌≡◌};
ghost use Rattle.tetra_session.specs.Time.{MayBeDepth, depth, span_slots};

use tetra_settings::{Mode, Span};

/// Over how many traffic slots of its timeslot a block of this mode is spread: 1, 4 or 8, and 0 where it is not.
pub fn depth(mode: Mode) -> usize
    ensures value { result ≡ depth mode }
    ensures depth { MayBeDepth result }
{
    match mode {
        Mode::D48(span) | Mode::D24(span) => span_slots(span),
        Mode::Sig | Mode::Cb | Mode::D72 | Mode::Speech => 0,
    }
}

/// The number of slots of a span.
pub fn span_slots(span: Span) -> usize
    ensures value { result ≡ span_slots span }
    ensures depth { MayBeDepth result }
{
    match span {
        Span::One => 1,
        Span::Four => 4,
        Span::Eight => 8,
    }
}

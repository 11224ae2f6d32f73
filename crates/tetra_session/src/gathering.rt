// Gathering the blocks of a timeslot from its slots.
ghost use Rattle.std.specs.Prelude.{◌≡◌, ◌≤◌, ◌++◌, ◌∷◌, [], ℕ, ℤ, List, length, IsTrue};
ghost use Rattle.tetra_diag.specs.Diagonal.{Fills, gathered};
ghost use Rattle.tetra_session.specs.Heard.{GatherLaneStands};
ghost use Rattle.tetra_session.specs.Time.{MayBeDepth, depth, span_slots};

use tetra_bits::Soft;
use tetra_diag::Gather;
use tetra_settings::{Mode, Span};

/// A lane of a receiver: what it keeps of one timeslot, the last slot words of protected data, where its mode spreads
/// blocks over slots. The lane itself need not know over how many.
pub trait Gathers {
    /// The lane stands for these slot words, where blocks are spread over so many slots; 0 where they are not.
    ghost Stands: { ℕ → List (List ℤ) → Self → Type 0 };

    /// Takes the next slot word, of 432 values behind the block interleaver, and fills `block` with the block of 432
    /// values that is complete with it: false and no change where none is. Blocks are spread over `depth` slots.
    fn push_into(&mut self, depth: usize, word: &Soft, block: &mut Soft) -> bool
        requires depth { MayBeDepth depth }
        requires word { length word.now ≡ 432 }
        ensures block { (words : List (List ℤ)) → Stands depth words self.old → 1 ≤ depth
            → Fills (gathered depth (words ++ word.now ∷ [])) result block.old block.new }
        ensures stands { (words : List (List ℤ)) → Stands depth words self.old
            → Stands depth (words ++ word.now ∷ []) self.new }
        ensures size { IsTrue result → length block.new ≡ 432 };

    /// Where nothing is spread, a lane stands for any words.
    ghost idle: { (words more : List (List ℤ)) (lane : Self) → Stands 0 words lane → Stands 0 more lane };
}

/// The lane of a receiver that has the form that its mode asks for.
#[derive(Drop)]
pub enum GatherLane {
    /// Nothing is spread.
    Still,
    /// Over one slot.
    One(Gather<1>),
    /// Over four slots.
    Four(Gather<4>),
    /// Over eight slots.
    Eight(Gather<8>),
}

impl GatherLane {
    /// The lane of a timeslot of this mode, before its first slot word.
    pub fn new(mode: Mode) -> GatherLane
        ensures { GatherLaneStands (depth mode) [] result }
    {
        match mode {
            Mode::Sig | Mode::Cb | Mode::D72 | Mode::Speech => GatherLane::Still,
            Mode::D48(span) | Mode::D24(span) => GatherLane::over(span),
        }
    }

    fn over(span: Span) -> GatherLane
        ensures { GatherLaneStands (span_slots span) [] result }
    {
        match span {
            Span::One => GatherLane::One(Gather::new()),
            Span::Four => GatherLane::Four(Gather::new()),
            Span::Eight => GatherLane::Eight(Gather::new()),
        }
    }
}

impl Gathers for GatherLane {
    ghost use Rattle.tetra_session.specs.lemmas.Idle.{gather_idle};

    ghost Stands = { GatherLaneStands };

    ghost idle = { gather_idle };

    fn push_into(&mut self, _depth: usize, word: &Soft, block: &mut Soft) -> bool {
        match self {
            GatherLane::Still => false,
            GatherLane::One(gather) => gather.push_into(word, block),
            GatherLane::Four(gather) => gather.push_into(word, block),
            GatherLane::Eight(gather) => gather.push_into(word, block),
        }
    }
}

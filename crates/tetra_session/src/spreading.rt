// Spreading the blocks of a timeslot over its slots.
ghost use Rattle.std.specs.Prelude.{◌≡◌, ◌≤◌, ◌++◌, ◌∷◌, [], ℕ, Bool, List, length};
ghost use Rattle.tetra_diag.specs.Diagonal.{spread_word};
ghost use Rattle.tetra_settings.specs.Blocks.{IsTrafficMode, load_bits};
ghost use Rattle.tetra_settings.specs.declared.slots.Letter.TheVariants as Letter;
ghost use Rattle.tetra_settings.specs.declared.types.Mode.TheVariants as Mode;
ghost use Rattle.tetra_session.specs.Sent.{SpreadLaneStands, data_block, load_word, rest_word};
ghost use Rattle.tetra_session.specs.Time.{MayBeDepth, depth, span_slots};

use crate::spans::span_slots;
use crate::words::second_half;
use tetra_bits::Bits;
use tetra_channels::{Data24, Data48, Raw72};
use tetra_diag::Spread;
use tetra_scramble::{Key, flip_bits};
use tetra_settings::{Mode, Span};
use tetra_speech::{encode_half, encode_whole, part};

/// A lane of a sender: what it keeps of one timeslot, the last blocks of protected data, where its mode spreads them over
/// slots. The lane itself need not know over how many.
pub trait Spreads {
    /// The lane stands for these blocks, where they are spread over so many slots; 0 where they are not.
    ghost Stands: { ℕ → List (List Bool) → Self → Type 0 };

    /// Takes the next block, of 432 type-3 bits, and writes the slot word, of 432 bits before the block interleaver, over
    /// `word`. Blocks are spread over `depth` slots; where they are not the word is of no use.
    fn push_into(&mut self, depth: usize, block: &Bits, word: &mut Bits)
        requires depth { MayBeDepth depth }
        requires block { length block.now ≡ 432 }
        ensures word { (blocks : List (List Bool)) → Stands depth blocks self.old → 1 ≤ depth
            → word.new ≡ spread_word depth (blocks ++ block.now ∷ []) }
        ensures stands { (blocks : List (List Bool)) → Stands depth blocks self.old
            → Stands depth (blocks ++ block.now ∷ []) self.new }
        ensures size { length word.new ≡ 432 };

    /// Where nothing is spread, a lane stands for any blocks.
    ghost idle: { (blocks more : List (List Bool)) (lane : Self) → Stands 0 blocks lane → Stands 0 more lane };
}

/// The lane of a sender that has the form that its mode asks for.
#[derive(Drop)]
pub enum SpreadLane {
    /// Nothing is spread.
    Still,
    /// Over one slot.
    One(Spread<1>),
    /// Over four slots.
    Four(Spread<4>),
    /// Over eight slots.
    Eight(Spread<8>),
}

impl SpreadLane {
    /// The lane of a timeslot of this mode, before its first block.
    pub fn new(mode: Mode) -> SpreadLane
        ensures { SpreadLaneStands (depth mode) [] result }
    {
        match mode {
            Mode::Sig | Mode::Cb | Mode::D72 | Mode::Speech => SpreadLane::Still,
            Mode::D48(span) | Mode::D24(span) => SpreadLane::over(span),
        }
    }

    fn over(span: Span) -> SpreadLane
        ensures { SpreadLaneStands (span_slots span) [] result }
    {
        match span {
            Span::One => SpreadLane::One(Spread::new()),
            Span::Four => SpreadLane::Four(Spread::new()),
            Span::Eight => SpreadLane::Eight(Spread::new()),
        }
    }
}

impl Spreads for SpreadLane {
    ghost use Rattle.tetra_session.specs.lemmas.Idle.{spread_idle};

    ghost Stands = { SpreadLaneStands };

    ghost idle = { spread_idle };

    fn push_into(&mut self, _depth: usize, block: &Bits, word: &mut Bits) {
        *word = match self {
            SpreadLane::Still => block.copy(),
            SpreadLane::One(spread) => spread.push(block),
            SpreadLane::Four(spread) => spread.push(block),
            SpreadLane::Eight(spread) => spread.push(block),
        };
    }
}

/// Takes the next block of a lane, of 432 type-3 bits, and gives its slot word, of 432 bits before the block interleaver.
fn next_word<S: Spreads>(lane: &mut S, span: Span, block: &Bits) -> Bits
    requires { length block.now ≡ 432 }
    ensures word { (before : List (List Bool)) → S.Stands (span_slots span) before lane.old
        → result ≡ spread_word (span_slots span) (before ++ block.now ∷ []) }
    ensures stands { (before : List (List Bool)) → S.Stands (span_slots span) before lane.old
        → S.Stands (span_slots span) (before ++ block.now ∷ []) lane.new }
    ensures size { length result ≡ 432 }
{
    let mut word = Bits::new();
    lane.push_into(span_slots(span), block, &mut word);
    word
}

/// The 432 type-5 bits of the load of a traffic slot of data; protected data is spread over slots.
pub fn load_word<S: Spreads>(lane: &mut S, mode: Mode, load: &Bits, key: &Key) -> Bits
    requires carries { IsTrafficMode mode }
    requires size { length load.now ≡ load_bits mode Letter.T }
    ensures word { (before : List (List Bool)) → S.Stands (depth mode) before lane.old
        → result ≡ load_word key.now mode before load.now }
    ensures stands { (before : List (List Bool)) → S.Stands (depth mode) before lane.old
        → S.Stands (depth mode) (before ++ data_block mode load.now ∷ []) lane.new }
    ensures size { length result ≡ 432 }
{
    match mode {
        Mode::D72 => Raw72::encode(load, key),
        Mode::D48(span) => Data48::encode3(&next_word(lane, span, &Data48::type3(load)), key),
        Mode::D24(span) => Data24::encode3(&next_word(lane, span, &Data24::type3(load)), key),
        Mode::Speech => speech_word(load, key),
        Mode::Sig | Mode::Cb => unreachable!(),
    }
}

/// The 432 type-5 bits of two frames of speech.
fn speech_word(load: &Bits, key: &Key) -> Bits
    requires { length load.now ≡ 274 }
    ensures word { result ≡ load_word key.now Mode.Speech [] load.now }
    ensures size { length result ≡ 432 }
{
    let word = encode_whole(&part(load, 0, 137), &part(load, 137, 137));
    flip_bits(&word, key, 1)
}

/// The 216 type-5 bits of block 2 of a traffic slot whose first half is stolen: the second half of the word of data, or
/// one frame of speech.
pub fn rest_word<S: Spreads>(lane: &mut S, mode: Mode, load: &Bits, key: &Key) -> Bits
    requires carries { IsTrafficMode mode }
    requires size { length load.now ≡ load_bits mode Letter.P }
    ensures word { (before : List (List Bool)) → S.Stands (depth mode) before lane.old
        → result ≡ rest_word key.now mode before load.now }
    ensures stands { (before : List (List Bool)) → S.Stands (depth mode) before lane.old
        → S.Stands (depth mode) (before ++ data_block mode load.now ∷ []) lane.new }
    ensures size { length result ≡ 216 }
{
    match mode {
        Mode::D72 | Mode::D48(_) | Mode::D24(_) => second_half(&load_word(lane, mode, load, key)),
        Mode::Speech => flip_bits(&encode_half(load), key, 1),
        Mode::Sig | Mode::Cb => unreachable!(),
    }
}

/// Takes a load that is not sent, since both halves of its slot are stolen: a block of protected data is spread over
/// slots as any other.
pub fn take_load<S: Spreads>(lane: &mut S, mode: Mode, load: &Bits)
    requires { length load.now ≡ load_bits mode Letter.Q }
    ensures { (before : List (List Bool)) → S.Stands (depth mode) before lane.old
        → S.Stands (depth mode) (before ++ data_block mode load.now ∷ []) lane.new }
{
    match mode {
        Mode::D48(span) => {
            next_word(lane, span, &Data48::type3(load));
        }
        Mode::D24(span) => {
            next_word(lane, span, &Data24::type3(load));
        }
        Mode::D72 | Mode::Speech | Mode::Sig | Mode::Cb => {}
    }
}

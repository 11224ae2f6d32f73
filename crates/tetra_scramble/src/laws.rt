// Laws of the key.
ghost use Rattle.tetra_scramble.specs.Key.{OnlyKey, KeyIsKey};
ghost use Rattle.tetra_scramble.specs.Flips.{FlippedBack, TurnedBack, StaysUndamaged, StaysNoneWrong};

/// The key as a function obeys the recurrence.
pub fn key_is_key()
    ensures { KeyIsKey }
{}

/// Only one list obeys it.
pub fn only_key()
    ensures { OnlyKey }
{}

/// Adding the same key bits again gives the bits back.
pub fn flipped_back()
    ensures { FlippedBack }
{}

/// Turning the same signs again gives the values back.
pub fn turned_back()
    ensures { TurnedBack }
{}

/// Values that have the signs of bits have, once turned, the signs of the bits with the same key bits added.
pub fn stays_undamaged()
    ensures { StaysUndamaged }
{}

/// Values none of which has the wrong sign for bits, though some may be 0, have, once turned, no wrong sign for the bits
/// with the same key bits added.
pub fn stays_none_wrong()
    ensures { StaysNoneWrong }
{}

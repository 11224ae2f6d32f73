// Laws of the interleavers.
ghost use Rattle.tetra_interleave.specs.Laws.{AllAreUndone, BlocksAreOneToOne, MatricesAreOneToOne, StayUndamaged, StayNoneWrong};

/// Back after out is the list itself, and out after back too.
pub fn all_are_undone()
    ensures { AllAreUndone }
{}

/// The places of block interleavers are one-to-one.
pub fn blocks_are_one_to_one()
    ensures { BlocksAreOneToOne }
{}

/// The places of matrices are one-to-one.
pub fn matrices_are_one_to_one()
    ensures { MatricesAreOneToOne }
{}

/// Values that have the signs of interleaved bits have, taken back, the signs of the bits.
pub fn stay_undamaged()
    ensures { StayUndamaged }
{}

/// Values none of which has the wrong sign for interleaved bits, though some may be 0, have, taken back, no wrong sign
/// for the bits.
pub fn stay_none_wrong()
    ensures { StayNoneWrong }
{}

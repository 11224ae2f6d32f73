// Laws of parity.
ghost use Rattle.tetra_parity.specs.Marks.{MarksAreRight, BlocksAreGood};
ghost use Rattle.tetra_parity.specs.Parity.{ParityHolds, TestsParity};

/// Parity of every kind holds on each block with its parity.
pub fn parity_holds()
    ensures { ParityHolds }
{}

/// The test of parity as a function is true exactly where parity holds.
pub fn tests_parity()
    ensures { TestsParity }
{}

/// The mark as a function is right.
pub fn marks_are_right()
    ensures { MarksAreRight }
{}

/// A block with its parity is marked Good, and Unchecked where there is no parity.
pub fn blocks_are_good()
    ensures { BlocksAreGood }
{}

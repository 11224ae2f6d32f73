// Laws of the definitions.
ghost use Rattle.tetra_rm.specs.Code.{WordsDiffer, UndamagedArrives};

/// Different messages have different words, whatever the rows are.
pub fn words_differ()
    ensures { WordsDiffer }
{}

/// Values with the signs of a word are read as its message with metric 0.
pub fn undamaged_arrives()
    ensures { UndamagedArrives }
{}

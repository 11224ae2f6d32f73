// Laws of the definitions.
ghost use Rattle.tetra_diag.specs.Arrives.{NoneWrongArrives, UndamagedArrives};
ghost use Rattle.tetra_diag.specs.FromLast.{GatheredFromLast, SpreadFromLast};

/// A block whose words all arrive undamaged arrives undamaged.
pub fn undamaged_arrives()
    ensures { UndamagedArrives }
{}

/// A block of whose words no value has the wrong sign, though some may be 0, arrives with no wrong sign.
pub fn none_wrong_arrives()
    ensures { NoneWrongArrives }
{}

/// A slot word depends on the last blocks alone, as many as there are slots.
pub fn spread_from_last()
    ensures { SpreadFromLast }
{}

/// A block that is complete depends on the last words alone, as many as there are slots.
pub fn gathered_from_last()
    ensures { GatheredFromLast }
{}

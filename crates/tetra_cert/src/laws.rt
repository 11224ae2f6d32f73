// Laws of the definitions.
ghost use Rattle.tetra_cert.specs.Verdicts.{AcceptedExactly};

/// The verdict is `Accepted` exactly where all rules hold.
pub fn accepted_exactly()
    ensures { AcceptedExactly }
{}

// Laws of the definitions.
ghost use Rattle.tetra_audit.specs.Agreement.{AgreesExactly, OwnRecordsAgree};

use tetra_bursts::field_sizes;

/// A law: the verdict is `Agrees` exactly where the record spells the defined readings, with tables
/// that the rules accept in place of the certificates.
pub fn agrees_exactly()
    ensures { AgreesExactly }
{}

/// A law: the record that is defined for a slot, with the costs to go as its certificates, agrees.
pub fn own_records_agree()
    ensures { OwnRecordsAgree }
{
    field_sizes();
}

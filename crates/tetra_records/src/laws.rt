// Laws of the definitions.
ghost use Rattle.tetra_records.specs.Records.{IsUnambiguous};
ghost use Rattle.tetra_settings.specs.declared.types.Settings.{Settings};

/// Blocks that a slot may carry and whose records begin the same bytes are the same.
pub fn records_are_unambiguous()
    ensures { (settings : Settings) → IsUnambiguous settings }
{}

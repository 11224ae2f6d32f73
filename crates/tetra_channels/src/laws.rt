// Laws of the channels.
ghost use Rattle.tetra_channels.specs.Aliases.{AliasesAreChannels};

/// A law: the numbers of each of the six channels fit together, and are those of its row in the table of channels.
pub fn aliases_are_channels()
    ensures { AliasesAreChannels }
{}

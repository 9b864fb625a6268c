// Examples that are proved by computation, so that an error made alike in a definition and in the program is refused.
#![tactic(auto)]

ghost use Rattle.witnesses.specs.Formats.{Formats};

// The numbers of the formats.
pub fn formats()
    ensures { Formats }
{}

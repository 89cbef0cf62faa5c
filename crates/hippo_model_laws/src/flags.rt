//! Laws on the flags of an audit.
ghost use Rattle.hippo_model_laws.specs.Flags.{FlagsAreThoseOfParts};

/// The flags of a range of entry numbers are those of its parts, one after the other, wherever the
/// range is split: an audit in steps finds the same as an audit at once.
pub fn flags_are_those_of_parts()
    ensures { FlagsAreThoseOfParts }
{}

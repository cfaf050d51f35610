//! The laws as functions that do nothing.
#![tactic(auto)]

ghost use Rattle.swi_chip_start_laws.specs.Files.{StartsFromFile};
ghost use Rattle.swi_chip_start_laws.specs.Jumps.{HasNoJump};

/// What the image of a program has not, for who reads it; it does nothing.
///
/// No word of its blocks is a JAL x0.
pub fn laws_of_images()
    ensures { HasNoJump }
{}

/// From which file a service starts, for who reads it; it does nothing.
///
/// The file passes its checks, and its image is one of a program. Its tables are handed in as they stand there, with the
/// table of places that they make, and memory for a slot at least. Then the service can start, for just that image.
pub fn laws_of_starts()
    ensures { StartsFromFile }
{}

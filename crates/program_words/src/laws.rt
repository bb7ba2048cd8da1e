//! What the reading of words keeps. The function does nothing: it stands for the law that its clause names.
ghost use Rattle.std.specs.Prelude.{◌≡◌, List, Some};
ghost use Rattle.clap.specs.Words.{Text};
ghost use Rattle.program_words.specs.Words.{Asked, asked_by, IsInRange};

/// A store that words ask for has a geometry, a trial has a seed of 64 bits and a count from 1 to 65,536, and a session has 1 to 16
/// callers and a number of its first ship of 2^63 at most.
pub fn asked_in_range()
    ensures { (words : List Text) (asked : Asked) → asked_by words ≡ Some asked → IsInRange asked }
{}

//! Laws of policies and of the parts of a text. The functions do nothing: their contracts are the laws.

ghost use Rattle.pass_policy.specs.Laws.{PartsAreFound, StrengthTellsLevels};

/// The test of the parts finds each part, wherever it stands, and nothing else.
pub fn parts_are_found()
    ensures { PartsAreFound }
{}

/// Under a policy that isn't off, a password of 4 bytes or more meets the same policy at LOW exactly where its strength is at
/// least 50, at MEDIUM where it is at least 75, and at STRONG where it is 100.
pub fn strength_tells_levels()
    ensures { StrengthTellsLevels }
{}

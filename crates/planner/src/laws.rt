//! Worked plans: a law, that is, a function that does nothing, whose contract states facts about
//! them.
ghost use Rattle.planner.specs.WorkedBounds.{BoundsByType, BoundsByValue, BoundsInBraces, BoundsOfOne, CountsSample};

/// The counts of the sample release, and the choices, bounds and floors that four plans have there
/// if the caller asks for no choice.
pub fn worked_bounds_hold()
    ensures counts { CountsSample }
    ensures by_value { BoundsByValue }
    ensures by_type { BoundsByType }
    ensures in_braces { BoundsInBraces }
    ensures of_one { BoundsOfOne }
{}

//! Laws about the definitions of this crate: functions that do nothing, whose contracts are the
//! laws.
ghost use Rattle.plan_bounds.specs.Floors.{FloorWithinBound};
ghost use Rattle.plan_bounds.specs.Found.{FindsWithinSize};

/// No plan has a floor above its bound, whatever choices its leaves have.
pub fn floor_within_bound()
    ensures { FloorWithinBound }
{}

/// If the concepts of a release rise and each attribute row has a source in force, no plan finds
/// more concepts than its size, and no plan of groups more groups, whatever choices its leaves have
/// and whichever rows they read.
pub fn finds_within_size()
    ensures { FindsWithinSize }
{}

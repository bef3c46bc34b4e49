//! The laws of the rules: functions that do nothing, whose contracts are the laws.
ghost use Rattle.std.specs.Prelude.{◌≤◌};
ghost use Rattle.set_algebra.specs.Depth.{plan_depth};
ghost use Rattle.set_algebra.specs.Plan.{Plan};
ghost use Rattle.rewrites.specs.Simplified.{simplified};
ghost use Rattle.rewrites.specs.RulesAtPlaces.{IsThereAlone, KeepsMeaningAtRoot, KeepsMeaning};

/// The plan that a rule makes means the same as the plan before, over every release. This holds for
/// plans of concepts and of groups, at the root and at every place, through braces and
/// cardinalities.
pub fn rules_keep_the_meaning()
    ensures root { KeepsMeaningAtRoot }
    ensures place { KeepsMeaning }
{}

/// A rule makes a plan at a place exactly if the place names a node and the rule makes another node
/// of it. The new plan is the old one with the new node put at the place.
pub fn rules_apply_at_places()
    ensures { IsThereAlone }
{}

/// A plan is no deeper after `simplify` than before.
pub fn simplified_plans_are_no_deeper()
    ensures { (plan : Plan) → plan_depth (simplified plan) ≤ plan_depth plan }
{}

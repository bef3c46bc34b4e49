//! Laws about the definitions of this crate: functions that do nothing, whose contracts are the
//! laws.
ghost use Rattle.std.specs.Prelude.{◌≡◌, ◌≤◌, ℕ, List};
ghost use Rattle.constraint_tree.specs.Depth.{depth_of, most_deep};
ghost use Rattle.constraint_tree.specs.Refusal.{IsConstraint};
ghost use Rattle.constraint_tree.specs.Tree.{Tree};
ghost use Rattle.set_algebra.specs.Depth.{plan_depth};
ghost use Rattle.set_algebra.specs.Lowering.{lowered};
ghost use Rattle.set_algebra.specs.Meaning.{MeansConceptsInForce};
ghost use Rattle.set_algebra.specs.Places.{KeepsMeaningAtPlaces, ReplacesOneChild, FindsWhatIsPut, PutsBack};
ghost use Rattle.set_algebra.specs.WorkedPlans.{HasPlanOfAttribute, HasPlanOfNumber, HasPlanOfBraces, HasPlanOfTwice, MeansEverything, MeansDescendants, MeansBraces, MeansDistinctPairs, MeansBraceCounts, MeansNoneInBraces, MeansReverse, MeansDotted, MeansNotEqual, MeansRowsInForce, MeansNumbers, MeansBounds, MeansDifferences, MeansEither, MeansWalks, MeansOperands, MeansEmptyAnswers};
ghost use Rattle.set_algebra.specs.WrongPlans.{MisplansSplitBraces, MisplansSpreadCount, MisplansCountOfBraces};

use constraint_tree::constraints_are_not_deep;

/// For every release and every plan, each concept in the set that the plan means is in force.
pub fn plans_mean_concepts_in_force()
    ensures { MeansConceptsInForce }
{}

/// The plan that `lower` makes of a constraint is as deep as the constraint's tree. So the plan of
/// a text is at most 326 deep.
pub fn plans_are_as_deep_as_trees()
    ensures same { (tree : Tree) → plan_depth (lowered tree) ≡ depth_of tree }
    ensures most { (text : List ℕ) (tree : Tree) → IsConstraint text tree
        → plan_depth (lowered tree) ≤ most_deep }
{
    constraints_are_not_deep();
}

/// If a node of a plan is replaced by one that means the same over a release, the plan keeps its
/// meaning over that release. This holds for plans of concepts and of groups and at every place,
/// through braces and cardinalities.
pub fn places_keep_the_meaning()
    ensures { KeepsMeaningAtPlaces }
{}

/// Replacing the node at a place changes that node alone: the new node stands there, and the other
/// children of each node on the path stay as they were. To put the node that stands there in its
/// own place changes nothing.
pub fn places_are_found_and_put()
    ensures child { ReplacesOneChild }
    ensures found { FindsWhatIsPut }
    ensures back { PutsBack }
{}

/// The plans of four worked queries are those that `specs/WorkedPlans.antt` shows.
pub fn worked_queries_have_plans()
    ensures attribute { HasPlanOfAttribute }
    ensures number { HasPlanOfNumber }
    ensures braces { HasPlanOfBraces }
    ensures twice { HasPlanOfTwice }
{}

/// Over the sample release, the plan of each worked query means the concepts that the query
/// denotes.
pub fn worked_plans_hold()
    ensures everything { MeansEverything }
    ensures descendants { MeansDescendants }
    ensures braces { MeansBraces }
    ensures distinct_pairs { MeansDistinctPairs }
    ensures brace_counts { MeansBraceCounts }
    ensures none_in_braces { MeansNoneInBraces }
    ensures reverse { MeansReverse }
    ensures dotted { MeansDotted }
    ensures not_equal { MeansNotEqual }
    ensures rows_in_force { MeansRowsInForce }
    ensures numbers { MeansNumbers }
    ensures bounds { MeansBounds }
    ensures differences { MeansDifferences }
    ensures either { MeansEither }
    ensures walks { MeansWalks }
    ensures operands { MeansOperands }
    ensures empty_answers { MeansEmptyAnswers }
{}

/// Three plans that look right are wrong: over the sample release they mean other concepts than the
/// plans of their queries.
pub fn wrong_plans_differ()
    ensures split_braces { MisplansSplitBraces }
    ensures spread_count { MisplansSpreadCount }
    ensures count_of_braces { MisplansCountOfBraces }
{}

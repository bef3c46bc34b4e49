//! Laws about the definitions of this crate. A law is a function that does nothing; its contract is
//! the theorem.
ghost use Rattle.std.specs.Prelude.{◌≤◌, ℕ, List};
ghost use Rattle.constraint_tree.specs.Depth.{most_deep};
ghost use Rattle.constraint_tree.specs.Refusal.{IsConstraint};
ghost use Rattle.constraint_tree.specs.Tree.{Tree};
ghost use Rattle.set_algebra.specs.Depth.{plan_depth};
ghost use Rattle.query_service.specs.Explanation.{executed_plan};
ghost use Rattle.query_service.specs.Answer.{HasAnAnswer, HasOneAnswer};
ghost use Rattle.query_tool.specs.Promise.{KeepsTheLimitedPromise, KeepsThePromise};

use ecl_parser::one_reading;
use rewrites::simplified_plans_are_no_deeper;
use set_algebra::plans_are_as_deep_as_trees;
use snapshot::rising_keeps_the_members;
use streams::{AnswerOutput, QueryInput};

/// Each query line has exactly one answer.
pub fn one_answer()
    ensures some { HasAnAnswer }
    ensures one { HasOneAnswer }
{
    one_reading();
}

/// The plan with which a query line is answered has a depth of at most 326.
pub fn executed_plans_are_not_deep()
    ensures { (text : List ℕ) (tree : Tree) → IsConstraint text tree
        → plan_depth (executed_plan tree) ≤ most_deep }
{
    plans_are_as_deep_as_trees();
    simplified_plans_are_no_deeper();
}

/// If `serve` ends a query request without options with status 0, its contract implies the promise
/// of the engine (`specs/Promise.antt`).
pub fn promise_is_kept<R: QueryInput, W: AnswerOutput, E: AnswerOutput>()
    ensures { KeepsThePromise R.QueryInput W.AnswerOutput E.AnswerOutput }
{
    rising_keeps_the_members();
}

/// If `serve` ends a query request with options with status 0, its contract implies the promise of
/// the engine under a limit, in a form (`specs/Promise.antt`).
pub fn limited_promise_is_kept<R: QueryInput, W: AnswerOutput, E: AnswerOutput>()
    ensures { KeepsTheLimitedPromise R.QueryInput W.AnswerOutput E.AnswerOutput }
{
    rising_keeps_the_members();
}

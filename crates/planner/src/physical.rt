//! Makes a physical plan: a plan with the choices of least bound, or with those that a caller asks
//! for.
ghost use Rattle.std.specs.Prelude.{◌≡◌, IfOk};
ghost use Rattle.set_algebra.specs.Physical.{physical_of};
ghost use Rattle.set_algebra.specs.Plan.{plan_of};
ghost use Rattle.plan_bounds.specs.Bounds.{own_bounds as own_bounds_of};
ghost use Rattle.plan_bounds.specs.Offered.{AreLeast};
ghost use Rattle.planner.specs.Asked.{choices_with};
ghost use Rattle.planner.specs.Chosen.{chosen as chosen_plan, least_choices};

use crate::asking::put_asked;
use crate::bound_list::list;
use crate::choosing::assign_choices;
use plan_bounds::PhysicalPlan;
use postings::Indexes;
use set_algebra::{Choice, ConceptPlan};
use std::alloc::{AllocError, Global};

/// Gives each leaf of `plan` the choice with the least bound over `indexes`, after the leaves below
/// it have theirs. Of equal bounds a leaf takes the first of `ByValue`, `ByType` and `Scan`. Only
/// the choices change. Returns `AllocError` if memory runs out; then the plan is lost.
pub fn choose(
    alloc: Global,
    plan: ConceptPlan,
    indexes: &Indexes,
) -> Result<PhysicalPlan, AllocError>
    ensures plan { IfOk result (λ physical. plan_of physical.plan ≡ plan_of plan) }
    ensures chosen { IfOk result (λ physical. physical_of physical.plan
        ≡ chosen_plan indexes.now (plan_of plan)) }
    ensures choices { IfOk result (λ physical. physical.choices
        ≡ least_choices indexes.now (plan_of plan)) }
    ensures least { IfOk result (λ physical. AreLeast indexes.now (physical_of physical.plan)) }
{
    let mut chosen = plan;
    assign_choices(&mut chosen, indexes.lengths());
    let physical = PhysicalPlan::new(alloc, chosen)?;
    Ok(physical)
}

/// Gives the leaves of `plan` the choices of `asked`, in the order of `PhysicalPlan::choices`. A
/// leaf that does not offer its choice, or for which `asked` has none, gets the one that `choose`
/// gives it. Only the choices change. Returns `AllocError` if memory runs out; then the plan is
/// lost.
pub fn choose_with(
    alloc: Global,
    plan: ConceptPlan,
    asked: &[Choice],
    indexes: &Indexes,
) -> Result<PhysicalPlan, AllocError>
    ensures plan { IfOk result (λ physical. plan_of physical.plan ≡ plan_of plan) }
    ensures choices { IfOk result (λ physical. physical.choices
        ≡ choices_with indexes.now asked.now (plan_of plan)) }
{
    let mut chosen = plan;
    assign_choices(&mut chosen, indexes.lengths());
    put_asked(&mut chosen, asked);
    let physical = PhysicalPlan::new(alloc, chosen)?;
    Ok(physical)
}

/// Returns for each node of the plan, a node before its children, how many items it visits at most,
/// or `u64::MAX` if that is more. The visits of its children are not counted. Returns `AllocError`
/// if memory runs out.
pub fn own_bounds(
    alloc: Global,
    physical: &PhysicalPlan,
    indexes: &Indexes,
) -> Result<Vec<u64>, AllocError>
    ensures { IfOk result (λ bounds. bounds.items
        ≡ own_bounds_of indexes.now (physical_of physical.now.plan)) }
{
    let mut bounds = Vec::new(alloc);
    list(physical.plan(), indexes.lengths(), &mut bounds)?;
    Ok(bounds)
}

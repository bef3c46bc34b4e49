//! A plan with the choices of its leaves, and how many items it visits.
ghost use Rattle.std.specs.Prelude.{◌≡◌, IfOk};
ghost use Rattle.set_algebra.specs.Physical.{physical_of};
ghost use Rattle.plan_bounds.specs.Bounds.{bound as bound_of, capped};
ghost use Rattle.plan_bounds.specs.Floors.{floor as floor_of};
ghost use Rattle.plan_bounds.specs.Leaves.{choices_in};
ghost use Rattle.plan_bounds.specs.Offered.{AreOffered};

use crate::costs::cost;
use crate::floors::plan_floor;
use crate::leaf_choices::add_choices;
use postings::Indexes;
use set_algebra::{Choice, ConceptPlan};
use std::alloc::{AllocError, Global};
use std::marker::Model;

/// A plan with a choice for each of its leaves: whether the executor reads the rows of the leaf's
/// values, the rows of its types, or all rows. The choices do not change what the plan means.
#[derive(Drop)]
pub struct PhysicalPlan {
    plan: ConceptPlan,
    choices: Vec<Choice>,
}

impl Model for PhysicalPlan {
    ghost use Rattle.plan_bounds.specs.PlanWithChoices.{PlanWithChoices};

    ghost Value = { PlanWithChoices };

    ghost use Rattle.set_algebra.specs.contracts.plan.ConceptPlan as concept_plan;
    ghost use Rattle.std.specs.Coded.{codes};

    ghost coded = { Prim.hlevel (codes, concept_plan.the_row.coded) };

    ghost use Rattle.plan_bounds.specs.inside.PhysicalInside.{IsKept, physical_in};

    ghost view = { physical_in };

    ghost invariant = { IsKept };
}

impl PhysicalPlan {
    /// Makes a physical plan of `plan`, and lists the choices that its leaves have. Each leaf must
    /// offer its choice. Returns `AllocError` if memory runs out; then the plan is lost.
    pub fn new(alloc: Global, plan: ConceptPlan) -> Result<PhysicalPlan, AllocError>
        requires offered { AreOffered (physical_of plan) }
        ensures plan { IfOk result (λ physical. physical.plan ≡ plan) }
        ensures choices { IfOk result (λ physical. physical.choices
            ≡ choices_in (physical_of plan)) }
    {
        let mut choices = Vec::new(alloc);
        add_choices(&plan, &mut choices)?;
        Ok(PhysicalPlan { plan, choices })
    }

    /// Returns the plan, each leaf of which offers its choice.
    pub fn plan(&self) -> &ConceptPlan
        ensures plan { result.now ≡ self.now.plan }
        ensures offered { AreOffered (physical_of self.now.plan) }
    {
        &self.plan
    }

    /// Returns the choices of the leaves, the nodes that count pairs of concepts or of groups. A
    /// node comes before its children, children come in their order, and the types of a leaf come
    /// before its test.
    pub fn choices(&self) -> &[Choice]
        ensures choices { result.now ≡ self.now.choices }
        ensures leaves { self.now.choices ≡ choices_in (physical_of self.now.plan) }
    {
        self.choices.as_slice()
    }
}

/// Returns how many items the plan visits at most: the sum of the bounds of its nodes, or
/// `u64::MAX` if it is larger. It allocates nothing.
pub fn bound(physical: &PhysicalPlan, indexes: &Indexes) -> u64
    ensures { result ≡ capped (bound_of indexes.now (physical_of physical.now.plan)) }
{
    cost(physical.plan(), indexes.lengths()).bound
}

/// Returns how many items the plan visits at least if no node is skipped: the sum of the floors of
/// its nodes, or `u64::MAX` if it is larger. It allocates nothing.
pub fn floor(physical: &PhysicalPlan, indexes: &Indexes) -> u64
    ensures { result ≡ capped (floor_of indexes.now (physical_of physical.now.plan)) }
{
    plan_floor(physical.plan(), indexes.lengths())
}

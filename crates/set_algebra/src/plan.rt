//! Plans of concepts and of groups, and tests of values.
use crate::choice::Choice;
use constraint_tree::{Cardinality, Compare, Operator};
use numerals::Decimal;

/// A plan that means a set of concepts in force (Expression Constraint Language, "Simple Expression
/// Constraints" to "Refinements"). `specs/Meaning.antt` says which set it means over a release.
/// Below, "set" is the set that a part of the plan means.
#[cycle(plan)]
#[derive(Drop, Debug)]
pub enum ConceptPlan {
    /// No concept.
    Empty,
    /// Each concept in force.
    All,
    /// The concept in force with this identifier (SCTID), if there is one.
    One(u64),
    /// The concepts that the hierarchy operator finds for the set, as the descendants of its
    /// members.
    Walk(Operator, Box<ConceptPlan>),
    /// The concepts that are members of a reference set in the set.
    Members(Box<ConceptPlan>),
    /// The concepts in all sets; each concept in force if there are no sets.
    And(Vec<ConceptPlan>),
    /// The concepts in at least one set; no concept if there are no sets.
    Or(Vec<ConceptPlan>),
    /// The concepts in the first set and not in the second.
    Minus(Box<ConceptPlan>, Box<ConceptPlan>),
    /// The values of a chain of attributes. It starts from the members of the first plan's set. The
    /// first step finds the values of their attributes with a type in the first set of the list.
    /// Each further step does so from the values found, with the next set of the list (Expression
    /// Constraint Language, "Refinements", dotted attributes).
    Values(Box<ConceptPlan>, Vec<ConceptPlan>),
    /// The concepts whose number of matching distinct pairs lies in `count`. A pair matches if its
    /// type is in `types` and its value passes `test`.
    Pairs {
        /// If true, the pairs of a concept are type and source of the rows whose value it is;
        /// otherwise type and value of its own rows (Expression Constraint Language, "Refinements",
        /// reverse attributes).
        back: bool,
        /// How many pairs must match.
        count: Cardinality,
        /// The plan of the types that a matching pair may have.
        types: Box<ConceptPlan>,
        /// The test that the value of a matching pair passes.
        test: ValueTest,
        /// Which rows the executor reads. The choice does not change the meaning of the plan, and
        /// `==` does not compare it.
        choice: Choice,
    },
    /// The concepts whose number of groups in `units` lies in `count` (Release File Specification,
    /// "Relationship file", relationshipGroup).
    Units {
        /// How many groups of the concept must be in the set.
        count: Cardinality,
        /// The plan of the set of groups.
        units: Box<UnitPlan>,
    },
}

/// A plan that means a set of groups of concepts. A group is the distinct pairs of one concept with
/// one group number, or one pair without a number (Release File Specification, "Relationship file",
/// relationshipGroup).
#[cycle(plan)]
#[derive(Drop, Debug)]
pub enum UnitPlan {
    /// No group.
    Nothing,
    /// Each group.
    Every,
    /// The groups in all sets; each group if there are no sets.
    And(Vec<UnitPlan>),
    /// The groups in at least one set; no group if there are no sets.
    Or(Vec<UnitPlan>),
    /// The groups in the first set and not in the second.
    Minus(Box<UnitPlan>, Box<UnitPlan>),
    /// The groups whose number of matching pairs lies in `count`. A pair matches if its type is in
    /// `types` and its value passes `test`.
    Pairs {
        /// How many pairs must match.
        count: Cardinality,
        /// The plan of the types that a matching pair may have.
        types: Box<ConceptPlan>,
        /// The test that the value of a matching pair passes.
        test: ValueTest,
        /// Which rows the executor reads. The choice does not change the meaning of the plan, and
        /// `==` does not compare it.
        choice: Choice,
    },
}

/// A test that the value of a pair must pass (Expression Constraint Language, "Refinements",
/// eclAttribute).
#[cycle(plan)]
#[derive(Drop, Debug)]
pub enum ValueTest {
    /// The value is a concept in the set.
    Within(Box<ConceptPlan>),
    /// The value is a concept that is not in the set.
    Outside(Box<ConceptPlan>),
    /// The value is a number, and the comparison of it with this number holds.
    Number(Compare, Decimal),
}

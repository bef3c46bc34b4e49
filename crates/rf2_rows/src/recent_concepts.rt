//! Caches of concepts, for the columns in which most rows have one of a few concepts.
use crate::recent::Recent;

/// A cache for each column in which most rows have one of a few concepts.
#[derive(Drop)]
pub struct RecentConcepts {
    pub module_id: Recent,
    pub definition_status_id: Recent,
    pub description_type_id: Recent,
    pub case_significance_id: Recent,
    pub characteristic_type_id: Recent,
    pub modifier_id: Recent,
}

impl RecentConcepts {
    /// Creates the caches, all empty.
    pub fn new() -> RecentConcepts {
        RecentConcepts {
            module_id: Recent::new(),
            definition_status_id: Recent::new(),
            description_type_id: Recent::new(),
            case_significance_id: Recent::new(),
            characteristic_type_id: Recent::new(),
            modifier_id: Recent::new(),
        }
    }
}

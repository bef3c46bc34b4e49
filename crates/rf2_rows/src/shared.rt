//! Reading the columns that rows of several kinds have in common.
ghost use Rattle.std.specs.Prelude.{◌≡◌, ◌≤◌, length};
ghost use Rattle.rf2_rows.specs.Rows.{IsReading};
ghost use Rattle.rf2_rows.specs.inside.SharedColumns.{end_fault, end_of, version_fault, version_of};

use crate::fault::RowFault;
use crate::fields::{flag, group, identifier, time};
use crate::recent::Recent;
use crate::recent_concepts::RecentConcepts;
use crate::tabs::Fields;
use sctid::{Part, SctId};

/// The second to the fourth column, which rows of every kind have: effective time, active and
/// module.
#[derive(Clone, Copy)]
pub struct VersionColumns {
    pub effective_time: Option<u32>,
    pub active: bool,
    pub module_id: SctId,
}

/// Reads the second to the fourth of `fields`, which are at least four. `recent` keeps the modules
/// that were read last.
#[inline(always)]
pub fn read_version_columns(
    recent: &mut Recent,
    fields: &Fields<'_>,
) -> Result<VersionColumns, RowFault>
    requires { 4 ≤ length fields.now }
    ensures { IsReading (version_fault fields.now) (version_of fields.now) result }
{
    let effective_time = time(fields.at(1), 2)?;
    let active = flag(fields.at(2), 3)?;
    let module_id = recent.read(fields.at(3), 4)?;
    Ok(VersionColumns {
        effective_time,
        active,
        module_id,
    })
}

/// The seventh to the tenth column, which the rows of both relationship files have.
#[derive(Clone, Copy)]
pub struct RelationshipEnd {
    pub relationship_group: u32,
    pub type_id: SctId,
    pub characteristic_type_id: SctId,
    pub modifier_id: SctId,
}

/// Reads the seventh to the tenth of `fields`, the ten fields of a row of a relationship file.
/// `recent` keeps concepts that were read last.
#[inline(always)]
pub fn read_relationship_end(
    recent: &mut RecentConcepts,
    fields: &Fields<'_>,
) -> Result<RelationshipEnd, RowFault>
    requires { length fields.now ≡ 10 }
    ensures { IsReading (end_fault fields.now) (end_of fields.now) result }
{
    let relationship_group = group(fields.at(6), 7)?;
    let type_id = identifier(fields.at(7), Part::Concept, 8)?;
    let characteristic_type_id = recent.characteristic_type_id.read(fields.at(8), 9)?;
    let modifier_id = recent.modifier_id.read(fields.at(9), 10)?;
    Ok(RelationshipEnd {
        relationship_group,
        type_id,
        characteristic_type_id,
        modifier_id,
    })
}

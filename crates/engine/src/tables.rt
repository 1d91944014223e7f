//! What a host lends to each call beside a version store and a commit table.
use crate::rows::Rows;
use manager::ConflictTables;

/// The row table, and the conflict tables of both seats.
#[derive(Drop)]
pub struct Tables<'a> {
    pub rows: Rows<'a>,
    pub conflicts: ConflictTables<'a>,
}

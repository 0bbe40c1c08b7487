// What the exports stand on: a host's record and the answers as a host reads them, the comparison, the one-way question and the check over a list of records.
#![tactic(auto)]

pub mod answers; // answers.rt: the answers as a host reads them
pub mod checks; // checks.rt: the check of a list of records
pub mod compares; // compares.rt: the comparison and the one-way question over a list of records

// The places of the small tables: most questions keep fewer pairs.
const SMALL_ROOM: usize = 64;

// A kept record.
#[repr(C)]
#[derive(Clone, Copy)]
pub struct PbRecord {
    pub left: u64,
    pub right: u64,
    pub parent: u16,
    pub letter: u8,
}

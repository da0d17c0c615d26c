//! Sections and runs of backups as data, and the law over all runs.
//!
//! A call on the backups of a node is a section: it makes the changes of a list, or a part of them.
//! The crate has the lists, says what a section and a run are, and has the laws over them: functions
//! with an empty body whose contracts are the laws. Its types are those of a backup's records.
//! Read `specs/Section.antt`, `specs/Run.antt` and `specs/Safe.antt` first, then `src/laws.rt`.
#![tactic(auto)]

mod laws;
mod records;

pub use laws::{
    index_stays_exact, kept_over_runs, refused_calls_have_no_list, removal_counts_what_goes,
    removal_is_a_filter, removal_leaves_after, sections_keep_to_their_node, sections_keep_whole,
    sections_see_their_part,
};
pub use med_outside::{BackupRow, Mode};
pub use records::{How, Record, Removed};

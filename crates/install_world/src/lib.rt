//! The journal of a project's installs: its text, installs in flight, the moves of a part, and recovery.
#![tactic(auto)]

mod apart;
mod ending;
mod fault;
mod flight_laws;
mod journal;
mod kept;
mod laws;
mod lines;
mod moving;
mod part_fault;
mod parts;
mod reader;
mod reading;
mod recovery;
mod recovery_fault;
mod removal;
mod removal_fault;
mod target;
mod version;
mod words;
mod writing;

pub use ending::remove_journal;
pub use fault::JournalFault;
pub use flight_laws::{
    lost_parts_are_not_in_flight, moves_keep_in_flight, moves_keep_what_is_finished,
    staged_jobs_are_in_flight, what_is_in_flight_is_finished,
};
pub use journal::Journal;
pub use laws::{bad_journals_have_one_place, journal_texts_are_read};
pub use moving::{PartPlaces, move_part};
pub use part_fault::PartFault;
pub use parts::places_of;
pub use reading::read_journal;
pub use recovery::finish_install;
pub use recovery_fault::{RecoverFault, Recovered};
pub use removal::remove_folder;
pub use removal_fault::RemoveFault;
pub use target::{Target, is_target_path};
pub use version::Version;
pub use writing::journal_text;

#[cfg(test)]
mod tests;

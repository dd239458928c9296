//! The status with which a refused command ends.

ghost use Rattle.std.specs.Prelude.{◌≡◌};
ghost use Rattle.run_answers.specs.Statuses.{status_of, document_status};

use crate::refusal::{NamedFile, Refusal};

/// The status with which a refused command ends.
pub fn status_of(refusal: &Refusal) -> u8
    ensures { result ≡ status_of refusal.now }
{
    match refusal {
        Refusal::Nothing | Refusal::Breaks(_) => 1,
        Refusal::Usage | Refusal::BadName => 2,
        Refusal::NoManifest => 3,
        Refusal::NoLock => 4,
        Refusal::BadDocument(file, _) => document_status(file),
        Refusal::NoPlan => 5,
        Refusal::LockUnmet(_) => 6,
        Refusal::Unfinished | Refusal::Pending | Refusal::Changed => 7,
        Refusal::DeviceFault => 8,
        Refusal::SinkFault => 9,
        Refusal::OutOfMemory => 10,
        Refusal::BadJournal(_) => 11,
        Refusal::Limit(_) => 12,
        Refusal::NotOffered(_, _) => 13,
        Refusal::NoTables | Refusal::BadTables(_, _) => 14,
        Refusal::MissingPath(_) | Refusal::ClassmapMissing(_) => 15,
        Refusal::OtherEntry(_) | Refusal::Vanished(_) => 15,
    }
}

fn document_status(file: &NamedFile) -> u8
    ensures { result ≡ document_status file.now }
{
    match file {
        NamedFile::Manifest | NamedFile::Member(_) => 3,
        NamedFile::Lock | NamedFile::Installed => 4,
    }
}

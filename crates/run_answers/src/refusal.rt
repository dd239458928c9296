//! Why a command ends without its answer.

ghost use Rattle.std.specs.Prelude.{◌≡◌};
ghost use Rattle.run_answers.specs.declared.refusal.Refusal.TheVariants as refusals;

use path_name::{Name, Path, Text};
use std::alloc::{AllocError, AllocFailed};
use table_scan::{TableFault, TableFile};
use tree_dev::{Failed, LimitKind, TreeFault};

/// A file of JSON that a refusal names.
#[derive(Debug, PartialEq, Eq, Drop)]
pub enum NamedFile {
    /// The project's `composer.json`.
    Manifest,
    /// The `composer.json` of a package, at this path.
    Member(Path),
    /// `composer.lock`
    Lock,
    /// `installed.json`
    Installed,
}

/// What is wrong in a file of JSON. Places count its bytes from 0.
#[derive(Debug, PartialEq, Eq, Drop)]
pub enum DocumentFault {
    /// The text is no JSON (RFC 8259).
    Syntax(u64),
    /// The text is no UTF-8.
    NotUtf8(u64),
    /// Arrays and objects are nested too deep.
    TooDeep(u64),
    /// The value at this pointer (RFC 6901) has another form.
    BadField(Text),
    /// The package has a name at whose place other files are written.
    ReservedName(Name),
}

/// The rule that the packages of a lock break, with the packages' names.
#[derive(Debug, PartialEq, Eq, Drop)]
pub enum BrokenRule {
    /// A package is less stable than is allowed.
    NotAllowed(Name),
    /// Two packages own one name: the name, and the two.
    TwoOwners(Name, Name, Name),
    /// A package's requirement isn't met: the package, and the name that it requires.
    Unmet(Name, Name),
    /// A package conflicts with another one: the package, the name that it names, and the other package.
    Conflict(Name, Name, Name),
    /// A package's requirement on the platform isn't met: the package, and the name that it requires.
    Platform(Name, Name),
}

/// What was there and is there no longer.
#[derive(Debug, PartialEq, Eq, Drop)]
pub enum Place {
    /// The entry at a path.
    Entry(Path),
    /// A part of what was to be installed, by its number.
    Part(u64),
}

/// Why a command ends without its answer.
#[derive(Debug, PartialEq, Eq, Drop)]
pub enum Refusal {
    /// The words are no command.
    Usage,
    /// The name to be looked up is no class name.
    BadName,
    /// No file is found.
    Nothing,
    /// There is no `composer.json`.
    NoManifest,
    /// There is no `composer.lock`.
    NoLock,
    /// There is no table of classes.
    NoTables,
    /// A file of JSON is not what it must be.
    BadDocument(NamedFile, DocumentFault),
    /// What is written in a file at this pointer is not offered.
    NotOffered(NamedFile, Text),
    /// No set of packages meets the requirements.
    NoPlan,
    /// The packages of the lock that was to be installed break this rule.
    LockUnmet(BrokenRule),
    /// The packages of the lock that was checked break this rule.
    Breaks(BrokenRule),
    /// Another install has begun and not ended.
    Unfinished,
    /// Another install is being finished.
    Pending,
    /// The project was changed while it was read.
    Changed,
    /// The device failed.
    DeviceFault,
    /// The output failed.
    SinkFault,
    /// There was no memory.
    OutOfMemory,
    /// The journal is none, at this place of its text, counted in bytes from 0.
    BadJournal(u64),
    /// This table is none, at this place of its text, counted in bytes from 0.
    BadTables(TableFile, u64),
    /// A counted quantity passed its limit.
    Limit(LimitKind),
    /// There is nothing where a url leads.
    MissingPath(Text),
    /// There is nothing at a path that is listed for the class map.
    ClassmapMissing(Path),
    /// What stands at this path is of another kind than it must be.
    OtherEntry(Path),
    /// What was there is there no longer.
    Vanished(Place),
}

impl From<Failed> for Refusal {
    ghost from_gives = { λ _ e. e ≡ refusals.DeviceFault };

    fn from(_fault: Failed) -> Refusal {
        Refusal::DeviceFault
    }
}

impl From<TreeFault> for Refusal {
    ghost use Rattle.run_answers.specs.Faults.{refusal_of_tree};

    ghost from_gives = { λ fault e. e ≡ refusal_of_tree fault };

    fn from(fault: TreeFault) -> Refusal {
        match fault {
            TreeFault::Failed => Refusal::DeviceFault,
            TreeFault::OutOfMemory => Refusal::OutOfMemory,
        }
    }
}

impl From<TableFault> for Refusal {
    ghost use Rattle.run_answers.specs.Faults.{refusal_of_table};

    ghost from_gives = { λ fault e. e ≡ refusal_of_table fault };

    fn from(fault: TableFault) -> Refusal {
        match fault {
            TableFault::BadTables(table, at) => Refusal::BadTables(table, at),
            TableFault::OutOfMemory => Refusal::OutOfMemory,
        }
    }
}

impl From<AllocError> for Refusal {
    ghost from_gives = { λ _ e. e ≡ refusals.OutOfMemory };

    fn from(_fault: AllocError) -> Refusal {
        Refusal::OutOfMemory
    }
}

impl<T: Drop> From<AllocFailed<T>> for Refusal {
    ghost from_gives = { λ _ e. e ≡ refusals.OutOfMemory };

    fn from(_fault: AllocFailed<T>) -> Refusal {
        Refusal::OutOfMemory
    }
}

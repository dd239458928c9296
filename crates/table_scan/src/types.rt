//! Tables, their texts, and why a text is none.

ghost use Rattle.std.specs.Prelude.{◌≡◌};
ghost use Rattle.table_scan.specs.declared.types.TableFault.TheVariants.{OutOfMemory};

use path_name::{Items, Name, Path, Text};
use std::alloc::{AllocError, AllocFailed};
use thiserror::Error;

/// A row of a prefix table: a prefix of class names, and the folders in which its classes lie, in the
/// order in which they are asked. Folders are seen from the tree's root.
#[derive(Debug, Drop)]
pub struct PrefixRow {
    /// The prefix; that of a PSR-4 row is empty or ends in `\`.
    pub prefix: Name,
    /// The folders.
    pub folders: Items<Path>,
}

/// A row of the class map: a class, and the file that declares it, seen from the tree's root.
#[derive(Debug, Drop)]
pub struct ClassRow {
    /// The class's name.
    pub class: Name,
    /// The file.
    pub path: Path,
}

/// A row of the table of files: a file that is loaded with the autoloader, seen from the tree's root, and
/// the id under which it is loaded once.
#[derive(Debug, Drop)]
pub struct FileRow {
    /// The id.
    pub id: Text,
    /// The file.
    pub path: Path,
}

/// How classes are looked up.
#[derive(Clone, Copy, Debug, PartialEq, Eq)]
pub enum Mode {
    /// By the class map, and by prefixes where it has no such class. The map has the classes of listed
    /// files alone.
    Plain,
    /// As `Plain`. The map has the classes below the folders of prefixes too.
    Optimised,
    /// By the class map alone.
    Authoritative,
}

/// The state of a project's tables.
#[derive(Clone, Copy, Debug, PartialEq, Eq)]
pub struct State {
    /// How classes are looked up.
    pub mode: Mode,
    /// How often tables were written: it rises with each change.
    pub generation: u64,
}

/// The tables of a project, rows in the order in which they stand.
#[derive(Debug, Drop)]
pub struct Tables {
    /// The rows of `autoload_psr4.php`.
    pub psr4: Items<PrefixRow>,
    /// The rows of `autoload_namespaces.php`.
    pub psr0: Items<PrefixRow>,
    /// The rows of `autoload_classmap.php`.
    pub class_map: Items<ClassRow>,
    /// The rows of `autoload_files.php`.
    pub files: Items<FileRow>,
    /// What `autoload_state.php` says; None where there is no such file.
    pub state: Option<State>,
}

/// The texts of a project's tables; None where there is no such file.
#[derive(Debug, Drop)]
pub struct TableTexts {
    /// The text of `autoload_psr4.php`.
    pub psr4: Option<Text>,
    /// The text of `autoload_namespaces.php`.
    pub psr0: Option<Text>,
    /// The text of `autoload_classmap.php`.
    pub class_map: Option<Text>,
    /// The text of `autoload_files.php`.
    pub files: Option<Text>,
    /// The text of `autoload_state.php`.
    pub state: Option<Text>,
}

/// The files of the tables, in the order in which they are read.
#[derive(Clone, Copy, Debug, PartialEq, Eq)]
pub enum TableFile {
    /// `autoload_psr4.php`
    Psr4,
    /// `autoload_namespaces.php`
    Psr0,
    /// `autoload_classmap.php`
    ClassMap,
    /// `autoload_files.php`
    Files,
    /// `autoload_state.php`
    State,
}

/// Why texts are no tables.
#[derive(Clone, Copy, Debug, PartialEq, Eq, Error)]
pub enum TableFault {
    /// The text of this file is no table of its kind. The place counts the text's bytes from 0: it is that
    /// of the first byte of the first token with which no such table goes on, or the text's length where
    /// the text ends too early.
    #[error("a bad table at {1}")]
    BadTables(TableFile, u64),
    /// There was no memory for the tables.
    #[error("out of memory")]
    OutOfMemory,
}

impl From<AllocError> for TableFault {
    ghost from_gives = { λ _ e. e ≡ OutOfMemory };

    fn from(_fault: AllocError) -> TableFault {
        TableFault::OutOfMemory
    }
}

impl<T: Drop> From<AllocFailed<T>> for TableFault {
    ghost from_gives = { λ _ e. e ≡ OutOfMemory };

    fn from(_fault: AllocFailed<T>) -> TableFault {
        TableFault::OutOfMemory
    }
}

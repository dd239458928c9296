//! What stands at a path, and what calls answer of it.

use path_name::{Items, Name, Text};

/// An entry of a tree.
#[derive(Debug, PartialEq, Eq, Drop)]
pub enum Entry {
    /// A file with its bytes.
    File(Text),
    /// A folder.
    Folder,
    /// Anything else, such as a link, a socket or a device.
    Other,
}

/// What `stat` answers.
#[derive(Clone, Copy, Debug, PartialEq, Eq)]
pub enum Kind {
    /// Nothing is there, also where an entry above is no folder.
    Absent,
    /// A file.
    File,
    /// A folder.
    Folder,
    /// Anything else; a link is not followed.
    Other,
}

/// What `read` answers.
#[derive(Debug, PartialEq, Eq, Drop)]
pub enum ReadAnswer {
    /// All bytes of the file.
    Bytes(Text),
    /// Nothing is there, also where an entry above is no folder.
    Absent,
    /// A folder or another entry that is no file.
    NotFile,
    /// The file has more bytes than were allowed.
    TooLong,
}

/// What `list` answers.
#[derive(Debug, PartialEq, Eq, Drop)]
pub enum ListAnswer {
    /// The names of all entries of the folder, in byte order. Each is a segment of a path.
    Names(Items<Name>),
    /// Nothing is there, also where an entry above is no folder.
    Absent,
    /// A file or another entry that is no folder.
    NotFolder,
    /// The folder has more entries than were allowed.
    TooMany,
}

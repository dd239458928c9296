//! What each call answers, one row after the other, and what is there in the end.

use tree_dev::{Did, Kind, Made};

/// An entry of a folder.
#[derive(Clone, Copy)]
pub enum Content {
    /// A file with these bytes.
    File(&'static [u8]),
    /// A folder.
    Folder,
    /// A link to this.
    Link(&'static str),
}

/// What reading is to answer.
#[derive(Clone, Copy)]
pub enum Read {
    /// The file's bytes.
    Bytes(&'static [u8]),
    /// Nothing is there.
    Absent,
    /// No file is there.
    NotFile,
    /// There are more bytes.
    TooLong,
}

/// What listing is to answer.
#[derive(Clone, Copy)]
pub enum Listed {
    /// The names, each followed by a blank.
    Names(&'static [u8]),
    /// Nothing is there.
    Absent,
    /// No folder is there.
    NotFolder,
    /// There are more entries.
    TooMany,
}

/// A call and its answer. Paths are those of the test's folder.
#[derive(Clone, Copy)]
pub enum Row {
    Stat(&'static [u8], Kind),
    List(&'static [u8], u32, Listed),
    Read(&'static [u8], u64, Read),
    Write(&'static [u8], &'static [u8], Did),
    MakeDir(&'static [u8], Made),
    Rename(&'static [u8], &'static [u8], Did),
    RemoveFile(&'static [u8], Did),
    RemoveDir(&'static [u8], Did),
    Barrier,
}

/// What is there at first.
pub const BEFORE: [(&str, Content); 10] = [
    ("tree_test", Content::Folder),
    ("tree_test/a", Content::File(b"one")),
    ("tree_test/d", Content::Folder),
    ("tree_test/d/in", Content::File(b"in\0side\xff")),
    ("tree_test/d/sub", Content::Folder),
    ("tree_test/e", Content::Folder),
    ("tree_test/loop", Content::Link("loop")),
    ("tree_test/to_a", Content::Link("a")),
    ("tree_test/to_d", Content::Link("d")),
    ("tree_test/to_none", Content::Link("nothing")),
];

/// What is there at last.
pub const AFTER: [(&str, Content); 9] = [
    ("tree_test/d2", Content::Folder),
    ("tree_test/d2/a", Content::File(b"two")),
    ("tree_test/d2/in", Content::File(b"in\0side\xff")),
    ("tree_test/d2/moved", Content::Folder),
    ("tree_test/d2/moved/to_d", Content::Link("d")),
    ("tree_test/dot", Content::Folder),
    ("tree_test/dot/.x", Content::File(b"")),
    ("tree_test/loop", Content::Link("loop")),
    ("tree_test/to_a", Content::Link("a")),
];

/// Looks that change nothing.
pub const LOOKS: [Row; 33] = [
    Row::Stat(b".", Kind::Folder),
    Row::Stat(b"tree_test", Kind::Folder),
    Row::Stat(b"tree_test/a", Kind::File),
    Row::Stat(b"tree_test/d/in", Kind::File),
    Row::Stat(b"tree_test/to_a", Kind::Other),
    Row::Stat(b"tree_test/to_d", Kind::Other),
    Row::Stat(b"tree_test/to_none", Kind::Other),
    Row::Stat(b"tree_test/none", Kind::Absent),
    Row::Stat(b"tree_test/none/x", Kind::Absent),
    Row::Stat(b"tree_test/a/x", Kind::Absent),
    Row::Stat(b"tree_test/to_d/in", Kind::Absent),
    Row::Stat(b"tree_test/d/a", Kind::Absent),
    Row::Stat(b"tree_test/loop", Kind::Other),
    Row::Stat(b"tree_test/loop/x", Kind::Absent),
    Row::List(
        b"tree_test",
        7,
        Listed::Names(b"a d e loop to_a to_d to_none "),
    ),
    Row::List(b"tree_test", 6, Listed::TooMany),
    Row::List(b"tree_test/d", u32::MAX, Listed::Names(b"in sub ")),
    Row::List(b"tree_test/e", 0, Listed::Names(b"")),
    Row::List(b"tree_test/a", 9, Listed::NotFolder),
    Row::List(b"tree_test/to_d", 9, Listed::NotFolder),
    Row::List(b"tree_test/to_none", 9, Listed::NotFolder),
    Row::List(b"tree_test/none", 9, Listed::Absent),
    Row::List(b"tree_test/a/x", 9, Listed::Absent),
    Row::List(b"tree_test/to_d/sub", 9, Listed::Absent),
    Row::Read(b"tree_test/d/in", 8, Read::Bytes(b"in\0side\xff")),
    Row::Read(b"tree_test/d/in", 7, Read::TooLong),
    Row::Read(b"tree_test/a", u64::MAX, Read::Bytes(b"one")),
    Row::Read(b"tree_test/d", 9, Read::NotFile),
    Row::Read(b"tree_test/to_a", 9, Read::NotFile),
    Row::Read(b"tree_test/to_none", 9, Read::NotFile),
    Row::Read(b"tree_test/none", 9, Read::Absent),
    Row::Read(b"tree_test/a/x", 9, Read::Absent),
    Row::Read(b"tree_test/to_d/in", 9, Read::Absent),
];

/// Calls that have no place.
pub const MISPLACED: [Row; 43] = [
    Row::Write(b".", b"x", Did::Misplaced),
    Row::Write(b"tree_test/d", b"x", Did::Misplaced),
    Row::Write(b"tree_test/to_a", b"x", Did::Misplaced),
    Row::Write(b"tree_test/to_none", b"x", Did::Misplaced),
    Row::Write(b"tree_test/none/x", b"x", Did::Misplaced),
    Row::Write(b"tree_test/a/x", b"x", Did::Misplaced),
    Row::Write(b"tree_test/to_d/in", b"x", Did::Misplaced),
    Row::Write(b"tree_test/to_d/new", b"x", Did::Misplaced),
    Row::MakeDir(b".", Made::Exists),
    Row::MakeDir(b"tree_test/a", Made::Exists),
    Row::MakeDir(b"tree_test/d", Made::Exists),
    Row::MakeDir(b"tree_test/to_none", Made::Exists),
    Row::MakeDir(b"tree_test/none/x", Made::Misplaced),
    Row::MakeDir(b"tree_test/a/x", Made::Misplaced),
    Row::MakeDir(b"tree_test/to_d/sub", Made::Misplaced),
    Row::MakeDir(b"tree_test/to_d/new", Made::Misplaced),
    Row::Rename(b".", b"tree_test/x", Did::Misplaced),
    Row::Rename(b"tree_test/a", b".", Did::Misplaced),
    Row::Rename(b"tree_test/none", b"tree_test/x", Did::Misplaced),
    Row::Rename(b"tree_test/a", b"tree_test/a", Did::Misplaced),
    Row::Rename(b"tree_test/d", b"tree_test/d/sub/d", Did::Misplaced),
    Row::Rename(b"tree_test/a", b"tree_test/none/a", Did::Misplaced),
    Row::Rename(b"tree_test/d", b"tree_test/a/d", Did::Misplaced),
    Row::Rename(b"tree_test/a", b"tree_test/to_d/a", Did::Misplaced),
    Row::Rename(b"tree_test/to_d/in", b"tree_test/x", Did::Misplaced),
    Row::Rename(b"tree_test/d", b"tree_test/e", Did::Misplaced),
    Row::Rename(b"tree_test/a", b"tree_test/e", Did::Misplaced),
    Row::Rename(b"tree_test/a", b"tree_test/to_none", Did::Misplaced),
    Row::Rename(b"tree_test/to_none", b"tree_test/a", Did::Misplaced),
    Row::Rename(b"tree_test/to_a", b"tree_test/to_d", Did::Misplaced),
    Row::Rename(b"tree_test/d", b"tree_test/a", Did::Misplaced),
    Row::RemoveFile(b".", Did::Misplaced),
    Row::RemoveFile(b"tree_test/none", Did::Misplaced),
    Row::RemoveFile(b"tree_test/e", Did::Misplaced),
    Row::RemoveFile(b"tree_test/a/x", Did::Misplaced),
    Row::RemoveFile(b"tree_test/to_d/in", Did::Misplaced),
    Row::RemoveDir(b".", Did::Misplaced),
    Row::RemoveDir(b"tree_test/none", Did::Misplaced),
    Row::RemoveDir(b"tree_test/a", Did::Misplaced),
    Row::RemoveDir(b"tree_test/d", Did::Misplaced),
    Row::RemoveDir(b"tree_test/to_d", Did::Misplaced),
    Row::RemoveDir(b"tree_test/a/x", Did::Misplaced),
    Row::RemoveDir(b"tree_test/to_d/sub", Did::Misplaced),
];

/// Calls that change what is there, between looks at what they left.
pub const CHANGES: [Row; 27] = [
    Row::Write(b"tree_test/n", b"new", Did::Done),
    Row::Read(b"tree_test/n", 9, Read::Bytes(b"new")),
    Row::Write(b"tree_test/n", b"", Did::Done),
    Row::Read(b"tree_test/n", 0, Read::Bytes(b"")),
    Row::Write(b"tree_test/n", b"two", Did::Done),
    Row::Rename(b"tree_test/n", b"tree_test/a", Did::Done),
    Row::Read(b"tree_test/a", 9, Read::Bytes(b"two")),
    Row::Stat(b"tree_test/n", Kind::Absent),
    Row::MakeDir(b"tree_test/dot", Made::New),
    Row::MakeDir(b"tree_test/dot", Made::Exists),
    Row::Write(b"tree_test/dot/.x", b"", Did::Done),
    Row::List(b"tree_test/dot", 1, Listed::Names(b".x ")),
    Row::RemoveDir(b"tree_test/dot", Did::Misplaced),
    Row::Barrier,
    Row::Rename(b"tree_test/a", b"tree_test/d/a", Did::Done),
    Row::Rename(b"tree_test/to_d", b"tree_test/d/sub/to_d", Did::Done),
    Row::Rename(b"tree_test/d/sub", b"tree_test/d/moved", Did::Done),
    Row::Rename(b"tree_test/d", b"tree_test/d2", Did::Done),
    Row::Stat(b"tree_test/d/in", Kind::Absent),
    Row::Stat(b"tree_test/d2/moved/to_d", Kind::Other),
    Row::Write(b"tree_test/d/x", b"x", Did::Misplaced),
    Row::RemoveDir(b"tree_test/e", Did::Done),
    Row::Stat(b"tree_test/e", Kind::Absent),
    Row::MakeDir(b"tree_test/e/x", Made::Misplaced),
    Row::RemoveFile(b"tree_test/to_none", Did::Done),
    Row::Stat(b"tree_test/to_none", Kind::Absent),
    Row::Barrier,
];

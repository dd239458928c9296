//! Folders on the way to an entry.

ghost use Rattle.std.specs.Prelude.{◌≤◌, length};

use crate::system;
use crate::system::PATH_MAX;
use crate::trouble::Trouble;
use std::rt::Files;
use tree_dev::Kind;

/// The last folder that was reached. It and each entry on the way to it was a folder, and no link, when it
/// was looked at, so that the next path through it costs no look.
#[derive(Drop)]
pub struct Way {
    text: [u8; PATH_MAX],
    len: usize,
}

fn same_bytes(a: &[u8], b: &[u8]) -> usize
    ensures first { result ≤ length a.now }
    ensures second { result ≤ length b.now }
{
    let most = a.len().min(b.len());
    for at in 0..most {
        if a[at] != b[at] {
            return at;
        }
    }
    most
}

/// Whether a segment ends at this place of a text.
fn ends_at(text: &[u8], at: usize) -> bool {
    match text.get(at) {
        None => true,
        Some(byte) => *byte == b'/',
    }
}

/// How many first bytes of a folder's text are whole segments of another's too.
fn shared(known: &[u8], folder: &[u8]) -> usize {
    let same = same_bytes(known, folder);
    if ends_at(known, same) && ends_at(folder, same) {
        return same;
    }
    folder[..same]
        .iter()
        .rposition(|byte| *byte == b'/')
        .unwrap_or(0)
}

impl Way {
    /// No folder but the root was reached.
    pub fn new() -> Way {
        Way {
            text: [0; PATH_MAX],
            len: 0,
        }
    }

    /// Looks are to be taken again, since a folder was moved or removed.
    pub fn forget(&mut self) {
        self.len = 0;
    }

    /// Whether a folder stands at a path, and at each path above it. The root's text is empty here.
    pub fn leads_to<R: Files>(&mut self, files: &R, folder: &str) -> Result<bool, Trouble> {
        let known = shared(self.text.get(..self.len).unwrap_or(&[]), folder.as_bytes());
        if known == folder.len() {
            return Ok(true);
        }
        for (at, byte) in folder.as_bytes().iter().enumerate() {
            if *byte == b'/' && known < at && !is_folder(files, folder, at)? {
                return Ok(false);
            }
        }
        if !is_folder(files, folder, folder.len())? {
            return Ok(false);
        }
        self.remember(folder.as_bytes());
        Ok(true)
    }

    fn remember(&mut self, folder: &[u8]) {
        let len = folder.len();
        if len <= PATH_MAX {
            self.text[..len].copy_from_slice(folder);
            self.len = len;
        }
    }
}

/// Whether a folder stands at the path that the first bytes of a text name.
fn is_folder<R: Files>(files: &R, folder: &str, end: usize) -> Result<bool, Trouble> {
    match folder.get(..end) {
        None => Ok(false),
        Some(name) => Ok(system::kind(files, name)? == Kind::Folder),
    }
}

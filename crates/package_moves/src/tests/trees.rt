//! The trees of the tests: one in which all that is wanted stands, and what each row changes of it.

use path_name::{Path, Text};
use std::alloc::Global;
use tree_dev::{Did, Entry, FILE_BYTES, MemoryTree};

/// What stands at a path.
#[derive(Clone, Copy, PartialEq, Eq)]
pub enum Content {
    File(&'static [u8]),
    /// A file that is one byte too long.
    Long,
    Folder,
    Other,
}

/// A project `p` in which an install claimed `.install`, and the packages `r/log`, `r/file` and `r/one`.
static START: [(&[u8], Content); 24] = [
    (b"p/.install", Content::Folder),
    (b"p/composer.json", Content::File(b"{}")),
    (b"p/composer.lock", Content::File(b"l")),
    (b"p/vendor/acme/file/f", Content::File(b"f")),
    (b"p/vendor/acme/log/empty", Content::Folder),
    (b"p/vendor/acme/log/src/.git/c", Content::File(b"c")),
    (b"p/vendor/acme/log/src/a", Content::File(b"a")),
    (b"p/vendor/acme/log/x.php", Content::File(b"x")),
    (b"p/vendor/autoload.php", Content::File(b"auto")),
    (b"p/vendor/b/one/f", Content::File(b"1")),
    (b"p/vendor/composer/installed.json", Content::File(b"i")),
    (b"r/file/f", Content::File(b"f")),
    (b"r/log/.git/HEAD", Content::File(b"h")),
    (b"r/log/.install/f", Content::File(b"f")),
    (b"r/log/empty", Content::Folder),
    (b"r/log/src/.git/c", Content::File(b"c")),
    (b"r/log/src/a", Content::File(b"a")),
    (b"r/log/vendor/w/deep/f", Content::File(b"w")),
    (b"r/log/x.php", Content::File(b"x")),
    (b"r/one/f", Content::File(b"1")),
    (b"s/f", Content::File(b"")),
    (b"link", Content::Other),
    (b"linked/a", Content::File(b"")),
    (b"linked/l", Content::Other),
];

fn entry(alloc: Global, content: Content) -> Option<Entry> {
    match content {
        Content::File(bytes) => Some(Entry::File(Text::copy_of(alloc, bytes).ok()?)),
        Content::Folder => Some(Entry::Folder),
        Content::Other => Some(Entry::Other),
        Content::Long => {
            let mut bytes = Vec::new(alloc);
            bytes.resize(FILE_BYTES as usize + 1, 0).ok()?;
            Some(Entry::File(Text::of(bytes)))
        }
    }
}

pub fn put(alloc: Global, tree: &mut MemoryTree, at: &[u8], content: Content) -> Option<()> {
    let path = Path::read(alloc, at).ok()?;
    let entry = entry(alloc, content)?;
    match tree.put(alloc, &path, entry).ok()? {
        Did::Done => Some(()),
        Did::Misplaced => None,
    }
}

/// A folder `name` with a file so many segments below it.
pub fn put_deep(alloc: Global, tree: &mut MemoryTree, name: &[u8], levels: u32) -> Option<()> {
    let mut text = Vec::from_slice(alloc, name).ok()?;
    for _ in 0..levels {
        text.extend_from_slice(b"/a").ok()?;
    }
    put(alloc, tree, text.as_slice(), Content::File(b"d"))
}

fn is_within(alloc: Global, at: &[u8], head: &[u8]) -> Option<bool> {
    let path = Path::read(alloc, at).ok()?;
    let head = Path::read(alloc, head).ok()?;
    Some(!head.is_root() && path.starts_with(&head))
}

/// The tree without what stands at and below a path, and with other entries.
pub fn tree_of(
    alloc: Global,
    without: &[u8],
    with: &[(&'static [u8], Content)],
) -> Option<MemoryTree> {
    let mut tree = MemoryTree::new(alloc).ok()?;
    for (at, content) in &START {
        if !is_within(alloc, at, without)? {
            put(alloc, &mut tree, at, *content)?;
        }
    }
    for (at, content) in with {
        put(alloc, &mut tree, *at, *content)?;
    }
    Some(tree)
}

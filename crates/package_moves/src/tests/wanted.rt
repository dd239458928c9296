//! What is wanted in the tests, and jobs as texts.

ghost use Rattle.std.specs.Prelude.{◌≡◌, ◌++◌, ◌∷◌, [], ℕ, List, IfSome};
ghost use Rattle.package_moves.specs.Wanted.{AreWanted};

use path_name::{Path, Text, is_segment};
use stage_job::{Inner, Job, Leaf, Part, Source};
use std::alloc::Global;

/// The path of an entry of a folder.
fn child(alloc: Global, folder: &Path, name: &[u8]) -> Option<Path>
    ensures { IfSome result (λ path. path ≡ folder.now ++ name.now ∷ []) }
{
    if !is_segment(name) {
        return None;
    }
    folder.child(alloc, name).ok()
}

/// The path of one name.
fn single(alloc: Global, name: &[u8]) -> Option<Path>
    ensures { IfSome result (λ path. path ≡ name.now ∷ []) }
{
    child(alloc, &Path::root(alloc), name)
}

/// The path of two names.
fn pair(alloc: Global, first: &[u8], second: &[u8]) -> Option<Path>
    ensures { IfSome result (λ path. path ≡ first.now ∷ second.now ∷ []) }
{
    child(alloc, &single(alloc, first)?, second)
}

/// The path of three names.
fn triple(alloc: Global, first: &[u8], second: &[u8], third: &[u8]) -> Option<Path>
    ensures { IfSome result (λ path. path ≡ first.now ∷ second.now ∷ third.now ∷ []) }
{
    child(alloc, &pair(alloc, first, second)?, third)
}

/// `vendor/acme/file` from this folder, and the parts that all rows want.
pub fn wanted(alloc: Global, first: &[u8]) -> Option<Vec<Part>>
    ensures { IfSome result (λ parts. AreWanted parts.items) }
{
    let file = Part {
        target: triple(alloc, b"vendor", b"acme", b"file")?,
        from: Source::Copy(Path::read(alloc, first).ok()?),
    };
    let log = Part {
        target: triple(alloc, b"vendor", b"acme", b"log")?,
        from: Source::Copy(Path::read(alloc, b"r/log").ok()?),
    };
    let one = Part {
        target: triple(alloc, b"vendor", b"b", b"one")?,
        from: Source::Copy(Path::read(alloc, b"r/one").ok()?),
    };
    let installed = Part {
        target: triple(alloc, b"vendor", b"composer", b"installed.json")?,
        from: Source::Bytes(Text::copy_of(alloc, b"i").ok()?),
    };
    let autoload = Part {
        target: pair(alloc, b"vendor", b"autoload.php")?,
        from: Source::Bytes(Text::copy_of(alloc, b"auto").ok()?),
    };
    let lock = Part {
        target: single(alloc, b"composer.lock")?,
        from: Source::Bytes(Text::copy_of(alloc, b"l").ok()?),
    };
    vec![in alloc; file, log, one, installed, autoload, lock].ok()
}

fn add(text: &mut Vec<u8>, bytes: &[u8]) -> Option<()> {
    text.extend_from_slice(bytes).ok()
}

fn add_inner(text: &mut Vec<u8>, inner: &[Inner]) -> Option<()> {
    for part in inner {
        add(text, b" ")?;
        add(text, part.below.text())?;
        match &part.from {
            Leaf::Copy(source) => {
                add(text, b"<")?;
                add(text, source.text())?;
            }
            Leaf::Bytes(bytes) => {
                add(text, b"=")?;
                add(text, bytes.as_slice())?;
            }
        }
    }
    Some(())
}

fn add_part(text: &mut Vec<u8>, part: &Part) -> Option<()> {
    add(text, part.target.text())?;
    match &part.from {
        Source::Copy(source) => {
            add(text, b"<")?;
            add(text, source.text())?;
        }
        Source::Bytes(bytes) => {
            add(text, b"=")?;
            add(text, bytes.as_slice())?;
        }
        Source::Folder(inner) => {
            add(text, b":")?;
            add_inner(text, inner.as_slice())?;
        }
        Source::Gone => add(text, b" gone")?,
    }
    add(text, b"\n")
}

/// A job as a text, a part a line.
pub fn job_text(alloc: Global, job: &Job) -> Option<Vec<u8>> {
    let mut text = Vec::new(alloc);
    for part in job.parts.as_slice() {
        add_part(&mut text, part)?;
    }
    Some(text)
}

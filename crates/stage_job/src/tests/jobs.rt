//! The jobs of the tests: one shape, whose two packages a row names.

ghost use Rattle.std.specs.Prelude.{◌≡◌, ◌++◌, ◌∷◌, [], ℕ, List, IfSome, None, codes, true};
ghost use Rattle.tree_dev.specs.Trees.{behind};
ghost use Rattle.stage_job.specs.Jobs.{AreParts, CanCopy, CanPut};

use super::quiet::Quiet;
use crate::{Inner, Job, Leaf, Part, Source, StageFault, stage};
use path_name::{Items, Path, Text, is_segment};
use std::alloc::Global;
use tree_dev::Entries;

/// The path of an entry of a folder.
fn child(alloc: Global, folder: &Path, name: &[u8]) -> Option<Path>
    ensures { IfSome result (λ path. path ≡ folder.now ++ name.now ∷ []) }
{
    if !is_segment(name) {
        return None;
    }
    folder.child(alloc, name).ok()
}

/// The path of one name.
fn single(alloc: Global, name: &[u8]) -> Option<Path>
    ensures { IfSome result (λ path. path ≡ name.now ∷ []) }
{
    child(alloc, &Path::root(alloc), name)
}

/// The path of two names.
fn pair(alloc: Global, first: &[u8], second: &[u8]) -> Option<Path>
    ensures { IfSome result (λ path. path ≡ first.now ∷ second.now ∷ []) }
{
    child(alloc, &single(alloc, first)?, second)
}

fn text(alloc: Global, bytes: &[u8]) -> Option<Text> {
    Some(Text::of(Vec::from_slice(alloc, bytes).ok()?))
}

/// Whether a path is neither another one nor below it.
fn is_elsewhere(path: &Path, head: &Path) -> bool
    ensures { result ≡ true → behind head.now path.now ≡ None }
{
    !path.starts_with(head)
}

/// Whether a package can be copied into the project `p`.
fn can_copy(alloc: Global, source: &Path) -> bool
    ensures { result ≡ true → CanCopy (codes "p" ∷ []) source.now }
{
    let Some(project) = single(alloc, b"p") else {
        return false;
    };
    let Some(vendor) = pair(alloc, b"p", b"vendor") else {
        return false;
    };
    let Some(work) = pair(alloc, b"p", b".install") else {
        return false;
    };
    is_elsewhere(&project, source) && is_elsewhere(source, &vendor) && is_elsewhere(source, &work)
}

/// A folder of a package at `x` and a file at `y/z`.
fn folder(alloc: Global, mirrored: Path) -> Option<Source>
    requires { CanCopy (codes "p" ∷ []) mirrored }
    ensures { IfSome result (λ source. CanPut (codes "p" ∷ []) source) }
{
    let copied = Inner {
        below: single(alloc, b"x")?,
        from: Leaf::Copy(mirrored),
    };
    let file = Inner {
        below: pair(alloc, b"y", b"z")?,
        from: Leaf::Bytes(text(alloc, b"z")?),
    };
    let parts = vec![in alloc; copied, file].ok()?;
    Some(Source::Folder(Items::of(parts)))
}

/// A lock file, a package at `vendor/a`, nothing at `vendor/b`, and a folder with another package at `vendor/c`.
fn job(alloc: Global, first: Path, second: Path) -> Option<Job>
    requires first { CanCopy (codes "p" ∷ []) first }
    requires second { CanCopy (codes "p" ∷ []) second }
    ensures { IfSome result (λ job. AreParts (codes "p" ∷ []) job.parts) }
{
    let lock = Part {
        target: single(alloc, b"composer.lock")?,
        from: Source::Bytes(text(alloc, b"lock")?),
    };
    let package = Part {
        target: pair(alloc, b"vendor", b"a")?,
        from: Source::Copy(first),
    };
    let gone = Part {
        target: pair(alloc, b"vendor", b"b")?,
        from: Source::Gone,
    };
    let made = Part {
        target: pair(alloc, b"vendor", b"c")?,
        from: folder(alloc, second)?,
    };
    let parts = vec![in alloc; lock, package, gone, made].ok()?;
    Some(Job {
        parts: Items::of(parts),
    })
}

/// What staging the job of two packages answers, with so many entries to be listed at most, and how many are left.
pub fn staged(
    alloc: Global,
    device: &mut Quiet,
    first: &[u8],
    second: &[u8],
    most: u32,
) -> Option<(Result<(), StageFault>, u32)> {
    let project = single(alloc, b"p")?;
    let first = Path::read(alloc, first).ok()?;
    let second = Path::read(alloc, second).ok()?;
    if !can_copy(alloc, &first) || !can_copy(alloc, &second) {
        return None;
    }
    let job = job(alloc, first, second)?;
    let mut left = Entries { left: most };
    let answer = stage(alloc, device, &project, &job, &mut left);
    Some((answer, left.left))
}

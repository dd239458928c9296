//! What is wanted in the tests: two packages and four written files.

ghost use Rattle.std.specs.Prelude.{◌≡◌, ◌++◌, ◌∷◌, [], ℕ, List, IfOk, IfSome, None, codes, true};
ghost use Rattle.tree_dev.specs.Trees.{behind};
ghost use Rattle.stage_job.specs.Jobs.{AreParts, CanCopy};
ghost use Rattle.package_moves.specs.Wanted.{AreWanted};

use path_name::{Path, Text, is_segment};
use stage_job::{Part, Source};
use std::alloc::{AllocError, Global};

/// The path of the project.
pub fn project(alloc: Global) -> Result<Path, AllocError>
    ensures { IfOk result (λ path. path ≡ codes "p" ∷ []) }
{
    Path::root(alloc).child(alloc, b"p")
}

/// The path of an entry of a folder.
fn child(alloc: Global, folder: &Path, name: &[u8]) -> Option<Path>
    ensures { IfSome result (λ path. path ≡ folder.now ++ name.now ∷ []) }
{
    if !is_segment(name) {
        return None;
    }
    folder.child(alloc, name).ok()
}

/// The path of one name.
fn single(alloc: Global, name: &[u8]) -> Option<Path>
    ensures { IfSome result (λ path. path ≡ name.now ∷ []) }
{
    child(alloc, &Path::root(alloc), name)
}

/// The path of two names.
fn pair(alloc: Global, first: &[u8], second: &[u8]) -> Option<Path>
    ensures { IfSome result (λ path. path ≡ first.now ∷ second.now ∷ []) }
{
    child(alloc, &single(alloc, first)?, second)
}

/// The path of three names.
fn triple(alloc: Global, first: &[u8], second: &[u8], third: &[u8]) -> Option<Path>
    ensures { IfSome result (λ path. path ≡ first.now ∷ second.now ∷ third.now ∷ []) }
{
    child(alloc, &pair(alloc, first, second)?, third)
}

/// Whether a path is neither another one nor below it.
fn is_elsewhere(path: &Path, head: &Path) -> bool
    ensures { result ≡ true → behind head.now path.now ≡ None }
{
    !path.starts_with(head)
}

/// The folder of a package that can be copied into the project `p`.
fn package(alloc: Global, at: &[u8]) -> Option<Path>
    ensures { IfSome result (λ source. CanCopy (codes "p" ∷ []) source) }
{
    let source = Path::read(alloc, at).ok()?;
    let project = single(alloc, b"p")?;
    let vendor = pair(alloc, b"p", b"vendor")?;
    let work = pair(alloc, b"p", b".install")?;
    if !is_elsewhere(&project, &source) {
        return None;
    }
    if is_elsewhere(&source, &vendor) && is_elsewhere(&source, &work) {
        return Some(source);
    }
    None
}

/// Two packages, then three files in `vendor` and composer.lock. All but the state file have the same bytes.
pub fn wanted(alloc: Global, tables: &[u8], state: &[u8]) -> Option<Vec<Part>>
    ensures wanted { IfSome result (λ parts. AreWanted parts.items) }
    ensures parts { IfSome result (λ parts. AreParts (codes "p" ∷ []) parts.items) }
{
    let log = Part {
        target: triple(alloc, b"vendor", b"acme", b"log")?,
        from: Source::Copy(package(alloc, b"r/log")?),
    };
    let one = Part {
        target: triple(alloc, b"vendor", b"b", b"one")?,
        from: Source::Copy(package(alloc, b"r/one")?),
    };
    let state = Part {
        target: triple(alloc, b"vendor", b"composer", b"autoload_state.php")?,
        from: Source::Bytes(Text::copy_of(alloc, state).ok()?),
    };
    let installed = Part {
        target: triple(alloc, b"vendor", b"composer", b"installed.json")?,
        from: Source::Bytes(Text::copy_of(alloc, tables).ok()?),
    };
    let autoload = Part {
        target: pair(alloc, b"vendor", b"autoload.php")?,
        from: Source::Bytes(Text::copy_of(alloc, tables).ok()?),
    };
    let lock = Part {
        target: single(alloc, b"composer.lock")?,
        from: Source::Bytes(Text::copy_of(alloc, tables).ok()?),
    };
    vec![in alloc; log, one, state, installed, autoload, lock].ok()
}

//! The work of the tests, done under a claim.

ghost use Rattle.std.specs.Prelude.{◌≡◌, ◌++◌, ◌∷◌, [], ℕ, List, IfSome, codes};
ghost use Rattle.stage_job.specs.Jobs.{AreParts};
ghost use Rattle.install_commands.specs.Working.{IsWork};

use super::device::Quiet;
use crate::{Work, claim_project, end_work};
use path_name::{Items, Path, Text, is_segment};
use run_answers::Refusal;
use stage_job::{Job, Part, Source};
use std::alloc::Global;
use tree_dev::Entries;

/// The path of an entry of a folder.
fn child(alloc: Global, folder: &Path, name: &[u8]) -> Option<Path>
    ensures { IfSome result (λ path. path ≡ folder.now ++ name.now ∷ []) }
{
    if !is_segment(name) {
        return None;
    }
    folder.child(alloc, name).ok()
}

/// The path of one name.
fn single(alloc: Global, name: &[u8]) -> Option<Path>
    ensures { IfSome result (λ path. path ≡ name.now ∷ []) }
{
    child(alloc, &Path::root(alloc), name)
}

/// The path of two names.
fn pair(alloc: Global, first: &[u8], second: &[u8]) -> Option<Path>
    ensures { IfSome result (λ path. path ≡ first.now ∷ second.now ∷ []) }
{
    child(alloc, &single(alloc, first)?, second)
}

fn text(alloc: Global, bytes: &[u8]) -> Option<Text> {
    Text::copy_of(alloc, bytes).ok()
}

/// Work of these parts, for the first generation.
fn work_of(alloc: Global, parts: Items<Part>) -> Option<Work>
    requires { AreParts (codes "p" ∷ []) parts }
    ensures { IfSome result (IsWork (codes "p" ∷ [])) }
{
    let lines = text(alloc, b"done\n")?;
    Some(Work {
        job: Job { parts },
        generation: 1,
        lines,
    })
}

/// A new lock, a file at `vendor/a`, and nothing at `vendor/b`.
fn parts(alloc: Global) -> Option<Items<Part>>
    ensures { IfSome result (AreParts (codes "p" ∷ [])) }
{
    let lock = Part {
        target: single(alloc, b"composer.lock")?,
        from: Source::Bytes(text(alloc, b"new")?),
    };
    let file = Part {
        target: pair(alloc, b"vendor", b"a")?,
        from: Source::Bytes(text(alloc, b"new")?),
    };
    let gone = Part {
        target: pair(alloc, b"vendor", b"b")?,
        from: Source::Gone,
    };
    let parts = vec![in alloc; lock, file, gone].ok()?;
    Some(Items::of(parts))
}

/// What is brought to its end.
#[derive(Clone, Copy)]
pub enum Begun {
    Work,
    NoWork,
    Refused,
}

/// What the project `p` answers that is claimed, and in which what is begun is brought to its end.
pub fn ended(alloc: Global, device: &mut Quiet, begun: Begun) -> Option<Result<Text, Refusal>> {
    let project = single(alloc, b"p")?;
    let hold = match claim_project(alloc, &project, device) {
        Ok(hold) => hold,
        Err(refusal) => return Some(Err(refusal)),
    };
    let mut left = Entries { left: 9 };
    match begun {
        Begun::Work => Some(end_work(
            alloc,
            device,
            hold,
            Ok(work_of(alloc, parts(alloc)?)?),
            &mut left,
        )),
        Begun::NoWork => Some(end_work(
            alloc,
            device,
            hold,
            Ok(work_of(alloc, Items::empty(alloc))?),
            &mut left,
        )),
        Begun::Refused => Some(end_work(alloc, device, hold, Err(Refusal::NoPlan), &mut left)),
    }
}

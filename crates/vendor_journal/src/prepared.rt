//! An install made ready for its commit: all names and texts that it needs.

ghost use Rattle.std.specs.Prelude.{◌≡◌, ◌<◌, ◌^◌, ℕ, IfOk, length};
ghost use Rattle.install_world.specs.JournalText.{IsJournal};
ghost use Rattle.install_world.specs.declared.version.Version.TheVariants.{Two};
ghost use Rattle.vendor_journal.specs.Prepared.{ArePrepared, IsPrepared};
ghost use Rattle.install_world.specs.InFlight.{IsPart};
ghost use Rattle.install_world.specs.Targets.{IsTargetPath};
ghost use Rattle.install_world.specs.declared.target.Target.{Target as Targets};

use crate::Hold;
use install_world::{Journal, PartPlaces, Target, journal_text, places_of};
use path_name::{Path, Text};
use std::alloc::{AllocError, Global};

/// A part that is to be moved.
#[derive(Debug, Drop)]
pub struct PreparedPart {
    /// Where it stands and goes.
    pub places: PartPlaces,
    /// Whether it takes away what stands at its target.
    pub gone: bool,
}

/// All names and the journal's text, so that the commit takes no memory.
#[derive(Debug, Drop)]
pub struct Prepared {
    /// The parts, in the order of the journal's targets.
    pub parts: Vec<PreparedPart>,
    /// The journal's text.
    pub text: Text,
    /// `.install/journal`.
    pub at: Path,
    /// `.install/journal.tmp`, where the text is written first.
    pub draft: Path,
}

impl Prepared {
    /// The number of bytes of the journal's text.
    pub fn journal_bytes(&self) -> usize
        ensures { result ≡ length self.now.text }
    {
        length_of(&self.text)
    }
}

/// The number of bytes of a text.
fn length_of(text: &Text) -> usize
    ensures is { result ≡ length text.now }
    ensures small { length text.now < 2 ^ 64 }
{
    text.as_slice().len()
}

/// The parts of all targets, with their places.
fn prepare_parts(
    alloc: Global,
    project: &Path,
    targets: &[Target],
) -> Result<Vec<PreparedPart>, AllocError>
    ensures { ((number : ℕ) (target : Targets) → IsPart targets.now number target → IsTargetPath target.path)
        → IfOk result (λ parts. ArePrepared project.now targets.now parts.items) }
{
    let mut parts = Vec::new(alloc);
    'targets: for (number, target) in targets.iter().enumerate() {
        let places = places_of(alloc, project, number as u64, target)?;
        parts.push(PreparedPart {
            places,
            gone: target.gone,
        })?;
    }
    Ok(parts)
}

/// Prepares the commit of a job: its journal's text, and the places of its parts. It makes no device call. Its one refusal is
/// want of memory.
pub fn prepare(alloc: Global, hold: &Hold, journal: &Journal) -> Result<Prepared, AllocError>
    ensures { IsJournal Two journal.now → IfOk result (IsPrepared hold.now.project journal.now) }
{
    let work = hold.project.child(alloc, b".install")?;
    let at = work.child(alloc, b"journal")?;
    let draft = work.child(alloc, b"journal.tmp")?;
    let text = journal_text(alloc, journal)?;
    length_of(&text);
    let parts = prepare_parts(alloc, &hold.project, journal.targets.as_slice())?;
    Ok(Prepared {
        parts,
        text,
        at,
        draft,
    })
}

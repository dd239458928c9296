//! A journal's text, read.

ghost use Rattle.std.specs.Prelude.{◌≡◌, ℕ, ◌+◌, ◌-◌, ◌≤◌, [], length, IfOk, Err};
ghost use Rattle.install_world.specs.Lines.{IsBadFrom};
ghost use Rattle.install_world.specs.JournalText.{Says, IsBadJournal};
ghost use Rattle.install_world.specs.Reading.{SaysMore, IsBehindTargets, SaysBehindVersion, IsBehindVersion};
ghost use Rattle.install_world.specs.declared.fault.JournalFault.TheVariants.{BadJournal, OutOfMemory};

use crate::lines::first_line;
use crate::reader::{Line, Reader};
use crate::words::{generation_of, version_of};
use crate::{Journal, JournalFault, Target, Version};
use path_name::Items;
use std::alloc::Global;

/// The fault of the line at the front of the rest of a text.
fn bad_at(text: &[u8], rest: &[u8]) -> JournalFault
    requires { length rest.now ≤ length text.now }
    ensures { result ≡ BadJournal (length text.now - length rest.now) }
{
    JournalFault::BadJournal((text.len() - rest.len()) as u64)
}

/// A fault of the rest of a text, as one of the text.
fn behind_line(text: &[u8], rest: &[u8], fault: JournalFault) -> JournalFault
    requires within { length rest.now ≤ length text.now }
    requires place { (at : ℕ) → fault ≡ BadJournal at → at ≤ length rest.now }
    ensures bad { (at : ℕ) → fault ≡ BadJournal at → result ≡ BadJournal (length text.now - length rest.now + at) }
    ensures memory { fault ≡ OutOfMemory → result ≡ OutOfMemory }
{
    match fault {
        JournalFault::BadJournal(at) => JournalFault::BadJournal(
            (text.len() - rest.len()) as u64 + at,
        ),
        JournalFault::OutOfMemory => JournalFault::OutOfMemory,
    }
}

/// The targets of the lines up to `end`.
fn read_targets(alloc: Global, version: Version, text: &[u8]) -> Result<Vec<Target>, JournalFault>
    ensures says { IfOk result (λ targets. SaysMore version [] text.now targets.items) }
    ensures bad { (at : ℕ) → result ≡ Err (BadJournal at) → IsBadFrom (IsBehindTargets version []) text.now at }
    ensures within { (at : ℕ) → result ≡ Err (BadJournal at) → at ≤ length text.now }
{
    let mut reader = Reader::new(alloc, version);
    let mut rest = text;
    'lines: while let Some(cut) = first_line(rest) {
        match reader.read(alloc, cut.words)? {
            Line::Target => {
                rest = cut.after;
            }
            Line::End => {
                if !cut.after.is_empty() {
                    return Err(bad_at(text, cut.after));
                }
                return Ok(reader.targets);
            }
            Line::Bad => return Err(bad_at(text, rest)),
        }
    }
    Err(bad_at(text, rest))
}

/// The journal that the text behind the line of its version says.
fn read_behind_version(
    alloc: Global,
    version: Version,
    text: &[u8],
) -> Result<Journal, JournalFault>
    ensures says { IfOk result (λ journal. SaysBehindVersion version text.now journal) }
    ensures bad { (at : ℕ) → result ≡ Err (BadJournal at) → IsBadFrom (IsBehindVersion version) text.now at }
    ensures within { (at : ℕ) → result ≡ Err (BadJournal at) → at ≤ length text.now }
{
    let Some(cut) = first_line(text) else {
        return Err(JournalFault::BadJournal(0));
    };
    let Some(generation) = generation_of(cut.words) else {
        return Err(JournalFault::BadJournal(0));
    };
    match read_targets(alloc, version, cut.after) {
        Ok(targets) => Ok(Journal {
            generation,
            targets: Items::of(targets),
        }),
        Err(fault) => Err(behind_line(text, cut.after, fault)),
    }
}

/// The journal that a text says, in version 1 or 2. `BadJournal(at)`: the text is none, and its first line that
/// is not as it must be begins at `at`. Time grows with the text, and with the logarithm of the number of targets.
pub fn read_journal(alloc: Global, text: &[u8]) -> Result<Journal, JournalFault>
    ensures says { IfOk result (λ journal. Says text.now journal) }
    ensures bad { (at : ℕ) → result ≡ Err (BadJournal at) → IsBadJournal text.now at }
{
    let Some(cut) = first_line(text) else {
        return Err(JournalFault::BadJournal(0));
    };
    let Some(version) = version_of(cut.words) else {
        return Err(JournalFault::BadJournal(0));
    };
    match read_behind_version(alloc, version, cut.after) {
        Ok(journal) => Ok(journal),
        Err(fault) => Err(behind_line(text, cut.after, fault)),
    }
}

//! A journal's text, written.

ghost use Rattle.std.specs.Prelude.{◌≡◌, ◌++◌, OnOk, IfOk};
ghost use Rattle.install_world.specs.Lines.{line};
ghost use Rattle.install_world.specs.JournalText.{version_words, generation_words, target_words, target_lines, journal_text};
ghost use Rattle.install_world.specs.declared.version.Version.TheVariants.{Two};

use crate::{Journal, Target};
use path_name::{Text, push_number};
use std::alloc::{AllocError, Global};

/// Room for the lines of a job's targets, and some more: a number has at most 20 digits.
fn room_for(targets: &[Target]) -> usize {
    let mut room: usize = 0;
    for target in targets {
        let digits = target.path.text().len().saturating_mul(2);
        room = room.saturating_add(digits.saturating_add(27));
    }
    room
}

/// Adds the first two lines.
fn push_head(text: &mut Vec<u8>, generation: u64) -> Result<(), AllocError>
    ensures { OnOk result (text.new.items ≡ text.old.items ++ (line (version_words Two) ++ line (generation_words generation))) }
{
    text.extend_from_slice(b"install-journal 2\ngeneration ")?;
    push_number(text, generation)?;
    text.push(b'\n')?;
    Ok(())
}

/// Adds the line of a target.
fn push_target(
    alloc: Global,
    text: &mut Vec<u8>,
    number: u64,
    target: &Target,
) -> Result<(), AllocError>
    ensures { OnOk result (text.new.items ≡ text.old.items ++ line (target_words number target.now)) }
{
    let mark: &[u8] = if target.gone { b"gone " } else { b"move " };
    text.extend_from_slice(mark)?;
    push_number(text, number)?;
    text.push(b' ')?;
    text.extend_from_slice(hex::encode(alloc, target.path.text())?.as_bytes())?;
    text.push(b'\n')?;
    Ok(())
}

/// Adds the lines of all targets.
fn push_targets(alloc: Global, text: &mut Vec<u8>, targets: &[Target]) -> Result<(), AllocError>
    ensures { OnOk result (text.new.items ≡ text.old.items ++ target_lines 0 targets.now) }
{
    'targets: for (number, target) in targets.iter().enumerate() {
        push_target(alloc, text, number as u64, target)?;
    }
    Ok(())
}

/// The text of a journal, in version 2. Its one refusal is want of memory.
pub fn journal_text(alloc: Global, journal: &Journal) -> Result<Text, AllocError>
    ensures { IfOk result (λ text. text ≡ journal_text Two journal.now) }
{
    let targets = journal.targets.as_slice();
    let mut text = Vec::with_capacity(alloc, room_for(targets).saturating_add(64))?;
    push_head(&mut text, journal.generation)?;
    push_targets(alloc, &mut text, targets)?;
    text.extend_from_slice(b"end\n")?;
    Ok(Text::of(text))
}

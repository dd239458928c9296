//! The command that the words choose.

ghost use Rattle.std.specs.Prelude.{◌≡◌, false, map};
ghost use Rattle.std.specs.String.{string_bytes};
ghost use Rattle.path_name.specs.Given.{GivesValue};
ghost use Rattle.run_answers.specs.Faults.{is_device_fault};
ghost use Rattle.run_answers.specs.declared.refusal.Refusal.TheVariants.{OutOfMemory};
ghost use Rattle.composer_top.specs.Chosen.{refusal_of_words, chosen_in};

use composer_words::{Chosen, WordsFault, command};
use run_answers::Refusal;
use std::alloc::Global;

/// The command that the words choose. Its refusals are `Usage`, exactly where the words are none, and want of memory.
pub fn chosen(alloc: Global, words: &[String]) -> Result<Chosen, Refusal>
    ensures value { GivesValue OutOfMemory (chosen_in (map string_bytes words.now)) result }
    ensures no_device { is_device_fault result ≡ false }
{
    match command(alloc, words) {
        Ok(chosen) => Ok(chosen),
        Err(fault) => Err(refusal_of_words(fault)),
    }
}

fn refusal_of_words(fault: WordsFault) -> Refusal
    ensures { result ≡ refusal_of_words fault }
{
    match fault {
        WordsFault::Usage => Refusal::Usage,
        WordsFault::OutOfMemory => Refusal::OutOfMemory,
    }
}

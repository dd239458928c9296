//! Laws of the definitions that the contracts cite.

ghost use Rattle.std.specs.Prelude.{◌≡◌, ◌↔◌, List, ℕ, Err};
ghost use Rattle.composer_words.specs.Words.{IsRefused, command_of};
ghost use Rattle.composer_words.specs.declared.fault.WordsFault.TheVariants.{Usage};

/// Words are refused exactly where the command line does not take them, DIR is no path, or N is no number of a demo.
pub fn refusals()
    ensures { (words : List (List ℕ)) → (command_of words ≡ Err Usage ↔ IsRefused words) }
{}

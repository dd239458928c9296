//! Laws of the journal's text, each as the contract of a function that does nothing.

ghost use Rattle.std.specs.Prelude.{◌≡◌, ◌<◌, ◌^◌, ℕ, List, length};
ghost use Rattle.install_world.specs.JournalText.{Says, IsJournal, IsBadJournal, journal_text};
ghost use Rattle.install_world.specs.declared.journal.Journal.{Journal as Journals};
ghost use Rattle.install_world.specs.declared.version.Version.TheVariants.{Two};

/// A text says one journal at most, and what is written is read back.
pub fn journal_texts_are_read()
    ensures one { (text : List ℕ) (first second : Journals) → length text < 2 ^ 64 → Says text first → Says text second → first ≡ second }
    ensures written { (journal : Journals) → IsJournal Two journal → Says (journal_text Two journal) journal }
{}

/// A text that is no journal is bad at one place, and a text that is one is bad at none.
pub fn bad_journals_have_one_place()
    ensures one { (text : List ℕ) (first second : ℕ) → IsBadJournal text first → IsBadJournal text second → first ≡ second }
    ensures no_journal { (text : List ℕ) (at : ℕ) (journal : Journals) → IsBadJournal text at → Says text journal → ⊥ }
{}

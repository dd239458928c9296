//! The mode of the tables that are written, and their generation.

ghost use Rattle.std.specs.Prelude.{◌≡◌, ◌≤◌, ℕ, false, IsTrue, IfOk, IfErr, Ok};
ghost use Rattle.run_answers.specs.Faults.{is_device_fault, is_of_tree};
ghost use Rattle.run_answers.specs.Steps.{Tells};
ghost use Rattle.table_files.specs.Modes.{mode_of, next_generation};

use composer_words::Ways;
use manifest_read::Manifest;
use run_answers::Refusal;
use table_scan::Mode;
use tree_dev::LimitKind;

/// The mode of the tables: authoritative by the option `-a` or the setting `classmap-authoritative`, else optimised by `-o` or
/// `optimize-autoloader`, else plain (Composer's documentation, "Autoloader optimization").
pub fn mode_of(ways: &Ways, root: &Manifest) -> Mode
    ensures { result ≡ mode_of ways.now root.now }
{
    if ways.authoritative || root.authoritative {
        Mode::Authoritative
    } else if ways.optimised || root.optimise {
        Mode::Optimised
    } else {
        Mode::Plain
    }
}

/// The generation behind that of the tables that stand; 1 where none stands. `Limit`: there is none behind 18,446,744,073,709,551,615.
#[tactic(auto, unfolding(crate::specs::Modes::next_generation))]
pub fn next_generation(stands: Option<u64>) -> Result<u64, Refusal>
    ensures told { Tells (λ next. next) (next_generation stands) result }
    ensures first { IfOk result (λ next. 1 ≤ next) }
    ensures no_device { is_device_fault result ≡ false }
    ensures causes { IfErr result (λ refusal. IsTrue (is_of_tree refusal)) }
{
    match stands {
        None => Ok(1),
        Some(generation) => {
            if generation == u64::MAX {
                return Err(Refusal::Limit(LimitKind::Generation));
            }
            Ok(generation + 1)
        }
    }
}

/// The same generation, where there is one; another number where there is none.
#[tactic(auto, unfolding(crate::specs::Modes::next_generation))]
pub fn generation_behind(stands: Option<u64>) -> u64
    ensures { (next : ℕ) → next_generation stands ≡ Ok next → result ≡ next }
{
    match stands {
        None => 1,
        Some(generation) => generation.saturating_add(1),
    }
}

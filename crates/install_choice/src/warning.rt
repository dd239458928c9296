//! The warning on a lock that was made for another composer.json.

ghost use Rattle.std.specs.Prelude.{◌≡◌};
ghost use Rattle.install_choice.specs.Warnings.{TakesText, stale_text, warning_of};

use lock_file::Lock;
use project_files::ProjectManifest;
use tree_dev::Sink;

#[tactic(auto, unfolding(crate::specs::Warnings::stale_text))]
fn stale_text() -> &'static [u8]
    ensures { result.now ≡ stale_text }
{
    b"warning: composer.lock is out of date\n"
}

/// Puts a text whose loss changes nothing.
fn put<E: Sink>(errs: &mut E, text: &[u8])
    ensures { TakesText (E.meaning errs.old) (E.meaning errs.new) text.now }
{
    let _ = errs.put(text);
}

/// Warns where a lock has another content hash than the composer.json. A fault of `errs` changes nothing.
pub fn warn_of_stale<E: Sink>(errs: &mut E, manifest: &ProjectManifest, lock: &Lock)
    ensures { TakesText (E.meaning errs.old) (E.meaning errs.new) (warning_of manifest.now lock.now) }
{
    if manifest.content_hash.as_slice() != lock.content_hash.as_slice() {
        put(errs, stale_text());
    }
}

//! The packages that are installed in a project.

ghost use Rattle.std.specs.Prelude.{◌≡◌, false, IsTrue, IfOk, IfErr, IfSome};
ghost use Rattle.tree_dev.specs.Device.{OnlyRead, OfTold};
ghost use Rattle.json_ordered.specs.Docs.{tree_of};
ghost use Rattle.lock_file.specs.FormedLocks.{IsInstalled};
ghost use Rattle.run_answers.specs.Faults.{is_of_tree, is_device_fault};
ghost use Rattle.run_answers.specs.Steps.{Tells};
ghost use Rattle.project_files.specs.InstalledFiles.{installed_fields_in, installed_of_text, installed_in};

use crate::documents::{document, refusal_of_fields};
use crate::places;
use crate::texts::text_at;
use json_ordered::Doc;
use lock_file::Installed;
use path_name::Path;
use run_answers::{NamedFile, Refusal};
use std::alloc::Global;
use tree_dev::Tree;

/// The fields of the document of an installed.json.
#[tactic(auto, unfolding(crate::specs::InstalledFiles::installed_fields_in))]
fn fields_of(alloc: Global, doc: &Doc) -> Result<Installed, Refusal>
    ensures told { Tells (λ installed. installed) (installed_fields_in (tree_of doc.now)) result }
    ensures formed { IfOk result IsInstalled }
    ensures no_device { is_device_fault result ≡ false }
    ensures causes { IfErr result (λ refusal. IsTrue (is_of_tree refusal)) }
{
    match lock_file::installed_from_doc(alloc, doc) {
        Ok(installed) => Ok(installed),
        Err(fault) => Err(refusal_of_fields(NamedFile::Installed, fault)),
    }
}

/// What the text of an installed.json says.
#[tactic(auto, unfolding(crate::specs::InstalledFiles::installed_of_text))]
fn installed_of(alloc: Global, text: &[u8]) -> Result<Installed, Refusal>
    ensures told { Tells (λ installed. installed) (installed_of_text text.now) result }
    ensures formed { IfOk result IsInstalled }
    ensures no_device { is_device_fault result ≡ false }
    ensures causes { IfErr result (λ refusal. IsTrue (is_of_tree refusal)) }
{
    let doc = document(alloc, NamedFile::Installed, text)?;
    fields_of(alloc, &doc)
}

/// What the `vendor/composer/installed.json` of a project says; None where nothing is there. The refusals come in this order:
/// `OtherEntry` where something else than a file is; `Limit` where it has more than `FILE_BYTES` bytes; `BadDocument` where its
/// text is no JSON (RFC 8259), with the place; `BadDocument` or `NotOffered` of its first field that is bad or isn't offered.
/// The tree is only read.
#[tactic(auto, unfolding(crate::specs::InstalledFiles::installed_in))]
pub fn installed<T: Tree>(
    alloc: Global,
    project: &Path,
    tree: &mut T,
) -> Result<Option<Installed>, Refusal>
    ensures told { OfTold (T.meaning tree.old) (λ t. Tells (λ installed. installed) (installed_in t project.now) result) }
    ensures formed { IfOk result (λ installed. IfSome installed IsInstalled) }
    ensures only_read { OnlyRead (T.meaning tree.old) (T.meaning tree.new) (is_device_fault result) }
    ensures causes { IfErr result (λ refusal. IsTrue (is_of_tree refusal)) }
{
    match text_at(alloc, places::installed(alloc, project)?, tree)? {
        None => Ok(None),
        Some(text) => Ok(Some(installed_of(alloc, text.as_slice())?)),
    }
}

//! The manifest of a project.

ghost use Rattle.std.specs.Prelude.{◌≡◌, false, IsTrue, IfOk, IfErr};
ghost use Rattle.tree_dev.specs.Device.{OnlyRead, OfTold};
ghost use Rattle.json_ordered.specs.Docs.{tree_of};
ghost use Rattle.manifest_read.specs.WellFormed.{IsManifest};
ghost use Rattle.manifest_read.specs.Writable.{IsWritten, IsWritableManifest};
ghost use Rattle.manifest_read.specs.declared.types.Role.TheVariants as roles;
ghost use Rattle.run_answers.specs.Faults.{is_of_tree, is_device_fault};
ghost use Rattle.run_answers.specs.Steps.{Tells};
ghost use Rattle.project_files.specs.ProjectManifest.{manifest_text_in, root_in, manifest_of_text, project_manifest_in};

use crate::documents::{document, refusal_of_fields};
use crate::places;
use crate::texts::text_at;
use content_hash::content_hash;
use json_ordered::Doc;
use manifest_read::{Manifest, Role};
use path_name::{Path, Text};
use run_answers::{NamedFile, Refusal};
use std::alloc::Global;
use tree_dev::Tree;

/// What a composer.json says.
#[derive(Debug, PartialEq, Eq, Drop)]
pub struct ProjectManifest {
    /// Its fields.
    pub root: Manifest,
    /// Its content hash, by which a lock knows it.
    pub content_hash: [u8; 32],
}

/// The text of composer.json. `NoManifest` comes where nothing is there.
#[tactic(auto, unfolding(crate::specs::ProjectManifest::manifest_text_in))]
fn manifest_text<T: Tree>(alloc: Global, project: &Path, tree: &mut T) -> Result<Text, Refusal>
    ensures told { OfTold (T.meaning tree.old) (λ t. Tells (λ text. text) (manifest_text_in t project.now) result) }
    ensures only_read { OnlyRead (T.meaning tree.old) (T.meaning tree.new) (is_device_fault result) }
    ensures causes { IfErr result (λ refusal. IsTrue (is_of_tree refusal)) }
{
    match text_at(alloc, places::manifest(alloc, project)?, tree)? {
        Some(text) => Ok(text),
        None => Err(Refusal::NoManifest),
    }
}

/// The fields of the document of a composer.json.
#[tactic(auto, unfolding(crate::specs::ProjectManifest::root_in))]
fn root_of(alloc: Global, doc: &Doc) -> Result<Manifest, Refusal>
    ensures told { Tells (λ root. root) (root_in (tree_of doc.now)) result }
    ensures formed { IfOk result (λ root. IsManifest roles.Root root) }
    ensures writable { IsWritten (tree_of doc.now) → IfOk result (λ root. IsWritableManifest root) }
    ensures no_device { is_device_fault result ≡ false }
    ensures causes { IfErr result (λ refusal. IsTrue (is_of_tree refusal)) }
{
    match manifest_read::from_doc(alloc, doc, Role::Root) {
        Ok(root) => Ok(root),
        Err(fault) => Err(refusal_of_fields(NamedFile::Manifest, fault)),
    }
}

/// What the text of a composer.json says.
#[tactic(auto, unfolding(crate::specs::ProjectManifest::manifest_of_text))]
fn manifest_of(alloc: Global, text: &[u8]) -> Result<ProjectManifest, Refusal>
    ensures told { Tells (λ manifest. manifest) (manifest_of_text text.now) result }
    ensures formed { IfOk result (λ manifest. IsManifest roles.Root manifest.root) }
    ensures writable { IfOk result (λ manifest. IsWritableManifest manifest.root) }
    ensures no_device { is_device_fault result ≡ false }
    ensures causes { IfErr result (λ refusal. IsTrue (is_of_tree refusal)) }
{
    let doc = document(alloc, NamedFile::Manifest, text)?;
    let content_hash = content_hash(alloc, &doc)?;
    let root = root_of(alloc, &doc)?;
    Ok(ProjectManifest { root, content_hash })
}

/// What the composer.json of a project says, and its content hash. The refusals come in this order: `NoManifest` where
/// nothing is there; `OtherEntry` where something else than a file is; `Limit` where it has more than `FILE_BYTES`
/// bytes; `BadDocument` where its text is no JSON (RFC 8259), with the place; `BadDocument` or `NotOffered` of its first
/// field that is bad or isn't offered. The tree is only read.
#[tactic(auto, unfolding(crate::specs::ProjectManifest::project_manifest_in))]
pub fn project_manifest<T: Tree>(
    alloc: Global,
    project: &Path,
    tree: &mut T,
) -> Result<ProjectManifest, Refusal>
    ensures told { OfTold (T.meaning tree.old) (λ t. Tells (λ manifest. manifest) (project_manifest_in t project.now) result) }
    ensures formed { IfOk result (λ manifest. IsManifest roles.Root manifest.root) }
    ensures writable { IfOk result (λ manifest. IsWritableManifest manifest.root) }
    ensures only_read { OnlyRead (T.meaning tree.old) (T.meaning tree.new) (is_device_fault result) }
    ensures causes { IfErr result (λ refusal. IsTrue (is_of_tree refusal)) }
{
    let text = manifest_text(alloc, project, tree)?;
    manifest_of(alloc, text.as_slice())
}

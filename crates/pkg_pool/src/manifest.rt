//! The package of a folder.

ghost use Rattle.std.specs.Prelude.{◌≡◌, IfOk, false};
ghost use Rattle.path_name.specs.Paths.{is_segment};
ghost use Rattle.tree_dev.specs.Device.{OnlyRead, OfTold};
ghost use Rattle.json_ordered.specs.Docs.{tree_of};
ghost use Rattle.pkg_pool.specs.Outcomes.{Tells, is_free, is_device_fault};
ghost use Rattle.pkg_pool.specs.Manifests.{manifest_path, told_text, manifest_text, document_of, fields_of, package_of};

use crate::fault::{ManifestFault, PoolFault};
use json_ordered::{Doc, JsonFault};
use manifest_read::{FieldFault, Manifest, Package, Role};
use path_name::{Path, Text};
use std::alloc::{AllocError, Global};
use tree_dev::{FILE_BYTES, LimitKind, ReadAnswer, Tree};

/// Where the manifest of a folder stands.
fn manifest_path(alloc: Global, folder: &Path) -> Result<Path, AllocError>
    ensures { IfOk result (λ path. path ≡ manifest_path folder.now) }
{
    folder.child(alloc, b"composer.json")
}

/// The text of the manifest at a path; None where nothing is there. `OtherEntry` comes where something else stands
/// there, and `Limit` where the file has more than `FILE_BYTES` bytes.
#[tactic(auto, unfolding(crate::specs::Manifests::told_text))]
fn text_at<T: Tree>(alloc: Global, tree: &mut T, path: &Path) -> Result<Option<Text>, PoolFault>
    ensures told { OfTold (T.meaning tree.old) (λ t. Tells (λ text. text) (told_text t path.now) result) }
    ensures only_read { OnlyRead (T.meaning tree.old) (T.meaning tree.new) (is_device_fault result) }
{
    match tree.read(alloc, path, FILE_BYTES)? {
        ReadAnswer::Bytes(text) => Ok(Some(text)),
        ReadAnswer::Absent => Ok(None),
        ReadAnswer::NotFile => Err(PoolFault::OtherEntry(path.copy(alloc)?)),
        ReadAnswer::TooLong => Err(PoolFault::Limit(LimitKind::FileBytes(path.copy(alloc)?))),
    }
}

/// The document of the text at a path.
#[tactic(auto, unfolding(crate::specs::Manifests::document_of))]
fn document(alloc: Global, path: &Path, text: &[u8]) -> Result<Doc, PoolFault>
    ensures told { Tells tree_of (document_of path.now text.now) result }
    ensures no_device { is_device_fault result ≡ false }
{
    let fault = match json_ordered::read(alloc, text) {
        Ok(doc) => return Ok(doc),
        Err(JsonFault::NotUtf8(at)) => ManifestFault::NotUtf8(at),
        Err(JsonFault::Syntax(at)) => ManifestFault::Syntax(at),
        Err(JsonFault::TooDeep(at)) => ManifestFault::TooDeep(at),
        Err(JsonFault::OutOfMemory) => return Err(PoolFault::OutOfMemory),
    };
    Err(PoolFault::BadManifest(path.copy(alloc)?, fault))
}

/// The package of a document at a path.
#[tactic(auto, unfolding(crate::specs::Manifests::fields_of))]
fn fields(alloc: Global, path: &Path, doc: &Doc) -> Result<Package, PoolFault>
    ensures told { Tells (λ p. p) (fields_of path.now (tree_of doc.now)) result }
    ensures no_device { is_device_fault result ≡ false }
{
    match manifest_read::from_doc(alloc, doc, Role::Member) {
        Ok(manifest) => Ok(package_in(manifest)),
        Err(FieldFault::BadField(pointer)) => Err(PoolFault::BadManifest(
            path.copy(alloc)?,
            ManifestFault::BadField(pointer),
        )),
        Err(FieldFault::ReservedName(name)) => Err(PoolFault::BadManifest(
            path.copy(alloc)?,
            ManifestFault::ReservedName(name),
        )),
        Err(FieldFault::NotOffered(pointer)) => {
            Err(PoolFault::NotOffered(path.copy(alloc)?, pointer))
        }
        Err(FieldFault::OutOfMemory) => Err(PoolFault::OutOfMemory),
    }
}

fn package_in(manifest: Manifest) -> Package
    ensures { result ≡ manifest.package }
{
    manifest.package
}

/// The package that the text of a manifest at a path describes.
#[tactic(auto, unfolding(crate::specs::Manifests::package_of))]
pub fn package_of(alloc: Global, path: &Path, text: &[u8]) -> Result<Package, PoolFault>
    ensures told { Tells (λ p. p) (package_of path.now text.now) result }
    ensures no_device { is_device_fault result ≡ false }
{
    let doc = document(alloc, path, text)?;
    fields(alloc, path, &doc)
}

/// The text of the manifest of a folder, with its path; None where there is none.
#[tactic(auto, unfolding(crate::specs::Manifests::manifest_text))]
pub fn manifest_text<T: Tree>(
    alloc: Global,
    tree: &mut T,
    folder: &Path,
) -> Result<Option<(Path, Text)>, PoolFault>
    ensures told { OfTold (T.meaning tree.old) (λ t. Tells (λ text. text) (manifest_text t folder.now) result) }
    ensures only_read { OnlyRead (T.meaning tree.old) (T.meaning tree.new) (is_device_fault result) }
{
    let path = manifest_path(alloc, folder)?;
    match text_at(alloc, tree, &path)? {
        None => Ok(None),
        Some(text) => Ok(Some((path, text))),
    }
}

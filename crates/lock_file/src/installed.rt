//! What an installed.json says.

ghost use Rattle.std.specs.Prelude.{◌≡◌, ℕ, map, IfOk};
ghost use Rattle.std.specs.List.{enumerate_from};
ghost use Rattle.path_name.specs.Given.{GivesValue};
ghost use Rattle.json_ordered.specs.JsonTree.{JsonTree};
ghost use Rattle.json_ordered.specs.Docs.{tree_of, pair_of};
ghost use Rattle.manifest_read.specs.declared.fault.FieldFault.TheVariants.{OutOfMemory};
ghost use Rattle.manifest_read.specs.Pointers.{at_item};
ghost use Rattle.manifest_read.specs.Values.{each, text_at};
ghost use Rattle.manifest_read.specs.Autoloads.{texts_in, texts_of};
ghost use Rattle.manifest_read.specs.Packages.{package_entry_of};
ghost use Rattle.lock_file.specs.FormedLocks.{IsInstalled};
ghost use Rattle.lock_file.specs.InstalledPackages.{package_name, installed_from, installed_fields_of};

use crate::entries::{Entry, entries_of};
use crate::types::Installed;
use itoa::Buffer;
use json_ordered::Doc;
use manifest_read::fields::{Key, below, list, object, switch, text, value};
use manifest_read::{FieldFault, Package, package_from_doc};
use path_name::{Items, Name};
use std::alloc::Global;
use std::collections::BTreeSet;

impl Entry for Package {
    ghost use Rattle.manifest_read.specs.Packages.{package_entry_of};
    ghost use Rattle.lock_file.specs.InstalledPackages.{package_name};

    ghost reading = { package_entry_of };

    ghost named = { package_name };

    fn read(alloc: Global, doc: &Doc, at: &[u8]) -> Result<Package, FieldFault> {
        package_from_doc(alloc, doc, at)
    }

    fn name(&self) -> &Name {
        &self.name
    }
}

/// The name that is the i-th item of an array.
fn name_item(alloc: Global, at: &[u8], i: usize, doc: &Doc) -> Result<Name, FieldFault>
    ensures { GivesValue OutOfMemory (text_at (at_item at.now i) (tree_of doc.now)) result }
{
    let mut digits = Buffer::new();
    let text = text(alloc, at, digits.format(i).as_bytes(), doc)?;
    Ok(Name::of(Vec::from_slice(alloc, text)?))
}

/// The names of an array.
fn name_items(alloc: Global, at: &[u8], items: &[Doc]) -> Result<Items<Name>, FieldFault>
    ensures { GivesValue OutOfMemory (each (λ (n : ℕ × JsonTree). text_at (at_item at.now n.0) n.1) (enumerate_from 0 (map tree_of items.now))) result }
{
    let mut names = Vec::with_capacity(alloc, items.len())?;
    for (i, item) in items.iter().enumerate() {
        names.push(name_item(alloc, at, i, item)?)?;
    }
    Ok(Items::of(names))
}

#[tactic(auto, unfolding(manifest_read::specs::Autoloads::texts_in))]
fn names_in(alloc: Global, at: &[u8], doc: &Doc) -> Result<Items<Name>, FieldFault>
    ensures { GivesValue OutOfMemory (texts_in at.now (tree_of doc.now)) result }
{
    let items = list(alloc, at, doc)?;
    name_items(alloc, at, items)
}

/// The names of a key; none where it is missing.
#[tactic(auto, unfolding(manifest_read::specs::Autoloads::texts_of))]
fn names_of(
    alloc: Global,
    at: &[u8],
    pairs: &[(Name, Doc)],
    key: Key,
) -> Result<Items<Name>, FieldFault>
    ensures { GivesValue OutOfMemory (texts_of at.now (map pair_of pairs.now) key) result }
{
    match value(pairs, key) {
        None => Ok(Items::of(Vec::new(alloc))),
        Some(doc) => {
            let pointer = below(alloc, at, key.text())?;
            names_in(alloc, pointer.as_slice(), doc)
        }
    }
}

#[tactic(auto, unfolding(crate::specs::InstalledPackages::installed_from))]
fn installed_from(alloc: Global, at: &[u8], pairs: &[(Name, Doc)]) -> Result<Installed, FieldFault>
    ensures { GivesValue OutOfMemory (installed_from at.now (map pair_of pairs.now)) result }
{
    let mut seen = BTreeSet::new(alloc);
    let packages = entries_of(alloc, &mut seen, at, pairs, Key::Packages)?;
    let dev = switch(alloc, at, pairs, Key::Dev)?;
    let dev_names = names_of(alloc, at, pairs, Key::DevPackageNames)?;
    Ok(Installed {
        packages,
        dev,
        dev_names,
    })
}

/// What the document of an installed.json says.
///
/// Its key `packages` must be there, a list of entries as [`package_from_doc`] reads them; `dev` is a boolean, false
/// where it is missing, and `dev-package-names` a list of texts, empty where it is missing. Other keys are ignored, in
/// entries too, `dist` among them; an empty array is taken for an empty object.
///
/// Refuses, by the first fault in this order of keys, `BadField(pointer)` where a value has another form than its key
/// asks for, where a key that must be there is missing, and for a package whose name an earlier one has, once it was
/// read; `NotOffered(pointer)` where what an entry says isn't offered; and `ReservedName(name)` for a package of such a
/// name.
#[tactic(auto, unfolding(crate::specs::InstalledPackages::installed_fields_of))]
pub fn installed_from_doc(alloc: Global, doc: &Doc) -> Result<Installed, FieldFault>
    // The fields, or the first fault.
    ensures exact { GivesValue OutOfMemory (installed_fields_of (tree_of doc.now)) result }
    // Each package is well-formed, and no two have one name.
    ensures formed { IfOk result IsInstalled }
{
    let pairs = object(alloc, b"", doc)?;
    installed_from(alloc, b"", pairs)
}

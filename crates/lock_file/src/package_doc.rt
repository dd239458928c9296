//! What a package is written as in a lock.

ghost use Rattle.std.specs.Prelude.{◌≡◌, ◌++◌, ◌∷◌, [], map, IfOk, OnOk};
ghost use Rattle.json_ordered.specs.JsonTree.{object_of};
ghost use Rattle.json_ordered.specs.Docs.{tree_of, pair_of};
ghost use Rattle.manifest_read.specs.declared.key.Key.TheVariants as keys;
ghost use Rattle.lock_file.specs.PackageTrees.{filled, folders_tree, autoload_pairs, dist_tree, link_pairs, locked_pairs, locked_tree};

use crate::types::Locked;
use crate::written::{
    Item, Member, add, add_filled_array, add_filled_object, add_string, array, string,
};
use json_ordered::Doc;
use manifest_read::fields::Key;
use manifest_read::{Autoload, Link, Package, PathText, PrefixDirs};
use path_name::{FolderRef, Name};
use std::alloc::{AllocError, Global};

impl Member for Link {
    ghost use Rattle.lock_file.specs.PackageTrees.{link_pair};

    ghost pair = { link_pair };

    fn named_doc(&self, alloc: Global) -> Result<(Name, Doc), AllocError> {
        let doc = string(alloc, self.text.as_slice())?;
        let name = self.name.copy(alloc)?;
        Ok((name, doc))
    }
}

impl Item for PathText {
    ghost use Rattle.lock_file.specs.PackageTrees.{path_tree};

    ghost tree = { path_tree };

    fn doc(&self, alloc: Global) -> Result<Doc, AllocError> {
        string(alloc, self.written.as_slice())
    }
}

/// The folders of a prefix.
fn folders_doc(alloc: Global, single: bool, folders: &[PathText]) -> Result<Doc, AllocError>
    ensures { IfOk result (λ doc. tree_of doc ≡ folders_tree single folders.now) }
{
    if !single {
        return array(alloc, folders);
    }
    match folders {
        [] => array(alloc, folders),
        [folder, ..] => folder.doc(alloc),
    }
}

impl Member for PrefixDirs {
    ghost use Rattle.lock_file.specs.PackageTrees.{prefix_pair};

    ghost pair = { prefix_pair };

    fn named_doc(&self, alloc: Global) -> Result<(Name, Doc), AllocError> {
        let doc = folders_doc(alloc, self.single, self.folders.as_slice())?;
        let name = Name::of(Vec::from_slice(alloc, self.written.as_slice())?);
        Ok((name, doc))
    }
}

/// The autoload rules that are there.
#[tactic(auto, unfolding(crate::specs::PackageTrees::autoload_pairs))]
fn autoload_members(alloc: Global, rules: &Autoload) -> Result<Vec<(Name, Doc)>, AllocError>
    ensures { IfOk result (λ pairs. map pair_of pairs.items ≡ autoload_pairs rules.now) }
{
    let mut pairs = Vec::new(alloc);
    add_filled_object(alloc, &mut pairs, Key::Psr4, rules.psr4.as_slice())?;
    add_filled_object(alloc, &mut pairs, Key::Psr0, rules.psr0.as_slice())?;
    add_filled_array(alloc, &mut pairs, Key::Classmap, rules.classmap.as_slice())?;
    add_filled_array(alloc, &mut pairs, Key::Files, rules.files.as_slice())?;
    add_filled_array(alloc, &mut pairs, Key::Exclusions, rules.exclude.as_slice())?;
    Ok(pairs)
}

/// Adds the autoload rules, unless there are none.
fn add_autoload(
    alloc: Global,
    pairs: &mut Vec<(Name, Doc)>,
    rules: &Autoload,
) -> Result<(), AllocError>
    ensures { OnOk result (map pair_of pairs.new.items ≡ map pair_of pairs.old.items ++ filled keys.Autoload object_of (autoload_pairs rules.now)) }
{
    let members = autoload_members(alloc, rules)?;
    if members.is_empty() {
        return Ok(());
    }
    add(alloc, pairs, Key::Autoload, Doc::Obj(members))
}

/// The folder that a package is installed from.
#[tactic(auto, unfolding(crate::specs::PackageTrees::dist_tree))]
fn dist_doc(alloc: Global, url: &FolderRef, reference: &[u8]) -> Result<Doc, AllocError>
    ensures { IfOk result (λ doc. tree_of doc ≡ dist_tree url.now reference.now) }
{
    let mut pairs = Vec::with_capacity(alloc, 3)?;
    add_string(alloc, &mut pairs, Key::Type, b"path")?;
    let url = url.text(alloc)?;
    add_string(alloc, &mut pairs, Key::Url, url.as_slice())?;
    add_string(alloc, &mut pairs, Key::Reference, reference)?;
    Ok(Doc::Obj(pairs))
}

/// Adds the links that are there.
#[tactic(auto, unfolding(crate::specs::PackageTrees::link_pairs))]
fn add_links(alloc: Global, pairs: &mut Vec<(Name, Doc)>, entry: &Package) -> Result<(), AllocError>
    ensures { OnOk result (map pair_of pairs.new.items ≡ map pair_of pairs.old.items ++ link_pairs entry.now) }
{
    add_filled_object(alloc, pairs, Key::Require, entry.require.as_slice())?;
    add_filled_object(alloc, pairs, Key::Conflict, entry.conflict.as_slice())?;
    add_filled_object(alloc, pairs, Key::Replace, entry.replace.as_slice())?;
    add_filled_object(alloc, pairs, Key::Provide, entry.provide.as_slice())
}

/// The keys of a locked package.
#[tactic(auto, unfolding(crate::specs::PackageTrees::locked_pairs))]
pub(crate) fn locked_members(alloc: Global, locked: &Locked) -> Result<Vec<(Name, Doc)>, AllocError>
    ensures { IfOk result (λ pairs. map pair_of pairs.items ≡ locked_pairs locked.now) }
{
    let entry = &locked.package;
    let mut pairs = Vec::new(alloc);
    add_string(alloc, &mut pairs, Key::Name, entry.name.as_slice())?;
    add_string(
        alloc,
        &mut pairs,
        Key::Version,
        entry.version_text.as_slice(),
    )?;
    let dist = dist_doc(alloc, &locked.url, locked.reference.as_slice())?;
    add(alloc, &mut pairs, Key::Dist, dist)?;
    add_links(alloc, &mut pairs, entry)?;
    add_string(alloc, &mut pairs, Key::Type, entry.kind.as_slice())?;
    add_autoload(alloc, &mut pairs, &entry.autoload)?;
    Ok(pairs)
}

impl Item for Locked {
    ghost use Rattle.lock_file.specs.PackageTrees.{locked_tree};

    ghost tree = { locked_tree };

    #[tactic(auto, unfolding(crate::specs::PackageTrees::locked_tree))]
    fn doc(&self, alloc: Global) -> Result<Doc, AllocError> {
        Ok(Doc::Obj(locked_members(alloc, self)?))
    }
}

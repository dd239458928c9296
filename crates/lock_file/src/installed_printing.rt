//! The text of an installed.json.

ghost use Rattle.std.specs.Prelude.{◌≡◌, ◌++◌, ◌∷◌, [], map, IfOk, OnOk};
ghost use Rattle.json_ordered.specs.JsonTree.{String, array_of};
ghost use Rattle.json_ordered.specs.Docs.{tree_of, pair_of};
ghost use Rattle.lock_file.specs.Locks.{locked_name};
ghost use Rattle.lock_file.specs.InstalledText.{install_path, installed_pairs, installed_tree, installed_dev, installed_json, IsByName, IsInstalledText};

use crate::package_doc::locked_members;
use crate::types::{Lock, Locked};
use crate::written::{add, add_string, string, with_line_end};
use json_ordered::Doc;
use manifest_read::fields::Key;
use path_name::Text;
use std::alloc::{AllocError, Global};
use version_norm::print;

/// Where a package is installed, seen from vendor/composer.
#[tactic(auto, unfolding(crate::specs::InstalledText::install_path))]
fn install_path(alloc: Global, name: &[u8]) -> Result<Vec<u8>, AllocError>
    ensures { IfOk result (λ path. path.items ≡ install_path name.now) }
{
    let mut path = Vec::from_slice(alloc, b"../")?;
    path.extend_from_slice(name)?;
    Ok(path)
}

/// An installed package.
#[tactic(auto, unfolding(crate::specs::InstalledText::installed_pairs, crate::specs::InstalledText::installed_tree))]
fn installed_doc(alloc: Global, locked: &Locked) -> Result<Doc, AllocError>
    ensures { IfOk result (λ doc. tree_of doc ≡ installed_tree locked.now) }
{
    let mut pairs = locked_members(alloc, locked)?;
    let version = print(alloc, &locked.package.version)?;
    add_string(
        alloc,
        &mut pairs,
        Key::VersionNormalized,
        version.as_slice(),
    )?;
    let path = install_path(alloc, locked.package.name.as_slice())?;
    add_string(alloc, &mut pairs, Key::InstallPath, path.as_slice())?;
    Ok(Doc::Obj(pairs))
}

/// Installed packages in order.
fn entries_doc(alloc: Global, entries: &[&Locked]) -> Result<Doc, AllocError>
    ensures { IfOk result (λ doc. tree_of doc ≡ array_of (map (λ entry. installed_tree entry.now) entries.now)) }
{
    let mut docs = Vec::with_capacity(alloc, entries.len())?;
    for entry in entries {
        docs.push(installed_doc(alloc, *entry)?)?;
    }
    Ok(Doc::List(docs))
}

/// The names of packages in order.
fn names_doc(alloc: Global, entries: &[&Locked]) -> Result<Doc, AllocError>
    ensures { IfOk result (λ doc. tree_of doc ≡ array_of (map (λ entry. String (locked_name entry.now)) entries.now)) }
{
    let mut docs = Vec::with_capacity(alloc, entries.len())?;
    for entry in entries {
        docs.push(string(alloc, entry.package.name.as_slice())?)?;
    }
    Ok(Doc::List(docs))
}

/// Adds packages.
fn add_entries<'a>(entries: &mut Vec<&'a Locked>, some: &'a [Locked]) -> Result<(), AllocError>
    ensures { OnOk result (map (λ entry. entry.now) entries.new.items ≡ map (λ entry. entry.now) entries.old.items ++ some.now) }
{
    for locked in some {
        entries.push(locked)?;
    }
    Ok(())
}

/// Puts packages in byte order of name.
fn sort_by_name(entries: &mut Vec<&Locked>) -> Result<(), AllocError>
    ensures { OnOk result (IsByName (map (λ entry. entry.now) entries.old.items) (map (λ entry. entry.now) entries.new.items)) }
{
    entries.sort_by(|a, b| a.package.name.cmp(&b.package.name))?;
    Ok(())
}

/// The installed packages of `packages-dev`.
fn installed_dev(dev: bool, lock: &Lock) -> &[Locked]
    ensures { result.now ≡ installed_dev dev lock.now }
{
    if dev {
        lock.packages_dev.as_slice()
    } else {
        &[]
    }
}

#[tactic(auto, unfolding(crate::specs::InstalledText::installed_json))]
fn installed_json(alloc: Global, dev: bool, packages: Doc, names: Doc) -> Result<Doc, AllocError>
    ensures { IfOk result (λ doc. tree_of doc ≡ installed_json dev (tree_of packages) (tree_of names)) }
{
    let mut pairs = Vec::with_capacity(alloc, 3)?;
    add(alloc, &mut pairs, Key::Packages, packages)?;
    add(alloc, &mut pairs, Key::Dev, Doc::Bool(dev))?;
    add(alloc, &mut pairs, Key::DevPackageNames, names)?;
    Ok(Doc::Obj(pairs))
}

/// The text of the installed.json of a project whose lock's packages were installed, with those for development where
/// `dev` holds.
///
/// It is JSON in the pretty form with a final LF: `packages`, in byte order of name, each as in the lock and behind that
/// with its normal version and its place; `dev`; and `dev-package-names`, in byte order.
///
/// Its one refusal is want of memory.
pub fn print_installed(alloc: Global, lock: &Lock, dev: bool) -> Result<Text, AllocError>
    ensures text { IfOk result (λ text. IsInstalledText lock.now dev text) }
{
    let mut dev_entries = Vec::new(alloc);
    add_entries(&mut dev_entries, installed_dev(dev, lock))?;
    let mut entries = Vec::new(alloc);
    add_entries(&mut entries, lock.packages.as_slice())?;
    add_entries(&mut entries, installed_dev(dev, lock))?;
    sort_by_name(&mut entries)?;
    sort_by_name(&mut dev_entries)?;
    let packages = entries_doc(alloc, entries.as_slice())?;
    let names = names_doc(alloc, dev_entries.as_slice())?;
    let doc = installed_json(alloc, dev, packages, names)?;
    with_line_end(alloc, &doc)
}

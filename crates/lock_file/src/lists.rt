//! The packages of a lock.

ghost use Rattle.std.specs.Prelude.{◌≡◌, map};
ghost use Rattle.path_name.specs.Given.{GivesValue};
ghost use Rattle.json_ordered.specs.Docs.{tree_of, pair_of};
ghost use Rattle.manifest_read.specs.declared.fault.FieldFault.TheVariants.{OutOfMemory};
ghost use Rattle.lock_file.specs.Locks.{locked_at, locked_name, lists_of};

use crate::dist::{Dist, dist_of};
use crate::entries::{Entry, entries_of};
use crate::types::Locked;
use json_ordered::Doc;
use manifest_read::fields::{Key, object};
use manifest_read::{FieldFault, package_from_doc, read_head};
use path_name::{Items, Name};
use std::alloc::Global;
use std::collections::BTreeSet;

/// The packages of a lock, and those for development.
#[derive(Drop)]
pub(crate) struct Lists {
    pub packages: Items<Locked>,
    pub packages_dev: Items<Locked>,
}

/// The package of an entry that stands at a pointer.
#[tactic(auto, unfolding(crate::specs::Locks::locked_at))]
fn locked_at(alloc: Global, doc: &Doc, at: &[u8]) -> Result<Locked, FieldFault>
    ensures { GivesValue OutOfMemory (locked_at at.now (tree_of doc.now)) result }
{
    let pairs = object(alloc, at, doc)?;
    let _head = read_head(alloc, doc, at)?;
    let Dist { url, reference } = dist_of(alloc, at, pairs)?;
    let package = package_from_doc(alloc, doc, at)?;
    Ok(Locked {
        package,
        url,
        reference,
    })
}

impl Entry for Locked {
    ghost use Rattle.lock_file.specs.Locks.{locked_at, locked_name};

    ghost reading = { locked_at };

    ghost named = { locked_name };

    fn read(alloc: Global, doc: &Doc, at: &[u8]) -> Result<Locked, FieldFault> {
        locked_at(alloc, doc, at)
    }

    fn name(&self) -> &Name {
        &self.package.name
    }
}

/// The packages of `packages` and `packages-dev`, both of which must be there.
#[tactic(auto, unfolding(crate::specs::Locks::lists_of))]
pub(crate) fn lists_of(alloc: Global, at: &[u8], pairs: &[(Name, Doc)]) -> Result<Lists, FieldFault>
    ensures { GivesValue OutOfMemory (lists_of at.now (map pair_of pairs.now)) result }
{
    let mut seen = BTreeSet::new(alloc);
    let packages = entries_of(alloc, &mut seen, at, pairs, Key::Packages)?;
    let packages_dev = entries_of(alloc, &mut seen, at, pairs, Key::PackagesDev)?;
    Ok(Lists {
        packages,
        packages_dev,
    })
}

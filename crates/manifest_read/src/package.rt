//! A package, as a manifest or an entry of a lock describes it.

ghost use Rattle.std.specs.Prelude.{◌≡◌, map, Ok, IfOk};
ghost use Rattle.path_name.specs.Given.{Gives, GivesValue};
ghost use Rattle.json_ordered.specs.Docs.{tree_of, pair_of};
ghost use Rattle.manifest_read.specs.declared.fault.FieldFault.TheVariants.{OutOfMemory};
ghost use Rattle.manifest_read.specs.Pointers.{below};
ghost use Rattle.manifest_read.specs.WellFormed.{IsMember};
ghost use Rattle.manifest_read.specs.Writable.{IsWritten, IsWritablePackage};
ghost use Rattle.manifest_read.specs.Packages.{package_name_at, member_name_at, root_name, name_of, default_version, version_text_of, entry_version_text_of, head_of, entry_head_of, library, kind_of, others_of, plain_package_at, package_entry_from, package_entry_of, package_head_of};

use crate::autoload::autoload_of;
use crate::config::version;
use crate::fault::FieldFault;
use crate::key::Key;
use crate::links::links_of;
use crate::names;
use crate::pointer::bad_field;
use crate::repositories::absent;
use crate::types::{Link, Package, Role};
use crate::values::{object, owned_text, text, value};
use json_ordered::Doc;
use path_name::{Items, Name, Text};
use std::alloc::Global;
use version_norm::Version;

/// The name and version of a package.
#[derive(Debug, PartialEq, Eq, Drop)]
pub struct Head {
    /// The name, in small letters.
    pub name: Name,
    /// The version as it is written.
    pub version_text: Text,
    /// The version.
    pub version: Version,
}

/// The links of a package other than its requirements.
#[derive(Drop)]
pub(crate) struct Others {
    pub conflict: Items<Link>,
    pub replace: Items<Link>,
    pub provide: Items<Link>,
}

/// The name of a package, in small letters.
#[tactic(auto, unfolding(crate::specs::Packages::package_name_at))]
fn package_name(alloc: Global, at: &[u8], token: &[u8], doc: &Doc) -> Result<Name, FieldFault>
    ensures { GivesValue OutOfMemory (package_name_at (below at.now token.now) (tree_of doc.now)) result }
{
    let text = text(alloc, at, token, doc)?;
    let name = names::lowered(alloc, text)?;
    if names::is_package_name(name.as_slice()) {
        Ok(name)
    } else {
        Err(bad_field(alloc, at, token))
    }
}

/// The name of a member, which is no reserved one.
#[tactic(auto, unfolding(crate::specs::Packages::member_name_at))]
fn member_name(alloc: Global, at: &[u8], token: &[u8], doc: &Doc) -> Result<Name, FieldFault>
    ensures { GivesValue OutOfMemory (member_name_at (below at.now token.now) (tree_of doc.now)) result }
{
    let name = package_name(alloc, at, token, doc)?;
    if names::is_reserved(name.as_slice()) {
        Err(FieldFault::ReservedName(name))
    } else {
        Ok(name)
    }
}

/// The name of a root without one.
#[tactic(auto, unfolding(crate::specs::Packages::root_name))]
fn root_name(alloc: Global) -> Result<Name, FieldFault>
    ensures { GivesValue OutOfMemory (Ok root_name) result }
{
    Ok(Name::of(Vec::from_slice(alloc, b"__root__")?))
}

/// The name of `name`. A root may have none.
#[tactic(auto, unfolding(crate::specs::Packages::name_of))]
fn name_of(alloc: Global, role: Role, at: &[u8], pairs: &[(Name, Doc)]) -> Result<Name, FieldFault>
    ensures { GivesValue OutOfMemory (name_of role at.now (map pair_of pairs.now)) result }
{
    let token = Key::Name.text();
    match (role, value(pairs, Key::Name)) {
        (Role::Root, None) => root_name(alloc),
        (Role::Root, Some(doc)) => package_name(alloc, at, token, doc),
        (Role::Member, None) => Err(bad_field(alloc, at, token)),
        (Role::Member, Some(doc)) => member_name(alloc, at, token, doc),
    }
}

/// The version's text where there is none.
#[tactic(auto, unfolding(crate::specs::Packages::default_version))]
fn default_version(role: Role) -> &'static [u8]
    ensures { result.now ≡ default_version role }
{
    match role {
        Role::Root => b"1.0.0",
        Role::Member => b"dev-main",
    }
}

fn default_version_text(alloc: Global, role: Role) -> Result<Text, FieldFault>
    ensures { GivesValue OutOfMemory (Ok (default_version role)) result }
{
    Ok(Text::of(Vec::from_slice(alloc, default_version(role))?))
}

/// The text of `version`.
#[tactic(auto, unfolding(crate::specs::Packages::version_text_of))]
fn version_text_of(
    alloc: Global,
    role: Role,
    at: &[u8],
    pairs: &[(Name, Doc)],
) -> Result<Text, FieldFault>
    ensures { GivesValue OutOfMemory (version_text_of role at.now (map pair_of pairs.now)) result }
{
    match value(pairs, Key::Version) {
        None => default_version_text(alloc, role),
        Some(doc) => owned_text(alloc, at, Key::Version.text(), doc),
    }
}

/// The text of an entry's `version`, which must be there.
#[tactic(auto, unfolding(crate::specs::Packages::entry_version_text_of))]
fn entry_version_text_of(
    alloc: Global,
    at: &[u8],
    pairs: &[(Name, Doc)],
) -> Result<Text, FieldFault>
    ensures { GivesValue OutOfMemory (entry_version_text_of at.now (map pair_of pairs.now)) result }
{
    let token = Key::Version.text();
    match value(pairs, Key::Version) {
        None => Err(bad_field(alloc, at, token)),
        Some(doc) => owned_text(alloc, at, token, doc),
    }
}

/// Name and version of a manifest.
#[tactic(auto, unfolding(crate::specs::Packages::head_of))]
pub(crate) fn head_of(
    alloc: Global,
    role: Role,
    at: &[u8],
    pairs: &[(Name, Doc)],
) -> Result<Head, FieldFault>
    ensures { GivesValue OutOfMemory (head_of role at.now (map pair_of pairs.now)) result }
{
    let name = name_of(alloc, role, at, pairs)?;
    let version_text = version_text_of(alloc, role, at, pairs)?;
    let version = version(alloc, at, Key::Version.text(), version_text.as_slice())?;
    Ok(Head {
        name,
        version_text,
        version,
    })
}

/// Name and version of an entry.
#[tactic(auto, unfolding(crate::specs::Packages::entry_head_of))]
fn entry_head_of(alloc: Global, at: &[u8], pairs: &[(Name, Doc)]) -> Result<Head, FieldFault>
    ensures { GivesValue OutOfMemory (entry_head_of at.now (map pair_of pairs.now)) result }
{
    let name = name_of(alloc, Role::Member, at, pairs)?;
    let version_text = entry_version_text_of(alloc, at, pairs)?;
    let version = version(alloc, at, Key::Version.text(), version_text.as_slice())?;
    Ok(Head {
        name,
        version_text,
        version,
    })
}

#[tactic(auto, unfolding(crate::specs::Packages::library))]
fn library(alloc: Global) -> Result<Text, FieldFault>
    ensures { GivesValue OutOfMemory (Ok library) result }
{
    Ok(Text::of(Vec::from_slice(alloc, b"library")?))
}

/// The text of `type`, `library` where it is missing.
#[tactic(auto, unfolding(crate::specs::Packages::kind_of))]
pub(crate) fn kind_of(alloc: Global, at: &[u8], pairs: &[(Name, Doc)]) -> Result<Text, FieldFault>
    ensures { GivesValue OutOfMemory (kind_of at.now (map pair_of pairs.now)) result }
{
    match value(pairs, Key::Type) {
        None => library(alloc),
        Some(doc) => owned_text(alloc, at, Key::Type.text(), doc),
    }
}

/// The links of `conflict`, `replace` and `provide`.
#[tactic(auto, unfolding(crate::specs::Packages::others_of))]
pub(crate) fn others_of(
    alloc: Global,
    own: &Version,
    at: &[u8],
    pairs: &[(Name, Doc)],
) -> Result<Others, FieldFault>
    ensures { GivesValue OutOfMemory (others_of own.now at.now (map pair_of pairs.now)) result }
{
    let conflict = links_of(alloc, own, at, pairs, Key::Conflict)?;
    let replace = links_of(alloc, own, at, pairs, Key::Replace)?;
    let provide = links_of(alloc, own, at, pairs, Key::Provide)?;
    Ok(Others {
        conflict,
        replace,
        provide,
    })
}

/// That the keys of a package that aren't offered are missing.
#[tactic(auto, unfolding(crate::specs::Packages::plain_package_at))]
pub(crate) fn plain_package(
    alloc: Global,
    at: &[u8],
    pairs: &[(Name, Doc)],
) -> Result<(), FieldFault>
    ensures { GivesValue OutOfMemory (plain_package_at at.now (map pair_of pairs.now)) result }
{
    absent(alloc, at, pairs, Key::TargetDir)?;
    absent(alloc, at, pairs, Key::IncludePath)
}

#[tactic(auto, unfolding(crate::specs::Packages::package_entry_from))]
fn package_entry(alloc: Global, at: &[u8], pairs: &[(Name, Doc)]) -> Result<Package, FieldFault>
    ensures { GivesValue OutOfMemory (package_entry_from at.now (map pair_of pairs.now)) result }
{
    let Head {
        name,
        version_text,
        version,
    } = entry_head_of(alloc, at, pairs)?;
    let require = links_of(alloc, &version, at, pairs, Key::Require)?;
    let others = others_of(alloc, &version, at, pairs)?;
    let kind = kind_of(alloc, at, pairs)?;
    let autoload = autoload_of(alloc, Role::Member, at, pairs, Key::Autoload)?;
    plain_package(alloc, at, pairs)?;
    let Others {
        conflict,
        replace,
        provide,
    } = others;
    Ok(Package {
        name,
        version_text,
        version,
        kind,
        require,
        conflict,
        replace,
        provide,
        autoload,
    })
}

/// The package of an entry of a lock or of installed.json that stands at the JSON pointer `at`.
///
/// The entry is an object with a `name` of a member and a `version`; `require`, `conflict`, `replace`, `provide`,
/// `type` and `autoload` have the forms of a member's manifest and may be missing; other keys are ignored. Refuses,
/// by the first fault in this order of keys, `BadField` and `NotOffered` with a pointer that begins with `at`, also
/// where `target-dir` or `include-path` is there, which come last, and `ReservedName`.
#[tactic(auto, unfolding(crate::specs::Packages::package_entry_of))]
pub fn package_from_doc(alloc: Global, doc: &Doc, at: &[u8]) -> Result<Package, FieldFault>
    // The fields, or the first fault.
    ensures exact { GivesValue OutOfMemory (package_entry_of at.now (tree_of doc.now)) result }
    // Each part of what is read has its form.
    ensures formed { IfOk result IsMember }
    // Texts are UTF-8 and names distinct, where those of the document are.
    ensures writable { IsWritten (tree_of doc.now) → IfOk result (λ entry. IsWritablePackage entry) }
{
    let pairs = object(alloc, at, doc)?;
    package_entry(alloc, at, pairs)
}

/// The name and the version of an entry, which come before its `dist`. Refuses what [`package_from_doc`] refuses
/// of these two.
#[tactic(auto, unfolding(crate::specs::Packages::package_head_of))]
pub fn read_head(alloc: Global, doc: &Doc, at: &[u8]) -> Result<Head, FieldFault>
    ensures exact { GivesValue OutOfMemory (package_head_of at.now (tree_of doc.now)) result }
{
    let pairs = object(alloc, at, doc)?;
    entry_head_of(alloc, at, pairs)
}

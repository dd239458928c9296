//! The text of a lock.

ghost use Rattle.std.specs.Prelude.{◌≡◌, ◌++◌, ◌∷◌, [], map, IfOk, OnOk};
ghost use Rattle.json_ordered.specs.Docs.{tree_of, pair_of};
ghost use Rattle.lock_file.specs.LockText.{readme_lines, readme_tree, grade_text, plugin_version, packages_tree, flags_tree, platform_tree, front_pairs, back_pairs, lock_tree, lock_text};
ghost use Rattle.lock_file.specs.Rereading.{IsKept, IsTextOf};

use crate::types::{FlagRow, Lock, PlatformLink};
use crate::written::{Member, add, add_string, array, object, string, with_line_end};
use itoa::Buffer;
use json_ordered::Doc;
use manifest_read::fields::Key;
use path_name::{Name, Text};
use std::alloc::{AllocError, Global};
use version_norm::Grade;

impl Member for FlagRow {
    ghost use Rattle.lock_file.specs.LockText.{flag_pair};

    ghost pair = { flag_pair };

    fn named_doc(&self, alloc: Global) -> Result<(Name, Doc), AllocError> {
        let mut digits = Buffer::new();
        let text = Vec::from_slice(alloc, digits.format(self.rank).as_bytes())?;
        let name = self.name.copy(alloc)?;
        Ok((name, Doc::Num(Text::of(text))))
    }
}

impl Member for PlatformLink {
    ghost use Rattle.lock_file.specs.LockText.{platform_pair};

    ghost pair = { platform_pair };

    fn named_doc(&self, alloc: Global) -> Result<(Name, Doc), AllocError> {
        let doc = string(alloc, self.text.as_slice())?;
        let name = self.name.copy(alloc)?;
        Ok((name, doc))
    }
}

/// How `minimum-stability` is spelled.
#[tactic(auto, unfolding(crate::specs::LockText::grade_text))]
fn grade_text(grade: Grade) -> &'static [u8]
    ensures { result.now ≡ grade_text grade }
{
    match grade {
        Grade::Stable => b"stable",
        Grade::Rc => b"RC",
        Grade::Beta => b"beta",
        Grade::Alpha => b"alpha",
        Grade::Dev => b"dev",
    }
}

#[tactic(auto, unfolding(crate::specs::LockText::plugin_version))]
fn plugin_version() -> &'static [u8]
    ensures { result.now ≡ plugin_version }
{
    b"2.6.0"
}

/// What Composer tells a reader of the file.
#[tactic(auto, unfolding(crate::specs::LockText::readme_tree, crate::specs::LockText::readme_lines))]
fn readme_doc(alloc: Global) -> Result<Doc, AllocError>
    ensures { IfOk result (λ doc. tree_of doc ≡ readme_tree) }
{
    let mut lines = Vec::with_capacity(alloc, 3)?;
    lines.push(string(
        alloc,
        b"This file locks the dependencies of your project to a known state",
    )?)?;
    lines.push(string(
        alloc,
        b"Read more about it at https://getcomposer.org/doc/01-basic-usage.md#installing-dependencies",
    )?)?;
    lines.push(string(alloc, b"This file is @generated automatically")?)?;
    Ok(Doc::List(lines))
}

/// Adds the keys up to `aliases`.
#[tactic(auto, unfolding(crate::specs::LockText::front_pairs))]
fn add_front(alloc: Global, pairs: &mut Vec<(Name, Doc)>, lock: &Lock) -> Result<(), AllocError>
    ensures { OnOk result (map pair_of pairs.new.items ≡ map pair_of pairs.old.items ++ front_pairs lock.now) }
{
    let readme = readme_doc(alloc)?;
    add(alloc, pairs, Key::Readme, readme)?;
    add_string(alloc, pairs, Key::ContentHash, lock.content_hash.as_slice())?;
    let packages = array(alloc, lock.packages.as_slice())?;
    add(alloc, pairs, Key::Packages, packages)?;
    let packages_dev = array(alloc, lock.packages_dev.as_slice())?;
    add(alloc, pairs, Key::PackagesDev, packages_dev)?;
    add(alloc, pairs, Key::Aliases, Doc::List(Vec::new(alloc)))
}

/// Adds the keys from `minimum-stability` on.
#[tactic(auto, unfolding(crate::specs::LockText::back_pairs))]
fn add_back(alloc: Global, pairs: &mut Vec<(Name, Doc)>, lock: &Lock) -> Result<(), AllocError>
    ensures { OnOk result (map pair_of pairs.new.items ≡ map pair_of pairs.old.items ++ back_pairs lock.now) }
{
    add_string(
        alloc,
        pairs,
        Key::MinimumStability,
        grade_text(lock.minimum),
    )?;
    let flags = object(alloc, lock.flags.as_slice())?;
    add(alloc, pairs, Key::StabilityFlags, flags)?;
    add(
        alloc,
        pairs,
        Key::PreferStable,
        Doc::Bool(lock.prefer_stable),
    )?;
    add(alloc, pairs, Key::PreferLowest, Doc::Bool(false))?;
    let platform = object(alloc, lock.platform.as_slice())?;
    add(alloc, pairs, Key::Platform, platform)?;
    let platform_dev = object(alloc, lock.platform_dev.as_slice())?;
    add(alloc, pairs, Key::PlatformDev, platform_dev)?;
    add_string(alloc, pairs, Key::PluginApiVersion, plugin_version())
}

#[tactic(auto, unfolding(crate::specs::LockText::lock_tree))]
fn lock_doc(alloc: Global, lock: &Lock) -> Result<Doc, AllocError>
    ensures { IfOk result (λ doc. tree_of doc ≡ lock_tree lock.now) }
{
    let mut pairs = Vec::with_capacity(alloc, 12)?;
    add_front(alloc, &mut pairs, lock)?;
    add_back(alloc, &mut pairs, lock)?;
    Ok(Doc::Obj(pairs))
}

/// The text of a composer.lock.
///
/// It is JSON in the pretty form with a final LF, its keys in the order in which Composer writes them, and so are those
/// of its packages; links, autoload rules and the entries of `autoload` that are empty are left out, and a single folder
/// of a prefix that was written as a text is written as one. Names, versions, constraints, prefixes and paths stand as
/// they were written, a url as the text of its folder.
///
/// What it gives for a lock that [`from_doc`](crate::from_doc) or [`lock_of`](crate::lock_of) gave is read as that lock
/// again. Its one refusal is want of memory.
#[tactic(auto, unfolding(crate::specs::LockText::lock_text))]
pub fn print(alloc: Global, lock: &Lock) -> Result<Text, AllocError>
    ensures text { IfOk result (λ text. text ≡ lock_text lock.now) }
    // A JSON text whose value says just that lock.
    ensures kept { IsKept lock.now → IfOk result (IsTextOf lock.now) }
{
    let doc = lock_doc(alloc, lock)?;
    with_line_end(alloc, &doc)
}

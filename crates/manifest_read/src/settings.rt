//! What a root says beside its package.

ghost use Rattle.std.specs.Prelude.{◌≡◌, map};
ghost use Rattle.path_name.specs.Given.{GivesValue};
ghost use Rattle.json_ordered.specs.Docs.{tree_of, pair_of};
ghost use Rattle.manifest_read.specs.declared.fault.FieldFault.TheVariants.{OutOfMemory};
ghost use Rattle.manifest_read.specs.Pointers.{below};
ghost use Rattle.manifest_read.specs.Settings.{grade_named, grade_at, minimum_of, no_settings, root_settings, settings_of};

use crate::config::{Config, config_of, no_config, switch};
use crate::fault::FieldFault;
use crate::key::Key;
use crate::pointer::bad_field;
use crate::repositories::repositories;
use crate::types::{Repository, Role};
use crate::values::{text, value};
use json_ordered::Doc;
use path_name::{Items, Name};
use std::alloc::Global;
use version_norm::Grade;

/// What a root says beside its package.
#[derive(Drop)]
pub(crate) struct Settings {
    pub repositories: Items<Repository>,
    pub minimum: Grade,
    pub prefer_stable: bool,
    pub config: Config,
}

/// The grade that a text names.
#[tactic(auto, unfolding(crate::specs::Settings::grade_named))]
fn grade_named(text: &[u8]) -> Option<Grade>
    ensures { result ≡ grade_named text.now }
{
    if text == b"stable".as_slice() {
        Some(Grade::Stable)
    } else if text == b"RC".as_slice() || text == b"rc".as_slice() {
        Some(Grade::Rc)
    } else if text == b"beta".as_slice() {
        Some(Grade::Beta)
    } else if text == b"alpha".as_slice() {
        Some(Grade::Alpha)
    } else if text == b"dev".as_slice() {
        Some(Grade::Dev)
    } else {
        None
    }
}

#[tactic(auto, unfolding(crate::specs::Settings::grade_at))]
fn grade(alloc: Global, at: &[u8], token: &[u8], doc: &Doc) -> Result<Grade, FieldFault>
    ensures { GivesValue OutOfMemory (grade_at (below at.now token.now) (tree_of doc.now)) result }
{
    let text = text(alloc, at, token, doc)?;
    match grade_named(text) {
        Some(grade) => Ok(grade),
        None => Err(bad_field(alloc, at, token)),
    }
}

/// The grade of `minimum-stability`, `Stable` where it is missing. Refuses `BadField` where it is no text that names
/// one.
#[tactic(auto, unfolding(crate::specs::Settings::minimum_of))]
pub fn minimum(alloc: Global, at: &[u8], pairs: &[(Name, Doc)]) -> Result<Grade, FieldFault>
    ensures { GivesValue OutOfMemory (minimum_of at.now (map pair_of pairs.now)) result }
{
    match value(pairs, Key::MinimumStability) {
        None => Ok(Grade::Stable),
        Some(doc) => grade(alloc, at, Key::MinimumStability.text(), doc),
    }
}

/// The settings of a member, and of a root that says nothing.
#[tactic(auto, unfolding(crate::specs::Settings::no_settings))]
fn no_settings(alloc: Global) -> Settings
    ensures { result ≡ no_settings }
{
    Settings {
        repositories: Items::of(Vec::new(alloc)),
        minimum: Grade::Stable,
        prefer_stable: false,
        config: no_config(alloc),
    }
}

#[tactic(auto, unfolding(crate::specs::Settings::root_settings))]
fn root_settings(alloc: Global, at: &[u8], pairs: &[(Name, Doc)]) -> Result<Settings, FieldFault>
    ensures { GivesValue OutOfMemory (root_settings at.now (map pair_of pairs.now)) result }
{
    let repositories = repositories(alloc, at, pairs)?;
    let minimum = minimum(alloc, at, pairs)?;
    let prefer_stable = switch(alloc, at, pairs, Key::PreferStable)?;
    let config = config_of(alloc, at, pairs)?;
    Ok(Settings {
        repositories,
        minimum,
        prefer_stable,
        config,
    })
}

/// The settings of a root; those of a member are ignored.
#[tactic(auto, unfolding(crate::specs::Settings::settings_of))]
pub(crate) fn settings_of(
    alloc: Global,
    role: Role,
    at: &[u8],
    pairs: &[(Name, Doc)],
) -> Result<Settings, FieldFault>
    ensures { GivesValue OutOfMemory (settings_of role at.now (map pair_of pairs.now)) result }
{
    match role {
        Role::Root => root_settings(alloc, at, pairs),
        Role::Member => Ok(no_settings(alloc)),
    }
}

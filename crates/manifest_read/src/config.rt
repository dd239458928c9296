//! The root's `config`.

ghost use Rattle.std.specs.Prelude.{◌≡◌, map};
ghost use Rattle.std.specs.Option.{option_copied};
ghost use Rattle.path_name.specs.Given.{GivesValue};
ghost use Rattle.json_ordered.specs.Docs.{tree_of, pair_of};
ghost use Rattle.manifest_read.specs.declared.fault.FieldFault.TheVariants.{OutOfMemory};
ghost use Rattle.manifest_read.specs.Pointers.{below};
ghost use Rattle.manifest_read.specs.Values.{each};
ghost use Rattle.manifest_read.specs.Versions.{version_at};
ghost use Rattle.manifest_read.specs.Settings.{boolean_of, is_vendor, vendor_dir_of, platform_version_at, platform_name_at, platform_row_at, platform_in, platform_of, no_config, config_in, config_at, config_of};

use crate::fault::FieldFault;
use crate::key::Key;
use crate::names;
use crate::pointer::{bad_field, below, not_offered};
use crate::repositories::is_false_value;
use crate::types::PlatformRow;
use crate::values::{boolean, object, text, value};
use json_ordered::Doc;
use path_name::{Items, Name};
use std::alloc::Global;
use version_norm::{Version, VersionFault};

/// What `config` says.
#[derive(Drop)]
pub(crate) struct Config {
    pub platform: Items<PlatformRow>,
    pub optimise: bool,
    pub authoritative: bool,
}

/// The version of a text.
#[tactic(auto, unfolding(crate::specs::Versions::version_at))]
pub(crate) fn version(
    alloc: Global,
    at: &[u8],
    token: &[u8],
    text: &[u8],
) -> Result<Version, FieldFault>
    ensures { GivesValue OutOfMemory (version_at (below at.now token.now) text.now) result }
{
    match version_norm::normalise(alloc, text) {
        Ok(version) => Ok(version),
        Err(VersionFault::DateVersion) => Err(bad_field(alloc, at, token)),
        Err(VersionFault::NotAVersion) => Err(bad_field(alloc, at, token)),
        Err(VersionFault::OutOfMemory) => Err(FieldFault::OutOfMemory),
    }
}

/// The truth value of a key, false where it is missing. Refuses `BadField` where it is none.
#[tactic(auto, unfolding(crate::specs::Settings::boolean_of))]
pub fn switch(alloc: Global, at: &[u8], pairs: &[(Name, Doc)], key: Key) -> Result<bool, FieldFault>
    ensures { GivesValue OutOfMemory (boolean_of at.now (map pair_of pairs.now) key) result }
{
    match value(pairs, key) {
        None => Ok(false),
        Some(doc) => boolean(alloc, at, key.text(), doc),
    }
}

#[tactic(auto, unfolding(crate::specs::Settings::is_vendor))]
fn is_vendor(text: Option<&[u8]>) -> bool
    ensures { result ≡ is_vendor (option_copied text.entry) }
{
    match text {
        None => false,
        Some(text) => text == b"vendor".as_slice(),
    }
}

/// That `vendor-dir` is missing or `vendor`.
#[tactic(auto, unfolding(crate::specs::Settings::vendor_dir_of))]
fn vendor_dir(alloc: Global, at: &[u8], pairs: &[(Name, Doc)]) -> Result<(), FieldFault>
    ensures { GivesValue OutOfMemory (vendor_dir_of at.now (map pair_of pairs.now)) result }
{
    match value(pairs, Key::VendorDir) {
        None => Ok(()),
        Some(doc) => {
            if is_vendor(doc.as_str()) {
                Ok(())
            } else {
                Err(not_offered(alloc, at, Key::VendorDir.text()))
            }
        }
    }
}

/// The version of a platform package. None: it is absent.
#[tactic(auto, unfolding(crate::specs::Settings::platform_version_at))]
fn platform_version(
    alloc: Global,
    at: &[u8],
    token: &[u8],
    doc: &Doc,
) -> Result<Option<Version>, FieldFault>
    ensures { GivesValue OutOfMemory (platform_version_at (below at.now token.now) (tree_of doc.now)) result }
{
    if is_false_value(doc) {
        return Ok(None);
    }
    let text = text(alloc, at, token, doc)?;
    let version = version(alloc, at, token, text)?;
    Ok(Some(version))
}

#[tactic(auto, unfolding(crate::specs::Settings::platform_name_at))]
fn platform_name(alloc: Global, at: &[u8], name: &[u8]) -> Result<Name, FieldFault>
    ensures { GivesValue OutOfMemory (platform_name_at (below at.now name.now) name.now) result }
{
    if names::is_platform_name(name) {
        Ok(Name::of(Vec::from_slice(alloc, name)?))
    } else {
        Err(bad_field(alloc, at, name))
    }
}

#[tactic(auto, unfolding(crate::specs::Settings::platform_row_at))]
fn platform_row(alloc: Global, at: &[u8], pair: &(Name, Doc)) -> Result<PlatformRow, FieldFault>
    ensures { GivesValue OutOfMemory (platform_row_at at.now (pair_of pair.now)) result }
{
    let token = pair.0.as_slice();
    let name = platform_name(alloc, at, token)?;
    let version = platform_version(alloc, at, token, &pair.1)?;
    Ok(PlatformRow { name, version })
}

fn platform_rows(
    alloc: Global,
    at: &[u8],
    pairs: &[(Name, Doc)],
) -> Result<Items<PlatformRow>, FieldFault>
    ensures { GivesValue OutOfMemory (each (platform_row_at at.now) (map pair_of pairs.now)) result }
{
    let mut rows = Vec::with_capacity(alloc, pairs.len())?;
    for pair in pairs {
        rows.push(platform_row(alloc, at, pair)?)?;
    }
    Ok(Items::of(rows))
}

#[tactic(auto, unfolding(crate::specs::Settings::platform_in))]
fn platform_in(alloc: Global, at: &[u8], doc: &Doc) -> Result<Items<PlatformRow>, FieldFault>
    ensures { GivesValue OutOfMemory (platform_in at.now (tree_of doc.now)) result }
{
    let pairs = object(alloc, at, doc)?;
    platform_rows(alloc, at, pairs)
}

/// The platform packages of `platform`; none where it is missing.
#[tactic(auto, unfolding(crate::specs::Settings::platform_of))]
fn platform(
    alloc: Global,
    at: &[u8],
    pairs: &[(Name, Doc)],
) -> Result<Items<PlatformRow>, FieldFault>
    ensures { GivesValue OutOfMemory (platform_of at.now (map pair_of pairs.now)) result }
{
    match value(pairs, Key::Platform) {
        None => Ok(Items::of(Vec::new(alloc))),
        Some(doc) => {
            let pointer = below(alloc, at, Key::Platform.text())?;
            platform_in(alloc, pointer.as_slice(), doc)
        }
    }
}

/// What holds where nothing is configured.
#[tactic(auto, unfolding(crate::specs::Settings::no_config))]
pub(crate) fn no_config(alloc: Global) -> Config
    ensures { result ≡ no_config }
{
    Config {
        platform: Items::of(Vec::new(alloc)),
        optimise: false,
        authoritative: false,
    }
}

#[tactic(auto, unfolding(crate::specs::Settings::config_in))]
fn config_in(alloc: Global, at: &[u8], pairs: &[(Name, Doc)]) -> Result<Config, FieldFault>
    ensures { GivesValue OutOfMemory (config_in at.now (map pair_of pairs.now)) result }
{
    vendor_dir(alloc, at, pairs)?;
    let platform = platform(alloc, at, pairs)?;
    let optimise = switch(alloc, at, pairs, Key::OptimizeAutoloader)?;
    let authoritative = switch(alloc, at, pairs, Key::ClassmapAuthoritative)?;
    Ok(Config {
        platform,
        optimise,
        authoritative,
    })
}

#[tactic(auto, unfolding(crate::specs::Settings::config_at))]
fn config_at(alloc: Global, at: &[u8], doc: &Doc) -> Result<Config, FieldFault>
    ensures { GivesValue OutOfMemory (config_at at.now (tree_of doc.now)) result }
{
    let pairs = object(alloc, at, doc)?;
    config_in(alloc, at, pairs)
}

/// What `config` says; nothing where it is missing.
#[tactic(auto, unfolding(crate::specs::Settings::config_of))]
pub(crate) fn config_of(
    alloc: Global,
    at: &[u8],
    pairs: &[(Name, Doc)],
) -> Result<Config, FieldFault>
    ensures { GivesValue OutOfMemory (config_of at.now (map pair_of pairs.now)) result }
{
    match value(pairs, Key::Config) {
        None => Ok(no_config(alloc)),
        Some(doc) => {
            let pointer = below(alloc, at, Key::Config.text())?;
            config_at(alloc, pointer.as_slice(), doc)
        }
    }
}

//! The manifest of a document.

ghost use Rattle.std.specs.Prelude.{◌≡◌, [], map, Ok, IfOk};
ghost use Rattle.path_name.specs.Given.{Gives, GivesValue};
ghost use Rattle.json_ordered.specs.Docs.{tree_of, pair_of};
ghost use Rattle.manifest_read.specs.declared.fault.FieldFault.TheVariants.{OutOfMemory};
ghost use Rattle.manifest_read.specs.WellFormed.{IsManifest};
ghost use Rattle.manifest_read.specs.Writable.{IsWritten, IsWritableManifest};
ghost use Rattle.manifest_read.specs.Manifests.{dev_links_of, dev_autoload_of, manifest_from, manifest_of};

use crate::autoload::{autoload_of, no_rules};
use crate::config::Config;
use crate::fault::FieldFault;
use crate::key::Key;
use crate::links::links_of;
use crate::package::{Head, Others, head_of, kind_of, others_of, plain_package};
use crate::settings::{Settings, settings_of};
use crate::types::{Autoload, Link, Manifest, Package, Role};
use crate::values::object;
use json_ordered::Doc;
use path_name::{Items, Name};
use std::alloc::Global;
use version_norm::Version;

/// The links of `require-dev`, which a member's is ignored.
#[tactic(auto, unfolding(crate::specs::Manifests::dev_links_of))]
fn dev_links_of(
    alloc: Global,
    role: Role,
    own: &Version,
    at: &[u8],
    pairs: &[(Name, Doc)],
) -> Result<Items<Link>, FieldFault>
    ensures { GivesValue OutOfMemory (dev_links_of role own.now at.now (map pair_of pairs.now)) result }
{
    match role {
        Role::Root => links_of(alloc, own, at, pairs, Key::RequireDev),
        Role::Member => Ok(Items::of(Vec::new(alloc))),
    }
}

/// The rules of `autoload-dev`, which a member's are ignored.
#[tactic(auto, unfolding(crate::specs::Manifests::dev_autoload_of))]
fn dev_autoload_of(
    alloc: Global,
    role: Role,
    at: &[u8],
    pairs: &[(Name, Doc)],
) -> Result<Autoload, FieldFault>
    ensures { GivesValue OutOfMemory (dev_autoload_of role at.now (map pair_of pairs.now)) result }
{
    match role {
        Role::Root => autoload_of(alloc, Role::Root, at, pairs, Key::AutoloadDev),
        Role::Member => Ok(no_rules(alloc)),
    }
}

#[tactic(auto, unfolding(crate::specs::Manifests::manifest_from))]
fn manifest_from(
    alloc: Global,
    role: Role,
    at: &[u8],
    pairs: &[(Name, Doc)],
) -> Result<Manifest, FieldFault>
    ensures { GivesValue OutOfMemory (manifest_from role at.now (map pair_of pairs.now)) result }
{
    let Head {
        name,
        version_text,
        version,
    } = head_of(alloc, role, at, pairs)?;
    let kind = kind_of(alloc, at, pairs)?;
    let require = links_of(alloc, &version, at, pairs, Key::Require)?;
    let require_dev = dev_links_of(alloc, role, &version, at, pairs)?;
    let others = others_of(alloc, &version, at, pairs)?;
    let autoload = autoload_of(alloc, role, at, pairs, Key::Autoload)?;
    let autoload_dev = dev_autoload_of(alloc, role, at, pairs)?;
    let settings = settings_of(alloc, role, at, pairs)?;
    plain_package(alloc, at, pairs)?;
    let Others {
        conflict,
        replace,
        provide,
    } = others;
    let Settings {
        repositories,
        minimum,
        prefer_stable,
        config,
    } = settings;
    let Config {
        platform,
        optimise,
        authoritative,
    } = config;
    Ok(Manifest {
        package: Package {
            name,
            version_text,
            version,
            kind,
            require,
            conflict,
            replace,
            provide,
            autoload,
        },
        require_dev,
        autoload_dev,
        repositories,
        minimum,
        prefer_stable,
        platform,
        optimise,
        authoritative,
    })
}

/// The manifest of the document of a composer.json.
///
/// The keys are checked in the order `name`, `version`, `type`, `require`, `require-dev`, `conflict`, `replace`,
/// `provide`, `autoload`, `autoload-dev`, `repositories`, `minimum-stability`, `prefer-stable`, `config`,
/// `target-dir`, `include-path`, and inside one the entries in the document's order; the first fault is the answer.
/// Of a member `require-dev`, `autoload-dev` and the keys from `repositories` to `config` are ignored. Keys that
/// aren't named here are ignored, and an empty array is taken for an empty object.
///
/// Refuses `BadField(pointer)` where a value has another form than its key asks for, or a key that must be there is
/// missing; `NotOffered(pointer)` where what is written has a meaning that isn't offered; and `ReservedName(name)`
/// for a member whose vendor is `autoload.php`, or that is named as a file that is written to `vendor/composer`.
#[tactic(auto, unfolding(crate::specs::Manifests::manifest_of))]
pub fn from_doc(alloc: Global, doc: &Doc, role: Role) -> Result<Manifest, FieldFault>
    // The fields, or the first fault.
    ensures exact { GivesValue OutOfMemory (manifest_of role (tree_of doc.now)) result }
    // Each part of what is read has its form.
    ensures formed { IfOk result (λ manifest. IsManifest role manifest) }
    // Texts are UTF-8 and names distinct, where those of the document are.
    ensures writable { IsWritten (tree_of doc.now) → IfOk result (λ manifest. IsWritableManifest manifest) }
{
    let pairs = object(alloc, b"", doc)?;
    manifest_from(alloc, role, b"", pairs)
}

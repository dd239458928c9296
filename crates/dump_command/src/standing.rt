//! What is read of a project before its tables are written anew.

ghost use Rattle.std.specs.Prelude.{◌≡◌, IsTrue, IfErr, IfOk, IfSome, OnOk};
ghost use Rattle.tree_dev.specs.Device.{OfTold, OnlyRead};
ghost use Rattle.tree_dev.specs.Projects.{vendor_path};
ghost use Rattle.lock_file.specs.FormedLocks.{IsInstalled};
ghost use Rattle.manifest_read.specs.WellFormed.{IsManifest};
ghost use Rattle.manifest_read.specs.declared.types.Role.TheVariants.{Root};
ghost use Rattle.autoload_build.specs.Jobs.{HasReadManifests};
ghost use Rattle.run_answers.specs.Faults.{is_device_fault, is_of_tree};
ghost use Rattle.run_answers.specs.Steps.{Tells};
ghost use Rattle.project_files.specs.Places.{composer_place};
ghost use Rattle.table_files.specs.TableFolders.{HasTableFolders};
ghost use Rattle.dump_command.specs.Standing.{counts_dev, no_other_entry, project_of, root_in, standing_in, standing_of, table_folders_in, with_folders_in, with_installed_in};

use composer_words::Ways;
use lock_file::Installed;
use manifest_read::Manifest;
use path_name::{Items, Path};
use project_files::{ProjectManifest, generation, installed, places, project_manifest};
use psr_routes::Placed;
use run_answers::Refusal;
use std::alloc::{AllocError, Global};
use table_files::{Setting, members_in_place, mode_of};
use tree_dev::{Kind, Tree};

/// What the tables of an installed project are made of.
#[derive(Debug, Drop)]
pub struct Standing {
    /// Its manifest.
    pub root: Manifest,
    /// The packages that are installed, in their places.
    pub members: Items<Placed>,
    /// The mode that is asked for, whether rules for development count, and the generation of the tables that stand.
    pub setting: Setting,
    /// Whether there is an installed.json.
    pub is_listed: bool,
}

/// Refuses where something else than a folder is at a path.
#[tactic(auto, unfolding(crate::specs::Standing::no_other_entry))]
fn refuse_other<T: Tree>(tree: &mut T, at: Path) -> Result<(), Refusal>
    ensures told { OfTold (T.meaning tree.old) (λ t. Tells (λ passed. passed) (no_other_entry t at) result) }
    ensures only_read { OnlyRead (T.meaning tree.old) (T.meaning tree.new) (is_device_fault result) }
    ensures causes { IfErr result (λ refusal. IsTrue (is_of_tree refusal)) }
{
    match tree.stat(&at)? {
        Kind::Absent | Kind::Folder => Ok(()),
        Kind::File | Kind::Other => Err(Refusal::OtherEntry(at)),
    }
}

/// Refuses where something else than a folder is at `vendor`.
fn refuse_other_vendor<T: Tree>(alloc: Global, project: &Path, tree: &mut T) -> Result<(), Refusal>
    ensures told { OfTold (T.meaning tree.old) (λ t. Tells (λ passed. passed) (no_other_entry t (vendor_path project.now)) result) }
    ensures only_read { OnlyRead (T.meaning tree.old) (T.meaning tree.new) (is_device_fault result) }
    ensures causes { IfErr result (λ refusal. IsTrue (is_of_tree refusal)) }
{
    let at = project.child(alloc, b"vendor")?;
    refuse_other(tree, at)
}

/// Refuses where something else than a folder is at `vendor/composer`.
fn refuse_other_composer<T: Tree>(
    alloc: Global,
    project: &Path,
    tree: &mut T,
) -> Result<(), Refusal>
    ensures told { OfTold (T.meaning tree.old) (λ t. Tells (λ passed. passed) (no_other_entry t (composer_place project.now)) result) }
    ensures only_read { OnlyRead (T.meaning tree.old) (T.meaning tree.new) (is_device_fault result) }
    ensures causes { IfErr result (λ refusal. IsTrue (is_of_tree refusal)) }
{
    let at = places::composer_folder(alloc, project)?;
    refuse_other(tree, at)
}

/// Refuses where something else than a folder is at `vendor` or at `vendor/composer`.
#[tactic(auto, unfolding(crate::specs::Standing::table_folders_in))]
fn refuse_other_folders<T: Tree>(alloc: Global, project: &Path, tree: &mut T) -> Result<(), Refusal>
    ensures told { OfTold (T.meaning tree.old) (λ t. Tells (λ passed. passed) (table_folders_in t project.now) result) }
    ensures folders { OnOk result (OfTold (T.meaning tree.old) (HasTableFolders project.now)) }
    ensures only_read { OnlyRead (T.meaning tree.old) (T.meaning tree.new) (is_device_fault result) }
    ensures causes { IfErr result (λ refusal. IsTrue (is_of_tree refusal)) }
{
    refuse_other_vendor(alloc, project, tree)?;
    refuse_other_composer(alloc, project, tree)
}

/// Whether rules for development count: they were installed, and the words don't say otherwise.
fn counts_dev(ways: &Ways, installed: &Installed) -> bool
    ensures { result ≡ counts_dev ways.now installed.now }
{
    !ways.no_dev && installed.dev
}

/// What stands, of what was read.
fn read_standing(
    alloc: Global,
    project: &Path,
    ways: &Ways,
    stands: Option<u64>,
    root: Manifest,
    installed: Option<Installed>,
) -> Result<Standing, AllocError>
    requires { IfSome installed IsInstalled }
    ensures { IfOk result (λ standing. standing ≡ standing_of project.now ways.now stands root installed) }
{
    let mode = mode_of(ways, &root);
    match installed {
        None => Ok(Standing {
            root,
            members: Items::empty(alloc),
            setting: Setting {
                mode,
                dev: false,
                stands,
            },
            is_listed: false,
        }),
        Some(installed) => {
            let dev = counts_dev(ways, &installed);
            Ok(Standing {
                root,
                members: members_in_place(alloc, project, installed.packages)?,
                setting: Setting { mode, dev, stands },
                is_listed: true,
            })
        }
    }
}

/// The same, where the manifests are as they are read.
fn standing_of(
    alloc: Global,
    project: &Path,
    ways: &Ways,
    stands: Option<u64>,
    root: Manifest,
    installed: Option<Installed>,
) -> Result<Standing, AllocError>
    requires root { IsManifest Root root }
    requires installed { IfSome installed IsInstalled }
    ensures value { IfOk result (λ standing. standing ≡ standing_of project.now ways.now stands root installed) }
    ensures formed { IfOk result (λ standing. HasReadManifests (project_of project.now standing)) }
{
    read_standing(alloc, project, ways, stands, root, installed)
}

/// What stands, once the tables' folders were looked at.
#[tactic(auto, unfolding(crate::specs::Standing::with_folders_in))]
fn with_folders<T: Tree>(
    alloc: Global,
    project: &Path,
    ways: &Ways,
    stands: Option<u64>,
    root: Manifest,
    installed: Option<Installed>,
    tree: &mut T,
) -> Result<Standing, Refusal>
    requires root { IsManifest Root root }
    requires installed { IfSome installed IsInstalled }
    ensures told { OfTold (T.meaning tree.old) (λ t. Tells (λ standing. standing) (with_folders_in t project.now ways.now stands root installed) result) }
    ensures formed { IfOk result (λ standing. HasReadManifests (project_of project.now standing)) }
    ensures folders { OnOk result (OfTold (T.meaning tree.old) (HasTableFolders project.now)) }
    ensures only_read { OnlyRead (T.meaning tree.old) (T.meaning tree.new) (is_device_fault result) }
    ensures causes { IfErr result (λ refusal. IsTrue (is_of_tree refusal)) }
{
    refuse_other_folders(alloc, project, tree)?;
    Ok(standing_of(alloc, project, ways, stands, root, installed)?)
}

/// What stands, once what is installed was read.
#[tactic(auto, unfolding(crate::specs::Standing::with_installed_in))]
fn with_installed<T: Tree>(
    alloc: Global,
    project: &Path,
    ways: &Ways,
    stands: Option<u64>,
    root: Manifest,
    tree: &mut T,
) -> Result<Standing, Refusal>
    requires { IsManifest Root root }
    ensures told { OfTold (T.meaning tree.old) (λ t. Tells (λ standing. standing) (with_installed_in t project.now ways.now stands root) result) }
    ensures formed { IfOk result (λ standing. HasReadManifests (project_of project.now standing)) }
    ensures folders { OnOk result (OfTold (T.meaning tree.old) (HasTableFolders project.now)) }
    ensures only_read { OnlyRead (T.meaning tree.old) (T.meaning tree.new) (is_device_fault result) }
    ensures causes { IfErr result (λ refusal. IsTrue (is_of_tree refusal)) }
{
    let installed = installed(alloc, project, tree)?;
    with_folders(alloc, project, ways, stands, root, installed, tree)
}

/// The manifest of a project, without its hash.
#[tactic(auto, unfolding(crate::specs::Standing::root_in))]
fn root_of<T: Tree>(alloc: Global, project: &Path, tree: &mut T) -> Result<Manifest, Refusal>
    ensures told { OfTold (T.meaning tree.old) (λ t. Tells (λ root. root) (root_in t project.now) result) }
    ensures formed { IfOk result (IsManifest Root) }
    ensures only_read { OnlyRead (T.meaning tree.old) (T.meaning tree.new) (is_device_fault result) }
    ensures causes { IfErr result (λ refusal. IsTrue (is_of_tree refusal)) }
{
    let ProjectManifest { root, .. } = project_manifest(alloc, project, tree)?;
    Ok(root)
}

/// What stands in a project: the generation of its tables, its manifest, the packages that are installed, in their places, and
/// in which way tables are asked for. The refusals come in this order: those of
/// [`project_manifest`](project_files::project_manifest), those of [`installed`](project_files::installed), and `OtherEntry`
/// where `vendor`, and then `vendor/composer`, is there and no folder. The tree is only read.
#[tactic(auto, unfolding(crate::specs::Standing::standing_in))]
pub fn standing_in<T: Tree>(
    alloc: Global,
    project: &Path,
    ways: &Ways,
    tree: &mut T,
) -> Result<Standing, Refusal>
    ensures told { OfTold (T.meaning tree.old) (λ t. Tells (λ standing. standing) (standing_in t project.now ways.now) result) }
    ensures formed { IfOk result (λ standing. HasReadManifests (project_of project.now standing)) }
    ensures folders { OnOk result (OfTold (T.meaning tree.old) (HasTableFolders project.now)) }
    ensures only_read { OnlyRead (T.meaning tree.old) (T.meaning tree.new) (is_device_fault result) }
    ensures causes { IfErr result (λ refusal. IsTrue (is_of_tree refusal)) }
{
    let stands = generation(alloc, project, tree)?;
    let root = root_of(alloc, project, tree)?;
    with_installed(alloc, project, ways, stands, root, tree)
}

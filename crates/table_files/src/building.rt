//! New tables of a project.

ghost use Rattle.std.specs.Prelude.{◌≡◌, ◌≤◌, List, false, IsTrue, Ok, IfOk, IfErr};
ghost use Rattle.tree_dev.specs.Device.{OfTold, OnlyRead};
ghost use Rattle.class_walk.specs.declared.job.Scanned.{Scanned};
ghost use Rattle.autoload_build.specs.Answers.{walks_of};
ghost use Rattle.autoload_build.specs.BuiltTables.{tables_of};
ghost use Rattle.run_answers.specs.Faults.{is_device_fault, is_of_tree};
ghost use Rattle.run_answers.specs.Steps.{Tells, TellsOne};
ghost use Rattle.table_files.specs.Modes.{next_generation};
ghost use Rattle.table_files.specs.NewTables.{AreBuilt, AreNewTables, FindsTables, project_with, with_generation};
ghost use Rattle.table_files.specs.WalkRefusals.{refusal_of_walk};

use crate::modes::{generation_behind, next_generation};
use autoload_build::tables;
use class_walk::WalkFault;
use manifest_read::Manifest;
use path_name::Path;
use psr_routes::Placed;
use run_answers::{Place, Refusal};
use std::alloc::Global;
use table_scan::{Mode, Tables};
use tree_dev::{Entries, Tree};

/// Which tables are wanted.
#[derive(Clone, Copy, Debug, PartialEq, Eq)]
pub struct Setting {
    /// Their mode.
    pub mode: Mode,
    /// Whether rules for development count.
    pub dev: bool,
    /// The generation of the tables that stand; None where none stand.
    pub stands: Option<u64>,
}

/// Tables, and their generation.
#[derive(Debug, Drop)]
pub struct NewTables {
    /// The tables.
    pub tables: Tables,
    /// Their generation, 1 or more.
    pub generation: u64,
}

/// Why classes are not found.
fn refusal_of_walk(fault: WalkFault) -> Refusal
    ensures value { result ≡ refusal_of_walk fault }
    ensures causes { IsTrue (is_of_tree result) }
{
    match fault {
        WalkFault::ClassmapMissing(at) => Refusal::ClassmapMissing(at),
        WalkFault::OtherEntry(at) => Refusal::OtherEntry(at),
        WalkFault::Limit(limit) => Refusal::Limit(limit),
        WalkFault::Vanished(at) => Refusal::Vanished(Place::Entry(at)),
        WalkFault::DeviceFault => Refusal::DeviceFault,
        WalkFault::OutOfMemory => Refusal::OutOfMemory,
    }
}

/// The tables of a generation. What is wanting where there are 2^32 packages or more is memory.
fn tables_for<T: Tree>(
    alloc: Global,
    tree: &mut T,
    project: &Path,
    root: &Manifest,
    members: &[Placed],
    setting: Setting,
    generation: u64,
    left: &mut Entries,
) -> Result<Tables, Refusal>
    ensures told { OfTold (T.meaning tree.old) (λ t. FindsTables (project_with project.now root.now members.now setting.dev) setting.mode generation
        (walks_of t (project_with project.now root.now members.now setting.dev) setting.mode left.old.left) left.new.left result) }
    ensures formed { IfOk result (λ tables. (found : List Scanned) × (tables ≡ tables_of (project_with project.now root.now members.now setting.dev) setting.mode generation found)) }
    ensures only_read { OnlyRead (T.meaning tree.old) (T.meaning tree.new) (is_device_fault result) }
    ensures causes { IfErr result (λ refusal. IsTrue (is_of_tree refusal)) }
{
    if u32::try_from(members.len()).is_err() {
        return Err(Refusal::OutOfMemory);
    }
    match tables(
        alloc,
        tree,
        project,
        root,
        members,
        setting.mode,
        setting.dev,
        generation,
        left,
    ) {
        Ok(tables) => Ok(tables),
        Err(fault) => Err(refusal_of_walk(fault)),
    }
}

/// Tables with their generation, where there is one behind that of the tables that stand.
fn with_generation(tables: Tables, stands: Option<u64>) -> Result<NewTables, Refusal>
    ensures told { Tells (λ new. new) (with_generation tables stands) result }
    ensures tables { IfOk result (λ new. (new.tables ≡ tables) × (next_generation stands ≡ Ok new.generation)) }
    ensures first { IfOk result (λ new. 1 ≤ new.generation) }
    ensures no_device { is_device_fault result ≡ false }
    ensures causes { IfErr result (λ refusal. IsTrue (is_of_tree refusal)) }
{
    match next_generation(stands) {
        Ok(generation) => Ok(NewTables { tables, generation }),
        Err(refusal) => Err(refusal),
    }
}

/// The tables of a root and its packages in their places, as [`tables`](autoload_build::tables) builds them, with the generation
/// behind that of the tables that stand. The tree is only read, and `left` is lowered by the number of entries that were listed.
///
/// The refusals come in this order: those of the walks for classes, then `Limit` where the tables that stand have the last
/// generation. Want of memory and a fault of the device may come at any place.
#[tactic(auto, unfolding(crate::specs::NewTables::AreNewTables))]
pub fn new_tables<T: Tree>(
    alloc: Global,
    tree: &mut T,
    project: &Path,
    root: &Manifest,
    members: &[Placed],
    setting: Setting,
    left: &mut Entries,
) -> Result<NewTables, Refusal>
    ensures told { OfTold (T.meaning tree.old) (λ t. TellsOne (λ new. (new, left.new.left))
        (AreNewTables t (project_with project.now root.now members.now setting.dev) setting left.old.left) result) }
    // Over every tree they are the tables of some files that were found.
    ensures built { IfOk result (AreBuilt (project_with project.now root.now members.now setting.dev) setting.mode) }
    ensures first { IfOk result (λ new. 1 ≤ new.generation) }
    ensures only_read { OnlyRead (T.meaning tree.old) (T.meaning tree.new) (is_device_fault result) }
    ensures causes { IfErr result (λ refusal. IsTrue (is_of_tree refusal)) }
{
    let generation = generation_behind(setting.stands);
    let tables = tables_for(
        alloc, tree, project, root, members, setting, generation, left,
    )?;
    with_generation(tables, setting.stands)
}

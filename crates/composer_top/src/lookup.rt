//! The command `lookup NAME`.

ghost use Rattle.std.specs.Prelude.{◌≡◌, false, All, IsTrue, IfOk, IfErr};
ghost use Rattle.path_name.specs.Given.{GivesValue};
ghost use Rattle.table_scan.specs.TableGrammar.{is_whole};
ghost use Rattle.tree_dev.specs.Device.{OnlyRead, OfTold};
ghost use Rattle.class_paths.specs.ClassNames.{IsClassName};
ghost use Rattle.run_answers.specs.Faults.{is_of_tree, is_device_fault};
ghost use Rattle.run_answers.specs.declared.refusal.Refusal.TheVariants.{OutOfMemory};
ghost use Rattle.run_answers.specs.Steps.{Tells};
ghost use Rattle.composer_top.specs.Outcome.{KeepsToWords, refusal_in};
ghost use Rattle.composer_top.specs.Outcome.Lookup.{refusal_of_lookup, named, found_in, looked_up, lookup_outcome};

use crate::standing_tables::{class_tables, refuse_pending};
use class_lookup::{Found, LookupFault, class_name, find};
use path_name::{Name, Path, Text};
use run_answers::Refusal;
use std::alloc::Global;
use table_scan::Tables;
use tree_dev::Tree;

/// The path of the file that a class opens. The refusals come in this order: `BadName` where the word is no class
/// name; `Pending` where an install isn't finished; `OtherEntry` or `Limit` of the first table file that is no file or
/// too long; `NoTables` where there is neither a table of prefixes nor a class map; `BadTables` where a text is no
/// table; `Nothing` where no file is found. The tree is only read.
#[tactic(auto, unfolding(crate::specs::Outcome::Lookup::lookup_outcome))]
pub fn lookup<T: Tree>(
    alloc: Global,
    project: &Path,
    word: &Text,
    tree: &mut T,
) -> Result<Path, Refusal>
    ensures told { OfTold (T.meaning tree.old) (λ t. Tells (λ path. path) (lookup_outcome t project.now word.now) result) }
    ensures only_read { OnlyRead (T.meaning tree.old) (T.meaning tree.new) (is_device_fault result) }
    ensures words { KeepsToWords (refusal_in (named word.now)) result }
{
    let name = class_of(alloc, word.as_slice())?;
    look_up(alloc, project, &name, tree)
}

/// The class that a word names.
fn class_of(alloc: Global, word: &[u8]) -> Result<Name, Refusal>
    ensures exact { GivesValue OutOfMemory (named word.now) result }
    ensures class { IfOk result (λ name. IsClassName name) }
    ensures no_device { is_device_fault result ≡ false }
{
    match class_name(alloc, word) {
        Ok(name) => Ok(name),
        Err(fault) => Err(refusal_of_lookup(fault)),
    }
}

fn refusal_of_lookup(fault: LookupFault) -> Refusal
    ensures { result ≡ refusal_of_lookup fault }
{
    match fault {
        LookupFault::BadName => Refusal::BadName,
        LookupFault::DeviceFault => Refusal::DeviceFault,
        LookupFault::OutOfMemory => Refusal::OutOfMemory,
    }
}

/// The path of the file that a class opens, by its name.
#[tactic(auto, unfolding(crate::specs::Outcome::Lookup::looked_up))]
fn look_up<T: Tree>(
    alloc: Global,
    project: &Path,
    name: &Name,
    tree: &mut T,
) -> Result<Path, Refusal>
    requires { IsClassName name.now }
    ensures told { OfTold (T.meaning tree.old) (λ t. Tells (λ path. path) (looked_up t project.now name.now) result) }
    ensures only_read { OnlyRead (T.meaning tree.old) (T.meaning tree.new) (is_device_fault result) }
    ensures causes { IfErr result (λ refusal. IsTrue (is_of_tree refusal)) }
{
    refuse_pending(alloc, project, tree)?;
    let tables = class_tables(alloc, project, tree)?;
    found_by(alloc, &tables, name, tree)
}

/// The path of the file that a class opens, by tables.
#[tactic(auto, unfolding(crate::specs::Outcome::Lookup::found_in))]
fn found_by<T: Tree>(
    alloc: Global,
    tables: &Tables,
    name: &Name,
    tree: &mut T,
) -> Result<Path, Refusal>
    requires name { IsClassName name.now }
    requires prefixes { All (λ row. IsTrue (is_whole row.prefix)) tables.now.psr4 }
    ensures told { OfTold (T.meaning tree.old) (λ t. Tells (λ path. path) (found_in t tables.now name.now) result) }
    ensures only_read { OnlyRead (T.meaning tree.old) (T.meaning tree.new) (is_device_fault result) }
    ensures causes { IfErr result (λ refusal. IsTrue (is_of_tree refusal)) }
{
    match find(alloc, tables, tree, name) {
        Ok(Found::File(path)) => Ok(path),
        Ok(Found::Nothing) => Err(Refusal::Nothing),
        Err(fault) => Err(refusal_of_lookup(fault)),
    }
}

//! The table files of a project, and the look at a journal that comes before.

ghost use Rattle.std.specs.Prelude.{◌≡◌, false, All, IsTrue, IfOk, IfErr, OnErr};
ghost use Rattle.table_scan.specs.TableGrammar.{is_whole};
ghost use Rattle.tree_dev.specs.Device.{OnlyRead, OfTold, Rose};
ghost use Rattle.run_answers.specs.Faults.{is_free, is_of_tree, is_device_fault};
ghost use Rattle.run_answers.specs.Steps.{Tells};
ghost use Rattle.composer_top.specs.Outcome.Tables.{not_pending, table_text_in, is_there, has_class_table, class_texts_in, file_texts_in, tables_in, class_tables_in, file_tables_in};

use path_name::{Path, Text};
use project_files::{places, text_at};
use run_answers::Refusal;
use std::alloc::Global;
use table_scan::{TableFile, TableTexts, Tables};
use tree_dev::{Kind, Tree};

/// Refuses where anything stands in the journal's place: an install is being finished, or was stopped.
#[tactic(auto, unfolding(crate::specs::Outcome::Tables::not_pending))]
pub fn refuse_pending<T: Tree>(alloc: Global, project: &Path, tree: &mut T) -> Result<(), Refusal>
    ensures told { OfTold (T.meaning tree.old) (λ t. Tells (λ passed. passed) (not_pending t project.now) result) }
    ensures only_read { OnlyRead (T.meaning tree.old) (T.meaning tree.new) (is_device_fault result) }
    ensures causes { IfErr result (λ refusal. IsTrue (is_of_tree refusal)) }
{
    match tree.stat(&places::journal(alloc, project)?)? {
        Kind::Absent => Ok(()),
        Kind::File | Kind::Folder | Kind::Other => Err(Refusal::Pending),
    }
}

/// The text of a table file; None where there is no such file. `OtherEntry` comes where something else stands there,
/// and `Limit` where the file has more than `FILE_BYTES` bytes.
#[tactic(auto, unfolding(crate::specs::Outcome::Tables::table_text_in))]
fn table_text<T: Tree>(
    alloc: Global,
    project: &Path,
    table: TableFile,
    tree: &mut T,
) -> Result<Option<Text>, Refusal>
    ensures told { OfTold (T.meaning tree.old) (λ t. Tells (λ text. text) (table_text_in t project.now table) result) }
    ensures only_read { OnlyRead (T.meaning tree.old) (T.meaning tree.new) (is_device_fault result) }
    ensures causes { IfErr result (λ refusal. IsTrue (is_of_tree refusal)) }
{
    text_at(alloc, places::table_file(alloc, project, table)?, tree)
}

/// The texts of the tables by which classes are looked up. `NoTables` comes where there is neither a table of prefixes
/// nor a class map.
#[tactic(auto, unfolding(crate::specs::Outcome::Tables::class_texts_in))]
fn class_texts<T: Tree>(alloc: Global, project: &Path, tree: &mut T) -> Result<TableTexts, Refusal>
    ensures told { OfTold (T.meaning tree.old) (λ t. Tells (λ texts. texts) (class_texts_in t project.now) result) }
    ensures only_read { OnlyRead (T.meaning tree.old) (T.meaning tree.new) (is_device_fault result) }
    ensures causes { IfErr result (λ refusal. IsTrue (is_of_tree refusal)) }
{
    let psr4 = table_text(alloc, project, TableFile::Psr4, tree)?;
    let psr0 = table_text(alloc, project, TableFile::Psr0, tree)?;
    let class_map = table_text(alloc, project, TableFile::ClassMap, tree)?;
    if psr4.is_none() && psr0.is_none() && class_map.is_none() {
        return Err(Refusal::NoTables);
    }
    let state = table_text(alloc, project, TableFile::State, tree)?;
    Ok(TableTexts {
        psr4,
        psr0,
        class_map,
        files: None,
        state,
    })
}

/// The texts of the table of files. `NoTables` comes where there is no table at all.
#[tactic(auto, unfolding(crate::specs::Outcome::Tables::file_texts_in))]
fn file_texts<T: Tree>(alloc: Global, project: &Path, tree: &mut T) -> Result<TableTexts, Refusal>
    ensures told { OfTold (T.meaning tree.old) (λ t. Tells (λ texts. texts) (file_texts_in t project.now) result) }
    ensures only_read { OnlyRead (T.meaning tree.old) (T.meaning tree.new) (is_device_fault result) }
    ensures causes { IfErr result (λ refusal. IsTrue (is_of_tree refusal)) }
{
    let files = table_text(alloc, project, TableFile::Files, tree)?;
    if files.is_none() && !has_class_table(alloc, project, tree)? {
        return Err(Refusal::NoTables);
    }
    Ok(TableTexts {
        psr4: None,
        psr0: None,
        class_map: None,
        files,
        state: None,
    })
}

/// Whether anything stands in the place of a table of prefixes or of the class map.
#[tactic(auto, unfolding(crate::specs::Outcome::Tables::has_class_table))]
fn has_class_table<T: Tree>(alloc: Global, project: &Path, tree: &mut T) -> Result<bool, Refusal>
    ensures told { OfTold (T.meaning tree.old) (λ t. IfOk result (λ has. has ≡ has_class_table t project.now)) }
    ensures free { IfErr result (λ refusal. IsTrue (is_free refusal)) }
    ensures only_read { OnlyRead (T.meaning tree.old) (T.meaning tree.new) (is_device_fault result) }
    ensures causes { IfErr result (λ refusal. IsTrue (is_of_tree refusal)) }
{
    if is_there(alloc, project, TableFile::Psr4, tree)? {
        return Ok(true);
    }
    if is_there(alloc, project, TableFile::Psr0, tree)? {
        return Ok(true);
    }
    is_there(alloc, project, TableFile::ClassMap, tree)
}

/// Whether anything stands in a table's place.
#[tactic(auto, unfolding(crate::specs::Outcome::Tables::is_there))]
fn is_there<T: Tree>(
    alloc: Global,
    project: &Path,
    table: TableFile,
    tree: &mut T,
) -> Result<bool, Refusal>
    ensures told { OfTold (T.meaning tree.old) (λ t. IfOk result (λ there. there ≡ is_there t project.now table)) }
    ensures free { IfErr result (λ refusal. IsTrue (is_free refusal)) }
    ensures only_read { OnlyRead (T.meaning tree.old) (T.meaning tree.new) (is_device_fault result) }
    ensures causes { IfErr result (λ refusal. IsTrue (is_of_tree refusal)) }
{
    match tree.stat(&places::table_file(alloc, project, table)?)? {
        Kind::Absent => Ok(false),
        Kind::File | Kind::Folder | Kind::Other => Ok(true),
    }
}

/// The tables of texts. `BadTables` comes where a text is none, with the place.
fn tables_of(alloc: Global, project: &Path, texts: &TableTexts) -> Result<Tables, Refusal>
    ensures told { Tells (λ tables. tables) (tables_in project.now texts.now) result }
    ensures whole { IfOk result (λ tables. All (λ row. IsTrue (is_whole row.prefix)) tables.psr4) }
    ensures no_device { is_device_fault result ≡ false }
    ensures causes { IfErr result (λ refusal. IsTrue (is_of_tree refusal)) }
{
    Ok(table_scan::read(alloc, texts, project)?)
}

/// The tables by which classes are looked up.
#[tactic(auto, unfolding(crate::specs::Outcome::Tables::class_tables_in))]
pub fn class_tables<T: Tree>(alloc: Global, project: &Path, tree: &mut T) -> Result<Tables, Refusal>
    ensures told { OfTold (T.meaning tree.old) (λ t. Tells (λ tables. tables) (class_tables_in t project.now) result) }
    ensures whole { IfOk result (λ tables. All (λ row. IsTrue (is_whole row.prefix)) tables.psr4) }
    ensures only_read { OnlyRead (T.meaning tree.old) (T.meaning tree.new) (is_device_fault result) }
    ensures causes { IfErr result (λ refusal. IsTrue (is_of_tree refusal)) }
{
    let texts = class_texts(alloc, project, tree)?;
    tables_of(alloc, project, &texts)
}

/// The table of files, alone.
#[tactic(auto, unfolding(crate::specs::Outcome::Tables::file_tables_in))]
pub fn file_tables<T: Tree>(alloc: Global, project: &Path, tree: &mut T) -> Result<Tables, Refusal>
    ensures told { OfTold (T.meaning tree.old) (λ t. Tells (λ tables. tables) (file_tables_in t project.now) result) }
    ensures only_read { OnlyRead (T.meaning tree.old) (T.meaning tree.new) (is_device_fault result) }
    ensures causes { IfErr result (λ refusal. IsTrue (is_of_tree refusal)) }
{
    let texts = file_texts(alloc, project, tree)?;
    tables_of(alloc, project, &texts)
}

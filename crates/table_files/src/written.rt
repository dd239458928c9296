//! The files that are written with the tables: these, what is installed, the autoloader, and the lock.

ghost use Rattle.std.specs.Prelude.{◌≡◌, ◌++◌, [], false, All, IsTrue, Some, IfOk, IfErr, OnOk};
ghost use Rattle.run_answers.specs.Faults.{is_device_fault, is_free, is_of_tree};
ghost use Rattle.run_answers.specs.Steps.{Tells};
ghost use Rattle.table_print.specs.AutoloadText.{autoload_text};
ghost use Rattle.table_print.specs.TablePrinting.{printed};
ghost use Rattle.table_scan.specs.DistinctKeys.{HaveDistinctKeys};
ghost use Rattle.table_scan.specs.TableGrammar.{is_whole};
ghost use Rattle.table_files.specs.Written.{AreReadBack, file_at_place, file_checked, part_of, parts_in, place_in, written_files};
ghost use Rattle.table_files.specs.declared.written.FilePlace.TheVariants as file_places;

use path_name::{Path, Text};
use project_files::places;
use run_answers::Refusal;
use stage_job::{Part, Source};
use std::alloc::{AllocError, Global};
use table_print::{autoload_text, lie_below, print};
use table_scan::{TableFile, TableTexts, Tables};
use tree_dev::{FILE_BYTES, LimitKind};

/// Where a file of a project stands.
#[derive(Clone, Copy, Debug, PartialEq, Eq)]
pub enum FilePlace {
    /// A table in `vendor/composer`.
    Table(TableFile),
    /// `vendor/composer/installed.json`
    Installed,
    /// `vendor/autoload.php`
    Autoloader,
    /// `composer.lock`
    Lock,
}

/// A file that is written.
#[derive(Debug, Drop)]
pub struct WrittenFile {
    /// Where it stands.
    pub place: FilePlace,
    /// Its text; None where it is left as it is.
    pub text: Option<Text>,
}

/// The texts of tables. Each of their paths has to lie in the project, as it does wherever the tree tells what it has; where what a
/// tree answers leads out of the project, there are no such texts, and what is told is want of memory.
pub fn texts_of(alloc: Global, project: &Path, tables: &Tables) -> Result<TableTexts, Refusal>
    requires distinct { HaveDistinctKeys tables.now }
    requires whole { All (λ row. IsTrue (is_whole row.prefix)) tables.now.psr4 }
    ensures value { IfOk result (λ texts. texts ≡ printed project.now tables.now) }
    // They are read as these tables again.
    ensures read_back { OnOk result (AreReadBack project.now tables.now) }
    ensures free { IfErr result (λ refusal. IsTrue (is_free refusal)) }
    ensures no_device { is_device_fault result ≡ false }
{
    if !lie_below(tables, project) {
        return Err(Refusal::OutOfMemory);
    }
    Ok(print(alloc, tables, project)?)
}

/// The text of the autoloader.
fn autoloader(alloc: Global) -> Result<Text, AllocError>
    ensures { IfOk result (λ text. text ≡ autoload_text) }
{
    Ok(Text::of(Vec::from_slice(alloc, autoload_text())?))
}

/// A table that is written.
fn table_file(table: TableFile, text: Option<Text>) -> WrittenFile
    ensures { result ≡ file_at_place (file_places.Table table) text }
{
    WrittenFile {
        place: FilePlace::Table(table),
        text,
    }
}

/// The files that are written with tables: these, in the order in which they are read, then `installed.json`, and then the
/// autoloader. Its one refusal is want of memory.
#[tactic(auto, unfolding(crate::specs::Written::written_files))]
pub fn written_files(
    alloc: Global,
    texts: TableTexts,
    installed: Option<Text>,
) -> Result<Vec<WrittenFile>, AllocError>
    ensures { IfOk result (λ written. written.items ≡ written_files texts installed) }
{
    let loader = WrittenFile {
        place: FilePlace::Autoloader,
        text: Some(autoloader(alloc)?),
    };
    let installed = WrittenFile {
        place: FilePlace::Installed,
        text: installed,
    };
    let TableTexts {
        psr4,
        psr0,
        class_map,
        files,
        state,
    } = texts;
    Ok(vec![in alloc;
        table_file(TableFile::Psr4, psr4),
        table_file(TableFile::Psr0, psr0),
        table_file(TableFile::ClassMap, class_map),
        table_file(TableFile::Files, files),
        table_file(TableFile::State, state),
        installed,
        loader,
    ]?)
}

/// Where a file stands in a project.
fn place_in(alloc: Global, project: &Path, place: FilePlace) -> Result<Path, AllocError>
    ensures { IfOk result (λ path. path ≡ place_in project.now place) }
{
    match place {
        FilePlace::Table(table) => places::table_file(alloc, project, table),
        FilePlace::Installed => places::installed(alloc, project),
        FilePlace::Autoloader => places::autoloader(alloc, project),
        FilePlace::Lock => places::lock(alloc, project),
    }
}

/// Refuses a text that has more than `FILE_BYTES` bytes.
fn refuse_long(alloc: Global, project: &Path, file: &WrittenFile) -> Result<(), Refusal>
    ensures told { Tells (λ passed. passed) (file_checked project.now file.now) result }
    ensures no_device { is_device_fault result ≡ false }
    ensures causes { IfErr result (λ refusal. IsTrue (is_of_tree refusal)) }
{
    let Some(text) = &file.text else {
        return Ok(());
    };
    if text.as_slice().len() > FILE_BYTES as usize {
        let at = place_in(alloc, project, file.place)?;
        return Err(Refusal::Limit(LimitKind::FileBytes(at)));
    }
    Ok(())
}

/// Puts the part of a file, where it has a text.
fn put_part(alloc: Global, parts: &mut Vec<Part>, file: WrittenFile) -> Result<(), AllocError>
    ensures { OnOk result (parts.new.items ≡ parts.old.items ++ part_of file) }
{
    let WrittenFile { place, text } = file;
    let Some(text) = text else {
        return Ok(());
    };
    let target = place_in(alloc, &Path::root(alloc), place)?;
    parts.push(Part {
        target,
        from: Source::Bytes(text),
    })?;
    Ok(())
}

/// The parts of the files that are written and have a text, in their order. `Limit`: a text, the first in this order, has more
/// than `FILE_BYTES` bytes.
#[tactic(auto, unfolding(crate::specs::Written::parts_in))]
pub fn parts_of(
    alloc: Global,
    project: &Path,
    written: Vec<WrittenFile>,
) -> Result<Vec<Part>, Refusal>
    ensures told { Tells (λ parts. parts.items) (parts_in project.now written.items) result }
    ensures no_device { is_device_fault result ≡ false }
    ensures causes { IfErr result (λ refusal. IsTrue (is_of_tree refusal)) }
{
    let mut parts = Vec::with_capacity(alloc, written.len())?;
    for file in written {
        refuse_long(alloc, project, &file)?;
        put_part(alloc, &mut parts, file)?;
    }
    Ok(parts)
}

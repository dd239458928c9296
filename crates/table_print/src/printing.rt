//! The texts of tables.

ghost use Rattle.std.specs.Prelude.{◌≡◌, ◌++◌, All, IsTrue, Ok, IfOk};
ghost use Rattle.std.specs.Option.{option_map};
ghost use Rattle.table_scan.specs.TableGrammar.{is_whole};
ghost use Rattle.table_scan.specs.TableFaults.{HoldsState, IsTableText, tables_of};
ghost use Rattle.table_print.specs.TablePrinting.{prefix_table_text, class_table_text, file_table_text, state_text, printed};
ghost use Rattle.table_print.specs.Printable.{HasFoldersBelow, HasClassBelow, HasFileBelow, AreBelow};
ghost use Rattle.table_scan.specs.DistinctKeys.{HaveDistinctKeys};
ghost use Rattle.table_print.specs.Parts.{table_start, HasSegments, HasClassSegments, HasFileSegments, HaveSegments};

use crate::parts::{Part, add, add_opening};
use crate::roots::Roots;
use crate::rows::{add_path_row, add_prefix_row};
use crate::state::state_text;
use path_name::{Path, Text};
use std::alloc::{AllocError, Global};
use table_scan::{ClassRow, FileRow, PrefixRow, State, TableFile, TableTexts, Tables};

/// What stands before the rows of a table.
fn table_start(alloc: Global, file: TableFile) -> Result<Vec<u8>, AllocError>
    ensures { IfOk result (λ out. out.items ≡ table_start file) }
{
    let mut out = Vec::new(alloc);
    add_opening(&mut out, file)?;
    add(&mut out, Part::Variables)?;
    add(&mut out, Part::Array)?;
    Ok(out)
}

/// The text of a prefix table. Its one refusal is want of memory.
fn prefix_text(
    alloc: Global,
    file: TableFile,
    rows: &[PrefixRow],
    roots: &Roots,
) -> Result<Text, AllocError>
    requires { All (HasFoldersBelow roots.now.project.now) rows.now }
    ensures text { IfOk result (λ text. text ≡ prefix_table_text roots.now.project.now file rows.now) }
    ensures segments { IfOk result (λ _. All HasSegments rows.now) }
{
    let mut out = table_start(alloc, file)?;
    for row in rows {
        add_prefix_row(&mut out, row, roots)?;
    }
    add(&mut out, Part::End)?;
    Ok(Text::of(out))
}

/// The text of the class map. Its one refusal is want of memory.
fn class_text(alloc: Global, rows: &[ClassRow], roots: &Roots) -> Result<Text, AllocError>
    requires { All (HasClassBelow roots.now.project.now) rows.now }
    ensures text { IfOk result (λ text. text ≡ class_table_text roots.now.project.now rows.now) }
    ensures segments { IfOk result (λ _. All HasClassSegments rows.now) }
{
    let mut out = table_start(alloc, TableFile::ClassMap)?;
    for row in rows {
        add_path_row(&mut out, row.class.as_slice(), &row.path, roots)?;
    }
    add(&mut out, Part::End)?;
    Ok(Text::of(out))
}

/// The text of the table of files. Its one refusal is want of memory.
fn file_text(alloc: Global, rows: &[FileRow], roots: &Roots) -> Result<Text, AllocError>
    requires { All (HasFileBelow roots.now.project.now) rows.now }
    ensures text { IfOk result (λ text. text ≡ file_table_text roots.now.project.now rows.now) }
    ensures segments { IfOk result (λ _. All HasFileSegments rows.now) }
{
    let mut out = table_start(alloc, TableFile::Files)?;
    for row in rows {
        add_path_row(&mut out, row.id.as_slice(), &row.path, roots)?;
    }
    add(&mut out, Part::End)?;
    Ok(Text::of(out))
}

/// The text of the state, where there is one.
fn state_file(alloc: Global, state: Option<State>) -> Result<Option<Text>, AllocError>
    ensures text { IfOk result (λ text. text ≡ option_map state_text state) }
    ensures holds { IfOk result (λ text. HoldsState text state) }
{
    match state {
        None => Ok(None),
        Some(state) => Ok(Some(state_text(alloc, state)?)),
    }
}

/// The texts of tables, file by file.
fn table_texts(alloc: Global, tables: &Tables, project: &Path) -> Result<TableTexts, AllocError>
    requires { AreBelow project.now tables.now }
    ensures texts { IfOk result (λ texts. texts ≡ printed project.now tables.now) }
    ensures segments { IfOk result (λ _. HaveSegments tables.now) }
    ensures state { IfOk result (λ texts. HoldsState texts.state tables.now.state) }
{
    let roots = Roots::of(alloc, project)?;
    let psr4 = prefix_text(alloc, TableFile::Psr4, tables.psr4.as_slice(), &roots)?;
    let psr0 = prefix_text(alloc, TableFile::Psr0, tables.psr0.as_slice(), &roots)?;
    let class_map = class_text(alloc, tables.class_map.as_slice(), &roots)?;
    let files = file_text(alloc, tables.files.as_slice(), &roots)?;
    let state = state_file(alloc, tables.state)?;
    Ok(TableTexts {
        psr4: Some(psr4),
        psr0: Some(psr0),
        class_map: Some(class_map),
        files: Some(files),
        state,
    })
}

/// The texts of tables, byte for byte as Composer writes its own. A path at or below the project's vendor
/// folder is seen from `$vendorDir`, any other from `$baseDir`; in single quotes `\` and `'` are preceded by
/// `\`; every row stands in a line of its own, and every text ends in LF. All five texts are there, but for
/// that of the state where the tables have none.
///
/// Each path has to lie at or below the project, the keys of each table have to be distinct, and a PSR-4
/// prefix has to be empty or end in `\`. Its one refusal is want of memory.
pub fn print(alloc: Global, tables: &Tables, project: &Path) -> Result<TableTexts, AllocError>
    requires below { AreBelow project.now tables.now }
    requires distinct { HaveDistinctKeys tables.now }
    requires whole { All (λ row. IsTrue (is_whole row.prefix)) tables.now.psr4 }
    // The texts, byte for byte.
    ensures texts { IfOk result (λ texts. texts ≡ printed project.now tables.now) }
    // They hold just these tables, by the grammar of tables.
    ensures holds { IfOk result (λ texts. IsTableText texts project.now tables.now) }
    // They are read as these tables again.
    ensures read_back { IfOk result (λ texts. tables_of project.now texts ≡ Ok tables.now) }
{
    Ok(table_texts(alloc, tables, project)?)
}

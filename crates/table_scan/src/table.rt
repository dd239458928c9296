//! The tables of a project's texts.

ghost use Rattle.std.specs.Prelude.{◌≡◌, ◌≢◌, Ok, All, IsTrue, map, IfOk, IfErr};
ghost use Rattle.path_name.specs.Given.{Gives};
ghost use Rattle.table_scan.specs.Keys.{allows};
ghost use Rattle.table_scan.specs.TableTokens.{text_tokens};
ghost use Rattle.table_scan.specs.TableGrammar.{is_whole};
ghost use Rattle.table_scan.specs.TableFaults.{IsTableText, IsTableFault, tables_of, prefixes_of, classes_of, prefix_of, class_of, with_last_values, file_row, prefix_table, class_table, file_table, state_table};
ghost use Rattle.table_scan.specs.DistinctKeys.{HaveDistinctKeys};
ghost use Rattle.table_scan.specs.TableSteps.{Reads, prefix_rows_at, class_rows_at, fault_of};
ghost use Rattle.table_scan.specs.declared.types.Tables.{Tables};
ghost use Rattle.table_scan.specs.declared.types.TableFault.TheVariants.{OutOfMemory};

use crate::head::head;
use crate::mark::ends;
use crate::repeats::last_values;
use crate::roots::Roots;
use crate::rows::{Keys, class_rows, prefix_rows};
use crate::state::state;
use crate::stop::Stop;
use crate::types::{
    ClassRow, FileRow, PrefixRow, State, TableFault, TableFile, TableTexts, Tables,
};
use path_name::{Items, Path, Text};
use std::alloc::{AllocError, Global};

/// The rows of prefixes of a text's tokens, as they are written.
fn prefix_steps(
    alloc: Global,
    roots: &Roots,
    keys: Keys,
    text: &[u8],
) -> Result<Vec<PrefixRow>, Stop>
    ensures { Reads (λ rows. rows.items) (prefix_rows_at roots.now.project.now (allows keys) (text_tokens text.now)) result }
{
    let inside = head(text)?;
    let (rows, rest) = prefix_rows(alloc, roots, keys, inside)?;
    ends(rest)?;
    Ok(rows)
}

/// The rows of prefixes that a text holds, as they are written.
fn prefixes(alloc: Global, roots: &Roots, keys: Keys, text: &[u8]) -> Result<Vec<PrefixRow>, Stop>
    ensures { Reads (λ rows. rows.items) (prefixes_of roots.now.project.now (allows keys) text.now) result }
{
    prefix_steps(alloc, roots, keys, text)
}

/// The rows of classes of a text's tokens, as they are written.
fn class_steps(alloc: Global, roots: &Roots, text: &[u8]) -> Result<Vec<ClassRow>, Stop>
    ensures { Reads (λ rows. rows.items) (class_rows_at roots.now.project.now (text_tokens text.now)) result }
{
    let inside = head(text)?;
    let (rows, rest) = class_rows(alloc, roots, inside)?;
    ends(rest)?;
    Ok(rows)
}

/// The rows of classes that a text holds, as they are written.
fn classes(alloc: Global, roots: &Roots, text: &[u8]) -> Result<Vec<ClassRow>, Stop>
    ensures { Reads (λ rows. rows.items) (classes_of roots.now.project.now text.now) result }
{
    class_steps(alloc, roots, text)
}

/// The rows of prefixes that a text holds. A key that is repeated has its first place and its last value.
fn last_prefixes(
    alloc: Global,
    roots: &Roots,
    keys: Keys,
    text: &[u8],
) -> Result<Vec<PrefixRow>, Stop>
    ensures { Reads (λ rows. rows.items) (with_last_values prefix_of (prefixes_of roots.now.project.now (allows keys) text.now)) result }
{
    let rows = prefixes(alloc, roots, keys, text)?;
    Ok(last_values(alloc, rows)?)
}

/// The rows of classes that a text holds. A key that is repeated has its first place and its last value.
fn last_classes(alloc: Global, roots: &Roots, text: &[u8]) -> Result<Vec<ClassRow>, Stop>
    ensures { Reads (λ rows. rows.items) (with_last_values class_of (classes_of roots.now.project.now text.now)) result }
{
    let rows = classes(alloc, roots, text)?;
    Ok(last_values(alloc, rows)?)
}

/// The fault of a text of this file that stops so, and has so many bytes.
fn fault(stop: Stop, file: TableFile, len: usize) -> TableFault
    ensures { result ≡ fault_of stop file len }
{
    match stop {
        Stop::Bad(left) => TableFault::BadTables(file, len.saturating_sub(left) as u64),
        Stop::OutOfMemory => TableFault::OutOfMemory,
    }
}

/// The rows of a prefix table, none where there is no text.
#[tactic(auto, unfolding(crate::specs::TableFaults::prefix_table))]
fn prefix_table(
    alloc: Global,
    roots: &Roots,
    keys: Keys,
    file: TableFile,
    text: &Option<Text>,
) -> Result<Items<PrefixRow>, TableFault>
    ensures { Gives (λ rows. rows) OutOfMemory (prefix_table roots.now.project.now (allows keys) file text.now) result }
{
    match text {
        None => Ok(Items::of(Vec::new(alloc))),
        Some(text) => match last_prefixes(alloc, roots, keys, text.as_slice()) {
            Ok(rows) => Ok(Items::of(rows)),
            Err(stop) => Err(fault(stop, file, text.as_slice().len())),
        },
    }
}

/// The rows of the class map, none where there is no text.
#[tactic(auto, unfolding(crate::specs::TableFaults::class_table))]
fn class_table(
    alloc: Global,
    roots: &Roots,
    text: &Option<Text>,
) -> Result<Items<ClassRow>, TableFault>
    ensures { Gives (λ rows. rows) OutOfMemory (class_table roots.now.project.now text.now) result }
{
    match text {
        None => Ok(Items::of(Vec::new(alloc))),
        Some(text) => match last_classes(alloc, roots, text.as_slice()) {
            Ok(rows) => Ok(Items::of(rows)),
            Err(stop) => Err(fault(stop, TableFile::ClassMap, text.as_slice().len())),
        },
    }
}

/// Rows of classes as those of files: the key is the id.
fn as_files(alloc: Global, rows: Vec<ClassRow>) -> Result<Vec<FileRow>, AllocError>
    ensures { IfOk result (λ files. files.items ≡ map file_row rows.items) }
{
    let mut files = Vec::with_capacity(alloc, rows.len())?;
    for row in rows {
        let ClassRow { class, path } = row;
        let id = Text::of(class.into_vec());
        files.push(FileRow { id, path })?;
    }
    Ok(files)
}

/// The rows of the table of files, none where there is no text.
#[tactic(auto, unfolding(crate::specs::TableFaults::file_table))]
fn file_table(
    alloc: Global,
    roots: &Roots,
    text: &Option<Text>,
) -> Result<Items<FileRow>, TableFault>
    ensures { Gives (λ rows. rows) OutOfMemory (file_table roots.now.project.now text.now) result }
{
    match text {
        None => Ok(Items::of(Vec::new(alloc))),
        Some(text) => match last_classes(alloc, roots, text.as_slice()) {
            Ok(rows) => Ok(Items::of(as_files(alloc, rows)?)),
            Err(stop) => Err(fault(stop, TableFile::Files, text.as_slice().len())),
        },
    }
}

/// The state, None where there is no text.
#[tactic(auto, unfolding(crate::specs::TableFaults::state_table))]
fn state_table(alloc: Global, text: &Option<Text>) -> Result<Option<State>, TableFault>
    ensures { Gives (λ found. found) OutOfMemory (state_table text.now) result }
{
    match text {
        None => Ok(None),
        Some(text) => match state(alloc, text.as_slice()) {
            Ok(found) => Ok(Some(found)),
            Err(stop) => Err(fault(stop, TableFile::State, text.as_slice().len())),
        },
    }
}

/// The tables of the texts, file by file.
#[tactic(auto, unfolding(crate::specs::TableFaults::tables_of))]
fn tables(alloc: Global, texts: &TableTexts, roots: &Roots) -> Result<Tables, TableFault>
    ensures { Gives (λ tables. tables) OutOfMemory (tables_of roots.now.project.now texts.now) result }
{
    let psr4 = prefix_table(alloc, roots, Keys::Whole, TableFile::Psr4, &texts.psr4)?;
    let psr0 = prefix_table(alloc, roots, Keys::Any, TableFile::Psr0, &texts.psr0)?;
    let class_map = class_table(alloc, roots, &texts.class_map)?;
    let files = file_table(alloc, roots, &texts.files)?;
    let state = state_table(alloc, &texts.state)?;
    Ok(Tables {
        psr4,
        psr0,
        class_map,
        files,
        state,
    })
}

/// The tables that the texts of a project's table files hold, whoever wrote them: the form of Composer's
/// own tables, with any blanks and comments between the tokens. A text that is None gives no rows, or no
/// state. A key that is repeated keeps its first place and takes its last value.
///
/// `BadTables` comes exactly where a text is outside that form, for the first such text in the order of
/// the fields, with the place of the first token with which no table of its kind goes on: a PSR-4 prefix
/// that is neither empty nor ends in `\`, and a path that can't be read or leads above the tree's root,
/// are such tokens.
pub fn read(alloc: Global, texts: &TableTexts, project: &Path) -> Result<Tables, TableFault>
    // What is read is what the texts hold.
    ensures tables { IfOk result (λ tables. IsTableText texts.now project.now tables) }
    // Texts that hold tables are read, unless memory runs out.
    ensures reads { (tables : Tables) → IsTableText texts.now project.now tables → Gives (λ found. found) OutOfMemory (Ok tables) result }
    // Else it is the first fault, with its place.
    ensures fault { IfErr result (λ e. e ≢ OutOfMemory → IsTableFault texts.now project.now e) }
    // The prefixes of PSR-4 rows are empty or end in `\`.
    ensures whole { IfOk result (λ tables. All (λ row. IsTrue (is_whole row.prefix)) tables.psr4) }
    // No key stands twice in a table.
    ensures distinct { IfOk result (λ tables. HaveDistinctKeys tables) }
    // The tables or the fault.
    ensures exact { Gives (λ tables. tables) OutOfMemory (tables_of project.now texts.now) result }
{
    let roots = Roots::of(alloc, project)?;
    tables(alloc, texts, &roots)
}

//! The command `files`.

ghost use Rattle.std.specs.Prelude.{◌≡◌, ◌++◌, ◌∷◌, [], IsTrue, IfOk, IfErr};
ghost use Rattle.std.specs.List.{flat_map};
ghost use Rattle.path_name.specs.Paths.{path_text};
ghost use Rattle.tree_dev.specs.Device.{OnlyRead, OfTold};
ghost use Rattle.run_answers.specs.Faults.{is_of_tree, is_device_fault};
ghost use Rattle.run_answers.specs.Steps.{Tells};
ghost use Rattle.composer_top.specs.Outcome.Files.{file_lines, files_outcome};

use crate::standing_tables::{file_tables, refuse_pending};
use path_name::{Path, Text};
use run_answers::Refusal;
use std::alloc::{AllocError, Global};
use table_scan::FileRow;
use tree_dev::Tree;

/// The paths of the files that are loaded always, a line each, in the order of the table. The refusals come in this
/// order: `Pending` where an install isn't finished; `OtherEntry` or `Limit` where the table is no file or too long;
/// `NoTables` where there is no table at all; `BadTables` where the text is no table. The tree is only read.
#[tactic(auto, unfolding(crate::specs::Outcome::Files::files_outcome))]
pub fn files<T: Tree>(alloc: Global, project: &Path, tree: &mut T) -> Result<Text, Refusal>
    ensures told { OfTold (T.meaning tree.old) (λ t. Tells (λ lines. lines) (files_outcome t project.now) result) }
    ensures only_read { OnlyRead (T.meaning tree.old) (T.meaning tree.new) (is_device_fault result) }
    ensures causes { IfErr result (λ refusal. IsTrue (is_of_tree refusal)) }
{
    refuse_pending(alloc, project, tree)?;
    let tables = file_tables(alloc, project, tree)?;
    Ok(Text::of(lines_of(alloc, tables.files.as_slice())?))
}

/// The paths of rows, a line each.
fn lines_of(alloc: Global, rows: &[FileRow]) -> Result<Vec<u8>, AllocError>
    ensures { IfOk result (λ lines. lines.items ≡ file_lines rows.now) }
{
    let mut lines = Vec::new(alloc);
    for row in rows {
        lines.extend_from_slice(row.path.text())?;
        lines.push(b'\n')?;
    }
    Ok(lines)
}

//! What stands before the rows of a table.

ghost use Rattle.table_scan.specs.TableTokens.{tokens, text_tokens};
ghost use Rattle.table_scan.specs.TableSteps.{Stands, folder_at, head_at};

use crate::gap::after_gaps;
use crate::mark::{Mark, behind_mark, marks, opened};
use crate::stop::Stop;

/// What follows the folder of the table's own file: `__DIR__` or `dirname(__FILE__)`.
fn behind_folder(text: &[u8]) -> Result<&[u8], Stop>
    ensures { Stands (λ rest. tokens rest.now) (folder_at (tokens text.now)) result }
{
    let here = after_gaps(text);
    if let Some(rest) = behind_mark(here, Mark::ThisDir) {
        return Ok(rest);
    }
    match behind_mark(here, Mark::Dirname) {
        Some(rest) => marks(rest, &[Mark::Open, Mark::ThisFile, Mark::Close]),
        None => Err(Stop::Bad(here.len())),
    }
}

/// What follows the head of a table: the two variables, and `return array(`.
pub fn head(text: &[u8]) -> Result<&[u8], Stop>
    ensures { Stands (λ rest. tokens rest.now) (head_at (text_tokens text.now)) result }
{
    let variables = opened(text)?;
    let folder = marks(
        variables,
        &[Mark::VendorDir, Mark::Assign, Mark::Dirname, Mark::Open],
    )?;
    let behind = behind_folder(folder)?;
    marks(
        behind,
        &[
            Mark::Close,
            Mark::Semicolon,
            Mark::BaseDir,
            Mark::Assign,
            Mark::Dirname,
            Mark::Open,
            Mark::VendorDir,
            Mark::Close,
            Mark::Semicolon,
            Mark::Return,
            Mark::Array,
            Mark::Open,
        ],
    )
}

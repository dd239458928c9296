//! What stands between and behind the items of a list.

ghost use Rattle.std.specs.Prelude.{◌≡◌, ◌<◌, length, IfOk};
ghost use Rattle.table_scan.specs.TableTokens.{tokens};
ghost use Rattle.table_scan.specs.TableSteps.{Stands, separator_at};
ghost use Rattle.table_scan.specs.Separators.{separator_of, rest_len};

use crate::gap::after_gaps;
use crate::mark::{Mark, behind_mark};
use crate::stop::Stop;

/// What stands behind an item of a list.
pub enum Separator<'a> {
    /// A `,`, with what follows it: another item or the list's end.
    Comma(&'a [u8]),
    /// The list's `)`, with what follows it.
    Close(&'a [u8]),
}

/// The next token, where it is a `,` or a `)`.
pub fn behind_item(text: &[u8]) -> Result<Separator<'_>, Stop>
    ensures reads { Stands separator_of (separator_at (tokens text.now)) result }
    ensures shorter { IfOk result (λ found. rest_len found < length text.now) }
{
    let here = after_gaps(text);
    if let Some(rest) = behind_mark(here, Mark::Comma) {
        return Ok(Separator::Comma(rest));
    }
    match behind_mark(here, Mark::Close) {
        Some(rest) => Ok(Separator::Close(rest)),
        None => Err(Stop::Bad(here.len())),
    }
}

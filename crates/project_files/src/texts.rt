//! Texts of files.

ghost use Rattle.std.specs.Prelude.{IsTrue, IfErr};
ghost use Rattle.tree_dev.specs.Device.{OnlyRead, OfTold};
ghost use Rattle.run_answers.specs.Faults.{is_of_tree, is_device_fault};
ghost use Rattle.run_answers.specs.Steps.{Tells};
ghost use Rattle.project_files.specs.Texts.{text_in};

use path_name::{Path, Text};
use run_answers::Refusal;
use std::alloc::Global;
use tree_dev::{FILE_BYTES, LimitKind, ReadAnswer, Tree};

/// The text of the file at a path; None where nothing is there. `OtherEntry` comes where something else stands there,
/// and `Limit` where the file has more than `FILE_BYTES` bytes.
#[tactic(auto, unfolding(crate::specs::Texts::text_in))]
pub fn text_at<T: Tree>(alloc: Global, path: Path, tree: &mut T) -> Result<Option<Text>, Refusal>
    ensures told { OfTold (T.meaning tree.old) (λ t. Tells (λ text. text) (text_in t path) result) }
    ensures only_read { OnlyRead (T.meaning tree.old) (T.meaning tree.new) (is_device_fault result) }
    ensures causes { IfErr result (λ refusal. IsTrue (is_of_tree refusal)) }
{
    match tree.read(alloc, &path, FILE_BYTES)? {
        ReadAnswer::Bytes(text) => Ok(Some(text)),
        ReadAnswer::Absent => Ok(None),
        ReadAnswer::NotFile => Err(Refusal::OtherEntry(path)),
        ReadAnswer::TooLong => Err(Refusal::Limit(LimitKind::FileBytes(path))),
    }
}

//! The state of the tables that stand.

ghost use Rattle.std.specs.Prelude.{◌≡◌, IsTrue, IfOk, IfErr};
ghost use Rattle.tree_dev.specs.Device.{OnlyRead, OfTold};
ghost use Rattle.run_answers.specs.Faults.{is_free, is_device_fault};
ghost use Rattle.project_files.specs.States.{generation_of, generation_in};

use crate::places;
use path_name::{Path, Text};
use run_answers::Refusal;
use std::alloc::{AllocError, Global};
use table_scan::{TableFault, TableFile, TableTexts};
use tree_dev::{FILE_BYTES, ReadAnswer, Tree};

/// The generation that a state's text names; None where it is none.
#[tactic(auto, unfolding(crate::specs::States::generation_of))]
fn generation_of(alloc: Global, project: &Path, text: Text) -> Result<Option<u64>, AllocError>
    ensures { IfOk result (λ generation. generation ≡ generation_of project.now text) }
{
    let texts = TableTexts {
        psr4: None,
        psr0: None,
        class_map: None,
        files: None,
        state: Some(text),
    };
    match table_scan::read(alloc, &texts, project) {
        Ok(tables) => match tables.state {
            Some(state) => Ok(Some(state.generation)),
            None => Ok(None),
        },
        Err(TableFault::BadTables(_, _)) => Ok(None),
        Err(TableFault::OutOfMemory) => Err(AllocError),
    }
}

/// The generation of the tables that stand. None where their state is no file, has more than `FILE_BYTES` bytes, or is none by
/// its text. The tree is only read; `DeviceFault` and want of memory are the only refusals.
#[tactic(auto, unfolding(crate::specs::States::generation_in))]
pub fn generation<T: Tree>(
    alloc: Global,
    project: &Path,
    tree: &mut T,
) -> Result<Option<u64>, Refusal>
    ensures told { OfTold (T.meaning tree.old) (λ t. IfOk result (λ generation. generation ≡ generation_in t project.now)) }
    ensures free { IfErr result (λ refusal. IsTrue (is_free refusal)) }
    ensures only_read { OnlyRead (T.meaning tree.old) (T.meaning tree.new) (is_device_fault result) }
{
    let at = places::table_file(alloc, project, TableFile::State)?;
    match tree.read(alloc, &at, FILE_BYTES)? {
        ReadAnswer::Bytes(text) => Ok(generation_of(alloc, project, text)?),
        ReadAnswer::Absent | ReadAnswer::NotFile | ReadAnswer::TooLong => Ok(None),
    }
}

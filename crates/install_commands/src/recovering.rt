//! The command `recover`.

ghost use Rattle.std.specs.Prelude.{◌≡◌, false, is_ok, IsTrue, IfOk, IfErr};
ghost use Rattle.tree_dev.specs.Trees.{FileTree};
ghost use Rattle.tree_dev.specs.Device.{OfTold, OnlyRead, Rose};
ghost use Rattle.tree_dev.specs.Steady.{EachImage};
ghost use Rattle.install_world.specs.InFlight.{Files, IsInFlight};
ghost use Rattle.install_world.specs.Recovery.{CanRecover};
ghost use Rattle.run_answers.specs.Faults.{is_free, is_device_fault, is_of_tree};
ghost use Rattle.run_answers.specs.Steps.{TellsOne};
ghost use Rattle.install_commands.specs.Recovering.{IsRecoveryAnswer, Recovers, is_unread, recovery_line};

use crate::refusals::refusal_of_recovery;
use install_world::{Recovered, finish_install};
use path_name::{Path, Text};
use run_answers::Refusal;
use std::alloc::{AllocError, Global};
use tree_dev::Tree;

/// The line that tells what recovery did.
#[tactic(auto, unfolding(crate::specs::Recovering::recovery_line))]
fn line_of(recovered: Recovered) -> &'static [u8]
    ensures { result.now ≡ recovery_line recovered }
{
    match recovered {
        Recovered::NothingToDo => b"nothing to do\n",
        Recovered::Removed => b"removed\n",
        Recovered::Finished => b"finished\n",
    }
}

/// The same line as a text of its own.
fn text_of(alloc: Global, recovered: Recovered) -> Result<Text, AllocError>
    ensures { IfOk result (λ text. text ≡ recovery_line recovered) }
{
    Ok(Text::of(Vec::from_slice(alloc, line_of(recovered))?))
}

/// Finishes an install that was committed and cut off, or takes one away that was not committed, and answers one line that
/// tells which: `nothing to do` where there is no `.install`, `removed` where no journal stood in it, else `finished`. It can be
/// stopped and run again at any moment, and is run only while no install runs. `BadJournal`: `.install/journal` is none, with
/// the place, and nothing was changed. `OtherEntry`: `.install` is no folder, the journal no file, or a folder that a part
/// needs is there as another kind; the parts before that one are done then. `Limit`: the journal passes `FILE_BYTES`, and nothing
/// was changed. `Vanished`: what earlier calls showed is no longer there; never over a tree that tells. Of what an install of this
/// program leaves nothing is refused. `DeviceFault` comes only where the device's count of faults rose.
pub fn recover<T: Tree>(alloc: Global, project: &Path, tree: &mut T) -> Result<Text, Refusal>
    ensures told { OfTold (T.meaning tree.old) (λ t. TellsOne (λ lines. lines) (IsRecoveryAnswer project.now t (T.meaning tree.new)) result) }
    ensures recovers { Recovers project.now (T.meaning tree.old) (T.meaning tree.new) (is_ok result) }
    // A journal that is bad or too long is looked at, and nothing else is done.
    ensures unchanged { IsTrue (is_unread result) → OnlyRead (T.meaning tree.old) (T.meaning tree.new) false }
    // Of what an install leaves nothing is refused, but for a fault of the device and want of memory.
    ensures fits { OfTold (T.meaning tree.old) (λ t. (surroundings : FileTree) (old new : Files)
        → EachImage (T.meaning tree.old) (IsInFlight project.now surroundings old new) → CanRecover project.now t
        → IfErr result (λ refusal. IsTrue (is_free refusal))) }
    ensures causes { IfErr result (λ refusal. IsTrue (is_of_tree refusal)) }
    ensures device { IsTrue (is_device_fault result) → Rose (T.meaning tree.old).faults (T.meaning tree.new).faults }
{
    match finish_install(alloc, tree, project) {
        Ok(recovered) => Ok(text_of(alloc, recovered)?),
        Err(fault) => Err(refusal_of_recovery(fault)),
    }
}

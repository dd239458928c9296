//! A device that tells nothing: a tree in memory behind it, and calls that it answers as another process would make them.

ghost use Rattle.std.specs.Prelude.{◌≡◌, is_err, if◌then◌else◌};
ghost use Rattle.std.specs.Result.{result_ok};
ghost use Rattle.tree_dev.specs.Device.{is_failed, next};

use path_name::Path;
use std::alloc::Global;
use tree_dev::{Did, Failed, Kind, ListAnswer, Made, MemoryTree, ReadAnswer, Tree, TreeFault};

/// Which call finds no place, though the tree has one.
#[derive(Clone, Copy, PartialEq, Eq)]
pub enum Lost {
    Nothing,
    MakeDir,
    Rename,
}

/// A tree in memory of which a contract sees the counts of faults and of writes alone.
#[derive(Drop)]
pub struct Quiet {
    pub tree: MemoryTree,
    pub lost: Lost,
    faults: u64,
    writes: u64,
}

impl Quiet {
    /// The device over a tree, and which call finds no place. No fault and no write is counted yet.
    pub fn over(tree: MemoryTree, lost: Lost) -> Quiet {
        Quiet {
            tree,
            lost,
            faults: 0,
            writes: 0,
        }
    }
}

/// The answer of a call that takes no memory, and a count of one fault more where it failed.
fn answer<X>(faults: &mut u64, found: Result<X, Failed>) -> Result<X, Failed>
    ensures answer { result_ok result ≡ result_ok found }
    ensures counted { faults.new ≡ (if is_err result then next faults.old else faults.old) }
{
    match found {
        Ok(answer) => Ok(answer),
        Err(_) => {
            *faults = faults.saturating_add(1);
            Err(Failed)
        }
    }
}

/// The same of a call that takes memory.
fn answer_in_memory<X>(faults: &mut u64, found: Result<X, TreeFault>) -> Result<X, TreeFault>
    ensures answer { result_ok result ≡ result_ok found }
    ensures counted { faults.new ≡ (if is_failed result then next faults.old else faults.old) }
{
    match found {
        Ok(answer) => Ok(answer),
        Err(TreeFault::OutOfMemory) => Err(TreeFault::OutOfMemory),
        Err(TreeFault::Failed) => {
            *faults = faults.saturating_add(1);
            Err(TreeFault::Failed)
        }
    }
}

impl Tree for Quiet {
    ghost use Rattle.std.specs.Prelude.{None, []};
    ghost use Rattle.std.specs.FinMap as map;
    ghost use Rattle.tree_dev.specs.Disk.{Disk};
    ghost use Rattle.tree_dev.specs.Told.{nothing_is_told, nothing_is_on_disk};

    ghost meaning = { λ quiet. record { told = None; faults = quiet.faults; writes = quiet.writes; disks = record { now = record { base = map.empty; pending = [] }; past = [] } } };

    fn stat(&mut self, at: &Path) -> Result<Kind, Failed> {
        answer(&mut self.faults, self.tree.stat(at))
    }

    fn list(&mut self, alloc: Global, at: &Path, most: u32) -> Result<ListAnswer, TreeFault> {
        answer_in_memory(&mut self.faults, self.tree.list(alloc, at, most))
    }

    fn read(&mut self, alloc: Global, at: &Path, most: u64) -> Result<ReadAnswer, TreeFault> {
        answer_in_memory(&mut self.faults, self.tree.read(alloc, at, most))
    }

    fn write(&mut self, at: &Path, bytes: &[u8]) -> Result<Did, Failed> {
        self.writes = self.writes.saturating_add(1);
        answer(&mut self.faults, self.tree.write(at, bytes))
    }

    fn make_dir(&mut self, at: &Path) -> Result<Made, Failed> {
        if self.lost == Lost::MakeDir {
            return Ok(Made::Misplaced);
        }
        answer(&mut self.faults, self.tree.make_dir(at))
    }

    fn rename(&mut self, from: &Path, to: &Path) -> Result<Did, Failed> {
        if self.lost == Lost::Rename {
            return Ok(Did::Misplaced);
        }
        answer(&mut self.faults, self.tree.rename(from, to))
    }

    fn remove_file(&mut self, at: &Path) -> Result<Did, Failed> {
        answer(&mut self.faults, self.tree.remove_file(at))
    }

    fn remove_dir(&mut self, at: &Path) -> Result<Did, Failed> {
        answer(&mut self.faults, self.tree.remove_dir(at))
    }

    fn barrier(&mut self) -> Result<(), Failed> {
        answer(&mut self.faults, self.tree.barrier())
    }

    ghost tells_trees = { λ _ t told. nothing_is_told t told };

    ghost tells_its_disk = { λ _ t told. let disk : Disk = record { base = map.empty; pending = [] } in nothing_is_on_disk disk t told };
}

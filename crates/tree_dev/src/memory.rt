//! A tree in memory.

ghost use Rattle.std.specs.Prelude.{◌≡◌, ◌≢◌, ◌-◌, ◌^◌, length, OnOk, OnErr, IfOk, IsErr, IsTrue, None, Some, is_err, if◌then◌else◌, ◌||◌};
ghost use Rattle.std.specs.FinMap as map;
ghost use Rattle.std.specs.FinSet as set;
ghost use Rattle.tree_dev.specs.Trees.{kind_at, read_at};
ghost use Rattle.tree_dev.specs.Memory.{is_from};
ghost use Rattle.tree_dev.specs.Device.{is_failed, next};

use crate::call_set::CallSet;
use crate::memory_disk::MemoryDisk;
use crate::{Did, Entry, Failed, Kind, ListAnswer, Made, ReadAnswer, Tree, TreeFault};
use path_name::Path;
use std::alloc::{AllocError, Global};
use std::marker::Model;

/// A tree in memory, for tests and for trying a command out. It tells its tree, and fails exactly at the
/// calls that it was told to fail at. A look-up takes time in the logarithm of the number of entries.
#[derive(Debug, Drop)]
pub struct MemoryTree {
    alloc: Global,
    disk: MemoryDisk,
    failing: CallSet,
    stopped: Option<u64>,
    calls: u64,
    writes: u64,
    short: u64,
    faults: u64,
}

impl Model for MemoryTree {
    ghost use Rattle.tree_dev.specs.Memory.{Memory, memory_code};

    ghost Value = { Memory };

    ghost coded = { memory_code };

    ghost view = { λ tree. record { disks = tree.disk; failing = tree.failing; stopped = tree.stopped; calls = tree.calls; writes = tree.writes; short = tree.short; faults = tree.faults } };
}

impl MemoryTree {
    ghost use Rattle.std.specs.Prelude.{◌≤◌};
    ghost use Rattle.std.specs.Option.{option_copied};
    ghost use Rattle.tree_dev.specs.Disk.{IsImage};
    ghost use Rattle.tree_dev.specs.Memory.{after_crash, after_put, did_put, files_of, new_disks, told_by};

    /// The root folder alone, which has not failed and fails at no call. Its one refusal is want of memory.
    pub fn new(alloc: Global) -> Result<MemoryTree, AllocError>
        ensures empty { IfOk result (λ tree. tree ≡ record { disks = new_disks; failing = set.empty; stopped = None; calls = 0; writes = 0; short = 0; faults = 0 }) }
        ensures tells { IfOk result (λ tree. (told_by tree).told ≡ Some (files_of tree)) }
    {
        let disk = MemoryDisk::new(alloc);
        disk.tells();
        Ok(MemoryTree {
            alloc,
            disk,
            failing: CallSet::new(alloc),
            stopped: None,
            calls: 0,
            writes: 0,
            short: 0,
            faults: 0,
        })
    }

    /// Puts an entry at a path, in place of what was there, and makes folders where nothing is there
    /// above it. The tree is then safe, with nothing pending. Misplaced: something above it is there and is
    /// no folder, the path is the root, or a folder is there and the entry is none. Its one refusal is want of
    /// memory, which changes nothing. A tree of 4,294,967,295 entries has no memory for another. This is no
    /// call of the device: it has no number and does not fail.
    pub fn put(&mut self, alloc: Global, at: &Path, entry: Entry) -> Result<Did, AllocError>
        ensures did { IfOk result (λ did. did ≡ did_put (files_of self.old) at.now entry) }
        ensures after { OnOk result (self.new ≡ after_put self.old at.now entry) }
        ensures tells { (told_by self.new).told ≡ Some (files_of self.new) }
        ensures no_memory { OnErr result (self.new ≡ self.old) }
    {
        let did = self.disk.put(alloc, at, entry);
        self.disk.tells();
        did
    }

    /// Names the numbers of the calls that are to fail, in place of those named before. Its one refusal
    /// is want of memory, which changes nothing.
    pub fn fail_at(&mut self, alloc: Global, calls: &[u64]) -> Result<(), AllocError>
        ensures ok { OnOk result (self.new ≡ record self.old { failing = set.from_list calls.now }) }
        ensures no_memory { OnErr result (self.new ≡ self.old) }
    {
        self.failing = CallSet::of(alloc, calls)?;
        Ok(())
    }

    /// Makes the call of this number and all later ones fail, beside those that `fail_at` named.
    pub fn stop_at(&mut self, call: u64)
        ensures { self.new ≡ record self.old { stopped = Some call } }
    {
        self.stopped = Some(call);
    }

    /// How many calls of the device came, failing ones among them. The count stands still at its last
    /// value, 2^64 - 1.
    pub fn calls(&self) -> u64
        ensures { result ≡ self.now.calls }
    {
        self.calls
    }

    /// How many calls of `write` came, failing ones among them. The count stands still at its last value.
    pub fn writes(&self) -> u64
        ensures { result ≡ self.now.writes }
    {
        self.writes
    }

    /// How many changes are pending, which the next barrier makes safe.
    pub fn pending(&self) -> u64
        ensures { result ≡ length self.now.disks.now.pending }
    {
        self.disk.pending()
    }

    /// Goes to what a crash leaves that keeps the first `applied` pending changes: every file that one of them wrote
    /// holds the bytes `torn`, if they are given, wherever a later one of them took it. The tree is then safe, and no
    /// call is to fail any more. This is no call of the device: it has no number and does not fail. Its one refusal is
    /// want of memory, which changes nothing. It takes time in proportion to all that happened to the tree.
    pub fn crash(
        &mut self,
        alloc: Global,
        applied: u64,
        torn: Option<&[u8]>,
    ) -> Result<(), AllocError>
        requires { applied ≤ length self.old.disks.now.pending }
        ensures after { OnOk result (self.new ≡ after_crash self.old applied (option_copied torn.entry)) }
        ensures image { OnOk result (IsImage self.old.disks.now (files_of self.new)) }
        ensures tells { (told_by self.new).told ≡ Some (files_of self.new) }
        ensures no_memory { OnErr result (self.new ≡ self.old) }
    {
        let done = self.disk.crash(alloc, applied, torn);
        self.disk.tells();
        done?;
        self.failing = CallSet::new(alloc);
        self.stopped = None;
        Ok(())
    }

    /// How many calls of the device found no memory. The count stands still at its last value.
    pub fn short(&self) -> u64
        ensures { result ≡ self.now.short }
    {
        self.short
    }
}

impl Tree for MemoryTree {
    ghost use Rattle.tree_dev.specs.Trees.{ListsNames, list_at};
    ghost use Rattle.tree_dev.specs.Changes.{did, made_folder};
    ghost use Rattle.tree_dev.specs.Memory.{files_of, told_by, after_call, after_change, after_barrier, after_fault, fails_next, one_write};
    ghost use Rattle.tree_dev.specs.declared.change.Change.TheVariants as changes;
    ghost use Rattle.tree_dev.specs.declared.entry.ListAnswer.TheVariants as listings;

    ghost meaning = { told_by };

    ghost use Rattle.tree_dev.specs.Told.{TellsBarrier, TellsChange, TellsFolder, told_is_tree, told_is_on_disk};

    ghost tells_trees = { told_is_tree };

    ghost tells_its_disk = { told_is_on_disk };

    fn stat(&mut self, at: &Path) -> Result<Kind, Failed>
        ensures kind { IfOk result (λ kind. kind ≡ kind_at (files_of self.old) at.now) }
        ensures after { self.new ≡ after_call self.old }
        ensures failed { is_err result ≡ fails_next self.old }
    {
        counted(
            &self.failing,
            self.stopped,
            &mut self.calls,
            &mut self.faults,
        )?;
        Ok(self.disk.kind(at))
    }

    fn list(&mut self, alloc: Global, at: &Path, most: u32) -> Result<ListAnswer, TreeFault>
        ensures answer { IfOk result (λ answer. answer ≡ list_at (files_of self.old) at.now most) }
        ensures names { IfOk result ListsNames }
        ensures all { IfOk result (λ answer. most ≡ 2 ^ 32 - 1 → answer ≢ listings.TooMany) }
        ensures after { self.new ≡ after_call self.old }
        ensures failed { is_failed result ≡ fails_next self.old }
    {
        self.disk.tells();
        counted(
            &self.failing,
            self.stopped,
            &mut self.calls,
            &mut self.faults,
        )?;
        Ok(self.disk.list(alloc, at, most)?)
    }

    fn read(&mut self, alloc: Global, at: &Path, most: u64) -> Result<ReadAnswer, TreeFault>
        ensures answer { IfOk result (λ answer. answer ≡ read_at (files_of self.old) at.now most) }
        ensures after { self.new ≡ after_call self.old }
        ensures failed { is_failed result ≡ fails_next self.old }
    {
        counted(
            &self.failing,
            self.stopped,
            &mut self.calls,
            &mut self.faults,
        )?;
        Ok(self.disk.read(alloc, at, most)?)
    }

    fn write(&mut self, at: &Path, bytes: &[u8]) -> Result<Did, Failed>
        ensures answer { IfOk result (λ answer. answer ≡ did (files_of self.old) (changes.Written at.now bytes.now)) }
        ensures tells { TellsChange (told_by self.old) (told_by self.new) (changes.Written at.now bytes.now) result }
        ensures after { OnOk result (self.new ≡ one_write (after_change self.old (changes.Written at.now bytes.now))) }
        ensures told { IsTrue (fails_next self.old) → IsErr result }
        ensures failed { OnErr result (self.new ≡ one_write (after_fault self.old)) }
    {
        self.disk.tells();
        self.writes = self.writes.saturating_add(1);
        counted(
            &self.failing,
            self.stopped,
            &mut self.calls,
            &mut self.faults,
        )?;
        let done = self.disk.write(self.alloc, at, bytes);
        self.disk.tells();
        answered(done, &mut self.short, &mut self.faults)
    }

    fn make_dir(&mut self, at: &Path) -> Result<Made, Failed>
        ensures answer { IfOk result (λ answer. answer ≡ made_folder (files_of self.old) at.now) }
        ensures tells { TellsFolder (told_by self.old) (told_by self.new) (changes.FolderMade at.now) result }
        ensures after { OnOk result (self.new ≡ after_change self.old (changes.FolderMade at.now)) }
        ensures told { IsTrue (fails_next self.old) → IsErr result }
        ensures failed { OnErr result (self.new ≡ after_fault self.old) }
    {
        self.disk.tells();
        counted(
            &self.failing,
            self.stopped,
            &mut self.calls,
            &mut self.faults,
        )?;
        let done = self.disk.make_dir(self.alloc, at);
        self.disk.tells();
        answered(done, &mut self.short, &mut self.faults)
    }

    fn rename(&mut self, from: &Path, to: &Path) -> Result<Did, Failed>
        ensures answer { IfOk result (λ answer. answer ≡ did (files_of self.old) (changes.Renamed from.now to.now)) }
        ensures tells { TellsChange (told_by self.old) (told_by self.new) (changes.Renamed from.now to.now) result }
        ensures after { OnOk result (self.new ≡ after_change self.old (changes.Renamed from.now to.now)) }
        ensures told { IsTrue (fails_next self.old) → IsErr result }
        ensures failed { OnErr result (self.new ≡ after_fault self.old) }
    {
        self.disk.tells();
        counted(
            &self.failing,
            self.stopped,
            &mut self.calls,
            &mut self.faults,
        )?;
        let done = self.disk.rename(self.alloc, from, to);
        self.disk.tells();
        answered(done, &mut self.short, &mut self.faults)
    }

    fn remove_file(&mut self, at: &Path) -> Result<Did, Failed>
        ensures answer { IfOk result (λ answer. answer ≡ did (files_of self.old) (changes.FileRemoved at.now)) }
        ensures tells { TellsChange (told_by self.old) (told_by self.new) (changes.FileRemoved at.now) result }
        ensures after { OnOk result (self.new ≡ after_change self.old (changes.FileRemoved at.now)) }
        ensures told { IsTrue (fails_next self.old) → IsErr result }
        ensures failed { OnErr result (self.new ≡ after_fault self.old) }
    {
        self.disk.tells();
        counted(
            &self.failing,
            self.stopped,
            &mut self.calls,
            &mut self.faults,
        )?;
        let done = self.disk.remove_file(self.alloc, at);
        self.disk.tells();
        answered(done, &mut self.short, &mut self.faults)
    }

    fn remove_dir(&mut self, at: &Path) -> Result<Did, Failed>
        ensures answer { IfOk result (λ answer. answer ≡ did (files_of self.old) (changes.FolderRemoved at.now)) }
        ensures tells { TellsChange (told_by self.old) (told_by self.new) (changes.FolderRemoved at.now) result }
        ensures after { OnOk result (self.new ≡ after_change self.old (changes.FolderRemoved at.now)) }
        ensures told { IsTrue (fails_next self.old) → IsErr result }
        ensures failed { OnErr result (self.new ≡ after_fault self.old) }
    {
        self.disk.tells();
        counted(
            &self.failing,
            self.stopped,
            &mut self.calls,
            &mut self.faults,
        )?;
        let done = self.disk.remove_dir(self.alloc, at);
        self.disk.tells();
        answered(done, &mut self.short, &mut self.faults)
    }

    fn barrier(&mut self) -> Result<(), Failed>
        ensures after { OnOk result (self.new ≡ after_barrier self.old) }
        ensures tells { TellsBarrier (told_by self.old) (told_by self.new) result }
        ensures told { IsTrue (fails_next self.old) → IsErr result }
        ensures failed { OnErr result (self.new ≡ after_fault self.old) }
    {
        self.disk.tells();
        counted(
            &self.failing,
            self.stopped,
            &mut self.calls,
            &mut self.faults,
        )?;
        let done = self.disk.settle();
        self.disk.tells();
        answered(done, &mut self.short, &mut self.faults)
    }
}

/// Whether the call of this number is to fail, and all later ones.
fn is_stopped(stopped: Option<u64>, call: u64) -> bool
    ensures { result ≡ is_from stopped call }
{
    match stopped {
        None => false,
        Some(first) => first <= call,
    }
}

/// Counts a call, and says whether it is to fail.
fn counted(
    failing: &CallSet,
    stopped: Option<u64>,
    calls: &mut u64,
    faults: &mut u64,
) -> Result<(), Failed>
    ensures calls { calls.new ≡ next calls.old }
    ensures faults { faults.new ≡ (if set.contains failing.now (next calls.old) || is_from stopped (next calls.old) then next faults.old else faults.old) }
    ensures failed { is_err result ≡ (set.contains failing.now (next calls.old) || is_from stopped (next calls.old)) }
{
    *calls = calls.saturating_add(1);
    if failing.contains(*calls) || is_stopped(stopped, *calls) {
        *faults = faults.saturating_add(1);
        return Err(Failed);
    }
    Ok(())
}

/// What a call answers that found memory or did not, which it counts.
fn answered<T: Drop>(
    found: Result<T, AllocError>,
    short: &mut u64,
    failed: &mut u64,
) -> Result<T, Failed>
    ensures ok { IfOk result (λ answer. found ≡ Ok answer) }
    ensures err { is_err result ≡ is_err found }
    ensures short { short.new ≡ (if is_err result then next short.old else short.old) }
    ensures failed { failed.new ≡ (if is_err result then next failed.old else failed.old) }
{
    match found {
        Ok(answer) => Ok(answer),
        Err(AllocError) => {
            *short = short.saturating_add(1);
            *failed = failed.saturating_add(1);
            Err(Failed)
        }
    }
}

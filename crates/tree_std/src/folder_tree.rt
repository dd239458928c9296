//! The files below the current folder as a tree.

ghost use Rattle.std.specs.Prelude.{◌≡◌, ◌≢◌, ◌-◌, ◌^◌, is_err, if◌then◌else◌, IfOk, OnOk, OnErr, IsErrOf};
ghost use Rattle.std.specs.Result.{result_ok};
ghost use Rattle.tree_dev.specs.Device.{is_failed, next};
ghost use Rattle.tree_std.specs.Untold.{untold, after_call, after_write};

use crate::folder::Folder;
use crate::trouble::Trouble;
use path_name::Path;
use std::alloc::Global;
use std::marker::Model;
use std::rt::Files;
use tree_dev::{Did, Failed, Kind, ListAnswer, Made, ReadAnswer, Tree, TreeFault};

/// The files below the current folder: `FolderTree::new(&rt)`. It tells no tree.
///
/// A link is of kind Other and is never followed, and a path that leads through an entry that is no folder, as
/// through a link, leads to nothing. What is on the way to a path is looked at once for the last folder
/// that calls went through, so a link that something else puts in a folder's place meanwhile may be followed.
///
/// Each error of the system is a fault, but for a path at which nothing is, also where a segment is
/// longer than the system has names. A path that is longer as a whole is a fault, and so are a name that is no
/// UTF-8 in a folder that is listed, and a name that is too long for what is to be made. A call that an
/// interrupt broke off is made again.
///
/// A contract sees the counts of faults and of writes, which stand still at their last value, 2^64 - 1.
#[derive(Drop)]
pub struct FolderTree<'a, R> {
    folder: Folder<'a, R>,
    faults: u64,
    writes: u64,
}

impl<'a, R> Model for FolderTree<'a, R> {
    ghost use Rattle.tree_std.specs.Untold.{Counts, counts_code};

    ghost Value = { Counts };

    ghost coded = { counts_code };

    ghost view = { λ tree. record { faults = tree.faults; writes = tree.writes } };
}

impl<'a, R: Files> FolderTree<'a, R> {
    /// The tree whose root is the current folder, which has not failed. Takes no memory.
    pub fn new(files: &'a R) -> FolderTree<'a, R>
        ensures { result ≡ record { faults = 0; writes = 0 } }
    {
        FolderTree {
            folder: Folder::new(files),
            faults: 0,
            writes: 0,
        }
    }
}

/// The answer of a call that takes no memory, and a count of one fault more where it failed.
fn answer<X>(faults: &mut u64, found: Result<X, Trouble>) -> Result<X, Failed>
    ensures answer { result_ok result ≡ result_ok found }
    ensures counted { faults.new ≡ (if is_err result then next faults.old else faults.old) }
{
    match found {
        Ok(answer) => Ok(answer),
        Err(_) => {
            *faults = faults.saturating_add(1);
            Err(Failed)
        }
    }
}

/// The same of a call that takes memory: want of it is no fault.
fn answer_in_memory<X>(faults: &mut u64, found: Result<X, Trouble>) -> Result<X, TreeFault>
    ensures answer { result_ok result ≡ result_ok found }
    ensures counted { faults.new ≡ (if is_failed result then next faults.old else faults.old) }
{
    match found {
        Ok(answer) => Ok(answer),
        Err(Trouble::OutOfMemory) => Err(TreeFault::OutOfMemory),
        Err(Trouble::Absent | Trouble::Failed) => {
            *faults = faults.saturating_add(1);
            Err(TreeFault::Failed)
        }
    }
}

impl<'a, R: Files> Tree for FolderTree<'a, R> {
    ghost use Rattle.tree_dev.specs.declared.fault.TreeFault.TheVariants as faults;
    ghost use Rattle.tree_dev.specs.declared.did.Did.TheVariants as dids;
    ghost use Rattle.tree_dev.specs.declared.did.Made.TheVariants as mades;
    ghost use Rattle.tree_dev.specs.declared.entry.ListAnswer.TheVariants as listings;
    ghost use Rattle.tree_dev.specs.declared.change.Change.TheVariants as changes;
    ghost use Rattle.tree_dev.specs.Trees.{ListsNames, kind_at, list_at, read_at};
    ghost use Rattle.tree_dev.specs.Changes.{did, made_folder};
    ghost use Rattle.tree_dev.specs.Device.{OnlyRead, OfTold, Rose, Stays, Adds, MayAdd, Settles, MaySettle, is_failed, next};
    ghost use Rattle.tree_dev.specs.Told.{nothing_is_told, nothing_is_on_disk};

    ghost meaning = { untold };

    fn stat(&mut self, at: &Path) -> Result<Kind, Failed>
        ensures kind { IfOk result (λ kind. OfTold (untold self.old) (λ t. kind ≡ kind_at t at.now)) }
        ensures only_read { OnlyRead (untold self.old) (untold self.new) (is_err result) }
        ensures cause { OnErr result (Rose self.old.faults self.new.faults) }
        ensures counted { self.new ≡ after_call self.old (is_err result) }
    {
        answer(&mut self.faults, self.folder.kind(at))
    }

    fn list(&mut self, alloc: Global, at: &Path, most: u32) -> Result<ListAnswer, TreeFault>
        ensures answer { IfOk result (λ answer. OfTold (untold self.old) (λ t. answer ≡ list_at t at.now most)) }
        ensures names { IfOk result ListsNames }
        ensures all { IfOk result (λ answer. most ≡ 2 ^ 32 - 1 → answer ≢ listings.TooMany) }
        ensures only_read { OnlyRead (untold self.old) (untold self.new) (is_failed result) }
        ensures counted { self.new ≡ after_call self.old (is_failed result) }
    {
        answer_in_memory(&mut self.faults, self.folder.list(alloc, at, most))
    }

    fn read(&mut self, alloc: Global, at: &Path, most: u64) -> Result<ReadAnswer, TreeFault>
        ensures answer { IfOk result (λ answer. OfTold (untold self.old) (λ t. answer ≡ read_at t at.now most)) }
        ensures only_read { OnlyRead (untold self.old) (untold self.new) (is_failed result) }
        ensures cause { IsErrOf result faults.Failed → Rose self.old.faults self.new.faults }
        ensures counted { self.new ≡ after_call self.old (is_failed result) }
    {
        answer_in_memory(&mut self.faults, self.folder.read(alloc, at, most))
    }

    fn write(&mut self, at: &Path, bytes: &[u8]) -> Result<Did, Failed>
        ensures answer { IfOk result (λ answer. OfTold (untold self.old) (λ t. answer ≡ did t (changes.Written at.now bytes.now))) }
        ensures done { IfOk result (λ answer. answer ≡ dids.Done → OfTold (untold self.old) (λ _. Adds (untold self.old) (untold self.new) (changes.Written at.now bytes.now))) }
        ensures misplaced { IfOk result (λ answer. answer ≡ dids.Misplaced → Stays (untold self.old) (untold self.new)) }
        ensures moments { MayAdd (untold self.old) (untold self.new) (changes.Written at.now bytes.now) }
        ensures cause { OnErr result (Rose self.old.faults self.new.faults) }
        ensures counts { self.new.writes ≡ next self.old.writes }
        ensures counted { self.new ≡ after_write self.old (is_err result) }
    {
        self.writes = self.writes.saturating_add(1);
        answer(&mut self.faults, self.folder.write(at, bytes))
    }

    fn make_dir(&mut self, at: &Path) -> Result<Made, Failed>
        ensures answer { IfOk result (λ answer. OfTold (untold self.old) (λ t. answer ≡ made_folder t at.now)) }
        ensures done { IfOk result (λ answer. answer ≡ mades.New → OfTold (untold self.old) (λ _. Adds (untold self.old) (untold self.new) (changes.FolderMade at.now))) }
        ensures misplaced { IfOk result (λ answer. answer ≢ mades.New → Stays (untold self.old) (untold self.new)) }
        ensures moments { MayAdd (untold self.old) (untold self.new) (changes.FolderMade at.now) }
        ensures cause { OnErr result (Rose self.old.faults self.new.faults) }
        ensures counts { self.new.writes ≡ self.old.writes }
        ensures counted { self.new ≡ after_call self.old (is_err result) }
    {
        answer(&mut self.faults, self.folder.make_dir(at))
    }

    fn rename(&mut self, from: &Path, to: &Path) -> Result<Did, Failed>
        ensures answer { IfOk result (λ answer. OfTold (untold self.old) (λ t. answer ≡ did t (changes.Renamed from.now to.now))) }
        ensures done { IfOk result (λ answer. answer ≡ dids.Done → OfTold (untold self.old) (λ _. Adds (untold self.old) (untold self.new) (changes.Renamed from.now to.now))) }
        ensures misplaced { IfOk result (λ answer. answer ≡ dids.Misplaced → Stays (untold self.old) (untold self.new)) }
        ensures moments { MayAdd (untold self.old) (untold self.new) (changes.Renamed from.now to.now) }
        ensures cause { OnErr result (Rose self.old.faults self.new.faults) }
        ensures counts { self.new.writes ≡ self.old.writes }
        ensures counted { self.new ≡ after_call self.old (is_err result) }
    {
        answer(&mut self.faults, self.folder.rename(from, to))
    }

    fn remove_file(&mut self, at: &Path) -> Result<Did, Failed>
        ensures answer { IfOk result (λ answer. OfTold (untold self.old) (λ t. answer ≡ did t (changes.FileRemoved at.now))) }
        ensures done { IfOk result (λ answer. answer ≡ dids.Done → OfTold (untold self.old) (λ _. Adds (untold self.old) (untold self.new) (changes.FileRemoved at.now))) }
        ensures misplaced { IfOk result (λ answer. answer ≡ dids.Misplaced → Stays (untold self.old) (untold self.new)) }
        ensures moments { MayAdd (untold self.old) (untold self.new) (changes.FileRemoved at.now) }
        ensures cause { OnErr result (Rose self.old.faults self.new.faults) }
        ensures counts { self.new.writes ≡ self.old.writes }
        ensures counted { self.new ≡ after_call self.old (is_err result) }
    {
        answer(&mut self.faults, self.folder.remove_file(at))
    }

    fn remove_dir(&mut self, at: &Path) -> Result<Did, Failed>
        ensures answer { IfOk result (λ answer. OfTold (untold self.old) (λ t. answer ≡ did t (changes.FolderRemoved at.now))) }
        ensures done { IfOk result (λ answer. answer ≡ dids.Done → OfTold (untold self.old) (λ _. Adds (untold self.old) (untold self.new) (changes.FolderRemoved at.now))) }
        ensures misplaced { IfOk result (λ answer. answer ≡ dids.Misplaced → Stays (untold self.old) (untold self.new)) }
        ensures moments { MayAdd (untold self.old) (untold self.new) (changes.FolderRemoved at.now) }
        ensures cause { OnErr result (Rose self.old.faults self.new.faults) }
        ensures counts { self.new.writes ≡ self.old.writes }
        ensures counted { self.new ≡ after_call self.old (is_err result) }
    {
        answer(&mut self.faults, self.folder.remove_dir(at))
    }

    /// Syncs the root folder.
    fn barrier(&mut self) -> Result<(), Failed>
        ensures done { OnOk result (OfTold (untold self.old) (λ _. Settles (untold self.old) (untold self.new))) }
        ensures failed { OnErr result (Stays (untold self.old) (untold self.new)) }
        ensures moments { MaySettle (untold self.old) (untold self.new) }
        ensures cause { OnErr result (Rose self.old.faults self.new.faults) }
        ensures counts { self.new.writes ≡ self.old.writes }
        ensures counted { self.new ≡ after_call self.old (is_err result) }
    {
        answer(&mut self.faults, self.folder.sync())
    }

    ghost tells_trees = { λ _ t told. nothing_is_told t told };

    ghost tells_its_disk = { λ tree t told. nothing_is_on_disk (untold tree).disks.now t told };
}

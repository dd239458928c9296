//! All jobs, one after another.

ghost use Rattle.std.specs.Prelude.{◌≡◌, ◌<◌, ◌^◌, ◌≤◌, ℕ, List, [], false, Some, Ok, length, MatchResult};
ghost use Rattle.tree_dev.specs.Trees.{entry_at};
ghost use Rattle.tree_dev.specs.Device.{OfTold, OnlyRead};
ghost use Rattle.tree_dev.specs.declared.entry.Entry.TheVariants as entries;
ghost use Rattle.class_walk.specs.Walks as walks;
ghost use Rattle.class_walk.specs.Walks.{absent_walked, class_scan, file_walked, job_walked, lone_file_walked};
ghost use Rattle.class_walk.specs.Faults.{Answers, Goes, Refuses, is_device_fault, is_vanished};
ghost use Rattle.class_walk.specs.Searches.{IsFileAt, search_of};

use crate::entry::{add_file, read_file};
use crate::fault::WalkFault;
use crate::job::{Scanned, WalkJob, WalkRule};
use crate::pattern::Pattern;
use crate::search::{Search, Walked, is_scanned, is_skipped};
use crate::walking::walk_folder;
use path_name::Path;
use std::alloc::Global;
use tree_dev::{Entries, Kind, Tree};

/// Scans the files that the jobs reach, in the order of jobs and paths, and tells the names that count of each. Patterns of
/// `exclude` leave files out. `left` is lowered by the number of entries that were listed. There are fewer than 2^32 jobs.
///
/// A listed path that is a file is scanned where its name ends in `.php` or `.inc`, and so are the files below a listed
/// folder; below the folder of a row, those that end in `.php`, and a row's folder that is a file or absent gives nothing.
/// Below a job's folder, entries whose name begins with `.` are passed over, and so is what stands at or below a path that
/// the job skips. A name that is no UTF-8 doesn't count. In the walk of a row a name counts where the row's prefix begins it
/// and the row leads it to that very file.
///
/// The first refusal in that order is the answer. `ClassmapMissing`: nothing is at a listed path, or the job skips it.
/// `OtherEntry`: an entry that is walked is neither a file nor a folder. `Limit`: an entry lies more than 64 segments below
/// its job's folder (`Depth`), a file that is scanned is longer than `FILE_BYTES`, or a folder has more entries than may
/// still be listed (`Entries`). `Vanished`: an entry was shown and then was gone; never over a tree that tells. Paths in
/// refusals are where entries stand, not those that tables name.
pub fn walk<T: Tree>(
    alloc: Global,
    tree: &mut T,
    jobs: &[WalkJob],
    exclude: &[Pattern],
    left: &mut Entries,
) -> Result<Vec<Scanned>, WalkFault>
    requires few { length jobs.now < 2 ^ 32 }
    ensures exact { OfTold (T.meaning tree.old) (λ t. Answers (class_scan t jobs.now exclude.now left.old.left) left.new.left result) }
    ensures never_vanished { OfTold (T.meaning tree.old) (λ _. is_vanished result ≡ false) }
    ensures only_read { OnlyRead (T.meaning tree.old) (T.meaning tree.new) (is_device_fault result) }
    ensures entries_fall { left.new.left ≤ left.old.left }
{
    let mut walked = Walked {
        found: Vec::new(alloc),
        left: left.left,
    };
    for number in 0..jobs.len() {
        let search = Search {
            number: number as u32,
            job: &jobs[number],
            exclude,
        };
        walk_job(alloc, tree, &search, &mut walked)?;
    }
    left.left = walked.left;
    Ok(walked.found)
}

/// Walks one job.
fn walk_job<T: Tree>(
    alloc: Global,
    tree: &mut T,
    search: &Search<'_>,
    walked: &mut Walked,
) -> Result<(), WalkFault>
    ensures only_read { OnlyRead (T.meaning tree.old) (T.meaning tree.new) (is_device_fault result) }
    ensures exact { OfTold (T.meaning tree.old) (λ t. Goes (job_walked t (search_of search.now))
        walked.old.found.items walked.old.left walked.new.found.items walked.new.left result) }
    ensures entries { walked.new.left ≤ walked.old.left }
{
    let at = &search.job.at;
    if is_skipped(search.job.skip.as_slice(), at) {
        return absent(alloc, search.job);
    }
    match tree.stat(at)? {
        Kind::Absent => absent(alloc, search.job),
        Kind::Other => Err(WalkFault::OtherEntry(at.copy(alloc)?)),
        Kind::File => walk_lone_file(alloc, tree, search, walked),
        Kind::Folder => {
            let tail = Path::root(alloc);
            walk_folder(alloc, tree, search, at, &tail, walked)
        }
    }
}

/// What a job gives where nothing is.
fn absent(alloc: Global, job: &WalkJob) -> Result<(), WalkFault>
    ensures exact { (walked : walks.Walked) → MatchResult result (λ _. absent_walked job.now.rule job.now.at walked ≡ Ok walked)
        (λ fault. Refuses fault (absent_walked job.now.rule job.now.at walked)) }
    ensures no_device { is_device_fault result ≡ false }
{
    match &job.rule {
        WalkRule::Listed => Err(WalkFault::ClassmapMissing(job.at.copy(alloc)?)),
        WalkRule::Psr4(_) => Ok(()),
        WalkRule::Psr0(_) => Ok(()),
    }
}

/// Walks a job whose path is a file.
fn walk_lone_file<T: Tree>(
    alloc: Global,
    tree: &mut T,
    search: &Search<'_>,
    walked: &mut Walked,
) -> Result<(), WalkFault>
    requires file { OfTold (T.meaning tree.old) (λ t. IsFileAt t search.now.job.now.at) }
    ensures only_read { OnlyRead (T.meaning tree.old) (T.meaning tree.new) (is_device_fault result) }
    ensures exact { OfTold (T.meaning tree.old) (λ t. (bytes : List ℕ) → entry_at t search.now.job.now.at ≡ Some (entries.File bytes) →
        Goes (lone_file_walked search.now.job.now.rule (search_of search.now) bytes) walked.old.found.items walked.old.left walked.new.found.items walked.new.left result) }
    ensures entries { walked.new.left ≤ walked.old.left }
{
    match &search.job.rule {
        WalkRule::Listed => scan_lone_file(alloc, tree, search, walked),
        WalkRule::Psr4(_) => Ok(()),
        WalkRule::Psr0(_) => Ok(()),
    }
}

/// Scans a listed file, where it is one that is scanned.
fn scan_lone_file<T: Tree>(
    alloc: Global,
    tree: &mut T,
    search: &Search<'_>,
    walked: &mut Walked,
) -> Result<(), WalkFault>
    requires file { OfTold (T.meaning tree.old) (λ t. IsFileAt t search.now.job.now.at) }
    ensures only_read { OnlyRead (T.meaning tree.old) (T.meaning tree.new) (is_device_fault result) }
    ensures exact { OfTold (T.meaning tree.old) (λ t. (bytes : List ℕ) → entry_at t search.now.job.now.at ≡ Some (entries.File bytes) →
        Goes (file_walked (search_of search.now) [] bytes) walked.old.found.items walked.old.left walked.new.found.items walked.new.left result) }
    ensures left { walked.new.left ≡ walked.old.left }
{
    let at = &search.job.at;
    let tail = Path::root(alloc);
    if !is_scanned(alloc, search, at, &tail)? {
        return Ok(());
    }
    match read_file(alloc, tree, at)? {
        Some(bytes) => {
            add_file(alloc, search, &tail, bytes.as_slice(), walked)?;
            Ok(())
        }
        None => Err(WalkFault::Vanished(at.copy(alloc)?)),
    }
}

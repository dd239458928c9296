//! Laws of what a crash may leave, each as the contract of a function that does nothing.

ghost use Rattle.std.specs.Prelude.{◌≡◌, ◌≢◌, true, false, Some, drop, ◌↔◌, ◌⊎◌, ◌≤◌, ℕ, Bool, List};
ghost use Rattle.std.specs.FinMap as map;
ghost use Rattle.tree_dev.specs.Trees.{FileTree, IsTree};
ghost use Rattle.tree_dev.specs.Disk.{Disk, Disks, IsImage, IsLater, IsLeftByAll, IsOnDisk, LeftSince, Leaves, made, moment, reading, settled, with_change};
ghost use Rattle.tree_dev.specs.Device.{MayAdd, MaySettle, Meaning, OnlyRead};
ghost use Rattle.tree_dev.specs.Projects.{is_within, vendor_path, work_path};
ghost use Rattle.tree_dev.specs.Steady.{EachImage, IsStaged, IsWhole, Steady, Through, is_write};
ghost use Rattle.tree_dev.specs.declared.change.Change.TheVariants as changes;
ghost use Rattle.tree_dev.specs.declared.change.Change.{Change};
ghost use Rattle.tree_dev.specs.declared.entry.Entry.TheVariants as entries;

/// The tree as it reads is one that a crash may leave.
pub fn reading_is_an_image()
    ensures { (d : Disk) → IsImage d (reading d) }
{}

/// What a crash may leave with fewer changes pending, it may leave with more.
pub fn lost_changes_are_an_image()
    ensures { (disks : Disks) (change : Change) (left : FileTree) → IsImage disks.now left → IsImage (with_change disks change).now left }
{}

/// With one more change pending, a crash leaves what it might have left before, or that with the change, torn or whole.
pub fn change_adds_its_images()
    ensures { (disks : Disks) (change : Change) (left : FileTree) → IsImage (with_change disks change).now left
        → IsImage disks.now left ⊎ ((before : FileTree) × IsImage disks.now before × Leaves before change left) }
{}

/// After a barrier a crash leaves the tree as it reads, and no other.
pub fn barrier_leaves_one()
    ensures { (disks : Disks) (left : FileTree) → IsImage (settled disks).now left → left ≡ reading disks.now }
{}

/// What a crash leaves of a tree is a tree: torn bytes change the kind of no entry.
pub fn images_are_trees()
    ensures { (d : Disk) (t left : FileTree) → IsOnDisk d t → IsImage d left → IsTree left }
{}

/// Calls that only read change nothing of what a crash may leave, now and since any moment.
pub fn reading_keeps_images()
    ensures now { (a b : Meaning) (failed : Bool) (left : FileTree) → OnlyRead a b failed → (IsImage b.disks.now left ↔ IsImage a.disks.now left) }
    ensures since { (a b : Meaning) (failed : Bool) (since : ℕ) (left : FileTree) → OnlyRead a b failed
        → (LeftSince b.disks since left ↔ LeftSince a.disks since left) }
{}

/// Each moment is later than itself, a later one than a later one is later, and so is the moment of a change and of a
/// barrier. A later moment's number is no smaller.
pub fn later_moments()
    ensures itself { (a : Disks) → IsLater a a }
    ensures on { (a b d : Disks) → IsLater a b → IsLater b d → IsLater a d }
    ensures change { (disks : Disks) (change : Change) → IsLater disks (with_change disks change) }
    ensures barrier { (disks : Disks) → IsLater disks (settled disks) }
    ensures number { (a b : Disks) → IsLater a b → moment a ≤ moment b }
{}

/// What a crash may leave at a moment counts as left since that moment, now and at each later one; and what counts since this
/// very moment is what it may leave now.
pub fn first_moment_counts()
    ensures counts { (a b : Disks) (left : FileTree) → IsLater a b → IsImage a.now left → LeftSince b (moment a) left }
    ensures last_counts { (disks : Disks) (since : ℕ) (left : FileTree) → since ≤ moment disks → IsImage disks.now left → LeftSince disks since left }
    ensures only { (disks : Disks) (left : FileTree) → LeftSince disks (moment disks) left → IsImage disks.now left }
{}

/// What was left since a moment by an earlier moment was left by a later one; and what was left by the later one was left by
/// the earlier one, or since it.
pub fn since_grows()
    ensures kept { (a b : Disks) (since : ℕ) (left : FileTree) → IsLater a b → LeftSince a since left → LeftSince b since left }
    ensures parts { (a b : Disks) (since : ℕ) (left : FileTree) → IsLater a b → LeftSince b since left
        → LeftSince a since left ⊎ LeftSince b (moment a) left }
{}

/// Two stretches of moments that meet are one.
pub fn stretches_join()
    ensures { (a b d : Disks) (left : FileTree) → IsLater a b → IsLater b d → LeftSince d (moment a) left
        → LeftSince b (moment a) left ⊎ LeftSince d (moment b) left }
{}

/// Steady stretches: no moment at all is one, and two that meet are one.
pub fn steady_stretches()
    ensures start { (project : List (List ℕ)) (m : Meaning) → Steady project m m }
    ensures on { (project : List (List ℕ)) (a b d : Meaning) → Steady project a b → Steady project b d → Steady project a d }
{}

/// What goes on a steady stretch: calls that only read, barriers, changes of one entry at or below `.install`, but for the
/// journal, renames there, and folders that are made at or below `vendor`.
pub fn steady_calls()
    ensures read { (project : List (List ℕ)) (a b d : Meaning) (failed : Bool) → OnlyRead b d failed → Steady project a b → Steady project a d }
    ensures barrier { (project : List (List ℕ)) (a b d : Meaning) → MaySettle b d → Steady project a b → Steady project a d }
    ensures write { (project : List (List ℕ)) (a b d : Meaning) (at : List (List ℕ)) (bytes : List ℕ) → MayAdd b d (changes.Written at bytes)
        → IsStaged project at → Steady project a b → Steady project a d }
    ensures make { (project : List (List ℕ)) (a b d : Meaning) (at : List (List ℕ)) → MayAdd b d (changes.FolderMade at)
        → IsStaged project at → Steady project a b → Steady project a d }
    ensures make_parent { (project : List (List ℕ)) (a b d : Meaning) (at : List (List ℕ)) → MayAdd b d (changes.FolderMade at)
        → is_within (vendor_path project) at ≡ true → Steady project a b → Steady project a d }
    ensures remove_file { (project : List (List ℕ)) (a b d : Meaning) (at : List (List ℕ)) → MayAdd b d (changes.FileRemoved at)
        → IsStaged project at → Steady project a b → Steady project a d }
    ensures remove_dir { (project : List (List ℕ)) (a b d : Meaning) (at : List (List ℕ)) → MayAdd b d (changes.FolderRemoved at)
        → IsStaged project at → Steady project a b → Steady project a d }
    ensures rename { (project : List (List ℕ)) (a b d : Meaning) (from to : List (List ℕ)) → MayAdd b d (changes.Renamed from to)
        → IsStaged project from → IsStaged project to → to ≢ work_path project → Steady project a b → Steady project a d }
{}

/// Where no write is pending, whatever a crash leaves was read: it is what some first part of the pending changes made. That
/// is so after a barrier, and stays so by changes that write nothing.
pub fn whole_images_were_read()
    ensures read { (d : Disk) (left : FileTree) → IsWhole d → IsImage d left → (lost : ℕ) × (left ≡ made d.base (drop lost d.pending)) }
    ensures barrier { (disks : Disks) → IsWhole (settled disks).now }
    ensures change { (b d : Meaning) (change : Change) → MayAdd b d change → is_write change ≡ false → IsWhole b.disks.now → IsWhole d.disks.now }
{}

/// Stretches of moments through which every tree that a crash may leave passes a test: from one moment on, joined, and what goes on
/// them: calls that only read, barriers, and changes that write nothing where no write is pending and the tree as it reads
/// afterwards passes.
pub fn through_calls()
    ensures start { (test : FileTree → Bool) (m : Meaning) → EachImage m (λ t. test t ≡ true) → Through m m (λ t. test t ≡ true) }
    ensures on { (test : FileTree → Bool) (a b d : Meaning) → Through a b (λ t. test t ≡ true) → Through b d (λ t. test t ≡ true) → Through a d (λ t. test t ≡ true) }
    ensures ends { (test : FileTree → Bool) (a b : Meaning) → Through a b (λ t. test t ≡ true) → EachImage b (λ t. test t ≡ true) }
    ensures read { (test : FileTree → Bool) (a b d : Meaning) (failed : Bool) → OnlyRead b d failed → Through a b (λ t. test t ≡ true) → Through a d (λ t. test t ≡ true) }
    ensures barrier { (test : FileTree → Bool) (a b d : Meaning) → MaySettle b d → Through a b (λ t. test t ≡ true) → Through a d (λ t. test t ≡ true) }
    ensures change { (test : FileTree → Bool) (a b d : Meaning) (change : Change) → MayAdd b d change → is_write change ≡ false
        → IsWhole b.disks.now → test (reading d.disks.now) ≡ true → Through a b (λ t. test t ≡ true) → Through a d (λ t. test t ≡ true) }
{}

/// What a crash leaves at a path when every pending change came through in some form: the entry that reads there, in all that
/// may be left, or a file of any bytes, in some.
pub fn same_or_any_bytes()
    ensures { (d : Disk) (q : List (List ℕ)) →
        ((left : FileTree) → IsLeftByAll d.base d.pending left → map.get left q ≡ map.get (reading d) q)
        ⊎ ((any : List ℕ) → (left : FileTree) × IsLeftByAll d.base d.pending left × (map.get left q ≡ Some (entries.File any))) }
{}

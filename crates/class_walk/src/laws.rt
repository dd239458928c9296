//! What holds of patterns and walks, each as the contract of a function that does nothing.

ghost use Rattle.std.specs.Prelude.{◌≡◌, ℕ, List, IsTrue, ◌↔◌, false};
ghost use Rattle.tree_dev.specs.Trees.{FileTree};
ghost use Rattle.class_walk.specs.declared.job.WalkJob.{WalkJob as Jobs};
ghost use Rattle.class_walk.specs.declared.pattern.Pattern.{Pattern};
ghost use Rattle.class_walk.specs.Faults.{is_vanished};
ghost use Rattle.class_walk.specs.Patterns.{IsExcluded, is_excluded};
ghost use Rattle.class_walk.specs.Walks.{class_scan};

/// A file is excluded exactly where, for some cutting of its path below the folder of a pattern, each part of the pattern
/// takes a piece, up to the path's end or up to a `/`.
pub fn excluded_by_some_cutting()
    ensures { (patterns : List Pattern) (path : List (List ℕ)) → IsTrue (is_excluded patterns path) ↔ IsExcluded patterns path }
{}

/// A scan over a tree is never refused as vanished, so a walk over a tree that tells never answers that.
pub fn scans_never_vanish()
    ensures { (t : FileTree) (jobs : List Jobs) (exclude : List Pattern) (left : ℕ) → is_vanished (class_scan t jobs exclude left) ≡ false }
{}

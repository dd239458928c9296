//! Laws of what devices mean, each as the contract of a function that does nothing.

ghost use Rattle.std.specs.Prelude.{◌≡◌, ◌<◌, ◌^◌, ◌++◌, ◌-◌, Bool, false, List, ℕ, Some, if◌then◌else◌};
ghost use Rattle.std.specs.List.{list_any};
ghost use Rattle.std.specs.Ordering.{eq_by_cmp};
ghost use Rattle.std.specs.FinMap as map;
ghost use Rattle.path_name.specs.Orders.{path_cmp};
ghost use Rattle.path_name.specs.Paths.{IsPath};
ghost use Rattle.tree_dev.specs.Trees.{FileTree, IsTree};
ghost use Rattle.tree_dev.specs.Memory.{above, filled, is_misplaced, put_in};
ghost use Rattle.tree_dev.specs.declared.entry.Entry.{Entry};
ghost use Rattle.tree_dev.specs.Device.{Meaning, OnlyRead};
ghost use Rattle.tree_dev.specs.Sinks.{Taken, Takes, TakesPart};

use crate::limits::{
    CANDIDATES, DEPTH, ENTRIES, FILE_BYTES, LAST_GENERATION, PACKAGES, POOL_BYTES,
};

/// Two readings in a row are one reading, whether the second failed or not.
pub fn two_readings_are_one()
    ensures { (a b d : Meaning) (failed : Bool) → OnlyRead a b false → OnlyRead b d failed → OnlyRead a d failed }
{}

/// No call at all is a reading.
pub fn no_call_is_a_reading()
    ensures { (a : Meaning) → OnlyRead a a false }
{}

/// Two pieces that were taken are one.
pub fn two_pieces_are_one()
    ensures { (a b d : Taken) (first second : List ℕ) → Takes a b first → Takes b d second → Takes a d (first ++ second) }
{}

/// A part of the first of two pieces is a part of both.
pub fn part_of_first_piece()
    ensures { (a b : Taken) (first second : List ℕ) → TakesPart a b first → TakesPart a b (first ++ second) }
{}

/// The first of two pieces and a part of the second is a part of both.
pub fn part_of_second_piece()
    ensures { (a b d : Taken) (first second : List ℕ) → Takes a b first → TakesPart b d second → TakesPart a d (first ++ second) }
{}

/// What a tree has after a put: the entry at its path, a folder at each path above it where nothing was
/// there, and everywhere else what it had.
pub fn put_changes_no_more()
    ensures { (t : FileTree) (path other : List (List ℕ)) (entry : Entry) → map.get (put_in t path entry) other
        ≡ (if eq_by_cmp path_cmp other path then Some entry else filled (map.get t other) (list_any (eq_by_cmp path_cmp other) (above path))) }
{}

/// A put of what is not misplaced into a tree leaves a tree, where it leaves few enough entries.
pub fn put_leaves_a_tree()
    ensures { (t : FileTree) (path : List (List ℕ)) (entry : Entry) → IsTree t → IsPath path → is_misplaced t path entry ≡ false
        → map.len (put_in t path entry) < 2 ^ 32 → IsTree (put_in t path entry) }
{}

/// The limits have these numbers.
pub fn limits_have_their_numbers()
    ensures file_bytes { FILE_BYTES ≡ 67108864 }
    ensures pool_bytes { POOL_BYTES ≡ 67108864 }
    ensures depth { DEPTH ≡ 64 }
    ensures entries { ENTRIES ≡ 1000000 }
    ensures packages { PACKAGES ≡ 4096 }
    ensures candidates { CANDIDATES ≡ 512 }
    ensures last_generation { LAST_GENERATION ≡ 2 ^ 64 - 1 }
{}

//! Paths that are apart from each other, in path order.

ghost use Rattle.std.specs.Prelude.{◌≡◌, ◌↔◌, ℕ, List, false, MatchOption, IsTrue};
ghost use Rattle.std.specs.BTreeMap.Range.{IsLeBy};
ghost use Rattle.std.specs.BTreeSet.{contains};
ghost use Rattle.std.specs.Ordering.{is_lt};
ghost use Rattle.path_name.specs.Orders.{path_cmp};
ghost use Rattle.path_name.specs.Paths.{BeginsWith};
ghost use Rattle.install_world.specs.Targets.{AreApart};
ghost use Rattle.install_world.specs.Reading.{Has, AreAllApart};

use path_name::Path;
use std::collections::BTreeSet;

/// The last of these paths that does not stand behind this one.
fn last_up_to<'a>(paths: &'a BTreeSet<Path>, path: &Path) -> Option<&'a Path>
    ensures { MatchOption result ((other : List (List ℕ)) → IsLeBy path_cmp other path.now → contains path_cmp paths.now other ≡ false)
        (λ last. Has paths.now last.now × IsLeBy path_cmp last.now path.now
        × ((other : List (List ℕ)) → IsLeBy path_cmp other path.now → Has paths.now other → is_lt (path_cmp last.now other) ≡ false)) }
{
    match paths.range(..=path).next_back() {
        None => None,
        Some(last) => Some(last),
    }
}

/// The first of these paths that does not stand before this one.
fn first_from<'a>(paths: &'a BTreeSet<Path>, path: &Path) -> Option<&'a Path>
    ensures { MatchOption result ((other : List (List ℕ)) → IsLeBy path_cmp path.now other → contains path_cmp paths.now other ≡ false)
        (λ first. Has paths.now first.now × IsLeBy path_cmp path.now first.now
        × ((other : List (List ℕ)) → IsLeBy path_cmp path.now other → Has paths.now other → IsLeBy path_cmp first.now other)) }
{
    match paths.range(path..).next() {
        None => None,
        Some(first) => Some(first),
    }
}

/// Whether this path begins with none of these paths, which are apart from each other. One that it begins
/// with is the last one up to it: what stands between the two begins with it too.
fn is_below_none(paths: &BTreeSet<Path>, path: &Path) -> bool
    requires { AreAllApart paths.now }
    ensures { IsTrue result ↔ ((other : List (List ℕ)) → Has paths.now other → BeginsWith path.now other → ⊥) }
{
    match last_up_to(paths, path) {
        None => true,
        Some(last) => !path.starts_with(last),
    }
}

/// Whether none of these paths begins with this one. The first one from it does where any does.
fn is_above_none(paths: &BTreeSet<Path>, path: &Path) -> bool
    ensures { IsTrue result ↔ ((other : List (List ℕ)) → Has paths.now other → BeginsWith other path.now → ⊥) }
{
    match first_from(paths, path) {
        None => true,
        Some(first) => !first.starts_with(path),
    }
}

/// Whether this path is apart from each of these, which are apart from each other. Two look-ups.
pub fn is_apart(paths: &BTreeSet<Path>, path: &Path) -> bool
    requires { AreAllApart paths.now }
    ensures { IsTrue result ↔ ((other : List (List ℕ)) → Has paths.now other → AreApart other path.now) }
{
    is_below_none(paths, path) && is_above_none(paths, path)
}

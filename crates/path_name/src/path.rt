//! Paths below a root.

ghost use Rattle.std.specs.Prelude.{◌≡◌, ◌↔◌, ◌++◌, ◌∷◌, [], false, length, IsTrue, IfOk, OnOk, OnErr, MatchOption, Ok, Some, None, ◌-◌, take, nat_lt, if◌then◌else◌};
ghost use Rattle.std.proofs.Common.{refl};
ghost use Rattle.std.specs.Cmp.{partial_equiv_from_equiv};
ghost use Rattle.std.specs.Ordering.{as_partial_cmp};
ghost use Rattle.path_name.specs.Given.{Gives};
ghost use Rattle.path_name.specs.Orders.{path_cmp, paths_are_equal, path_cmp_total, path_equality, path_order, path_ties};

use crate::{Name, PathFault, joined, reading};
use std::alloc::{AllocError, Global};
use std::cmp::Ordering;
use std::marker::Model;

/// A path: a list of segments, counted from a root. A segment is the name of an entry: UTF-8 without
/// a NUL and a `/`, and neither empty nor `.` nor `..`. A contract sees the list of segments.
/// Paths are ordered segment by segment in byte order, a prefix first.
#[derive(Debug, Drop)]
pub struct Path {
    joined: Vec<u8>,
}

impl Model for Path {
    ghost use Rattle.std.specs.Prelude.{List, ℕ};

    ghost Value = { List (List ℕ) };

    ghost use Rattle.path_name.specs.Paths.{IsPath};
    ghost use Rattle.path_name.specs.Joined.{segments_of};

    ghost view = { λ path. segments_of path.joined.items };

    ghost invariant = { λ path. IsPath (segments_of path.joined.items) };
}

impl Path {
    ghost use Rattle.path_name.specs.Paths.{is_segment, IsPath, BeginsWith, IsBehind, IsMoved, EndsWith, path_of, followed, path_text, without_last};
    ghost use Rattle.path_name.specs.FolderRefs.{folder_of};
    ghost use Rattle.path_name.specs.declared.fault.PathFault.TheVariants.{OutOfMemory};

    /// The root, which has no segments. Takes no memory.
    pub fn root(alloc: Global) -> Path
        ensures { result ≡ [] }
    {
        Path {
            joined: Vec::new(alloc),
        }
    }

    /// The path that a text names. The text is cut at `/`; empty parts and `.` are dropped, and `..`
    /// takes the part before it away. The first fault from the left counts, also in a part that a
    /// later `..` takes away. `BadSegment(at)`: the part whose first byte stands at `at` is not UTF-8
    /// or has a NUL. `AboveRoot(at)`: the `..` at `at` has nothing before it.
    pub fn read(alloc: Global, text: &[u8]) -> Result<Path, PathFault>
        ensures exact { Gives (λ path. path) OutOfMemory (path_of text.now) result }
    {
        Ok(Path {
            joined: reading::path_segments(alloc, text)?,
        })
    }

    /// The path that a text leads to from here. The text is cut and read as by `read`, after the segments
    /// of this path, which a `..` may take away. `BadSegment` and `AboveRoot` come as there.
    pub fn follow(&self, alloc: Global, text: &[u8]) -> Result<Path, PathFault>
        ensures exact { Gives (λ path. path) OutOfMemory (followed self.now text.now) result }
    {
        let joined = reading::followed_segments(alloc, self.joined.as_slice(), text)?;
        Ok(Path { joined })
    }

    /// Whether this is the root, which has no segments.
    pub fn is_root(&self) -> bool
        ensures { IsTrue result ↔ (self.now ≡ []) }
    {
        self.joined.is_empty()
    }

    /// How far up from a project a text leads, and the path from there.
    pub(crate) fn read_folder(alloc: Global, text: &[u8]) -> Result<(u64, Path), PathFault>
        ensures { Gives (λ read. record { up = read.0; path = read.1 }) OutOfMemory (folder_of text.now) result }
    {
        let (up, joined) = reading::folder_segments(alloc, text)?;
        Ok((up, Path { joined }))
    }

    /// The text: the segments joined by `/`, and `.` for the root. It is read as this path again.
    pub fn text(&self) -> &[u8]
        ensures value { result.now ≡ path_text self.now }
        ensures read_again { path_of result.now ≡ Ok self.now }
        ensures segments { IsPath self.now }
    {
        if self.joined.is_empty() {
            b"."
        } else {
            self.joined.as_slice()
        }
    }

    /// Adds one segment. Its one refusal is want of memory, and then nothing changed.
    pub fn enter(&mut self, name: &[u8]) -> Result<(), AllocError>
        requires { IsTrue (is_segment name.now) }
        ensures entered { OnOk result (self.new ≡ self.old ++ name.now ∷ []) }
        ensures kept { OnErr result (self.new ≡ self.old) }
    {
        joined::append(&mut self.joined, name)
    }

    /// Takes the last segment away. False: this is the root, and it stays. Takes no memory.
    pub fn leave(&mut self) -> bool
        ensures left { without_last self.old ≡ (if result then Some self.new else None) }
        ensures kept { result ≡ false → self.new ≡ self.old }
    {
        joined::leave_last(&mut self.joined)
    }

    /// This path and one more segment. Its one refusal is want of memory; it allocates once.
    pub fn child(&self, alloc: Global, name: &[u8]) -> Result<Path, AllocError>
        requires { IsTrue (is_segment name.now) }
        ensures { IfOk result (λ path. path ≡ self.now ++ name.now ∷ []) }
    {
        let joined = joined::with_segment(alloc, self.joined.as_slice(), name)?;
        Ok(Path { joined })
    }

    /// This path, followed by another. Its one refusal is want of memory; it allocates once.
    pub fn join(&self, alloc: Global, tail: &Path) -> Result<Path, AllocError>
        ensures { IfOk result (λ path. path ≡ self.now ++ tail.now) }
    {
        let joined = joined::join(alloc, self.joined.as_slice(), tail.joined.as_slice())?;
        Ok(Path { joined })
    }

    /// Where this path lies once what stands at and below `from` stands at and below `to`: `to`, followed by
    /// the segments behind those of `from`. None where the segments of `from` are not the first ones of this
    /// path. Its one refusal is want of memory; it allocates once.
    pub fn moved(&self, alloc: Global, from: &Path, to: &Path) -> Result<Option<Path>, AllocError>
        ensures { IfOk result (λ moved. MatchOption moved (BeginsWith self.now from.now → ⊥)
            (λ path. IsMoved self.now from.now to.now path)) }
    {
        match joined::behind(self.joined.as_slice(), from.joined.as_slice()) {
            None => Ok(None),
            Some(rest) => Ok(Some(Path {
                joined: joined::join(alloc, to.joined.as_slice(), rest)?,
            })),
        }
    }

    /// Whether the segments of `head` are the first ones of this path.
    pub fn starts_with(&self, head: &Path) -> bool
        ensures { IsTrue result ↔ BeginsWith self.now head.now }
    {
        self.below(head).is_some()
    }

    /// The segments behind those of `head`, joined by `/`, and nothing where there are none. None where
    /// the segments of `head` are not the first ones of this path.
    pub fn below(&self, head: &Path) -> Option<&[u8]>
        ensures { MatchOption result (BeginsWith self.now head.now → ⊥)
            (λ rest. IsBehind self.now head.now rest.now) }
    {
        joined::behind(self.joined.as_slice(), head.joined.as_slice())
    }

    /// The path without its last segment; None for the root. Its one refusal is want of memory.
    pub fn parent(&self, alloc: Global) -> Result<Option<Path>, AllocError>
        ensures { IfOk result (λ parent. parent ≡ without_last self.now) }
    {
        match joined::parent_len(self.joined.as_slice()) {
            None => Ok(None),
            Some(len) => Ok(Some(Path {
                joined: Vec::from_slice(alloc, &self.joined[..len])?,
            })),
        }
    }

    /// The project's path without its last `up` segments, followed by this one. None: it has fewer.
    pub(crate) fn below_ancestor(
        &self,
        alloc: Global,
        project: &Path,
        up: u64,
    ) -> Result<Option<Path>, AllocError>
        ensures { IfOk result (λ path. path ≡ (if nat_lt (length project.now) up then None
            else Some (take (length project.now - up) project.now ++ self.now))) }
    {
        match joined::ancestor_len(project.joined.as_slice(), up) {
            None => Ok(None),
            Some(len) => Ok(Some(Path {
                joined: joined::join(alloc, &project.joined[..len], self.joined.as_slice())?,
            })),
        }
    }

    /// The first segment; None for the root.
    pub fn first(&self) -> Option<&[u8]>
        ensures { MatchOption result (self.now ≡ []) (λ segment. BeginsWith self.now (segment.now ∷ [])) }
    {
        joined::first(self.joined.as_slice())
    }

    /// The last segment; None for the root.
    pub fn last(&self) -> Option<&[u8]>
        ensures { MatchOption result (self.now ≡ []) (λ segment. EndsWith self.now segment.now) }
    {
        joined::last(self.joined.as_slice())
    }

    /// The segments, each as a name. Its one refusal is want of memory.
    pub fn segments(&self, alloc: Global) -> Result<Vec<Name>, AllocError>
        ensures { IfOk result (λ names. names.items ≡ self.now) }
    {
        joined::segments(alloc, self.joined.as_slice())
    }

    /// The number of segments.
    pub fn depth(&self) -> usize
        ensures { result ≡ length self.now }
    {
        joined::count(self.joined.as_slice())
    }

    /// An equal path. Its one refusal is want of memory.
    pub fn copy(&self, alloc: Global) -> Result<Path, AllocError>
        ensures { IfOk result (λ path. path ≡ self.now) }
    {
        Ok(Path {
            joined: Vec::from_slice(alloc, self.joined.as_slice())?,
        })
    }
}

impl PartialEq for Path {
    ghost eq = { paths_are_equal };

    ghost laws = { partial_equiv_from_equiv path_equality };

    fn eq(&self, other: &Path) -> bool {
        self.joined.as_slice() == other.joined.as_slice()
    }
}

impl Eq for Path {
    ghost laws = { path_equality };
}

impl Ord for Path {
    ghost cmp = { path_cmp };

    ghost total = { path_cmp_total };

    ghost matches_partial_cmp = { λ a b. refl };

    ghost matches_eq = { path_ties };

    fn cmp(&self, other: &Path) -> Ordering {
        joined::compare(self.joined.as_slice(), other.joined.as_slice())
    }
}

impl PartialOrd for Path {
    ghost partial_cmp = { as_partial_cmp path_cmp };

    ghost laws = { path_order };

    fn partial_cmp(&self, other: &Path) -> Option<Ordering> {
        Some(self.cmp(other))
    }
}

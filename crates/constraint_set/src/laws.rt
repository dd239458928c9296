//! Laws of the definitions that the contracts cite.

ghost use Rattle.std.specs.Prelude.{◌≡◌, ◌≢◌, ◌++◌, ℕ, List, take, codes, true, Ok, Err};
ghost use Rattle.version_norm.specs.declared.version.Version.{Version};
ghost use Rattle.constraint_set.specs.declared.constraint.Constraint.{Constraint};
ghost use Rattle.constraint_set.specs.declared.fault.ConstraintFault.{ConstraintFault};
ghost use Rattle.constraint_set.specs.declared.fault.ConstraintFault.TheVariants.{OutOfMemory};
ghost use Rattle.constraint_set.specs.Constraints.{constraint_of};
ghost use Rattle.constraint_set.specs.Grammar.{IsConstraint};
ghost use Rattle.constraint_set.specs.Satisfaction.{satisfies};
ghost use Rattle.constraint_set.specs.Overlap.{exactly, overlaps};
ghost use Rattle.constraint_set.specs.Points.{Point, on, satisfies_at};
ghost use Rattle.constraint_set.specs.Faults.{IsFault, place_in};

/// Meeting and satisfaction are tied: a version satisfies a constraint exactly where the constraint meets `==` of
/// that version, be it numbered or a branch; and constraints that one version satisfies meet. The converse of the
/// second does not hold: `>1.0` and `<1.0.0.0-patch-dev` meet, and no version lies between them.
pub fn meeting()
    ensures exact { (c : Constraint) (version : Version) → overlaps c (exactly version) ≡ satisfies c version }
    ensures common { (c d : Constraint) (version : Version) →
        satisfies c version ≡ true → satisfies d version ≡ true → overlaps c d ≡ true }
{}

/// A text is read as a constraint exactly where some way of cutting it into words, gaps and joints fits.
pub fn constraint_texts()
    ensures spelled { (text : List ℕ) (own : Version) (c : Constraint) →
        IsConstraint text own c → constraint_of text own ≡ Ok c }
    ensures read { (text : List ℕ) (own : Version) (c : Constraint) →
        constraint_of text own ≡ Ok c → IsConstraint text own c }
{}

/// Meeting is satisfaction by one point of the order of versions, where points are the versions, the gap behind each
/// numbered version, and what is below all of them. A gap has no version in it: each version has one that is next.
pub fn common_points()
    ensures shared { (c d : Constraint) → overlaps c d ≡ true →
        (point : Point) × (satisfies_at c point ≡ true) × (satisfies_at d point ≡ true) }
    ensures meets { (c d : Constraint) (point : Point) →
        satisfies_at c point ≡ true → satisfies_at d point ≡ true → overlaps c d ≡ true }
    ensures versions { (c : Constraint) (version : Version) → satisfies_at c (on version) ≡ satisfies c version }
{}

/// A fault and its place are those of the text in the grammar's words, and the text has no other.
pub fn fault_places()
    ensures told { (text : List ℕ) (own : Version) (fault : ConstraintFault) → fault ≢ OutOfMemory →
        constraint_of text own ≡ Err fault → IsFault text fault }
    ensures meant { (text : List ℕ) (own : Version) (fault : ConstraintFault) →
        IsFault text fault → constraint_of text own ≡ Err fault }
    // What stands before the place, with `*` behind it, is a constraint.
    ensures begins { (text : List ℕ) (own : Version) (fault : ConstraintFault) →
        IsFault text fault → (c : Constraint) × IsConstraint (take (place_in fault) text ++ codes "*") own c }
{}

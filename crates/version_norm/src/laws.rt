//! Laws of the definitions that the contracts cite.

ghost use Rattle.std.specs.Prelude.{◌≡◌, ℕ, List, Result, Ok};
ghost use Rattle.std.specs.Cmp.{IsTotalOrder};
ghost use Rattle.std.specs.Ordering.{nat_cmp};
ghost use Rattle.std.specs.declared.cmp.Ordering.TheVariants.{Less, Equal};
ghost use Rattle.version_norm.specs.declared.fault.VersionFault.{VersionFault};
ghost use Rattle.version_norm.specs.declared.version.Numbered.{Numbered};
ghost use Rattle.version_norm.specs.declared.version.Version.{Version};
ghost use Rattle.version_norm.specs.Grammar.{IsClassical, IsNumberedBranch};
ghost use Rattle.version_norm.specs.Versions.{trimmed, without_flag, with_branch_mark, without_build, classical_of, numbered_branch_of, normal_form, numbered_text};
ghost use Rattle.version_norm.specs.Rules.{IsTrimmed, IsFlagged, IsBuilt, IsNever, RuleGives, HasForm};
ghost use Rattle.version_norm.specs.VersionOrder.{numbered_cmp};
ghost use Rattle.version_norm.specs.NextVersions.{next_version};
ghost use Rattle.version_norm.specs.Stability.{rank_of};
ghost use Rattle.version_norm.specs.Normal.{IsNormal};

use crate::version::Grade;
use std::cmp::Ordering;

/// One rule takes each text, so an earlier one bars the later ones, and the normal form is what that rule gives.
pub fn rules()
    ensures taken { (text : List ℕ) →
        RuleGives (with_branch_mark (without_flag (trimmed text))) (normal_form text) }
    ensures one { (text : List ℕ) (first second : Result Version VersionFault) →
        RuleGives text first → RuleGives text second → first ≡ second }
{}

/// A text has the form that the rules give, blanks and cuts included, and no other: the rules as relations, from the
/// text to its version or its fault, are `normal_form`.
pub fn version_texts()
    ensures has { (text : List ℕ) → HasForm text (normal_form text) }
    ensures only { (text : List ℕ) (form : Result Version VersionFault) →
        HasForm text form → form ≡ normal_form text }
{}

/// What is cut off a text: blanks at both ends, a final stability, and a build.
pub fn cuts()
    ensures blanks { (text middle : List ℕ) → IsTrimmed text middle → trimmed text ≡ middle }
    ensures flag { (text front : List ℕ) → IsFlagged text front → without_flag text ≡ front }
    ensures no_flag { (text : List ℕ) → IsNever IsFlagged text → without_flag text ≡ text }
    ensures build { (text front : List ℕ) → IsBuilt text front → without_build text ≡ front }
    ensures no_build { (text : List ℕ) → IsNever IsBuilt text → without_build text ≡ text }
{}

/// A text is read as a classical version exactly where some way of cutting it into that rule's pieces fits.
pub fn classical_versions()
    ensures spelled { (text : List ℕ) (version : Numbered) →
        IsClassical text version → classical_of text ≡ Ok version }
    ensures read { (text : List ℕ) (version : Numbered) →
        classical_of text ≡ Ok version → IsClassical text version }
{}

/// A text is read as a numbered branch exactly where some way of cutting it into that rule's pieces fits.
pub fn numbered_branches()
    ensures spelled { (text : List ℕ) (version : Numbered) →
        IsNumberedBranch text version → numbered_branch_of text ≡ Ok version }
    ensures read { (text : List ℕ) (version : Numbered) →
        numbered_branch_of text ≡ Ok version → IsNumberedBranch text version }
{}

/// The normal text of a normal version is read back as that version, so no two have the same text.
pub fn normal_texts()
    ensures read_back { (version : Numbered) → IsNormal version →
        normal_form (numbered_text version) ≡ Ok (Version.Numbered version) }
    ensures exact { (a b : Numbered) → IsNormal a → IsNormal b →
        numbered_text a ≡ numbered_text b → a ≡ b }
{}

/// The order of numbered versions is total, and only equal versions compare as equal, so two that do have the
/// same text.
pub fn version_order()
    ensures total { IsTotalOrder numbered_cmp }
    ensures exact { (a b : Numbered) → numbered_cmp a b ≡ Equal → a ≡ b }
    ensures text { (a b : Numbered) → numbered_cmp a b ≡ Equal → numbered_text a ≡ numbered_text b }
{}

/// Each numbered version has one that is next above it, with none between them: the order is not dense. Behind `1.0`
/// comes `1.0-patch-dev`, and behind `1.0-beta2` comes `1.0-beta2.0-dev`.
pub fn next_versions()
    ensures above { (version : Numbered) → numbered_cmp version (next_version version) ≡ Less }
    ensures none_between { (version other : Numbered) →
        numbered_cmp version other ≡ Less → numbered_cmp other (next_version version) ≡ Less → ⊥ }
{}

/// The order of stabilities is that of their ranks: the stabler one is less. Takes no memory.
pub fn grade_order(first: Grade, second: Grade) -> Ordering
    ensures { result ≡ nat_cmp (rank_of first) (rank_of second) }
{
    first.cmp(&second)
}

//! Laws of the definitions that the contracts cite.

ghost use Rattle.std.specs.Prelude.{◌≡◌, ◌↔◌, ℕ, Bool, true, List, [], ◌∷◌, ◌++◌, Ok};
ghost use Rattle.json_ordered.specs.JsonTree.{JsonTree};
ghost use Rattle.manifest_read.specs.declared.types.Package.{Package};
ghost use Rattle.manifest_read.specs.declared.types.Role.{Role};
ghost use Rattle.manifest_read.specs.declared.types.Manifest.{Manifest};
ghost use Rattle.manifest_read.specs.Names.{is_part, is_package_name, is_extension};
ghost use Rattle.manifest_read.specs.NameGrammar.{IsPart, IsPackageName, IsExtension};
ghost use Rattle.manifest_read.specs.Pointers.{escaped, below, unescaped, IsPointer, tokens_of};
ghost use Rattle.manifest_read.specs.Packages.{package_entry_of};
ghost use Rattle.manifest_read.specs.Manifests.{manifest_of};
ghost use Rattle.manifest_read.specs.WellFormed.{IsMember, IsManifest};
ghost use Rattle.manifest_read.specs.Writable.{IsWritten, IsWritablePackage, IsWritableManifest};

use crate::types::Role;

/// What a document says is well-formed: names, prefixes, paths, segments of repositories, versions and constraints; and
/// what is read of a document whose texts are UTF-8 and whose names are distinct can be written as JSON again.
pub fn well_formed()
    ensures manifests { (role : Role) (tree : JsonTree) (manifest : Manifest) →
        manifest_of role tree ≡ Ok manifest → IsManifest role manifest }
    ensures members { (tree : JsonTree) (manifest : Manifest) →
        manifest_of Role.Member tree ≡ Ok manifest → IsMember manifest.package }
    ensures entries { (at : List ℕ) (tree : JsonTree) (entry : Package) →
        package_entry_of at tree ≡ Ok entry → IsMember entry }
    ensures writable_manifests { (role : Role) (tree : JsonTree) (manifest : Manifest) → IsWritten tree →
        manifest_of role tree ≡ Ok manifest → IsWritableManifest manifest }
    ensures writable_entries { (at : List ℕ) (tree : JsonTree) (entry : Package) → IsWritten tree →
        package_entry_of at tree ≡ Ok entry → IsWritablePackage entry }
{}

/// Names are those of the grammar: groups of small letters and digits that joints join.
pub fn name_grammar()
    ensures parts { (double : Bool) (text : List ℕ) → is_part double text ≡ true ↔ IsPart double text }
    ensures packages { (name : List ℕ) → is_package_name name ≡ true ↔ IsPackageName name }
    ensures extensions { (name : List ℕ) → is_extension name ≡ true ↔ IsExtension name }
{}

/// A pointer is read, by RFC 6901, as the names and numbers that lead to its value: escaping is undone, and one more
/// token is one more step.
pub fn pointers()
    ensures escaped { (token : List ℕ) → unescaped (escaped token) ≡ token }
    ensures tokens { (at token : List ℕ) → IsPointer at →
        tokens_of (below at token) ≡ tokens_of at ++ token ∷ [] }
{}

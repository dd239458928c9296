//! Equality of documents.

ghost use Rattle.std.specs.Prelude.{◌≡◌, map};
ghost use Rattle.std.specs.Cmp.{partial_equiv_from_equiv};
ghost use Rattle.json_ordered.specs.JsonTree.{items_of, members_of};
ghost use Rattle.json_ordered.specs.Docs.{tree_of, pair_of};
ghost use Rattle.json_ordered.specs.JsonEquality.{trees_are_equal, items_are_equal, members_are_equal, documents_are_equal, document_equality};

use crate::doc::Doc;
use path_name::Name;

// Whether two documents have one tree.
#[cycle(equality)]
fn is_same(a: &Doc, b: &Doc) -> bool
    ensures { result ≡ trees_are_equal (tree_of a.now) (tree_of b.now) }
{
    match (a, b) {
        (Doc::Null, Doc::Null) => true,
        (Doc::Bool(a), Doc::Bool(b)) => *a == *b,
        (Doc::Num(a), Doc::Num(b)) => *a == *b,
        (Doc::Str(a), Doc::Str(b)) => *a == *b,
        (Doc::List(a), Doc::List(b)) => are_same_items(a.as_slice(), b.as_slice()),
        (Doc::Obj(a), Doc::Obj(b)) => are_same_members(a.as_slice(), b.as_slice()),
        _ => false,
    }
}

#[cycle(equality)]
fn are_same_items(a: &[Doc], b: &[Doc]) -> bool
    ensures { result ≡ items_are_equal (items_of (map tree_of a.now)) (items_of (map tree_of b.now)) }
{
    if a.len() != b.len() {
        return false;
    }
    for i in 0..a.len() {
        let first = &a[i];
        let second = &b[i];
        if !is_same(first, second) {
            return false;
        }
    }
    true
}

#[cycle(equality)]
fn are_same_members(a: &[(Name, Doc)], b: &[(Name, Doc)]) -> bool
    ensures { result ≡ members_are_equal (members_of (map pair_of a.now)) (members_of (map pair_of b.now)) }
{
    if a.len() != b.len() {
        return false;
    }
    for i in 0..a.len() {
        let first = &a[i];
        let second = &b[i];
        if first.0 != second.0 {
            return false;
        }
        if !is_same(&first.1, &second.1) {
            return false;
        }
    }
    true
}

impl PartialEq for Doc {
    ghost eq = { documents_are_equal };

    ghost laws = { partial_equiv_from_equiv document_equality };

    fn eq(&self, other: &Doc) -> bool {
        is_same(self, other)
    }
}

impl Eq for Doc {
    ghost laws = { document_equality };
}

//! Values of a document by their form.

ghost use Rattle.std.specs.Prelude.{◌≡◌, map, MatchOption, Some, None};
ghost use Rattle.std.specs.Option.{option_map};
ghost use Rattle.path_name.specs.Given.{Gives};
ghost use Rattle.json_ordered.specs.Docs.{tree_of, pair_of};
ghost use Rattle.json_ordered.specs.JsonNames.{value_of};
ghost use Rattle.json_ordered.specs.JsonParts.{IsNoObject};
ghost use Rattle.manifest_read.specs.declared.fault.FieldFault.TheVariants.{OutOfMemory};
ghost use Rattle.manifest_read.specs.Keys.{value_at};
ghost use Rattle.manifest_read.specs.Pointers.{below};
ghost use Rattle.manifest_read.specs.Values.{items_in, pairs_in, text_at, list_at, object_at, boolean_at};

use crate::fault::FieldFault;
use crate::key::Key;
use crate::pointer::{bad_field, bad_value};
use json_ordered::Doc;
use path_name::{Name, Text};
use std::alloc::Global;

/// The first value that has this name.
fn value_named<'a>(pairs: &'a [(Name, Doc)], name: &[u8]) -> Option<&'a Doc>
    ensures { option_map (λ doc. tree_of doc.now) result ≡ value_of (map pair_of pairs.now) name.now }
{
    for pair in pairs {
        if name == pair.0.as_slice() {
            return Some(&pair.1);
        }
    }
    None
}

/// The value of a key.
#[tactic(auto, unfolding(crate::specs::Keys::value_at))]
pub fn value<'a>(pairs: &'a [(Name, Doc)], key: Key) -> Option<&'a Doc>
    ensures { option_map (λ doc. tree_of doc.now) result ≡ value_at (map pair_of pairs.now) key }
{
    value_named(pairs, key.text())
}

/// The items of an array.
pub fn items(doc: &Doc) -> Option<&[Doc]>
    ensures { MatchOption result (items_in (tree_of doc.now) ≡ None)
        (λ items. items_in (tree_of doc.now) ≡ Some (map tree_of items.now)) }
{
    doc.as_list()
}

/// The pairs of an object. An empty array is taken for an empty object.
pub fn pairs(doc: &Doc) -> Option<&[(Name, Doc)]>
    ensures { MatchOption result (pairs_in (tree_of doc.now) ≡ None)
        (λ pairs. pairs_in (tree_of doc.now) ≡ Some (map pair_of pairs.now)) }
{
    match doc.as_obj() {
        Some(pairs) => Some(pairs),
        None => empty_pairs(doc),
    }
}

fn empty_pairs(doc: &Doc) -> Option<&[(Name, Doc)]>
    requires { IsNoObject (tree_of doc.now) }
    ensures { MatchOption result (pairs_in (tree_of doc.now) ≡ None)
        (λ pairs. pairs_in (tree_of doc.now) ≡ Some (map pair_of pairs.now)) }
{
    match doc.as_list() {
        Some(items) => { if items.is_empty() { Some(&[]) } else { None } }
        None => None,
    }
}

/// The bytes of a text.
#[tactic(auto, unfolding(crate::specs::Values::text_at))]
pub fn text<'a>(
    alloc: Global,
    at: &[u8],
    token: &[u8],
    doc: &'a Doc,
) -> Result<&'a [u8], FieldFault>
    ensures { Gives (λ text. text.now) OutOfMemory (text_at (below at.now token.now) (tree_of doc.now)) result }
{
    match doc.as_str() {
        Some(text) => Ok(text),
        None => Err(bad_field(alloc, at, token)),
    }
}

/// A copy of a text.
pub fn owned_text(alloc: Global, at: &[u8], token: &[u8], doc: &Doc) -> Result<Text, FieldFault>
    ensures { Gives (λ text. text) OutOfMemory (text_at (below at.now token.now) (tree_of doc.now)) result }
{
    let text = text(alloc, at, token, doc)?;
    Ok(Text::of(Vec::from_slice(alloc, text)?))
}

/// A truth value.
#[tactic(auto, unfolding(crate::specs::Values::boolean_at))]
pub fn boolean(alloc: Global, at: &[u8], token: &[u8], doc: &Doc) -> Result<bool, FieldFault>
    ensures { Gives (λ value. value) OutOfMemory (boolean_at (below at.now token.now) (tree_of doc.now)) result }
{
    match doc.as_bool() {
        Some(value) => Ok(value),
        None => Err(bad_field(alloc, at, token)),
    }
}

/// The items of an array.
#[tactic(auto, unfolding(crate::specs::Values::list_at))]
pub fn list<'a>(alloc: Global, at: &[u8], doc: &'a Doc) -> Result<&'a [Doc], FieldFault>
    ensures { Gives (λ items. map tree_of items.now) OutOfMemory (list_at at.now (tree_of doc.now)) result }
{
    match items(doc) {
        Some(items) => Ok(items),
        None => Err(bad_value(alloc, at)),
    }
}

/// The pairs of an object.
#[tactic(auto, unfolding(crate::specs::Values::object_at))]
pub fn object<'a>(alloc: Global, at: &[u8], doc: &'a Doc) -> Result<&'a [(Name, Doc)], FieldFault>
    ensures { Gives (λ pairs. map pair_of pairs.now) OutOfMemory (object_at at.now (tree_of doc.now)) result }
{
    match pairs(doc) {
        Some(pairs) => Ok(pairs),
        None => Err(bad_value(alloc, at)),
    }
}

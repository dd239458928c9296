//! Documents of what is written, made of lists and keys.

ghost use Rattle.std.specs.Prelude.{◌≡◌, ◌++◌, ◌∷◌, [], ℕ, List, map, IfOk, OnOk};
ghost use Rattle.json_ordered.specs.JsonTree.{JsonTree, String, array_of, object_of};
ghost use Rattle.json_ordered.specs.JsonTexts.{pretty_text};
ghost use Rattle.json_ordered.specs.Docs.{tree_of, pair_of};
ghost use Rattle.lock_file.specs.PackageTrees.{keyed, filled};

use json_ordered::{Doc, print_pretty};
use manifest_read::fields::Key;
use path_name::{Name, Text};
use std::alloc::{AllocError, Global};

/// What is written as an item of an array.
pub(crate) trait Item {
    /// The value that it is written as.
    ghost tree: { Self → JsonTree };

    fn doc(&self, alloc: Global) -> Result<Doc, AllocError>
        ensures { IfOk result (λ doc. tree_of doc ≡ tree self.now) };
}

/// What is written as a pair of an object.
pub(crate) trait Member {
    /// The name and the value that it is written as.
    ghost pair: { Self → List ℕ × JsonTree };

    fn named_doc(&self, alloc: Global) -> Result<(Name, Doc), AllocError>
        ensures { IfOk result (λ named. pair_of named ≡ pair self.now) };
}

/// A string.
pub(crate) fn string(alloc: Global, text: &[u8]) -> Result<Doc, AllocError>
    ensures { IfOk result (λ doc. tree_of doc ≡ String text.now) }
{
    Ok(Doc::Str(Text::of(Vec::from_slice(alloc, text)?)))
}

impl Item for Text {
    ghost use Rattle.json_ordered.specs.JsonTree.{String};

    ghost tree = { String };

    fn doc(&self, alloc: Global) -> Result<Doc, AllocError> {
        string(alloc, self.as_slice())
    }
}

/// An array.
pub(crate) fn array<X: Item>(alloc: Global, items: &[X]) -> Result<Doc, AllocError>
    ensures { IfOk result (λ doc. tree_of doc ≡ array_of (map X.tree items.now)) }
{
    let mut docs = Vec::with_capacity(alloc, items.len())?;
    for item in items {
        docs.push(item.doc(alloc)?)?;
    }
    Ok(Doc::List(docs))
}

/// An object.
pub(crate) fn object<X: Member>(alloc: Global, members: &[X]) -> Result<Doc, AllocError>
    ensures { IfOk result (λ doc. tree_of doc ≡ object_of (map X.pair members.now)) }
{
    let mut pairs = Vec::with_capacity(alloc, members.len())?;
    for member in members {
        pairs.push(member.named_doc(alloc)?)?;
    }
    Ok(Doc::Obj(pairs))
}

/// Adds a key with its value.
pub(crate) fn add(
    alloc: Global,
    pairs: &mut Vec<(Name, Doc)>,
    key: Key,
    doc: Doc,
) -> Result<(), AllocError>
    ensures { OnOk result (map pair_of pairs.new.items ≡ map pair_of pairs.old.items ++ keyed key (tree_of doc) ∷ []) }
{
    let name = Name::of(Vec::from_slice(alloc, key.text())?);
    pairs.push((name, doc))?;
    Ok(())
}

/// Adds a key with a string.
pub(crate) fn add_string(
    alloc: Global,
    pairs: &mut Vec<(Name, Doc)>,
    key: Key,
    text: &[u8],
) -> Result<(), AllocError>
    ensures { OnOk result (map pair_of pairs.new.items ≡ map pair_of pairs.old.items ++ keyed key (String text.now) ∷ []) }
{
    let doc = string(alloc, text)?;
    add(alloc, pairs, key, doc)
}

/// Adds a key with an array, unless that is empty.
pub(crate) fn add_filled_array<X: Item>(
    alloc: Global,
    pairs: &mut Vec<(Name, Doc)>,
    key: Key,
    items: &[X],
) -> Result<(), AllocError>
    ensures { OnOk result (map pair_of pairs.new.items ≡ map pair_of pairs.old.items ++ filled key (λ xs. array_of (map X.tree xs)) items.now) }
{
    match items {
        [] => Ok(()),
        [_, ..] => {
            let doc = array(alloc, items)?;
            add(alloc, pairs, key, doc)
        }
    }
}

/// Adds a key with an object, unless that is empty.
pub(crate) fn add_filled_object<X: Member>(
    alloc: Global,
    pairs: &mut Vec<(Name, Doc)>,
    key: Key,
    members: &[X],
) -> Result<(), AllocError>
    ensures { OnOk result (map pair_of pairs.new.items ≡ map pair_of pairs.old.items ++ filled key (λ xs. object_of (map X.pair xs)) members.now) }
{
    match members {
        [] => Ok(()),
        [_, ..] => {
            let doc = object(alloc, members)?;
            add(alloc, pairs, key, doc)
        }
    }
}

/// A document in the pretty form, with a final LF.
pub(crate) fn with_line_end(alloc: Global, doc: &Doc) -> Result<Text, AllocError>
    ensures { IfOk result (λ text. text ≡ pretty_text (tree_of doc.now) ++ 10 ∷ []) }
{
    let mut text = print_pretty(alloc, doc)?.into_vec();
    text.push(b'\n')?;
    Ok(Text::of(text))
}

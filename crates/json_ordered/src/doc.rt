//! JSON values.

ghost use Rattle.std.specs.Prelude.{◌≡◌, map, Some, None, MatchOption};
ghost use Rattle.std.specs.Option.{option_copied};
ghost use Rattle.json_ordered.specs.JsonTree.{members_of};
ghost use Rattle.json_ordered.specs.JsonParts.{value_among};
ghost use Rattle.json_ordered.specs.Docs.{tree_of, pair_of};

use path_name::{Name, Text};

/// A JSON value, with the items of an array and the members of an object in order. What
/// [`read`](crate::read) gives has distinct names in each object, and each name and string is UTF-8. Two
/// documents are equal where their trees of values are, wherever they lie in memory.
#[derive(Debug, Drop)]
pub enum Doc {
    /// `null`.
    Null,
    /// `true` or `false`.
    Bool(bool),
    /// A number, as it is spelled.
    Num(Text),
    /// A string, decoded.
    Str(Text),
    /// An array.
    List(Vec<Doc>),
    /// An object.
    Obj(Vec<(Name, Doc)>),
}

// The value of the first member with a name.
fn value_among<'a>(members: &'a [(Name, Doc)], name: &[u8]) -> Option<&'a Doc>
    ensures { MatchOption result
        (value_among (members_of (map pair_of members.now)) name.now ≡ None)
        (λ value. value_among (members_of (map pair_of members.now)) name.now ≡ Some (tree_of value.now)) }
{
    for member in members {
        if member.0.as_slice() == name {
            return Some(&member.1);
        }
    }
    None
}

impl Doc {
    ghost use Rattle.json_ordered.specs.JsonTree.{array_of, object_of};
    ghost use Rattle.json_ordered.specs.JsonParts.{is_null, boolean_in, number_in, string_in, IsNoArray, IsNoObject, value_at};

    /// Whether this is `null`.
    pub fn is_null(&self) -> bool
        ensures { result ≡ is_null (tree_of self.now) }
    {
        match self {
            Doc::Null => true,
            _ => false,
        }
    }

    /// The truth value, if this is one.
    pub fn as_bool(&self) -> Option<bool>
        ensures { result ≡ boolean_in (tree_of self.now) }
    {
        match self {
            Doc::Bool(value) => Some(*value),
            _ => None,
        }
    }

    /// The number as it is spelled, if this is one.
    pub fn as_num(&self) -> Option<&[u8]>
        ensures { option_copied result ≡ number_in (tree_of self.now) }
    {
        match self {
            Doc::Num(text) => Some(text.as_slice()),
            _ => None,
        }
    }

    /// The string, if this is one.
    pub fn as_str(&self) -> Option<&[u8]>
        ensures { option_copied result ≡ string_in (tree_of self.now) }
    {
        match self {
            Doc::Str(text) => Some(text.as_slice()),
            _ => None,
        }
    }

    /// The items, if this is an array.
    pub fn as_list(&self) -> Option<&[Doc]>
        ensures { MatchOption result (IsNoArray (tree_of self.now)) (λ items. tree_of self.now ≡ array_of (map tree_of items.now)) }
    {
        match self {
            Doc::List(items) => Some(items.as_slice()),
            _ => None,
        }
    }

    /// The members in order, if this is an object.
    pub fn as_obj(&self) -> Option<&[(Name, Doc)]>
        ensures { MatchOption result (IsNoObject (tree_of self.now)) (λ members. tree_of self.now ≡ object_of (map pair_of members.now)) }
    {
        match self {
            Doc::Obj(members) => Some(members.as_slice()),
            _ => None,
        }
    }

    /// The value that a name has, if this is an object that has it: that of the first member with the name.
    pub fn value(&self, name: &[u8]) -> Option<&Doc>
        ensures { MatchOption result (value_at (tree_of self.now) name.now ≡ None) (λ value. value_at (tree_of self.now) name.now ≡ Some (tree_of value.now)) }
    {
        match self {
            Doc::Obj(members) => value_among(members.as_slice(), name),
            _ => None,
        }
    }
}

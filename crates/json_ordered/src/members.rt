//! The members of an object, once they have all come.

ghost use Rattle.std.specs.Prelude.{◌≡◌, true, [], map, OnOk, IfOk, IfErr};
ghost use Rattle.std.specs.List.{list_any};
ghost use Rattle.std.specs.List.Sorted.{IsStrictlyIncreasing};
ghost use Rattle.path_name.specs.Orders.{bytes_are_equal};
ghost use Rattle.json_ordered.specs.JsonTree.{put, put_all};
ghost use Rattle.json_ordered.specs.JsonNames.{names_of};
ghost use Rattle.json_ordered.specs.Docs.{tree_of, pair_of};
ghost use Rattle.json_ordered.specs.JsonFrames.{entry_of};
ghost use Rattle.json_ordered.specs.JsonSeeds.{number_of};

use crate::doc::Doc;
use crate::seed::Seeded;
use crate::stop::Stop;
use indexmap::IndexMap;
use path_name::Name;
use std::alloc::{AllocError, Global};
use std::hash::{FoldHasher, Hasher};

// Up to how many names are compared each with each.
const FEW: usize = 16;

// Whether one of the members has a name.
fn is_among(members: &[(Name, Doc)], name: &[u8]) -> bool
    ensures { result ≡ list_any (bytes_are_equal name.now) (names_of (map pair_of members.now)) }
{
    for member in members {
        if name == member.0.as_slice() {
            return true;
        }
    }
    false
}

// Whether no name comes twice, by comparing each with each.
fn few_differ(members: &[(Name, Doc)]) -> bool
    ensures { result ≡ true → put_all [] (map pair_of members.now) ≡ map pair_of members.now }
{
    for i in 0..members.len() {
        let member = &members[i];
        if is_among(members.split_at(i).0, member.0.as_slice()) {
            return false;
        }
    }
    true
}

// A number that a name makes, by std's quick hash.
fn number_of(name: &[u8]) -> u64
    ensures { result ≡ number_of name.now }
{
    let mut hasher = FoldHasher::default();
    hasher.write(name);
    hasher.finish()
}

// The numbers of all names.
fn numbers_of(alloc: Global, members: &[(Name, Doc)]) -> Result<Vec<u64>, AllocError>
    ensures { IfOk result (λ numbers. numbers.items ≡ map number_of (names_of (map pair_of members.now))) }
{
    let mut numbers = Vec::with_capacity(alloc, members.len())?;
    for member in members {
        numbers.push(number_of(member.0.as_slice()))?;
    }
    Ok(numbers)
}

// Whether each number is above the one before it.
fn rise(numbers: &[u64]) -> bool
    ensures { result ≡ true → IsStrictlyIncreasing numbers.now }
{
    for i in 1..numbers.len() {
        if numbers[i] <= numbers[i - 1] {
            return false;
        }
    }
    true
}

// Whether all names make different numbers, so that none comes twice.
fn numbers_differ(alloc: Global, members: &[(Name, Doc)]) -> Result<bool, AllocError>
    ensures { IfOk result (λ differ. differ ≡ true → put_all [] (map pair_of members.now) ≡ map pair_of members.now) }
{
    let mut numbers = numbers_of(alloc, members)?;
    numbers.sort_unstable();
    Ok(rise(numbers.as_slice()))
}

// Whether it is seen at once that no name comes twice. Many names that make one number may still differ.
fn differ(alloc: Global, members: &[(Name, Doc)]) -> Result<bool, AllocError>
    ensures { IfOk result (λ differ. differ ≡ true → put_all [] (map pair_of members.now) ≡ map pair_of members.now) }
{
    if members.len() <= FEW {
        return Ok(few_differ(members));
    }
    numbers_differ(alloc, members)
}

// The members of a map, in order.
fn pairs(alloc: Global, members: IndexMap<Vec<u8>, Doc, Seeded>) -> Result<Vec<(Name, Doc)>, Stop>
    ensures ok { IfOk result (λ pairs. map pair_of pairs.items ≡ map entry_of members.entries) }
    ensures err { IfErr result (λ e. e ≡ Stop.OutOfMemory) }
{
    let mut pairs = Vec::with_capacity(alloc, members.len())?;
    for (name, doc) in members {
        pairs.push((Name::of(name), doc))?;
    }
    Ok(pairs)
}

// Puts in one more member: a name that is there keeps its place and takes the value.
fn put(members: &mut IndexMap<Vec<u8>, Doc, Seeded>, name: Vec<u8>, doc: Doc) -> Result<(), Stop>
    ensures ok { OnOk result (map entry_of members.new.entries ≡ put (map entry_of members.old.entries) name.items (tree_of doc)) }
    ensures err { IfErr result (λ e. e ≡ Stop.OutOfMemory) }
{
    let _old = members.insert(name, doc)?;
    Ok(())
}

// The members by the rule for repeated names, put into a map one after the other.
fn put_in_turn(alloc: Global, members: Vec<(Name, Doc)>) -> Result<Vec<(Name, Doc)>, Stop>
    ensures ok { IfOk result (λ all. map pair_of all.items ≡ put_all [] (map pair_of members.items)) }
    ensures err { IfErr result (λ e. e ≡ Stop.OutOfMemory) }
{
    let seed = Seeded::by_names(members.as_slice());
    let mut all = IndexMap::with_capacity_and_hasher(alloc, members.len(), seed)?;
    for (name, doc) in members {
        put(&mut all, name.into_vec(), doc)?;
    }
    pairs(alloc, all)
}

/// The members of an object by the rule for repeated names: a name keeps its first place and has the last
/// of its values. Work grows with the count of names, whatever they are.
pub(crate) fn joined(alloc: Global, members: Vec<(Name, Doc)>) -> Result<Vec<(Name, Doc)>, Stop>
    ensures ok { IfOk result (λ all. map pair_of all.items ≡ put_all [] (map pair_of members.items)) }
    ensures err { IfErr result (λ e. e ≡ Stop.OutOfMemory) }
{
    if differ(alloc, members.as_slice())? {
        return Ok(members);
    }
    put_in_turn(alloc, members)
}

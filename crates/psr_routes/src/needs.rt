//! What packages require, with names as numbers.

ghost use Rattle.std.specs.Prelude.{◌≡◌, ◌++◌, map, length, IfOk, OnOk};
ghost use Rattle.std.specs.List.{list_any};
ghost use Rattle.std.specs.List.Sorted.{IsPermutation};
ghost use Rattle.std.specs.Ordering.{is_lt};
ghost use Rattle.path_name.specs.Orders.{byte_cmp, bytes_are_equal};
ghost use Rattle.psr_routes.specs.Numbers.{lent, names_of, IsInOrder, IsPointOf, number_in, number_if_borne, required_by, IsOf};

use crate::types::Placed;
use manifest_read::Link;
use std::alloc::{AllocError, Global};

/// The names of packages as numbers, which are ordered as the names are, and what each package requires.
#[derive(Drop)]
pub struct Needs {
    /// The number of each package's name: how many packages have a lesser one.
    pub numbers: Vec<usize>,
    /// The numbers of the names that each package requires, but for those that no package bears.
    pub required: Vec<Vec<usize>>,
}

impl Needs {
    /// Those of packages. Its one refusal is want of memory.
    pub fn of(alloc: Global, members: &[Placed]) -> Result<Needs, AllocError>
        ensures { IfOk result (IsOf members.now) }
    {
        let names = names_in_order(alloc, members)?;
        Ok(Needs {
            numbers: numbers_of(alloc, names.as_slice(), members)?,
            required: required_of(alloc, names.as_slice(), members)?,
        })
    }
}

/// The names of the packages, in byte order.
fn names_in_order<'a>(alloc: Global, members: &'a [Placed]) -> Result<Vec<&'a [u8]>, AllocError>
    ensures all { IfOk result (λ names. IsPermutation (names_of members.now) (lent names.items)) }
    ensures in_order { IfOk result (λ names. IsInOrder (lent names.items)) }
{
    let mut names = names_of(alloc, members)?;
    names.sort_unstable();
    Ok(names)
}

fn names_of<'a>(alloc: Global, members: &'a [Placed]) -> Result<Vec<&'a [u8]>, AllocError>
    ensures { IfOk result (λ names. lent names.items ≡ names_of members.now) }
{
    let mut names = Vec::with_capacity(alloc, members.len())?;
    for member in members {
        names.push(member.package.name.as_slice())?;
    }
    Ok(names)
}

/// How many of the names are less than a name.
fn number_in(names: &[&[u8]], name: &[u8]) -> usize
    requires { IsInOrder (lent names.now) }
    ensures exact { result ≡ number_in (lent names.now) name.now }
    ensures point { IsPointOf (lent names.now) name.now result }
{
    names.partition_point(|other| is_less(other, name))
}

fn is_less(one: &[u8], other: &[u8]) -> bool
    ensures { result ≡ is_lt (byte_cmp one.now other.now) }
{
    one.cmp(other).is_lt()
}

/// Whether a name, of which the number is known, is one of the names.
fn is_borne(names: &[&[u8]], number: usize, name: &[u8]) -> bool
    requires sorted { IsInOrder (lent names.now) }
    requires point { IsPointOf (lent names.now) name.now number }
    ensures { result ≡ list_any (bytes_are_equal name.now) (lent names.now) }
{
    number < names.len() && names[number] == name
}

fn numbers_of(alloc: Global, names: &[&[u8]], members: &[Placed]) -> Result<Vec<usize>, AllocError>
    requires { IsInOrder (lent names.now) }
    ensures { IfOk result (λ numbers. numbers.items ≡ map (λ one. number_in (lent names.now) one.package.name) members.now) }
{
    let mut numbers = Vec::with_capacity(alloc, members.len())?;
    for member in members {
        numbers.push(number_in(names, member.package.name.as_slice()))?;
    }
    Ok(numbers)
}

fn required_of(
    alloc: Global,
    names: &[&[u8]],
    members: &[Placed],
) -> Result<Vec<Vec<usize>>, AllocError>
    requires { IsInOrder (lent names.now) }
    ensures { IfOk result (λ lists. map (λ list. list.items) lists.items ≡ map (λ one. required_by (lent names.now) one.package.require) members.now) }
{
    let mut lists = Vec::with_capacity(alloc, members.len())?;
    for member in members {
        lists.push(numbers_required(alloc, names, member.package.require.as_slice())?)?;
    }
    Ok(lists)
}

/// The numbers of the names that links require, but for those that are none of the names.
fn numbers_required(
    alloc: Global,
    names: &[&[u8]],
    links: &[Link],
) -> Result<Vec<usize>, AllocError>
    requires { IsInOrder (lent names.now) }
    ensures { IfOk result (λ numbers. numbers.items ≡ required_by (lent names.now) links.now) }
{
    let mut numbers = Vec::new(alloc);
    for link in links {
        put_number(&mut numbers, names, link.name.as_slice())?;
    }
    Ok(numbers)
}

fn put_number(numbers: &mut Vec<usize>, names: &[&[u8]], name: &[u8]) -> Result<(), AllocError>
    requires { IsInOrder (lent names.now) }
    ensures { OnOk result (numbers.new.items ≡ numbers.old.items ++ number_if_borne (lent names.now) name.now) }
{
    let number = number_in(names, name);
    if is_borne(names, number, name) {
        numbers.push(number)?;
    }
    Ok(())
}

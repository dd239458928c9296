//! Lists that are filled while an array or object is open.

ghost use Rattle.std.specs.Prelude.{◌≡◌, [], IfOk, IfErr};

use crate::doc::Doc;
use crate::stop::Stop;
use path_name::Name;
use std::alloc::Global;

// Up to how many entries are moved into a list without room to spare; a longer list stays where it is.
const FEW: usize = 32;

/// Empty lists, whose room is used again: so each list of a document is made once, with the room that it
/// needs, however it grew.
#[derive(Drop)]
pub(crate) struct Room {
    pub(crate) alloc: Global,
    items: Vec<Vec<Doc>>,
    members: Vec<Vec<(Name, Doc)>>,
}

// An empty list.
fn taken<T: Drop>(alloc: Global, spare: &mut Vec<Vec<T>>) -> Vec<T>
    ensures { result.items ≡ [] }
{
    match spare.pop() {
        Some(mut list) => {
            list.clear();
            list
        }
        None => Vec::new(alloc),
    }
}

// A list with these entries and no room to spare.
fn fitted<T: Drop>(spare: &mut Vec<Vec<T>>, list: Vec<T>) -> Result<Vec<T>, Stop>
    ensures ok { IfOk result (λ fitted. fitted.items ≡ list.items) }
    ensures err { IfErr result (λ e. e ≡ Stop.OutOfMemory) }
{
    let mut list = list;
    if list.len() > FEW {
        list.shrink_to_fit();
        return Ok(list);
    }
    let fitted = list.split_off(0)?;
    spare.push(list)?;
    Ok(fitted)
}

impl Room {
    pub(crate) fn new(alloc: Global) -> Room {
        Room {
            alloc,
            items: Vec::new(alloc),
            members: Vec::new(alloc),
        }
    }

    /// No items yet.
    pub(crate) fn items(&mut self) -> Vec<Doc>
        ensures { result.items ≡ [] }
    {
        taken(self.alloc, &mut self.items)
    }

    /// No members yet.
    pub(crate) fn members(&mut self) -> Vec<(Name, Doc)>
        ensures { result.items ≡ [] }
    {
        taken(self.alloc, &mut self.members)
    }

    /// All the items of an array.
    pub(crate) fn all_items(&mut self, items: Vec<Doc>) -> Result<Vec<Doc>, Stop>
        ensures ok { IfOk result (λ all. all.items ≡ items.items) }
        ensures err { IfErr result (λ e. e ≡ Stop.OutOfMemory) }
    {
        fitted(&mut self.items, items)
    }

    /// All the members of an object.
    pub(crate) fn all_members(
        &mut self,
        members: Vec<(Name, Doc)>,
    ) -> Result<Vec<(Name, Doc)>, Stop>
        ensures ok { IfOk result (λ all. all.items ≡ members.items) }
        ensures err { IfErr result (λ e. e ≡ Stop.OutOfMemory) }
    {
        fitted(&mut self.members, members)
    }
}

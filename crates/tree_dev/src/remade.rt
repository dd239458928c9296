//! A disk in memory made anew from its steps, as a crash leaves it.

ghost use Rattle.std.specs.Prelude.{◌≡◌, [], true, IfOk, OnOk, None, length, reverse};
ghost use Rattle.std.specs.Option.{option_copied};
ghost use Rattle.std.specs.FinMap as map;
ghost use Rattle.tree_dev.specs.Trees.{IsTree};
ghost use Rattle.tree_dev.specs.Changes.{changed, has_place};
ghost use Rattle.tree_dev.specs.Disk.{made, reading};
ghost use Rattle.tree_dev.specs.Memory.{crashed, new_disks, put_in, torn_change, torn_changes};
ghost use Rattle.tree_dev.specs.Recorded.{CanRedo, CanRedoAll, recorded};
ghost use Rattle.tree_dev.specs.Remade.{CanMakeAll, disk_after, one_more, safe_at};
ghost use Rattle.tree_dev.specs.Stored.{entry_of};

use crate::files::Files;
use crate::log::Step;
use crate::shared::SharedText;
use crate::stored::Stored;
use crate::{Change, applying, placing};
use path_name::Path;
use std::alloc::{AllocError, Global};
use std::marker::Model;

/// Makes a change that has a place, with these bytes in the file that it writes, if any are given. After want of
/// memory nothing is said of the entries.
#[tactic(auto, unfolding(crate::specs::Changes::written))]
fn apply_torn(
    files: &mut Files,
    alloc: Global,
    change: &Change,
    torn: Option<&SharedText>,
) -> Result<(), AllocError>
    requires tree { IsTree files.old }
    requires place { has_place files.old change.now ≡ true }
    ensures { OnOk result (files.new ≡ changed files.old (torn_change (option_copied torn.entry) change.now)) }
{
    let Some(bytes) = torn else {
        return applying::apply(files, alloc, change);
    };
    match change {
        Change::Written(at, _) => files.insert(at.copy(alloc)?, Stored::File(bytes.share()?)),
        Change::FolderMade(_)
        | Change::Renamed(_, _)
        | Change::FileRemoved(_)
        | Change::FolderRemoved(_) => applying::apply(files, alloc, change),
    }
}

/// Makes changes, the first one first, with these bytes in each file that one of them writes, if any are given.
fn apply_all(
    files: &mut Files,
    alloc: Global,
    changes: &[Change],
    torn: Option<&SharedText>,
) -> Result<(), AllocError>
    requires { CanMakeAll files.old (reverse changes.now) }
    ensures { OnOk result (files.new ≡ made files.old (torn_changes (option_copied torn.entry) (reverse changes.now))) }
{
    for change in changes {
        apply_torn(files, alloc, change, torn)?;
    }
    Ok(())
}

/// A disk in memory that is made anew: the entries that are safe, and the changes that are pending.
#[derive(Debug, Drop)]
pub struct Remade {
    base: Files,
    pending: Vec<Change>,
}

impl Model for Remade {
    ghost use Rattle.std.specs.Prelude.{reverse};
    ghost use Rattle.tree_dev.specs.Disk.{Disk};
    ghost use Rattle.tree_dev.specs.Memory.{disk_code};
    ghost use Rattle.tree_dev.specs.Remade.{CanMakeAll};

    ghost Value = { Disk };

    ghost coded = { disk_code };

    ghost view = { λ remade. record { base = remade.base; pending = reverse remade.pending.items } };

    ghost invariant = { λ remade. CanMakeAll remade.base (reverse remade.pending.items) };
}

impl Remade {
    /// The root alone. Takes no memory.
    fn new(alloc: Global) -> Remade
        ensures { result ≡ safe_at map.empty }
    {
        Remade {
            base: Files::new(alloc),
            pending: Vec::new(alloc),
        }
    }

    /// The entries that are safe.
    pub fn into_base(self) -> Files
        ensures { result ≡ self.base }
    {
        self.base
    }

    /// The disk after a change, which is then pending.
    fn changed(self, change: Change) -> Result<Remade, AllocError>
        requires tree { IsTree (reading self) }
        requires place { has_place (reading self) change ≡ true }
        ensures { IfOk result (λ after. after ≡ one_more self change) }
    {
        let Remade { base, mut pending } = self;
        pending.push(change)?;
        Ok(Remade { base, pending })
    }

    /// The disk after a crash that keeps the first so many pending changes, and puts these bytes into each file that
    /// one of them wrote, if any are given.
    pub fn crashed(
        self,
        alloc: Global,
        applied: usize,
        torn: Option<&SharedText>,
    ) -> Result<Remade, AllocError>
        ensures { IfOk result (λ after. after ≡ safe_at (crashed self applied (option_copied torn.entry))) }
    {
        let Remade { mut base, pending } = self;
        let kept = applied.min(pending.len());
        apply_all(&mut base, alloc, &pending[..kept], torn)?;
        Ok(Remade {
            base,
            pending: Vec::new(alloc),
        })
    }

    /// The disk after a barrier.
    fn settled(self, alloc: Global) -> Result<Remade, AllocError>
        ensures { IfOk result (λ after. after ≡ safe_at (reading self)) }
    {
        let all = self.pending.len();
        self.crashed(alloc, all, None)
    }

    /// The disk after an entry was put at a path.
    fn put(self, alloc: Global, at: &Path, entry: Stored) -> Result<Remade, AllocError>
        ensures { IfOk result (λ after. after ≡ safe_at (put_in (reading self) at.now (entry_of entry))) }
    {
        let mut base = self.settled(alloc)?.into_base();
        placing::put(&mut base, alloc, at, entry)?;
        Ok(Remade {
            base,
            pending: Vec::new(alloc),
        })
    }

    /// The disk after a step.
    fn after(self, alloc: Global, step: &Step) -> Result<Remade, AllocError>
        requires { CanRedo self step.now }
        ensures { IfOk result (λ after. after ≡ disk_after self step.now) }
    {
        match step {
            Step::Changed(change) => self.changed(change.share(alloc)?),
            Step::Settled => self.settled(alloc),
            Step::Put(at, entry) => self.put(alloc, at, entry.share()?),
            Step::Crashed(applied, torn) => self.crashed(alloc, *applied, torn.as_ref()),
        }
    }
}

/// The disk after these steps, the first one first.
pub fn remake(alloc: Global, steps: &[Step]) -> Result<Remade, AllocError>
    requires { CanRedoAll new_disks steps.now }
    ensures { IfOk result (λ remade. remade ≡ (recorded steps.now).now) }
{
    let mut disk = Remade::new(alloc);
    for step in steps {
        disk = disk.after(alloc, step)?;
    }
    Ok(disk)
}

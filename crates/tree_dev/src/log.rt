//! The record of a tree in memory.

ghost use Rattle.std.specs.Prelude.{◌≡◌, ◌+◌, ◌∷◌, length, true, IfOk, OnOk, OnErr};
ghost use Rattle.std.specs.Option.{option_copied};
ghost use Rattle.tree_dev.specs.Trees.{IsTree};
ghost use Rattle.tree_dev.specs.Changes.{has_place};
ghost use Rattle.tree_dev.specs.Disk.{Disks, reading, settled, with_base, with_change};
ghost use Rattle.tree_dev.specs.Memory.{after_disk_crash, crashed, new_disks, put_in};
ghost use Rattle.tree_dev.specs.Stored.{entry_of};

use crate::Change;
use crate::files::Files;
use crate::remade::remake;
use crate::shared::SharedText;
use crate::stored::Stored;
use path_name::Path;
use std::alloc::{AllocError, Global};
use std::marker::Model;

/// What happened to a tree in memory.
#[derive(Debug, Drop)]
pub enum Step {
    /// A call made a change.
    Changed(Change),
    /// A barrier came through.
    Settled,
    /// An entry was put at a path, and the tree is safe.
    Put(Path, Stored),
    /// A crash left the first so many of the pending changes, with these bytes in each file that one of them wrote, if
    /// any are given. What it left is safe.
    Crashed(usize, Option<SharedText>),
}

/// All steps of a tree in memory, in order. A contract sees the disk now and at each earlier moment.
#[derive(Debug, Drop)]
pub struct Log {
    steps: Vec<Step>,
    /// How many steps came up to the last one that left nothing pending.
    safe: usize,
}

impl Model for Log {
    ghost use Rattle.tree_dev.specs.Disk.{Disks};
    ghost use Rattle.tree_dev.specs.Memory.{disks_code};

    ghost Value = { Disks };

    ghost coded = { disks_code };

    ghost use Rattle.tree_dev.specs.Recorded.{IsSound, recorded};

    ghost view = { λ log. recorded log.steps.items };

    ghost invariant = { λ log. IsSound log.safe log.steps.items };
}

impl Log {
    ghost use Rattle.tree_dev.specs.Recorded.{WasBefore};

    /// No steps. Takes no memory.
    pub fn new(alloc: Global) -> Log
        ensures { result ≡ new_disks }
    {
        Log {
            steps: Vec::new(alloc),
            safe: 0,
        }
    }

    /// Records a change that has a place. Its one refusal is want of memory, which changes nothing.
    pub fn add(&mut self, change: Change) -> Result<(), AllocError>
        requires tree { IsTree (reading self.old.now) }
        requires place { has_place (reading self.old.now) change ≡ true }
        ensures ok { OnOk result (self.new ≡ with_change self.old change) }
        ensures err { OnErr result (self.new ≡ self.old) }
    {
        self.steps.push(Step::Changed(change))?;
        Ok(())
    }

    /// How many steps came up to the last one that left nothing pending.
    pub fn safe(&self) -> usize
        ensures { result + length self.now.now.pending ≡ length self.now.past }
    {
        self.safe
    }

    /// Takes the last step back, with what `safe` gave before it.
    pub fn take_back(&mut self, safe: usize)
        requires { WasBefore self.old safe }
        ensures { (before : Disks) → self.old.past ≡ before.now ∷ before.past → self.new ≡ before }
    {
        self.steps.pop();
        self.safe = safe;
    }

    /// Records a barrier. Its one refusal is want of memory, which changes nothing.
    pub fn settle(&mut self) -> Result<(), AllocError>
        ensures ok { OnOk result (self.new ≡ settled self.old) }
        ensures err { OnErr result (self.new ≡ self.old) }
    {
        self.steps.push(Step::Settled)?;
        self.safe = self.steps.len();
        Ok(())
    }

    /// Records a put. Its one refusal is want of memory, which changes nothing.
    pub fn put(&mut self, at: Path, entry: Stored) -> Result<(), AllocError>
        ensures ok { OnOk result (self.new ≡ with_base self.old (put_in (reading self.old.now) at (entry_of entry))) }
        ensures err { OnErr result (self.new ≡ self.old) }
    {
        self.steps.push(Step::Put(at, entry))?;
        self.safe = self.steps.len();
        Ok(())
    }

    /// Records a crash. Its one refusal is want of memory, which changes nothing.
    pub fn crash(&mut self, applied: usize, torn: Option<SharedText>) -> Result<(), AllocError>
        ensures ok { OnOk result (self.new ≡ after_disk_crash self.old applied torn) }
        ensures err { OnErr result (self.new ≡ self.old) }
    {
        self.steps.push(Step::Crashed(applied, torn))?;
        self.safe = self.steps.len();
        Ok(())
    }

    /// The entries that a crash leaves which keeps the first so many pending changes, and puts these bytes into each
    /// file that one of them wrote, if any are given. It takes time in proportion to all that was recorded.
    pub fn crashed(
        &self,
        alloc: Global,
        applied: usize,
        torn: Option<&SharedText>,
    ) -> Result<Files, AllocError>
        ensures { IfOk result (λ files. files ≡ crashed self.now.now applied (option_copied torn.entry)) }
    {
        let disk = remake(alloc, self.steps.as_slice())?;
        Ok(disk.crashed(alloc, applied, torn)?.into_base())
    }

    /// How many changes are pending.
    pub fn pending(&self) -> usize
        ensures { result ≡ length self.now.now.pending }
    {
        self.steps.len() - self.safe
    }
}

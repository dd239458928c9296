//! A sink in memory.

ghost use Rattle.std.specs.Prelude.{◌≡◌, false, [], OnOk, OnErr, IfOk, IsErr, IsTrue, if◌then◌else◌};
ghost use Rattle.tree_dev.specs.Memory.{is_from};

use crate::{Failed, Sink};
use std::alloc::{AllocError, Global};
use std::marker::Model;

/// A sink in memory, for tests and for trying a command out. It tells its bytes, and fails exactly where
/// it was told to or finds no memory.
#[derive(Debug, Drop)]
pub struct MemorySink {
    bytes: Vec<u8>,
    fail_from: Option<u64>,
    puts: u64,
    short: u64,
    faults: u64,
}

impl Model for MemorySink {
    ghost use Rattle.tree_dev.specs.Memory.{SinkMemory, sink_code};

    ghost Value = { SinkMemory };

    ghost coded = { sink_code };

    ghost view = { λ sink. record { bytes = sink.bytes.items; fail_from = sink.fail_from; puts = sink.puts; short = sink.short; faults = sink.faults } };
}

impl MemorySink {
    /// A sink that took no bytes. With `Some(k)` its k-th put and all later ones fail, counted from 1;
    /// with `None` no put is told to fail. Its one refusal is want of memory.
    pub fn new(alloc: Global, fail_from: Option<u64>) -> Result<MemorySink, AllocError>
        ensures { IfOk result (λ sink. sink ≡ record { bytes = []; fail_from = fail_from; puts = 0; short = 0; faults = 0 }) }
    {
        Ok(MemorySink {
            bytes: Vec::new(alloc),
            fail_from,
            puts: 0,
            short: 0,
            faults: 0,
        })
    }

    /// The bytes that were taken.
    pub fn bytes(&self) -> &[u8]
        ensures { result.now ≡ self.now.bytes }
    {
        self.bytes.as_slice()
    }

    /// How many puts found no memory. The count stands still at its last value, 2^64 - 1.
    pub fn short(&self) -> u64
        ensures { result ≡ self.now.short }
    {
        self.short
    }
}

/// Whether a put of this number is told to fail.
fn is_refused(fail_from: Option<u64>, number: u64) -> bool
    ensures { result ≡ is_from fail_from number }
{
    match fail_from {
        None => false,
        Some(first) => first <= number,
    }
}

impl Sink for MemorySink {
    ghost use Rattle.tree_dev.specs.Memory.{taken_by, refuses_next, with_piece, after_refusal, after_shortage};

    ghost meaning = { taken_by };

    /// A put that fails takes nothing.
    fn put(&mut self, piece: &[u8]) -> Result<(), Failed>
        ensures told { IsTrue (refuses_next self.old) → IsErr result }
        ensures whole { OnOk result (self.new ≡ with_piece self.old piece.now) }
        ensures failed { OnErr result (self.new ≡ (if refuses_next self.old then after_refusal self.old else after_shortage self.old)) }
    {
        self.puts = self.puts.saturating_add(1);
        if is_refused(self.fail_from, self.puts) {
            self.faults = self.faults.saturating_add(1);
            return Err(Failed);
        }
        if self.bytes.extend_from_slice(piece).is_err() {
            self.short = self.short.saturating_add(1);
            self.faults = self.faults.saturating_add(1);
            return Err(Failed);
        }
        Ok(())
    }
}

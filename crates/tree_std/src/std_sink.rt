//! Standard output and standard error as sinks.

ghost use Rattle.std.specs.Prelude.{◌≡◌, is_err, if◌then◌else◌, OnOk, OnErr};
ghost use Rattle.std.specs.Io.KnownBytes.{Appends};
ghost use Rattle.tree_dev.specs.Device.{next};
ghost use Rattle.tree_std.specs.Writing.{AppendsPart};

use crate::writing::write_whole;
use std::io::Write;
use std::marker::Model;
use tree_dev::{Failed, Sink};

/// A sink over a writer, as standard output or standard error: `StdSink::new(rt.stdout())`. As a sink it
/// tells no bytes. Each put is written whole before it returns, in one system call where the system takes
/// the piece at once, so a caller puts whole lines and not parts of them.
/// A contract sees the bytes that the writer holds, where they are known, and the count of faults, which
/// stands still at its last value, 2^64 - 1.
#[derive(Drop)]
pub struct StdSink<W: Write> {
    to: W,
    faults: u64,
}

impl<W: Write> Model for StdSink<W> {
    ghost use Rattle.tree_dev.specs.Sinks.{Taken};
    ghost use Rattle.tree_std.specs.Writing.{taken_code};

    ghost Value = { Taken };

    ghost coded = { taken_code };

    ghost view = { λ sink. record { bytes = W.contents sink.to; faults = sink.faults } };
}

impl<W: Write> StdSink<W> {
    /// A sink that writes to `to`, and has not failed. Takes no memory.
    pub fn new(to: W) -> StdSink<W>
        ensures { result ≡ record { bytes = W.contents to; faults = 0 } }
    {
        StdSink { to, faults: 0 }
    }
}

impl<W: Write> Sink for StdSink<W> {
    ghost use Rattle.std.specs.Prelude.{None};

    ghost meaning = { λ sink. record { bytes = None; faults = sink.faults } };

    /// An error of the writer is a fault.
    fn put(&mut self, piece: &[u8]) -> Result<(), Failed>
        ensures written { OnOk result (Appends self.old.bytes self.new.bytes piece.now) }
        ensures broken_off { OnErr result (AppendsPart self.old.bytes self.new.bytes piece.now) }
        ensures counted { self.new.faults ≡ (if is_err result then next self.old.faults else self.old.faults) }
    {
        match write_whole(&mut self.to, piece) {
            Ok(()) => Ok(()),
            Err(_) => {
                self.faults = self.faults.saturating_add(1);
                Err(Failed)
            }
        }
    }
}

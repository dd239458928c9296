//! The trait of sinks.

ghost use Rattle.std.specs.Prelude.{OnOk, OnErr};

use crate::Failed;

/// Where a command writes its lines. What a sink means to a contract is one record, `meaning`: the bytes
/// that it took, where it tells them, and the count of its faults.
pub trait Sink {
    ghost use Rattle.tree_dev.specs.Device.{Rose};
    ghost use Rattle.tree_dev.specs.Sinks.{Taken, Takes, TakesPart};

    ghost meaning: { Self → Taken };

    /// Takes a piece whole, or fails and has taken a prefix of it.
    fn put(&mut self, piece: &[u8]) -> Result<(), Failed>
        ensures whole { OnOk result (Takes (meaning self.old) (meaning self.new) piece.now) }
        ensures part { OnErr result (TakesPart (meaning self.old) (meaning self.new) piece.now) }
        ensures cause { OnErr result (Rose (meaning self.old).faults (meaning self.new).faults) };
}

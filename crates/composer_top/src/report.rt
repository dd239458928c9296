//! How a run ends: its lines and its status.

ghost use Rattle.std.specs.Prelude.{◌≡◌, ◌≢◌, ◌⊎◌, [], ℕ, Err, OnOk, OnErr, IfOk, IfSome};
ghost use Rattle.tree_dev.specs.Device.{Rose};
ghost use Rattle.tree_dev.specs.Sinks.{Takes, TakesPart};
ghost use Rattle.run_answers.specs.Messages.{error_line};
ghost use Rattle.run_answers.specs.Statuses.{status_of};
ghost use Rattle.run_answers.specs.declared.refusal.Refusal.TheVariants as refusals;
ghost use Rattle.composer_top.specs.Outcome.{Concluded, Ended, TakesLine};

use path_name::Text;
use run_answers::{Refusal, error_line, memory_line, output_line, status_of};
use std::alloc::{AllocError, Global};
use tree_dev::{Failed, Sink};

/// What a command answers.
#[derive(Debug, PartialEq, Eq, Drop)]
pub struct Report {
    /// The lines on `out`, each with its LF.
    pub lines: Text,
    /// What it ends with beside them; None where it ends well.
    pub end: Option<Refusal>,
}

/// Puts lines, all in one piece, where there are any.
fn put_lines<S: Sink>(lines: &[u8], sink: &mut S) -> Result<(), Failed>
    ensures whole { OnOk result (Takes (S.meaning sink.old) (S.meaning sink.new) lines.now) }
    ensures part { OnErr result (TakesPart (S.meaning sink.old) (S.meaning sink.new) lines.now) }
    ensures cause { OnErr result (Rose (S.meaning sink.old).faults (S.meaning sink.new).faults) }
    ensures some { OnErr result (lines.now ≢ []) }
{
    if lines.is_empty() {
        return Ok(());
    }
    sink.put(lines)
}

/// Puts a line whose loss changes nothing.
fn put_error<E: Sink>(line: &[u8], errs: &mut E)
    ensures { TakesLine (E.meaning errs.old) (E.meaning errs.new) line.now }
{
    let _ = put_lines(line, errs);
}

/// Puts the line of a refusal, and gives its status: that of want of memory where there was none for the line. A fault
/// of `errs` changes no status.
pub fn refuse<E: Sink>(alloc: Global, refusal: &Refusal, errs: &mut E) -> u8
    ensures { ((result ≡ status_of refusal.now) × TakesLine (E.meaning errs.old) (E.meaning errs.new) (error_line refusal.now))
        ⊎ ((result ≡ status_of refusals.OutOfMemory) × TakesLine (E.meaning errs.old) (E.meaning errs.new) (error_line refusals.OutOfMemory)) }
{
    match error_line(alloc, refusal) {
        Ok(line) => {
            put_error(line.as_slice(), errs);
            status_of(refusal)
        }
        Err(AllocError) => {
            put_error(memory_line(), errs);
            10
        }
    }
}

/// Puts the lines on `out`, and then the line of what they end with on `errs`. Where `out` fails, that line and the
/// status are those of a fault of the output.
fn end<S: Sink, E: Sink>(lines: &[u8], error: &[u8], status: u8, out: &mut S, errs: &mut E) -> u8
    ensures { Ended (record { out_before = S.meaning out.old; out_now = S.meaning out.new; errs_before = E.meaning errs.old; errs_now = E.meaning errs.new })
        (record { status = status; out = lines.now; errs = error.now }) result }
{
    match put_lines(lines, out) {
        Ok(()) => {
            put_error(error, errs);
            status
        }
        Err(Failed) => {
            put_error(output_line(), errs);
            9
        }
    }
}

/// Ends a run: puts the lines of its report on `out`, or the line of its refusal on `errs`, and gives the status. The
/// line of a refusal is made before anything is put; where there is no memory for it, the run ends for want of memory.
pub fn conclude<S: Sink, E: Sink>(
    alloc: Global,
    answer: &Result<Report, Refusal>,
    out: &mut S,
    errs: &mut E,
) -> u8
    ensures { Concluded (record { out_before = S.meaning out.old; out_now = S.meaning out.new; errs_before = E.meaning errs.old; errs_now = E.meaning errs.new }) answer.now result
        ⊎ Concluded (record { out_before = S.meaning out.old; out_now = S.meaning out.new; errs_before = E.meaning errs.old; errs_now = E.meaning errs.new }) (Err refusals.OutOfMemory) result }
{
    match answer {
        Ok(report) => match &report.end {
            None => end(report.lines.as_slice(), b"", 0, out, errs),
            Some(refusal) => end_with(alloc, report.lines.as_slice(), refusal, out, errs),
        },
        Err(refusal) => end_with(alloc, b"", refusal, out, errs),
    }
}

/// Ends a run with lines and a refusal.
fn end_with<S: Sink, E: Sink>(
    alloc: Global,
    lines: &[u8],
    refusal: &Refusal,
    out: &mut S,
    errs: &mut E,
) -> u8
    ensures { Ended (record { out_before = S.meaning out.old; out_now = S.meaning out.new; errs_before = E.meaning errs.old; errs_now = E.meaning errs.new })
        (record { status = status_of refusal.now; out = lines.now; errs = error_line refusal.now }) result
        ⊎ Ended (record { out_before = S.meaning out.old; out_now = S.meaning out.new; errs_before = E.meaning errs.old; errs_now = E.meaning errs.new })
        (record { status = status_of refusals.OutOfMemory; out = []; errs = error_line refusals.OutOfMemory }) result }
{
    match error_line(alloc, refusal) {
        Ok(line) => end(lines, line.as_slice(), status_of(refusal), out, errs),
        Err(AllocError) => end(b"", memory_line(), 10, out, errs),
    }
}

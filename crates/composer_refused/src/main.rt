//! The program `composer` with its two streams exchanged, so that what it prints on the error stream can be
//! compared where only the standard output of a program is looked at.
#![tactic(auto)]

use composer_start::start;
use std::process::ExitCode;
use tree_std::StdSink;

fn main(rt: HostRuntime) -> ExitCode {
    let mut out = StdSink::new(rt.stderr());
    let mut errs = StdSink::new(rt.stdout());
    ExitCode::from(start(&rt, &mut out, &mut errs))
}

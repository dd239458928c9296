//! The program `composer`: the project in the current folder, the standard streams, and the words behind
//! the program's name.
#![tactic(auto)]

use composer_start::start;
use std::process::ExitCode;
use tree_std::StdSink;

fn main(rt: HostRuntime) -> ExitCode {
    let mut out = StdSink::new(rt.stdout());
    let mut errs = StdSink::new(rt.stderr());
    ExitCode::from(start(&rt, &mut out, &mut errs))
}

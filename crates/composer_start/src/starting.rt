//! From the system to a run.

ghost use Rattle.install_choice.specs.Warnings.{MayWarn};
ghost use Rattle.composer_top.specs.Outcome.{EndsBehind, EndsWithAnswer};

use composer_top::{Refusal, refuse, run};
use std::io::ErrorKind;
use std::{env, io};
use tree_dev::Sink;
use tree_std::FolderTree;

/// Runs the command that the words behind the program's name say, over the project in the current folder, and gives the
/// status. `out` and `errs` take what the program prints on its two streams.
pub fn start<S: Sink, E: Sink>(rt: &HostRuntime, out: &mut S, errs: &mut E) -> u8
    // It ends with the lines and the status of some answer, and puts nothing else but that a lock is out of date.
    ensures ended { EndsBehind
        (record { out_before = S.meaning out.old; out_now = S.meaning out.new; errs_before = E.meaning errs.old; errs_now = E.meaning errs.new })
        MayWarn (λ outputs. EndsWithAnswer outputs result) }
{
    match words(rt) {
        Ok(words) => {
            let mut tree = FolderTree::new(rt);
            run(rt.alloc(), words.as_slice(), &mut tree, out, errs)
        }
        Err(refusal) => refuse(rt.alloc(), &refusal, errs),
    }
}

/// The words behind the program's name. A word that is no UTF-8 is in no command.
fn words(rt: &HostRuntime) -> Result<Vec<String>, Refusal> {
    let mut words = Vec::new(rt.alloc());
    let all = env::args(rt).map_err(refusal_of)?;
    for word in all.skip(1) {
        words.push(word)?;
    }
    Ok(words)
}

fn refusal_of(error: io::Error) -> Refusal {
    match error.kind() {
        ErrorKind::OutOfMemory => Refusal::OutOfMemory,
        _ => Refusal::Usage,
    }
}

//! Faults of the steps of an install as refusals.

ghost use Rattle.std.specs.Prelude.{◌≡◌, IsTrue};
ghost use Rattle.run_answers.specs.Faults.{is_of_tree};
ghost use Rattle.install_commands.specs.Refusals.{refusal_of_claim, refusal_of_commit, refusal_of_staging, refusal_of_recovery};

use install_world::RecoverFault;
use run_answers::{Place, Refusal};
use stage_job::StageFault;
use vendor_journal::{ClaimFault, CommitFault};

/// Why a project is not claimed, or a claim not released.
pub fn refusal_of_claim(fault: ClaimFault) -> Refusal
    ensures { result ≡ refusal_of_claim fault }
{
    match fault {
        ClaimFault::Unfinished => Refusal::Unfinished,
        ClaimFault::Vanished(at) => Refusal::Vanished(Place::Entry(at)),
        ClaimFault::DeviceFault => Refusal::DeviceFault,
        ClaimFault::OutOfMemory => Refusal::OutOfMemory,
    }
}

/// Why a commit stopped.
pub fn refusal_of_commit(fault: CommitFault) -> Refusal
    ensures { result ≡ refusal_of_commit fault }
{
    match fault {
        CommitFault::Vanished(number) => Refusal::Vanished(Place::Part(u64::from(number))),
        CommitFault::DeviceFault => Refusal::DeviceFault,
    }
}

/// Why a job is not staged, or its files can't be copied: each fault as the refusal of the same name.
pub fn refusal_of_staging(fault: StageFault) -> Refusal
    ensures value { result ≡ refusal_of_staging fault }
    ensures causes { IsTrue (is_of_tree result) }
{
    match fault {
        StageFault::MissingPath(text) => Refusal::MissingPath(text),
        StageFault::OtherEntry(at) => Refusal::OtherEntry(at),
        StageFault::Limit(limit) => Refusal::Limit(limit),
        StageFault::Vanished(at) => Refusal::Vanished(Place::Entry(at)),
        StageFault::DeviceFault => Refusal::DeviceFault,
        StageFault::OutOfMemory => Refusal::OutOfMemory,
    }
}

/// Why an install is not finished.
pub fn refusal_of_recovery(fault: RecoverFault) -> Refusal
    ensures { result ≡ refusal_of_recovery fault }
{
    match fault {
        RecoverFault::BadJournal(at) => Refusal::BadJournal(at),
        RecoverFault::OtherEntry(at) => Refusal::OtherEntry(at),
        RecoverFault::Vanished(at) => Refusal::Vanished(Place::Entry(at)),
        RecoverFault::Limit(limit) => Refusal::Limit(limit),
        RecoverFault::DeviceFault => Refusal::DeviceFault,
        RecoverFault::OutOfMemory => Refusal::OutOfMemory,
    }
}

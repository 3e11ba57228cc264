//! The status of a run.
ghost use Rattle.std.specs.Prelude.{◌≡◌};
ghost use Rattle.thread_serve.specs.Promises.{status_of};

use pide_base::Status;

/// How a run ends whose input ended so. Where the sink is lost, that is told; else a run that is
/// done may have been short of memory.
pub(crate) fn status_of(is_lost: bool, is_short: bool, how: Status) -> Status
    ensures { result ≡ status_of is_lost is_short how }
{
    if is_lost {
        return Status::WriteFault;
    }
    match how {
        Status::Done if is_short => Status::NoMemory,
        other => other,
    }
}

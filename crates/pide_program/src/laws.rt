//! What holds of runs, whatever the source and the sink.
ghost use Rattle.std.specs.Prelude.{◌≡◌, ℕ, List, Option};
ghost use Rattle.pide_base.specs.declared.status.Status.{Status};
ghost use Rattle.thread_serve.specs.document_session_below.Contents.{SessionState};
ghost use Rattle.pide_program.specs.Outcomes.{IsSameOutcome, IsServedAlone};

use byte_message::one_reading;
use session_rules::alone_law;
use toplevel::Isar;

/// What one thread makes of messages is a function of the bytes that it takes: two runs that are
/// served in the same way, have the same bytes before them and leave the same, make the same
/// history and write the same bytes, however their source cuts these.
pub fn one_outcome_law()
    ensures { (how other : Status) (bytes rest : List ℕ) (held held' kept kept' : Option (List ℕ))
        (s k : SessionState) → IsServedAlone how bytes rest held held' s
        → IsServedAlone other bytes rest kept kept' k → s.service ≡ k.service
        → IsSameOutcome held held' s kept kept' k }
{
    one_reading();
    alone_law::<Isar>();
}

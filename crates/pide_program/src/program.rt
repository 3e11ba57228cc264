//! The one call that the program makes.
ghost use Rattle.std.specs.Prelude.{◌≡◌, ◌⊎◌, ℕ, true, false, [], IsOk, IsErr, IfOk, IfErr};
ghost use Rattle.pide_base.specs.Faults.{Rose};
ghost use Rattle.pide_check.specs.Checked.{ChecksWhole, IsChecked};
ghost use Rattle.message_input.specs.Causes.{CompleteSo, HasCause};
ghost use Rattle.isar_rules.specs.Isar.{isar};
ghost use Rattle.mirror_serve.specs.LongReplies.{HasShortReplies, LongSoFar};
ghost use Rattle.pide_build.specs.Runs.{IsBuild};
ghost use Rattle.pide_program.specs.Generated.{IsGenerated};
ghost use Rattle.pide_program.specs.Headline.{Headline};
ghost use Rattle.pide_program.specs.Words.{is_build, is_check, is_gen, is_mirror, is_served, has_request, nodes_of, service_of};
ghost use Rattle.pide_program.specs.Limit.{input_limit};

use crate::outcome::Outcome;
use crate::running::{
    MOST_NODES, build, check, make, serve_alone, serve_beside, serve_mirrored, unserved,
};
use command_words::{Request, asked};
use message_values::MOST_WORKERS;
use pide_base::{Gate, Sink, Source, Status};
use reply_outbox::Past;
use session_rules::{Entry, Service};
use std::alloc::Global;
use std::sync::Wait;
use std::thread::Threads;

/// Does what the words ask: serves the messages of the source, each when it is whole, on this
/// thread alone, which writes the replies before more is read, or with an editor's mirror, which
/// answers what is asked of versions, or beside workers and a writer in threads of their own; or
/// checks the text of the source, and writes its markup by lines; or
/// builds the theories that the messages bring, and writes what they report; or makes a document by
/// messages of its own, and writes what it comes to.
///
/// `words` are those of the command line after the program's name. Workers come to the points of
/// `gate`. What happens is added to `past`, which must be empty.
pub fn pide<
    R: Threads + Wait + Sync,
    S: Source + Drop,
    K: Sink + Send + Drop,
    G: Gate + Sync,
    P: Past<Service, Entry> + Drop + Send,
>(rt: &R, alloc: Global, words: &[&str], source: S, sink: K, gate: &G, past: P) -> Outcome<S, K, P>
    requires empty { P.items past ≡ [] }
    ensures headline { IfOk result.session (λ s. Headline result.status (S.left source)
        (S.left result.source) (K.contents sink) (K.contents result.sink) s) }
    ensures service { IfOk result.session (λ s. s.service ≡ service_of words.now) }
    ensures served { is_served words.now ≡ true
        → IsOk result.session ⊎ (result.status ≡ Status.NoMemory) }
    ensures complete { is_served words.now ≡ true → is_mirror words.now ≡ false
        → CompleteSo input_limit (S.left source) (S.faults source) (S.faults result.source)
        (K.faults sink) (K.faults result.sink) result.status }

    ensures long_replies { is_mirror words.now ≡ true
        → IfOk result.session (λ s. LongSoFar isar result.status s) }
    ensures bad_reply { (len : ℕ) → result.status ≡ Status.BadReply len
        → is_mirror words.now ≡ true }
    ensures mirrors_whole { is_mirror words.now ≡ true → IfOk result.session (λ s.
        HasShortReplies isar s → CompleteSo input_limit (S.left source) (S.faults source)
        (S.faults result.source) (K.faults sink) (K.faults result.sink) result.status) }

    ensures unserved { is_served words.now ≡ false → IsErr result.session }
    ensures handed_back { IfErr result.session (λ list. P.items list ≡ []) }
    ensures unbegun { IsErr result.session → is_check words.now ≡ false
        → is_build words.now ≡ false → is_gen words.now ≡ false
        → (result.source ≡ source) × (result.sink ≡ sink) }

    ensures lines_written { is_check words.now ≡ true
        → IsChecked isar result.status (S.left source) (S.left result.source) (K.contents sink)
        (K.contents result.sink) }
    ensures checks_whole { is_check words.now ≡ true
        → ChecksWhole (S.left source) (S.faults source) (S.faults result.source) (K.faults sink)
        (K.faults result.sink) result.status }

    ensures replies_built { is_build words.now ≡ true
        → IsBuild isar result.status (S.left source) (S.left result.source) (K.contents sink)
        (K.contents result.sink) }
    ensures build_causes { is_build words.now ≡ true
        → HasCause input_limit result.status (S.left source) (S.left result.source) }
    ensures builds_whole { is_build words.now ≡ true
        → CompleteSo input_limit (S.left source) (S.faults source) (S.faults result.source)
        (K.faults sink) (K.faults result.sink) result.status }

    ensures generated { is_gen words.now ≡ true
        → IsGenerated isar (nodes_of words.now) result.status (K.contents sink)
        (K.contents result.sink) }
    ensures unread { is_gen words.now ≡ true → result.source ≡ source }
    ensures generates_whole { is_gen words.now ≡ true
        → (Rose (K.faults sink) (K.faults result.sink) → ⊥)
        → (result.status ≡ Status.Done) ⊎ (result.status ≡ Status.NoMemory) }

    ensures usage { result.status ≡ Status.Usage → has_request words.now ≡ false }
    ensures refused { has_request words.now ≡ false
        → (result.status ≡ Status.Usage) ⊎ (result.status ≡ Status.NoMemory) }
    ensures read_fault { result.status ≡ Status.ReadFault
        → Rose (S.faults source) (S.faults result.source) }
    ensures write_fault { result.status ≡ Status.WriteFault
        → Rose (K.faults sink) (K.faults result.sink) }
{
    match asked(alloc, words) {
        Ok(Some(Request::Serve { workers: 0 })) => {
            serve_alone(alloc, Service::Workers { count: 0 }, source, sink, past)
        }
        Ok(Some(Request::Serve { workers })) if workers <= MOST_WORKERS => {
            serve_beside(rt, alloc, workers, source, sink, gate, past)
        }
        Ok(Some(Request::Replay)) => serve_alone(alloc, Service::Script, source, sink, past),
        Ok(Some(Request::Mirror)) => serve_mirrored(alloc, source, sink, past),
        Ok(Some(Request::Check)) => check(alloc, source, sink, past),
        Ok(Some(Request::Build { workers })) if workers <= MOST_WORKERS => {
            build(rt, alloc, workers, source, sink, gate, past)
        }
        Ok(Some(Request::Gen { nodes, workers }))
            if nodes <= MOST_NODES && workers <= MOST_WORKERS => {
            make(rt, alloc, nodes, workers, source, sink, gate, past)
        }
        Ok(_) => unserved(Status::Usage, source, sink, past),
        Err(_) => unserved(Status::NoMemory, source, sink, past),
    }
}

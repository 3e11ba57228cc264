//! The session as a value.
ghost use Rattle.std.specs.Prelude.{◌≡◌, ◌≤◌, [], ◌∷◌, map, length, false, IfOk, IfErr};
ghost use Rattle.reply_outbox.specs.declared.item.Item.TheVariants.{Opened, Made};
ghost use Rattle.core_rules.specs.Standing.{has_ended};
ghost use Rattle.message_values.specs.Workers.{most_workers};
ghost use Rattle.session_rules.specs.Services.{free_workers};
ghost use Rattle.session_rules.specs.Steps.{Nothing, due};
ghost use Rattle.session_rules.specs.declared.entry.Entry.TheVariants as entry;
ghost use Rattle.keeping_rules.specs.Items.{heard_in, session_in};
ghost use Rattle.keeping_rules.specs.Legal.{AreLegal};

use crate::table::Table;
use editor_buffer::Buffer;
use keeping_rules::session_replies_below::SessionJob;
use keeping_rules::writer_laws;
use language::Language;
use message_values::Protocol;
use prover_core::Core;
use reply_outbox::{Outbox, Past};
use session_rules::{Entry, Service};
use std::alloc::{AllocFailed, Global};
use std::collections::HashMap;
use std::marker::Model;

/// A session over one document. Contracts see how it is served, the items of its list, the newest
/// first, and the bytes of the replies that wait, the oldest first.
#[derive(Drop)]
pub struct Session<L: Language, P: Past<Service, Entry>> {
    pub(crate) service: Service,
    pub(crate) buffer: Buffer,
    pub(crate) core: Core<L>,
    pub(crate) protocol: Protocol,
    /// Whether a message came.
    pub(crate) called: bool,
    /// The newest version's id, or 0 before the first.
    pub(crate) last: u64,
    /// How many parts are held.
    pub(crate) held: usize,
    /// The jobs of the workers that messages name.
    pub(crate) jobs: Table<SessionJob<L::State>>,
    pub(crate) outbox: Outbox<Service, Entry, P>,
}

impl<L: Language, P: Past<Service, Entry>> Model for Session<L, P> {
    ghost use Rattle.keeping_rules.specs.Kept.{session_of, IsKept};
    ghost use Rattle.document_session.specs.Contents.{SessionState};
    ghost use Rattle.prover_core.specs.Looked.{looked};

    ghost Value = { SessionState };

    ghost view = { λ s. record {
      service = s.service;
      items = s.outbox.items;
      waiting = s.outbox.waiting;
    } };

    ghost invariant = { λ s. IsKept L.lang s.service s.outbox
        (session_of s.buffer s.core.past s.protocol s.called) s.last s.held
        (λ who. looked s.jobs who) };
}

impl<L: Language, P: Past<Service, Entry> + Drop> Session<L, P> {
    /// A session in which nothing happened but that it is served so, by at most 16 workers. The
    /// list must be empty; where there is no memory it is handed back, still empty.
    pub fn new(alloc: Global, service: Service, past: P) -> Result<Session<L, P>, AllocFailed<P>>
        requires empty { P.items past ≡ [] }
        requires workers { free_workers service ≤ most_workers }
        ensures service { IfOk result (λ session. session.service ≡ service) }
        ensures items { IfOk result (λ session. session.items ≡ Opened service ∷ []) }
        ensures legal { IfOk result (λ session. AreLegal L.lang service session.items) }
        ensures err { IfErr result (λ failed. P.items failed.value ≡ []) }
    {
        let Ok(core) = Core::new(alloc) else {
            return Err(AllocFailed { value: past });
        };
        match Outbox::new(alloc, past, service) {
            Err(failed) => {
                drop(core);
                Err(failed)
            }
            Ok(outbox) => Ok(Session {
                service,
                buffer: Buffer::new(),
                core,
                protocol: Protocol::Scalars,
                called: false,
                last: 0,
                held: 0,
                jobs: HashMap::new(alloc),
                outbox,
            }),
        }
    }

    /// How it is served.
    pub fn service(&self) -> Service
        ensures { result ≡ self.now.service }
    {
        self.service
    }

    /// What places of reports count.
    pub fn protocol(&self) -> Protocol
        ensures { result ≡ (session_in L.lang self.now.service self.now.items).protocol }
    {
        self.protocol
    }

    /// No message is taken any more. It takes no memory.
    pub fn end(&mut self)
        requires going { has_ended (session_in L.lang self.old.service self.old.items).events
            ≡ false }
        ensures service { self.new.service ≡ self.old.service }
        ensures items { self.new.items ≡ Made entry.Ended ∷ self.old.items }
        ensures legal { AreLegal L.lang self.new.service self.new.items }
    {
        writer_laws::<L>();
        self.core.end();
        self.outbox.add(Entry::Ended, None);
    }

    /// How many items its list has.
    pub fn count(&self) -> u64
        ensures { result ≡ length self.now.items }
    {
        self.outbox.count()
    }

    /// The list of what has happened.
    pub fn past(&self) -> &P
        ensures { P.items result.now ≡ self.now.items }
    {
        self.outbox.past()
    }

    /// Between its calls nothing is due: what a message calls for is done with it.
    pub fn none_due(&self)
        ensures { due L.lang self.now.service (heard_in self.now.service self.now.items)
            ≡ Nothing }
    {
        let _ = &self.called;
    }

    /// Whether it has ended.
    pub fn ended(&self) -> bool
        ensures { result ≡ has_ended (session_in L.lang self.now.service self.now.items).events }
    {
        self.core.ended()
    }
}

//! The writer.
ghost use Rattle.std.specs.Prelude.{◌≡◌, ◌≤◌, [], ◌∷◌, ◌⊎◌, length, true, false, IfSome, IfNone};
ghost use Rattle.reply_outbox.specs.declared.item.Item.TheVariants.{Sent, Lost};
ghost use Rattle.reply_outbox.specs.Items.{has_sent, is_lost};
ghost use Rattle.reply_outbox.specs.Waiting.{bytes_waiting};
ghost use Rattle.message_values.specs.Workers.{most_workers};
ghost use Rattle.session_rules.specs.Services.{free_workers};
ghost use Rattle.keeping_rules.specs.Items.{heard_in, writer_of};
ghost use Rattle.keeping_rules.specs.Legal.{AreLegal};
ghost use Rattle.keeping_rules.specs.Pieces.{pieces, AreWaiting};

use crate::session::Session;
use keeping_rules::writer_laws;
use language::Language;
use message_values::MOST_WORKERS;
use reply_outbox::Past;
use session_rules::{Entry, Service};

impl<L: Language, P: Past<Service, Entry> + Drop> Session<L, P> {
    /// The reply that waited longest, which the writer takes: None exactly where none waits or the
    /// sink is lost. It takes no memory.
    pub fn sent(&mut self) -> Option<Vec<u8>>
        ensures service { self.new.service ≡ self.old.service }
        ensures some { IfSome result (λ bytes. (self.old.waiting ≡ bytes.items ∷ self.new.waiting)
            × (self.new.items ≡ Sent (writer_of self.old.service) (length bytes.items)
            ∷ self.old.items)) }
        ensures none { IfNone result (((self.old.waiting ≡ []) ⊎ (is_lost self.old.items ≡ true))
            × (self.new ≡ self.old)) }
        ensures waits { AreWaiting (pieces L.lang self.old.service
            (heard_in self.old.service self.old.items)) self.old.items self.old.waiting }
        ensures legal { AreLegal L.lang self.new.service self.new.items }
    {
        writer_laws::<L>();
        self.outbox.sent(writer_of(self.service))
    }

    /// The writer lost the sink: nothing is sent any more. It takes no memory.
    pub fn lose(&mut self)
        requires going { is_lost self.old.items ≡ false }
        ensures service { self.new.service ≡ self.old.service }
        ensures waiting { self.new.waiting ≡ self.old.waiting }
        ensures items { self.new.items ≡ Lost (writer_of self.old.service) ∷ self.old.items }
        ensures legal { AreLegal L.lang self.new.service self.new.items }
    {
        writer_laws::<L>();
        self.outbox.lose(writer_of(self.service));
    }

    /// Whether the sink is lost.
    pub fn is_lost(&self) -> bool
        ensures { result ≡ is_lost self.now.items }
    {
        self.outbox.is_lost()
    }

    /// Whether the writer took a reply.
    pub fn has_sent(&self) -> bool
        ensures { result ≡ has_sent self.now.items }
    {
        self.outbox.has_sent()
    }

    /// How many bytes of replies wait.
    pub fn bytes_waiting(&self) -> u128
        ensures { result ≡ bytes_waiting self.now.waiting }
    {
        self.outbox.bytes_waiting()
    }
}

/// The writer's number: it comes after those of the workers.
fn writer_of(service: Service) -> u32
    requires { free_workers service ≤ most_workers }
    ensures { result ≡ writer_of service }
{
    match service {
        Service::Workers { count } => count + 1,
        Service::Script => MOST_WORKERS + 1,
    }
}

//! The list of what has happened, beside the replies that wait.
ghost use Rattle.std.specs.Prelude.{◌≡◌, ◌==◌, ◌+◌, ◌*◌, ◌<◌, ◌≤◌, [], ◌∷◌, ◌++◌, length, map, false, IfOk, IfErr, IfSome, IfNone, OnOk};
ghost use Rattle.std.specs.Option.{option_map, option_to_list};
ghost use Rattle.reply_outbox.specs.declared.item.Item.TheVariants as item;
ghost use Rattle.reply_outbox.specs.Items.{has_sent, is_lost};
ghost use Rattle.reply_outbox.specs.Waiting.{IsSent, IsStill, bytes_waiting};

use crate::item::Item;
use crate::past::Past;
use std::alloc::{AllocError, AllocFailed, Global};
use std::collections::VecDeque;
use std::marker::{Model, PhantomData};

/// What has happened, in a list of the caller's, and the replies that wait to be sent. Contracts
/// see the items, the newest first, the bytes of the replies, the oldest first, and for how many
/// entries, each with a reply, there is room.
#[derive(Drop)]
pub struct Outbox<O, E, P: Past<O, E>> {
    past: P,
    waiting: VecDeque<Vec<u8>>,
    /// How many bytes wait.
    bytes: u128,
    /// Whether a reply was sent.
    begun: bool,
    /// The entries that can still be added without memory.
    free: usize,
    lost: bool,
    of: PhantomData<(O, E)>,
}

impl<O, E, P: Past<O, E>> Model for Outbox<O, E, P> {
    ghost use Rattle.std.specs.Prelude.{◌≡◌, map};
    ghost use Rattle.std.specs.VecDeque.{deque_len, deque_capacity};
    ghost use Rattle.reply_outbox.specs.Items.{has_sent, is_lost};
    ghost use Rattle.reply_outbox.specs.Waiting.{Log, HasRoom, bytes_waiting};

    ghost Value = { Log O E };

    ghost view = { λ o. record {
      items = P.items o.past;
      waiting = map (λ reply. reply.items) o.waiting.items;
      free = o.free;
    } };

    ghost invariant = { λ o. (o.lost ≡ is_lost (P.items o.past))
        × HasRoom o.lost o.free (deque_len o.waiting) (deque_capacity o.waiting) (P.room o.past)
        × (o.begun ≡ has_sent (P.items o.past))
        × (o.bytes ≡ bytes_waiting (map (λ reply. reply.items) o.waiting.items)) };
}

/// What is left of an outbox: the list, and the replies that were not sent, the oldest first.
#[derive(Drop)]
pub struct Parts<P> {
    pub past: P,
    pub waiting: VecDeque<Vec<u8>>,
}

impl<O: Drop, E: Drop, P: Past<O, E> + Drop> Outbox<O, E, P> {
    /// An outbox in which nothing happened but that it began so, with room for one entry. The list
    /// must be empty; where there is no memory it is handed back, still empty.
    pub fn new(alloc: Global, past: P, opened: O) -> Result<Outbox<O, E, P>, AllocFailed<P>>
        requires { P.items past ≡ [] }
        ensures items { IfOk result (λ outbox. outbox.items ≡ item.Opened opened ∷ []) }
        ensures waiting { IfOk result (λ outbox. outbox.waiting ≡ []) }
        ensures free { IfOk result (λ outbox. outbox.free ≡ 1) }
        ensures err { IfErr result (λ failed. P.items failed.value ≡ []) }
    {
        let mut past = past;
        let Ok(waiting) = VecDeque::with_capacity(alloc, 1) else {
            return Err(AllocFailed { value: past });
        };
        if past.reserve(4).is_err() {
            return Err(AllocFailed { value: past });
        }
        past.add(Item::Opened(opened));
        Ok(Outbox {
            past,
            waiting,
            bytes: 0,
            begun: false,
            free: 1,
            lost: false,
            of: PhantomData,
        })
    }

    /// Makes room for so many entries in all. Nothing but the room changes.
    pub fn reserve(&mut self, entries: usize) -> Result<(), AllocError>
        ensures items { self.new.items ≡ self.old.items }
        ensures waiting { self.new.waiting ≡ self.old.waiting }
        ensures free { self.old.free ≤ self.new.free }
        ensures ok { OnOk result (entries ≤ self.new.free) }
    {
        if entries <= self.free {
            return Ok(());
        }
        self.waiting.reserve(entries)?;
        let Some(items) = items_for(entries, self.waiting.len()) else {
            return Err(AllocError);
        };
        self.past.reserve(items)?;
        self.free = entries;
        Ok(())
    }

    /// Adds an entry, for which there is room, with its reply if it has one. It takes no memory.
    pub fn add(&mut self, entry: E, reply: Option<Vec<u8>>)
        requires { 0 < self.old.free }
        ensures items { self.new.items ≡ item.Made entry ∷ self.old.items }
        ensures waiting { self.new.waiting ≡ self.old.waiting
            ++ option_to_list (option_map (λ bytes. bytes.items) reply) }
        ensures free { self.new.free + 1 ≡ self.old.free }
    {
        self.free -= 1;
        self.past.add(Item::Made(entry));
        if let Some(reply) = reply {
            self.bytes += reply.len() as u128;
            self.waiting.push_back_reserved(reply);
        }
    }

    /// The reply that waited longest, which this writer takes: None exactly where none waits or the
    /// sink is lost. It takes no memory.
    pub fn sent(&mut self, writer: u32) -> Option<Vec<u8>>
        ensures some { IfSome result (λ bytes. IsSent writer bytes.items self.old self.new) }
        ensures none { IfNone result (IsStill self.old × (self.new ≡ self.old)) }
        ensures free { self.new.free ≡ self.old.free }
    {
        if self.lost {
            return None;
        }
        let bytes = self.waiting.pop_front()?;
        let len = bytes.len() as u64;
        self.bytes -= len as u128;
        self.begun = true;
        self.past.add(Item::Sent { writer, len });
        Some(bytes)
    }

    /// This writer lost the sink. It takes no memory.
    pub fn lose(&mut self, writer: u32)
        requires { is_lost self.old.items ≡ false }
        ensures items { self.new.items ≡ item.Lost writer ∷ self.old.items }
        ensures waiting { self.new.waiting ≡ self.old.waiting }
        ensures free { self.new.free ≡ self.old.free }
    {
        self.lost = true;
        self.past.add(Item::Lost { writer });
    }

    /// Whether a writer lost the sink.
    pub fn is_lost(&self) -> bool
        ensures { result ≡ is_lost self.now.items }
    {
        self.lost
    }

    /// Whether a writer took a reply.
    pub fn has_sent(&self) -> bool
        ensures { result ≡ has_sent self.now.items }
    {
        self.begun
    }

    /// How many bytes wait.
    pub fn bytes_waiting(&self) -> u128
        ensures { result ≡ bytes_waiting self.now.waiting }
    {
        self.bytes
    }

    /// Whether no reply waits.
    pub fn is_empty(&self) -> bool
        ensures { result ≡ (length self.now.waiting == 0) }
    {
        self.waiting.is_empty()
    }

    /// How many items the list has.
    pub fn count(&self) -> u64
        ensures { result ≡ length self.now.items }
    {
        self.past.count()
    }

    /// The list.
    pub fn past(&self) -> &P
        ensures { P.items result.now ≡ self.now.items }
    {
        &self.past
    }

    /// The list, and the replies that were not sent.
    pub fn into_parts(self) -> Parts<P>
        ensures past { P.items result.past ≡ self.items }
        ensures waiting { map (λ reply. reply.items) result.waiting.items ≡ self.waiting }
    {
        Parts {
            past: self.past,
            waiting: self.waiting,
        }
    }
}

/// The items for so many entries with their replies, the replies that wait, and the loss of the
/// sink.
fn items_for(entries: usize, waiting: usize) -> Option<usize>
    ensures { IfSome result (λ items. items ≡ 2 * entries + waiting + 1) }
{
    entries.checked_mul(2)?.checked_add(waiting)?.checked_add(1)
}

//! What answers messages.
ghost use Rattle.std.specs.Prelude.{◌≡◌};

use byte_message::Message;
use std::alloc::AllocError;

/// Why no more messages are answered.
#[derive(Clone, Copy, Debug, PartialEq, Eq)]
pub enum Halt {
    /// What is replied can't be written.
    WriteFault,
    /// There is not enough memory.
    NoMemory,
    /// A reply has a chunk that is too long, of so many bytes. All is written, and the end was taken
    /// note of.
    BadReply { len: u64 },
}

impl From<AllocError> for Halt {
    ghost use Rattle.message_input.specs.declared.answering.Halt.TheVariants.{NoMemory};

    ghost from_gives = { λ _ halt. halt ≡ NoMemory };

    fn from(_: AllocError) -> Halt {
        Halt::NoMemory
    }
}

/// Answers messages one after the other, in order.
pub trait Answering {
    ghost use Rattle.std.specs.Prelude.{List, ℕ, [], ◌∷◌, ◌++◌, OnOk, IfErr};
    ghost use Rattle.message_input.specs.declared.answering.Halt.{Halt};
    ghost use Rattle.message_input.specs.Answers.{HaltsAmong};

    /// It can answer the next message.
    ghost rests: { Self → Type 0 };

    /// From the one to the other it answered these messages, and did nothing else.
    ghost goes: { Self → List (List (List ℕ)) → Self → Type 0 };

    /// From the one to the other it answered the first of these, and then it halted; the second are
    /// those that wait.
    ghost halts: { Self → List (List (List ℕ)) → Halt → List (List (List ℕ)) → Self → Type 0 };

    /// It was told that no message comes any more.
    ghost ends: { Self → Self → Type 0 };

    /// Answers a message. Where it halts, it may have answered it before.
    fn answer(&mut self, message: Message) -> Result<(), Halt>
        requires { rests self.old }
        ensures ok { OnOk result (goes self.old (message ∷ []) self.new) }
        ensures err { IfErr result (λ halt. HaltsAmong halts self.old (message ∷ []) halt self.new) };

    /// Takes note that no message comes any more.
    fn end(&mut self)
        requires { rests self.old }
        ensures { ends self.old self.new };

    /// It may have answered none.
    ghost stays: { (a : Self) → rests a → goes a [] a };

    /// It rests after what it answered.
    ghost rests_then: { (a b : Self) (messages : List (List (List ℕ))) → goes a messages b → rests b };

    /// Messages are answered one after the other.
    ghost goes_on: { (a b c : Self) (first then : List (List (List ℕ)))
        → goes a first b → goes b then c → goes a (first ++ then) c };

    /// It may halt after some of them.
    ghost halts_later: { (a b c : Self) (first then rest : List (List (List ℕ))) (halt : Halt)
        → goes a first b → halts b then halt rest c → halts a (first ++ then) halt rest c };

    /// More messages may wait behind those that wait.
    ghost more_wait: { (a b : Self) (first rest more : List (List (List ℕ))) (halt : Halt)
        → halts a first halt rest b → halts a first halt (rest ++ more) b };

    /// Memory may be short before the next message is there.
    ghost short: { (a : Self) (rest : List (List (List ℕ)))
        → rests a → halts a [] Halt.NoMemory rest a };
}

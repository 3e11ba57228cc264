//! Laws over the definitions, as contracts of functions that do nothing.
ghost use Rattle.std.specs.Prelude.{◌≡◌, ℕ, List, ◌∷◌, ◌++◌};
ghost use Rattle.byte_message.specs.Feeding.{ending_of};
ghost use Rattle.byte_message.specs.Kept.{Framing, Stands};
ghost use Rattle.byte_message.specs.Stream.{Ending, IsMessage, IsReadAs, IsSpelling, plain_spelling};
ghost use Rattle.byte_message.specs.Stream.Ending.{Bad};
ghost use Rattle.byte_message.specs.declared.frame_fault.FrameFault.{FrameFault};

/// A stream has one list of messages and one ending, so no two lists of messages have one stream.
pub fn one_reading()
    ensures { (stream : List ℕ) (messages others : List (List (List ℕ))) (ending end : Ending)
        → IsReadAs stream messages ending → IsReadAs stream others end
        → (messages ≡ others) × (ending ≡ end) }
{}

/// What is written is read as it was, whatever follows it.
pub fn written_is_read()
    ensures spelled { (message : List (List ℕ)) → IsMessage message
        → IsSpelling (plain_spelling message) message }
    ensures first { (message : List (List ℕ)) (after : List ℕ) (read : List (List (List ℕ)))
        (ending : Ending) → IsMessage message
        → IsReadAs (plain_spelling message ++ after) read ending
        → (others : List (List (List ℕ))) × (read ≡ message ∷ others) }
{}

/// However a stream was cut into pieces: decoders that have read it, and handed out the same
/// messages, have the same messages waiting and the same ending.
pub fn any_pieces()
    ensures { (stream : List ℕ) (taken : List (List (List ℕ))) (now other : Framing)
        → Stands stream taken now → Stands stream taken other
        → (now.waiting ≡ other.waiting) × (ending_of now ≡ ending_of other) }
{}

/// Each stream has a reading. Bytes that follow add messages and take none back, and where a
/// stream is at fault they change nothing.
pub fn longer_streams()
    ensures every { (stream : List ℕ)
        → (messages : List (List (List ℕ))) × (ending : Ending) × IsReadAs stream messages ending }
    ensures longer { (stream after : List ℕ) (messages : List (List (List ℕ))) (ending : Ending)
        → IsReadAs stream messages ending
        → (more : List (List (List ℕ))) × (end : Ending)
        × IsReadAs (stream ++ after) (messages ++ more) end }
    ensures bad { (stream after : List ℕ) (messages : List (List (List ℕ))) (fault : FrameFault)
        → IsReadAs stream messages (Bad fault)
        → IsReadAs (stream ++ after) messages (Bad fault) }
{}

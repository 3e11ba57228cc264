//! Laws over the definitions, as contracts of functions that do nothing.
ghost use Rattle.std.specs.Prelude.{◌≡◌, ◌↔◌, ℕ, List, Some, Ok, Err};
ghost use Rattle.yxml.specs.declared.tree.Tree.{Tree};
ghost use Rattle.yxml.specs.Normal.{IsNormal};
ghost use Rattle.yxml.specs.declared.fault.YxmlFault.{YxmlFault};
ghost use Rattle.yxml.specs.Answer.{body_in};
ghost use Rattle.yxml.specs.Reading.{fault_in};
ghost use Rattle.yxml.specs.Spelling.{yxml, Spells};

/// What is written for a normal body spells it, so `parse_body` reads it back. Where a text spells
/// a body, that body is normal, and the text spells no other.
pub fn what_is_written_is_read_back()
    ensures written { (body : List Tree) → IsNormal body → Spells (yxml body) body }
    ensures normal { (text : List ℕ) (body : List Tree) → Spells text body → IsNormal body }
    ensures one { (text : List ℕ) (body other : List Tree)
        → Spells text body → Spells text other → body ≡ other }
{}

/// Each text has one answer: the one body that it spells, or its first fault.
pub fn each_text_has_one_answer()
    ensures body { (text : List ℕ) (body : List Tree)
        → (body_in text ≡ Ok body) ↔ (Spells text body) }
    ensures fault { (text : List ℕ) (fault : YxmlFault) → (body_in text ≡ Err fault)
        ↔ (fault_in text ≡ Some fault) }
{}

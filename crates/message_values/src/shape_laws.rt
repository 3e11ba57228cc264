//! Laws over the definitions, as contracts of functions that do nothing.
ghost use Rattle.std.specs.Prelude.{◌≡◌, ◌↔◌, ◌<◌, ◌^◌, ℕ, Bool, true, List, Option, Some};
ghost use Rattle.yxml.specs.declared.tree.Tree.{Tree};
ghost use Rattle.xml_codec.specs.Data.{string_body, bool_body, pair_body, list_body, option_body, variant_body, int_end};
ghost use Rattle.pide_base.specs.Ids.{IsId};
ghost use Rattle.pide_base.specs.NodeName.{is_node_name};
ghost use Rattle.pide_base.specs.declared.range.Range.{Range};
ghost use Rattle.text_edits.specs.declared.edit.Edit.{Edit};
ghost use Rattle.message_values.specs.declared.variant.Variant.{Variant};
ghost use Rattle.message_values.specs.ShapeBodies.{number_body, text_body, range_body, edit_body};
ghost use Rattle.message_values.specs.FitsShapes.{IsText, FitsRange, FitsEdit};
ghost use Rattle.message_values.specs.Shapes.{string_in, number_in, bool_in, pair_in, list_in, option_in, variant_in};
ghost use Rattle.message_values.specs.Words.{id_in, name_in, text_in, range_in, edit_in};

/// The parts of a shape are found in just the bodies that are made of them.
pub fn parts_are_found_where_they_are_put()
    ensures string { (body : List Tree) (text : List ℕ)
        → (string_in body ≡ Some text) ↔ (body ≡ string_body text) }
    ensures bool { (body : List Tree) (b : Bool) → (bool_in body ≡ Some b) ↔ (body ≡ bool_body b) }
    ensures pair { (body first second : List Tree)
        → (pair_in body ≡ Some (first, second)) ↔ (body ≡ pair_body first second) }
    ensures list { (body : List Tree) (items : List (List Tree))
        → (list_in body ≡ Some items) ↔ (body ≡ list_body items) }
    ensures option { (body : List Tree) (item : Option (List Tree))
        → (option_in body ≡ Some item) ↔ (body ≡ option_body item) }
    ensures variant { (body : List Tree) (v : Variant) → (variant_in body ≡ Some v)
        ↔ ((v.index < 2 ^ 64) × (body ≡ variant_body v.index v.values v.argument)) }
{}

/// A value is found in just the bodies that encode it, and has the limits of its type.
pub fn values_are_found_where_they_are_encoded()
    ensures number { (body : List Tree) (n : ℕ)
        → (number_in body ≡ Some n) ↔ ((n < int_end) × (body ≡ number_body n)) }
    ensures id { (body : List Tree) (n : ℕ)
        → (id_in body ≡ Some n) ↔ (IsId n × (body ≡ number_body n)) }
    ensures name { (body : List Tree) (name : List ℕ)
        → (name_in body ≡ Some name) ↔ ((is_node_name name ≡ true) × (body ≡ string_body name)) }
    ensures text { (body : List Tree) (scalars : List ℕ)
        → (text_in body ≡ Some scalars) ↔ (IsText scalars × (body ≡ text_body scalars)) }
    ensures range { (body : List Tree) (r : Range)
        → (range_in body ≡ Some r) ↔ (FitsRange r × (body ≡ range_body r)) }
    ensures edit { (body : List Tree) (e : Edit)
        → (edit_in body ≡ Some e) ↔ (FitsEdit e × (body ≡ edit_body e)) }
{}

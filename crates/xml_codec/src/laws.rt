//! Laws over the definitions, as contracts of functions that do nothing.
ghost use Rattle.std.specs.Prelude.{◌≡◌, ◌≢◌, ◌<◌, ◌≤◌, ◌+◌, ◌^◌, max, length, ℕ, ℤ, Bool, List, Option, Some};
ghost use Rattle.std.specs.List.{AllByRecursion};
ghost use Rattle.yxml.specs.declared.tree.Tree.{Tree};
ghost use Rattle.yxml.specs.Normal.{IsNormal, IsPlain, height};
ghost use Rattle.xml_codec.specs.declared.fault.DataFault.{DataFault};
ghost use Rattle.xml_codec.specs.Data.{IsShort, int_body, bool_body, string_body, pair_body, list_body, option_body, variant_body};
ghost use Rattle.xml_codec.specs.Faults.{IsNodesFault, any_number, two, at_most_one};
ghost use Rattle.xml_codec.specs.Nested.{IsNestable};

/// The body of a value is normal, where its texts are plain and its parts leave room for an
/// element.
pub fn bodies_are_normal()
    ensures int { (n : ℤ) → IsShort n → IsNormal (int_body n) }
    ensures bool { (b : Bool) → IsNormal (bool_body b) }
    ensures string { (text : List ℕ) → IsPlain text → IsNormal (string_body text) }
    ensures pair { (first second : List Tree) → IsNestable first → IsNestable second
        → IsNormal (pair_body first second) }
    ensures list { (items : List (List Tree)) → AllByRecursion IsNestable items
        → IsNormal (list_body items) }
    ensures option { (item : List Tree) → IsNestable item → IsNormal (option_body (Some item)) }
    ensures variant { (index : ℕ) (values : List (List ℕ)) (argument : List Tree)
        → index + length values < 2 ^ 64 → AllByRecursion IsPlain values → IsNestable argument
        → IsNormal (variant_body index values argument) }
{}

/// How many elements the body of a value nests.
pub fn bodies_nest()
    ensures int { (n : ℤ) → height (int_body n) ≡ 0 }
    ensures bool { (b : Bool) → height (bool_body b) ≡ 0 }
    ensures string { (text : List ℕ) → height (string_body text) ≡ 0 }
    ensures pair { (first second : List Tree)
        → height (pair_body first second) ≡ 1 + max (height first) (height second) }
    ensures list { (items : List (List Tree)) (n : ℕ)
        → AllByRecursion (λ item. height item ≤ n) items → height (list_body items) ≤ 1 + n }
    ensures option { (item : List Tree) → height (option_body (Some item)) ≡ 1 + height item }
    ensures variant { (index : ℕ) (values : List (List ℕ)) (argument : List Tree)
        → height (variant_body index values argument) ≡ 1 + height argument }
{}

/// A body encodes at most one value of a shape, so what is read is the value that was put.
pub fn a_body_encodes_one_value()
    ensures int { (m n : ℤ) → IsShort m → IsShort n → int_body m ≡ int_body n → m ≡ n }
    ensures bool { (b c : Bool) → bool_body b ≡ bool_body c → b ≡ c }
    ensures string { (s t : List ℕ) → string_body s ≡ string_body t → s ≡ t }
    ensures pair { (a b c d : List Tree) → pair_body a b ≡ pair_body c d → (a ≡ c) × (b ≡ d) }
    ensures list { (a b : List (List Tree)) → list_body a ≡ list_body b → a ≡ b }
    ensures option { (a b : Option (List Tree)) → option_body a ≡ option_body b → a ≡ b }
    ensures variant { (i j : ℕ) (s t : List (List ℕ)) (a b : List Tree) → i < 2 ^ 64 → j < 2 ^ 64
        → variant_body i s a ≡ variant_body j t b → (i ≡ j) × (s ≡ t) × (a ≡ b) }
{}

/// A body at fault encodes no value of the shape.
pub fn a_faulty_body_encodes_no_value()
    ensures list { (body : List Tree) (f : DataFault) → f ≢ DataFault.NoMemory
        → IsNodesFault any_number body f → (items : List (List Tree)) → body ≢ list_body items }
    ensures pair { (body : List Tree) (f : DataFault) → f ≢ DataFault.NoMemory
        → IsNodesFault two body f → (first second : List Tree) → body ≢ pair_body first second }
    ensures option { (body : List Tree) (f : DataFault) → f ≢ DataFault.NoMemory
        → IsNodesFault at_most_one body f → (item : Option (List Tree)) → body ≢ option_body item }
{}

ghost use Rattle.std.specs.Prelude.{◌≡◌, ◌≢◌, ◌∷◌, [], ℤ, Bool, List, ℕ, IfOk, IfErr, IfSome, IfNone, string_bytes};
ghost use Rattle.yxml.specs.Normal.{IsNormal, IsPlain};
ghost use Rattle.xml_codec.specs.Data.{IsShort, int_body, bool_body, string_body};
ghost use Rattle.xml_codec.specs.Faults.{IsHere};

use crate::fault::DataFault;
use crate::node::one_tree;
use crate::number::int_of;
use itoa::Buffer;
use sqlite_items::Items;
use std::alloc::{AllocError, Global};
use yxml::{Body, Tree, XmlString};

/// The body of an integer of at most 18 digits: its decimal text.
pub fn put_int(alloc: Global, number: i64) -> Result<Body, AllocError>
    requires { IsShort number }
    ensures { IfOk result (λ body. body ≡ int_body number) }
{
    let mut buffer = Buffer::new();
    text_body(alloc, buffer.format(number))
}

/// The body of a truth value: `0` or `1`.
pub fn put_bool(alloc: Global, is_true: bool) -> Result<Body, AllocError>
    ensures { IfOk result (λ body. body ≡ bool_body is_true) }
{
    text_body(alloc, if is_true { "1" } else { "0" })
}

/// The body of a text without bytes 5 and 6: empty for the empty text.
pub fn put_string(alloc: Global, text: &str) -> Result<Body, AllocError>
    requires { IsPlain text.now }
    ensures { IfOk result (λ body. body ≡ string_body text.now) }
{
    if text.is_empty() {
        return Ok(Items::new(alloc));
    }
    text_body(alloc, text)
}

/// The body of one text.
fn text_body(alloc: Global, text: &str) -> Result<Body, AllocError>
    ensures { IfOk result (λ body. body ≡ Tree.Text text.now ∷ []) }
{
    let text = XmlString::from_str(alloc, text)?;
    one_tree(alloc, Tree::Text(text))
}

/// The text of a body that is one text and nothing else.
fn only_text(body: Body) -> Option<XmlString>
    ensures some { IfSome result (λ text. body ≡ Tree.Text text ∷ []) }
    ensures none { IfNone result ((text : List ℕ) → body ≢ Tree.Text text ∷ []) }
{
    let mut body = body;
    let last = body.pop()?;
    let is_alone = body.is_empty();
    drop(body);
    match last {
        Tree::Text(text) => { if is_alone { Some(text) } else { None } }
        Tree::Elem { .. } => None,
    }
}

/// The integer whose body this is. A fault is one of the body itself.
pub fn get_int(alloc: Global, body: Body) -> Result<i64, DataFault>
    ensures value { IfOk result (λ n. IsShort n × (body ≡ int_body n)) }
    ensures place { IfErr result IsHere }
    ensures none { IfErr result (λ f. f ≢ DataFault.NoMemory
        → (n : ℤ) → IsShort n → body ≢ int_body n) }
{
    match only_text(body) {
        Some(text) => int_of(text.as_str()).ok_or(DataFault::here(alloc)),
        None => Err(DataFault::here(alloc)),
    }
}

/// The truth value whose body this is. A fault is one of the body itself.
pub fn get_bool(alloc: Global, body: Body) -> Result<bool, DataFault>
    ensures value { IfOk result (λ b. body ≡ bool_body b) }
    ensures place { IfErr result IsHere }
    ensures none { IfErr result (λ f. f ≢ DataFault.NoMemory → (b : Bool) → body ≢ bool_body b) }
{
    match only_text(body) {
        Some(text) => match text.as_str() {
            "0" => Ok(false),
            "1" => Ok(true),
            _ => Err(DataFault::here(alloc)),
        },
        None => Err(DataFault::here(alloc)),
    }
}

/// The text whose body this is. A fault is one of the body itself.
pub fn get_string(alloc: Global, body: Body) -> Result<String, DataFault>
    ensures value { IfOk result (λ text. body ≡ string_body (string_bytes text)) }
    ensures place { IfErr result IsHere }
    ensures none { IfErr result (λ f. f ≢ DataFault.NoMemory
        → (text : List ℕ) → body ≢ string_body text) }
{
    if body.is_empty() {
        return Ok(String::new(alloc));
    }
    match only_text(body) {
        Some(text) => {
            if text.is_empty() {
                return Err(DataFault::here(alloc));
            }
            Ok(text.into_string())
        }
        None => Err(DataFault::here(alloc)),
    }
}

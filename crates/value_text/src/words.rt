//! What single tokens say.

ghost use Rattle.std.specs.Prelude.{◌≡◌, ◌↔◌, ◌<◌, ◌^◌, ℕ, ℤ, pos, List, [], ◌∷◌, Some, Ok, IfSome, IfNone, IfOk, IfErr, IsTrue, decimal};
ghost use Rattle.std.specs.Fmt.{signed_decimal};
ghost use lib.Signed.{mag};
ghost use Rattle.type_model.specs.PartNamesNames.{AreApart};
ghost use Rattle.hex.specs.Hex.{decode_of};
ghost use Rattle.json.specs.Token.{string};
ghost use Rattle.json.specs.Reads.{token_of};
ghost use Rattle.type_graph.specs.declared.node.Node.TheVariants.{Boolean, Char, Enum};
ghost use Rattle.type_graph.specs.Value.{Tree, IsNumber, IsText};
ghost use Rattle.idl_value.specs.View.{tree_of};
ghost use Rattle.value_text.specs.Pieces.{characters, digits, octet_of, octet_of_tree};
ghost use Rattle.value_text.specs.Texts.{label_of};
ghost use Rattle.value_text.specs.Says.{SaysNumber};
ghost use Rattle.value_text.specs.inner.Reading.{IsOctet, IsOctets, IsString};
ghost use Rattle.value_text.specs.inner.Refusing.{RefusesAs, IsShort, IsLow, IsNamed, AreOctets};

use crate::cursor::{Cursor, Stop};
use crate::fault::Wanted;
use crate::lookup::Lookup;
use idl_value::Value;
use json::Token;
use std::alloc::{AllocError, Global};
use type_graph::Node;
use type_model::part_names::NodeNames;

/// The number below 2^64 of which these are the digits.
fn plain_of(digits: &str) -> Option<i128>
    ensures some { IfSome result (λ n. digits.now ≡ signed_decimal n) }
    ensures short { IfSome result IsShort }
    ensures complete { (n : ℕ) → n < 2 ^ 64 → digits.now ≡ decimal n → result ≡ Some (pos n) }
{
    let n = digits.parse::<u64>().ok()?;
    let mut buffer = itoa::Buffer::new();
    if buffer.format(n) != digits {
        return None;
    }
    Some(i128::from(n))
}

/// The number between -2^63 and 2^63 of which these are the digits.
fn signed_of(digits: &str) -> Option<i128>
    ensures some { IfSome result (λ n. digits.now ≡ signed_decimal n) }
    ensures short { IfSome result IsShort }
    ensures complete { (n : ℤ) → mag n < 2 ^ 63 → digits.now ≡ signed_decimal n → result ≡ Some n }
{
    let n = digits.parse::<i64>().ok()?;
    let mut buffer = itoa::Buffer::new();
    if buffer.format(n) != digits {
        return None;
    }
    Some(i128::from(n))
}

/// The number of which these are the digits: no fraction, no exponent, no needless sign.
fn whole_of(digits: &str) -> Option<i128>
    ensures some { IfSome result (λ n. digits.now ≡ signed_decimal n) }
    ensures complete { (n : ℤ) → IsShort n → digits.now ≡ signed_decimal n → result ≡ Some n }
{
    match plain_of(digits) {
        Some(n) => Some(n),
        None => signed_of(digits),
    }
}

/// The octets of characters, None where one has none.
fn octets_of_text(alloc: Global, text: &str) -> Result<Option<Vec<u8>>, AllocError>
    ensures some { IfOk result (λ found. IfSome found (λ octets. text.now ≡ characters octets.items)) }
    ensures none { IfOk result (λ found. IfNone found ((octets : List ℕ) → AreOctets octets
        → text.now ≡ characters octets → ⊥)) }
{
    let mut octets = Vec::new(alloc);
    for character in text.chars() {
        let code = u32::from(character);
        if code > 0xFF {
            return Ok(None);
        }
        octets.push(code as u8)?;
    }
    Ok(Some(octets))
}

/// The octets of hexadecimal digits, None where they are none.
fn octets_of_digits(alloc: Global, digits: &str) -> Result<Option<Vec<u8>>, AllocError>
    ensures some { IfOk result (λ found. IfSome found (λ octets. decode_of digits.now ≡ Ok octets.items)) }
    ensures none { IfOk result (λ found. IfNone found ((octets : List ℕ) → decode_of digits.now ≡ Ok octets → ⊥)) }
{
    match hex::decode(alloc, digits) {
        Ok(octets) => Ok(Some(octets)),
        Err(hex::FromHexError::OutOfMemory) => Err(AllocError),
        Err(_) => Ok(None),
    }
}

/// The only octet.
fn single(octets: &[u8]) -> Option<i128>
    ensures some { IfSome result (λ n. octets.now ≡ octet_of n ∷ []) }
    ensures number { IfSome result (λ n. IsNumber Char n) }
    ensures complete { (n : ℤ) → IsNumber Char n → octets.now ≡ octet_of n ∷ [] → result ≡ Some n }
{
    match octets {
        [octet] => Some(i128::from(*octet)),
        _ => None,
    }
}

/// The octet of a text of one character.
fn char_of(alloc: Global, text: &str) -> Result<Option<i128>, AllocError>
    ensures some { IfOk result (λ found. IfSome found (λ n. SaysNumber [] Char n (string text.now))) }
    ensures complete { IfOk result (λ found. (n : ℤ) → IsNumber Char n → SaysNumber [] Char n (string text.now)
        → found ≡ Some n) }
{
    match octets_of_text(alloc, text)? {
        Some(octets) => Ok(single(octets.as_slice())),
        None => Ok(None),
    }
}

/// The place of an enumerator's name.
fn place_of(lookup: &Lookup, labels: &NodeNames, number: u32, label: &str) -> Option<i128>
    ensures some { IfSome result (λ n. label_of labels.now n ≡ Some label.now) }
    ensures complete { AreApart labels.now → (n : ℤ) → label_of labels.now n ≡ Some label.now → result ≡ Some n }
{
    let place = lookup.place_of(labels, number, label)?;
    Some(place as i128)
}

/// What a token says as a boolean.
fn boolean_said(token: Token<'_>) -> Option<i128>
    ensures some { IfSome result (λ n. SaysNumber [] Boolean n (token_of token.entry)) }
    ensures complete { (n : ℤ) → IsNumber Boolean n → SaysNumber [] Boolean n (token_of token.entry) → result ≡ Some n }
{
    match token {
        Token::Bool(truth) => Some(i128::from(truth)),
        _ => None,
    }
}

/// What a token says as a character.
fn char_said(alloc: Global, token: Token<'_>) -> Result<Option<i128>, AllocError>
    ensures some { IfOk result (λ found. IfSome found (λ n. SaysNumber [] Char n (token_of token.entry))) }
    ensures complete { IfOk result (λ found. (n : ℤ) → IsNumber Char n → SaysNumber [] Char n (token_of token.entry)
        → found ≡ Some n) }
{
    match token {
        Token::String(text) => char_of(alloc, text),
        _ => Ok(None),
    }
}

/// What a token says as an enumerator, declared or not.
fn enumerator_said(
    lookup: &Lookup,
    labels: &NodeNames,
    number: u32,
    token: Token<'_>,
) -> Option<i128>
    ensures some { (limit : ℕ) → IfSome result (λ n. SaysNumber labels.now (Enum limit) n (token_of token.entry)) }
    ensures complete { AreApart labels.now → (limit : ℕ) (n : ℤ) → IsShort n
        → SaysNumber labels.now (Enum limit) n (token_of token.entry) → result ≡ Some n }
{
    match token {
        Token::String(label) => place_of(lookup, labels, number, label),
        Token::Number(digits) => whole_of(digits),
        _ => None,
    }
}

/// What a token says by digits.
fn whole_said(token: Token<'_>) -> Option<i128>
    ensures some { IfSome result (λ n. token_of token.entry ≡ digits n) }
    ensures complete { (n : ℤ) → IsShort n → token_of token.entry ≡ digits n → result ≡ Some n }
{
    match token {
        Token::Number(digits) => whole_of(digits),
        _ => None,
    }
}

/// What a token says as a number of the node, in range or not.
fn number_of(
    alloc: Global,
    lookup: &Lookup,
    labels: &NodeNames,
    number: u32,
    node: &Node,
    token: Token<'_>,
) -> Result<Option<i128>, AllocError>
    ensures some { IfOk result (λ found. IfSome found (λ n. SaysNumber labels.now node.now n (token_of token.entry))) }
    ensures complete { IfOk result (λ found. IsLow node.now → IsNamed node.now labels.now → (n : ℤ)
        → IsNumber node.now n → SaysNumber labels.now node.now n (token_of token.entry) → found ≡ Some n) }
{
    match node {
        Node::Boolean => Ok(boolean_said(token)),
        Node::Char => char_said(alloc, token),
        Node::Enum { .. } => Ok(enumerator_said(lookup, labels, number, token)),
        _ => Ok(whole_said(token)),
    }
}

fn wanted_of(node: &Node) -> Wanted {
    match node {
        Node::Boolean => Wanted::Boolean,
        Node::Char => Wanted::Char,
        Node::Enum { .. } => Wanted::Enumerator,
        _ => Wanted::Whole,
    }
}

/// An integer, octet, character, boolean or enumerator.
pub fn read_number(
    cursor: &Cursor<'_>,
    token: Token<'_>,
    alloc: Global,
    lookup: &Lookup,
    labels: &NodeNames,
    number: u32,
    node: &Node,
) -> Result<i128, Stop>
    ensures value { IfOk result (λ n. IsNumber node.now n) }
    ensures says { IfOk result (λ n. SaysNumber labels.now node.now n (token_of token.entry)) }
    ensures refused { IfErr result (λ stop. RefusesAs stop (IsLow node.now → IsNamed node.now labels.now → (n : ℤ)
        → IsNumber node.now n → SaysNumber labels.now node.now n (token_of token.entry) → ⊥)) }
{
    match number_of(alloc, lookup, labels, number, node, token)? {
        Some(n) if node.has_number(n) => Ok(n),
        _ => Err(cursor.refuse(token, wanted_of(node))),
    }
}

/// Whether octets are a string of a bound, 0 for none.
fn is_text(bound: u32, text: &[u8]) -> bool
    ensures { IsTrue result ↔ IsText bound text.now }
{
    text.len() < 0xFFFF_FFFF
        && (bound == 0 || text.len() <= bound as usize)
        && text.iter().all(|octet| *octet != 0)
}

/// A string.
pub fn read_text(
    cursor: &Cursor<'_>,
    token: Token<'_>,
    alloc: Global,
    bound: u32,
) -> Result<Value, Stop>
    ensures said { IfOk result (λ value. IsString bound (tree_of value) (token_of token.entry)) }
    ensures refused { IfErr result (λ stop. RefusesAs stop ((value : Tree) → IsString bound value (token_of token.entry)
        → ⊥)) }
{
    let Token::String(text) = token else {
        return Err(cursor.refuse(token, Wanted::Text));
    };
    let Some(octets) = octets_of_text(alloc, text)? else {
        return Err(cursor.refuse(token, Wanted::Text));
    };
    if !is_text(bound, octets.as_slice()) {
        return Err(cursor.refuse(token, Wanted::Text));
    }
    Ok(Value::Text(octets))
}

fn value_of(octet: u8) -> Value
    ensures same { octet_of_tree (tree_of result) ≡ octet }
    ensures is_octet { IsOctet (tree_of result) }
{
    Value::Integer(i128::from(octet))
}

fn values_of(alloc: Global, octets: &[u8]) -> Result<Vec<Value>, AllocError>
    ensures { IfOk result (λ values. IsOctets octets.now values.items) }
{
    let mut values = Vec::with_capacity(alloc, octets.len())?;
    for octet in octets {
        values.push(value_of(*octet))?;
    }
    Ok(values)
}

/// Octets by their digits.
pub fn read_octets(
    cursor: &Cursor<'_>,
    token: Token<'_>,
    alloc: Global,
    digits: &str,
) -> Result<Vec<Value>, Stop>
    ensures said { IfOk result (λ values. (octets : List ℕ) × (decode_of digits.now ≡ Ok octets)
        × IsOctets octets values.items) }
    ensures refused { IfErr result (λ stop. RefusesAs stop ((octets : List ℕ) → decode_of digits.now ≡ Ok octets → ⊥)) }
{
    match octets_of_digits(alloc, digits)? {
        Some(octets) => Ok(values_of(alloc, octets.as_slice())?),
        None => Err(cursor.refuse(token, Wanted::Digits)),
    }
}

/// Characters by a string.
pub fn read_chars(
    cursor: &Cursor<'_>,
    token: Token<'_>,
    alloc: Global,
    text: &str,
) -> Result<Vec<Value>, Stop>
    ensures said { IfOk result (λ values. (octets : List ℕ) × (text.now ≡ characters octets)
        × IsOctets octets values.items) }
    ensures refused { IfErr result (λ stop. RefusesAs stop ((octets : List ℕ) → AreOctets octets
        → text.now ≡ characters octets → ⊥)) }
{
    match octets_of_text(alloc, text)? {
        Some(octets) => Ok(values_of(alloc, octets.as_slice())?),
        None => Err(cursor.refuse(token, Wanted::Text)),
    }
}

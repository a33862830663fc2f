//! The words of a line, and what they seem to be.
ghost use Rattle.std.specs.Prelude.{◌≡◌, ◌≤◌, [], drop, get_or, length, IsTrue, MatchOption, true};
ghost use Rattle.std.specs.Char.{is_ascii_digit};
ghost use Rattle.std.specs.List.{list_all};
ghost use Rattle.pdn_base.specs.Codes.{read_code};
ghost use Rattle.pdn_base.specs.Numbers.{value_of};
ghost use Rattle.pdn_base.specs.declared.value.Value.TheVariants as int_value;
ghost use Rattle.pdn_view.specs.Guesses.{words, word, mapped, small, number_of, value_in, word_in, party_in, unquoted};
ghost use Rattle.pdn_view.specs.Cuts.{without, IsCut, words_left};

use crate::view::Party;
use pdn_base::{Code, Value, Word};

/// What stands before the first such byte, and what stands behind it.
pub fn cut(text: &[u8], byte: u8) -> Option<(&[u8], &[u8])>
    ensures { MatchOption result (without byte text.now ≡ true)
        (λ p. IsCut byte text.now p.0.now p.1.now) }
{
    for i in 0..text.len() {
        if text[i] == byte {
            return Some((&text[..i], &text[i + 1..]));
        }
    }
    None
}

/// The first word of what is left of a line.
#[tactic(auto, using(crate::proofs::Cutting::front_cut, crate::proofs::Cutting::front_alone))]
pub fn front(text: &[u8]) -> &[u8]
    ensures { result.now ≡ get_or (words text.now) 0 [] }
{
    match cut(text, b' ') {
        Some((word, _)) => word,
        None => text,
    }
}

/// What is left behind the first word, if anything is.
#[tactic(auto, using(crate::proofs::Cutting::rest_cut, crate::proofs::Cutting::rest_alone))]
pub fn rest(text: &[u8]) -> Option<&[u8]>
    ensures { words_left result ≡ drop 1 (words text.now) }
{
    match cut(text, b' ') {
        Some((_, rest)) => Some(rest),
        None => None,
    }
}

// What is left behind one word more.
fn behind_one(left: Option<&[u8]>) -> Option<&[u8]>
    ensures { words_left result ≡ drop 1 (words_left left.entry) }
{
    match left {
        Some(text) => rest(text),
        None => None,
    }
}

/// What is left of a line behind its first words.
pub fn behind(line: &[u8], count: usize) -> Option<&[u8]>
    ensures { words_left result ≡ drop count (words line.now) }
{
    let mut left = Some(line);
    for _ in 0..count {
        left = behind_one(left);
    }
    left
}

/// A line's word at a place, counted from 0; empty where it has fewer.
pub fn word(line: &[u8], place: usize) -> &[u8]
    ensures { result.now ≡ word line.now place }
{
    match behind(line, place) {
        Some(text) => front(text),
        None => &[],
    }
}

fn all_digits(bytes: &[u8]) -> bool
    ensures { result ≡ list_all is_ascii_digit bytes.now }
{
    bytes.iter().all(|byte| byte.is_ascii_digit())
}

fn value(digits: &[u8]) -> u128
    requires few { length digits.now ≤ 20 }
    requires digits { IsTrue (list_all is_ascii_digit digits.now) }
    ensures { result ≡ value_of digits.now }
{
    let mut value = 0;
    for digit in digits {
        value = value * 10 + u128::from(*digit - b'0');
    }
    value
}

/// The number of 64 bits that 1 to 20 decimal digits spell.
#[tactic(auto, unfolding(crate::specs::Guesses::number_of))]
pub fn number_of(digits: &[u8]) -> Option<u64>
    ensures { result ≡ number_of digits.now }
{
    if digits.is_empty() || digits.len() > 20 || !all_digits(digits) {
        return None;
    }
    let value = value(digits);
    if value > u128::from(u64::MAX) {
        return None;
    }
    Some(value as u64)
}

// A number of 32 bits.
fn int_in(text: &[u8]) -> Option<Value>
    ensures { result ≡ mapped int_value.Int (small (number_of text.now)) }
{
    let number = number_of(text)?;
    if number > u64::from(u32::MAX) {
        return None;
    }
    Some(Value::Int(number as u32))
}

// What stands between the first and the last byte.
fn unquoted(text: &[u8]) -> &[u8]
    ensures { result.now ≡ unquoted text.now }
{
    if text.len() < 2 {
        return &[];
    }
    &text[1..text.len() - 1]
}

fn code_in(text: &[u8]) -> Option<Value>
    ensures { result ≡ mapped int_value.Code (read_code (unquoted text.now)) }
{
    match Code::read(unquoted(text)) {
        Some(code) => Some(Value::Code(code)),
        None => None,
    }
}

/// The value that a word seems to be: a code where a quote stands first, else a number.
#[tactic(auto, unfolding(crate::specs::Guesses::value_in))]
pub fn value_in(text: &[u8]) -> Option<Value>
    ensures { result ≡ value_in text.now }
{
    match text.first() {
        Some(39) => code_in(text),
        _ => int_in(text),
    }
}

/// The word that 16 hexadecimal digits spell.
#[tactic(auto, unfolding(crate::specs::Guesses::word_in))]
pub fn word_in(digits: &[u8]) -> Option<Word>
    ensures { result ≡ word_in digits.now }
{
    let mut bytes = [0u8; 8];
    match hex::decode_to_slice(digits, &mut bytes) {
        Ok(()) => Some(Word::from_u64(u64::from_be_bytes(bytes))),
        Err(_) => None,
    }
}

/// Whose view it is.
pub fn party_in(text: &[u8]) -> Option<Party>
    ensures { result ≡ party_in text.now }
{
    if text == b"a".as_slice() {
        Some(Party::A)
    } else if text == b"b".as_slice() {
        Some(Party::B)
    } else if text == b"broker".as_slice() {
        Some(Party::Broker)
    } else {
        None
    }
}

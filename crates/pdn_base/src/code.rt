//! Codes: short texts, compared by their numbers.
ghost use Rattle.std.specs.Prelude.{◌≡◌, ◌≤◌, ◌-◌, ◌++◌, IfOk, Some, length, replicate};
ghost use Rattle.std.specs.List.{list_all};
ghost use Rattle.pdn_base.specs.Codes.{IsCodeNumber, is_code, is_code_byte, read_code, code_number, code_text, before_zero};

use crate::Memory;
use std::alloc::Global;
use std::marker::Model;

/// A text of 1 to 8 bytes, each from 0x21 to 0x7E and none of `"`, `'`, `,`. Contracts see its number: its bytes, filled on
/// the right with zero bytes to 8, read as a big-endian number.
#[derive(Clone, Copy, Debug, Drop)]
pub struct Code {
    number: u64,
}

impl Model for Code {
    ghost use Rattle.std.specs.Prelude.{ℕ};
    ghost use Rattle.pdn_base.specs.Codes.{IsCodeNumber};

    ghost Value = { ℕ };

    ghost view = { λ c. c.number };

    ghost invariant = { λ c. IsCodeNumber c.number };

    ghost inverse = { λ n. record { number = n } };
}

impl Code {
    /// The code that a text is, or none where it is no code.
    pub fn read(bytes: &[u8]) -> Option<Code>
        ensures { result ≡ read_code bytes.now }
    {
        if is_text_of_code(bytes) {
            Some(Code {
                number: big_endian(bytes),
            })
        } else {
            None
        }
    }

    /// The code of a number that some code has.
    pub fn of_number(number: u64) -> Code
        requires { IsCodeNumber number }
        ensures { result ≡ number }
    {
        Code { number }
    }

    /// Its number.
    pub fn number(&self) -> u64
        ensures { result ≡ self.now }
    {
        self.number
    }

    /// Its text, which reads as this code.
    pub fn text(&self, alloc: Global) -> Result<Vec<u8>, Memory>
        ensures text { IfOk result (λ text. text.items ≡ code_text self.now) }
        ensures reads { IfOk result (λ text. read_code text.items ≡ Some self.now) }
    {
        text_of(alloc, self.number)
    }
}

#[tactic(auto, unfolding(crate::specs::Codes::is_code))]
fn is_text_of_code(bytes: &[u8]) -> bool
    ensures { result ≡ is_code bytes.now }
{
    1 <= bytes.len() && bytes.len() <= 8 && are_bytes_of_code(bytes)
}

fn are_bytes_of_code(bytes: &[u8]) -> bool
    ensures { result ≡ list_all is_code_byte bytes.now }
{
    bytes.iter().all(
        |byte: &u8| -> bool
            ensures { result ≡ is_code_byte byte.now }
        { is_byte_of_code(*byte) },
    )
}

#[tactic(auto, unfolding(crate::specs::Codes::is_code_byte))]
fn is_byte_of_code(byte: u8) -> bool
    ensures { result ≡ is_code_byte byte }
{
    0x21 <= byte && byte <= 0x7E && byte != b'"' && byte != b'\'' && byte != b','
}

#[tactic(auto, unfolding(crate::specs::Codes::code_number))]
fn big_endian(bytes: &[u8]) -> u64
    requires { length bytes.now ≤ 8 }
    ensures { result ≡ code_number bytes.now }
{
    u64::from_be_bytes(filled(bytes))
}

/// The bytes, with zero bytes on their right.
fn filled(bytes: &[u8]) -> [u8; 8]
    requires { length bytes.now ≤ 8 }
    ensures { result ≡ bytes.now ++ replicate (8 - length bytes.now) 0 }
{
    let mut filled = [0u8; 8];
    filled[..bytes.len()].copy_from_slice(bytes);
    filled
}

#[tactic(auto, unfolding(crate::specs::Codes::code_text))]
fn text_of(alloc: Global, number: u64) -> Result<Vec<u8>, Memory>
    ensures { IfOk result (λ text. text.items ≡ code_text number) }
{
    before_zero(alloc, &number.to_be_bytes())
}

fn before_zero(alloc: Global, bytes: &[u8]) -> Result<Vec<u8>, Memory>
    ensures { IfOk result (λ front. front.items ≡ before_zero bytes.now) }
{
    let mut front = Vec::new(alloc);
    for byte in bytes {
        if *byte == 0 {
            break;
        }
        front.push(*byte)?;
    }
    Ok(front)
}

//! The words of a line.

ghost use Rattle.std.specs.Prelude.{◌≡◌, ◌≤◌, length, slice_index, nat_eq, IfOk};
ghost use Rattle.std.specs.Str.{bytes_eq};
ghost use Rattle.pdn_schema.specs.Words.{is_blank, is_word_byte, run, words_of};

use std::alloc::{AllocError, Global};
use std::marker::Model;

/// A word of a line. Contracts see its bytes.
#[derive(Drop)]
pub struct Text {
    bytes: Vec<u8>,
}

impl Model for Text {
    ghost use Rattle.std.specs.Prelude.{ℕ, List};

    ghost Value = { List ℕ };

    ghost view = { λ t. t.bytes.items };
}

impl Text {
    pub fn of(bytes: Vec<u8>) -> Text
        ensures { result ≡ bytes.items }
    {
        Text { bytes }
    }

    pub fn begins_with(&self, b: u8) -> bool
        ensures { result ≡ nat_eq (slice_index self.now 0) b }
    {
        match self.bytes.as_slice() {
            [first, ..] => *first == b,
            [] => b == 0,
        }
    }

    pub fn as_bytes(&self) -> &[u8]
        ensures { result.now ≡ self.now }
    {
        &self.bytes
    }

    pub fn is(&self, other: &[u8]) -> bool
        ensures { result ≡ bytes_eq self.now other.now }
    {
        self.bytes.as_slice() == other
    }
}

fn is_blank(b: u8) -> bool
    ensures { result ≡ is_blank b }
{
    b == 32 || b == 9
}

/// How many bytes stand before a blank or the end.
fn word_len(bytes: &[u8]) -> usize
    ensures is { result ≡ run is_word_byte bytes.now }
    ensures within { result ≤ length bytes.now }
{
    let mut n = 0;
    while n < bytes.len() && !is_blank(bytes[n]) {
        n += 1;
    }
    n
}

/// The words of a line.
pub fn words(alloc: Global, line: &[u8]) -> Result<Vec<Text>, AllocError>
    ensures { IfOk result (λ ws. ws.items ≡ words_of line.now) }
{
    let mut out = Vec::new(alloc);
    let mut left = 0;
    for i in 0..line.len() {
        if left > 0 {
            left -= 1;
            continue;
        }
        let rest = &line[i..];
        let n = word_len(rest);
        if n == 0 {
            continue;
        }
        out.push(Text::of(Vec::from_slice(alloc, &rest[..n])?))?;
        left = n - 1;
    }
    Ok(out)
}

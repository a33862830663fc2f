//! A schema from a text.

ghost use Rattle.std.specs.Prelude.{◌≡◌, ◌<◌, ◌≤◌, ◌^◌, ◌-◌, length, [], IfOk};
ghost use Rattle.pdn_schema.specs.Words.{run, is_line_byte, ends_in_return, line_end, lines_of};
ghost use Rattle.pdn_schema.specs.Reading.{is_passed, line_read, read_lines, read_part, Reads, Says, Gives, FaultOf};
ghost use Rattle.pdn_schema.specs.Models.{SchemaModel};

use crate::form::form_of;
use crate::partial::Partial;
use crate::schema::Schema;
use crate::words::{Text, words};
use std::alloc::{AllocError, Global};

/// Why there is no schema: a line, counted from 1, with its cause, or memory ran out.
#[derive(Clone, Copy, Debug, PartialEq, Eq)]
pub enum SchemaErr {
    Line { line: u32, cause: u8 },
    Memory,
}

impl From<AllocError> for SchemaErr {
    ghost use Rattle.std.specs.Prelude.{◌≡◌};
    ghost use Rattle.pdn_schema.specs.declared.read.SchemaErr.TheVariants.{Memory};

    ghost from_gives = { λ _ e. e ≡ Memory };

    fn from(_e: AllocError) -> SchemaErr {
        SchemaErr::Memory
    }
}

/// How many bytes stand before a line feed or the end.
fn line_len(bytes: &[u8]) -> usize
    ensures is { result ≡ run is_line_byte bytes.now }
    ensures within { result ≤ length bytes.now }
{
    let mut n = 0;
    while n < bytes.len() && bytes[n] != 10 {
        n += 1;
    }
    n
}

fn ends_in_return(bytes: &[u8], n: usize) -> bool
    requires { n ≤ length bytes.now }
    ensures { result ≡ ends_in_return bytes.now n }
{
    0 < n && n < bytes.len() && bytes[n - 1] == 13
}

/// A line without words, or a comment.
fn is_passed(words: &[Text]) -> bool
    ensures { result ≡ is_passed words.now }
{
    match words.split_first() {
        Some((first, _)) => first.begins_with(35),
        None => true,
    }
}

/// Where the line that has n bytes before its line feed ends.
fn line_end(bytes: &[u8], n: usize) -> usize
    requires { n ≤ length bytes.now }
    ensures is { result ≡ line_end bytes.now n }
    ensures within { result ≤ n }
{
    if ends_in_return(bytes, n) { n - 1 } else { n }
}

/// No line is left.
#[tactic(auto, unfolding(crate::specs::Reading::read_lines))]
fn finish(p: Partial, n: u32) -> Result<Partial, SchemaErr>
    ensures { Reads result (read_lines n p []) }
{
    if !p.is_ended() {
        return Err(SchemaErr::Line { line: n, cause: 2 });
    }
    Ok(p)
}

/// One more line.
#[tactic(auto, unfolding(crate::specs::Reading::line_read))]
fn take_line(alloc: Global, p: Partial, n: u32, line: &[u8]) -> Result<Partial, SchemaErr>
    ensures { Reads result (line_read n p line.now) }
{
    let words = words(alloc, line)?;
    if is_passed(&words) {
        return Ok(p);
    }
    let form = form_of(alloc, &words)?;
    if let Some(cause) = p.cause(&form) {
        return Err(SchemaErr::Line {
            line: n,
            cause: cause.number(),
        });
    }
    Ok(p.add(form)?)
}

fn read_part(alloc: Global, bytes: &[u8]) -> Result<Partial, SchemaErr>
    requires { length bytes.now < 2 ^ 32 - 1 }
    ensures { Reads result (read_part bytes.now) }
{
    let mut p = Partial::new(alloc);
    let mut line: u32 = 1;
    let mut left = 0;
    for i in 0..bytes.len() {
        if left > 0 {
            left -= 1;
            continue;
        }
        let rest = &bytes[i..];
        left = line_len(rest);
        let end = line_end(rest, left);
        p = take_line(alloc, p, line, &rest[..end])?;
        line += 1;
    }
    finish(p, line)
}

/// The schema that a file says. `Line` comes exactly where it says none, with the first line at which it leaves the
/// grammar, counted from 1, and the least cause in that line; where `end` is missing, that is the line after the last.
pub fn read_schema(alloc: Global, bytes: &[u8]) -> Result<Schema, SchemaErr>
    requires { length bytes.now < 2 ^ 32 - 1 }
    // The file says the schema that was read.
    ensures found { IfOk result (λ s. Says bytes.now s) }
    // A schema that the file says is read, unless memory runs out.
    ensures only { (s : SchemaModel) → Says bytes.now s → Gives s result }
    // An error is the first line with a cause, and the least one in it; or memory ran out.
    ensures fault { FaultOf (lines_of bytes.now) result }
{
    Ok(read_part(alloc, bytes)?.into_schema())
}

//! Replies.
ghost use Rattle.std.specs.Prelude.{◌≡◌, IfOk, length};
ghost use Rattle.std.specs.String.{string_bytes};
ghost use Rattle.http.specs.StatusCode.{IsStatusCode};
ghost use Rattle.pdn_reply.specs.Replies.{allow_line, head_text, phrase, reply_text};

use http::StatusCode;
use pdn_base::Memory;
use std::alloc::Global;

/// The phrase of a status.
fn phrase(status: u16) -> &'static str
    requires { IsStatusCode status }
    ensures { result.now ≡ phrase status }
{
    match StatusCode::from_u16(status) {
        Ok(status) => status.canonical_reason().unwrap_or(""),
        Err(_) => "",
    }
}

fn allow_line(status: u16) -> &'static str
    ensures { result.now ≡ allow_line status }
{
    if status == 405 {
        "allow: GET, POST\r\n"
    } else {
        ""
    }
}

/// What stands before a body of this size.
fn head(alloc: Global, status: u16, size: usize) -> Result<String, Memory>
    requires { IsStatusCode status }
    ensures { IfOk result (λ head. string_bytes head ≡ head_text status size) }
{
    let phrase = phrase(status);
    let allow = allow_line(status);
    let head = format!(in alloc;
        "HTTP/1.1 {status} {phrase}\r\ncontent-type: application/json\r\ncontent-length: {size}\r\n{allow}connection: close\r\n\r\n"
    )?;
    Ok(head)
}

/// A reply of this status, from 100 to 999, with this JSON as its body: a whole response of
/// HTTP/1.1, after which the connection is closed (RFC 9112).
pub fn reply(alloc: Global, status: u16, body: &[u8]) -> Result<Vec<u8>, Memory>
    requires status { IsStatusCode status }
    ensures { IfOk result (λ bytes. bytes.items ≡ reply_text status body.now) }
{
    let head = head(alloc, status, body.len())?;
    let mut bytes = Vec::from_slice(alloc, head.as_bytes())?;
    bytes.extend_from_slice(body)?;
    Ok(bytes)
}

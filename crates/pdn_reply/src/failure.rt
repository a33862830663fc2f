//! The bodies of refusals.
ghost use Rattle.std.specs.Prelude.{◌≡◌, IfOk};
ghost use Rattle.std.specs.String.{string_bytes};
ghost use Rattle.pdn_reply.specs.Bodies.{error_text};

use pdn_base::Memory;
use serde_json::{Error, json};
use std::alloc::Global;

/// The body that names an error.
pub fn error_body(alloc: Global, error: &str) -> Result<Vec<u8>, Memory>
    ensures { IfOk result (λ body. body.items ≡ error_text error.now) }
{
    // Text has no other error.
    let Ok(text) = error_text(alloc, error) else {
        return Err(Memory);
    };
    Ok(text.into_bytes())
}

fn error_text(alloc: Global, error: &str) -> Result<String, Error>
    ensures { IfOk result (λ text. string_bytes text ≡ error_text error.now) }
{
    let body = json!(in alloc; {"error": error})?;
    Ok(body.to_string(alloc)?)
}

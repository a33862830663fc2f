//! The length of a body, as it is given.
ghost use Rattle.std.specs.Prelude.{◌≡◌};
ghost use Rattle.std.specs.Char.{is_ascii_digit};
ghost use Rattle.std.specs.List.{list_all};
ghost use Rattle.pdn_http.specs.Requests.{is_length, size_of};

use crate::Refusal;
use pdn_base::number;

/// The most bytes that a body may have.
const MOST: u32 = 4096;

fn all_digits(text: &[u8]) -> bool
    ensures { result ≡ list_all is_ascii_digit text.now }
{
    text.iter().all(|byte| byte.is_ascii_digit())
}

fn is_length(text: &[u8]) -> bool
    ensures { result ≡ is_length text.now }
{
    !text.is_empty() && text.len() <= 10 && all_digits(text)
}

/// The size that a text says: 1 to 10 decimal digits of a number up to 4096.
pub(crate) fn size_of(text: &[u8]) -> Result<Option<usize>, Refusal>
    ensures { result ≡ size_of text.now }
{
    if !is_length(text) {
        return Err(Refusal::Request);
    }
    match number(text) {
        Some(size) if size <= MOST => Ok(Some(size as usize)),
        _ => Err(Refusal::Long),
    }
}

//! The key of the tape.
ghost use Rattle.std.specs.Prelude.{◌≡◌};
ghost use Rattle.pdn_startup.specs.Starting.{digits_of, key_of};

use hex::FromHex;
use pdn_dealer::ChaChaDeal;

/// The dealer of the key that a text spells: 64 hexadecimal digits and at most one line feed. None comes exactly where it is no
/// such text.
pub fn dealer_of(text: &[u8]) -> Option<ChaChaDeal>
    ensures { result ≡ key_of text.now }
{
    match <[u8; 32] as FromHex>::from_hex(digits_of(text)) {
        Ok(key) => Some(ChaChaDeal::new(key)),
        Err(_) => None,
    }
}

// A text but for a line feed at its end.
fn digits_of(text: &[u8]) -> &[u8]
    ensures { result.now ≡ digits_of text.now }
{
    if text.len() > 0 && text[text.len() - 1] == b'\n' {
        return &text[..text.len() - 1];
    }
    text
}

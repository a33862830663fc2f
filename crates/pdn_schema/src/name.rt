//! Names of callers, tables and columns.

ghost use Rattle.std.specs.Prelude.{◌≡◌, IfOk, true};
ghost use Rattle.std.specs.Str.{bytes_eq};
ghost use Rattle.pdn_schema.specs.Names.{is_name};

use pdn_base::Memory;
use std::alloc::{AllocError, Global};
use std::marker::Model;

/// The name of a caller, a table or a column. Contracts see its bytes.
#[derive(Debug, Drop)]
pub struct Name {
    text: String,
}

impl Model for Name {
    ghost use Rattle.std.specs.Prelude.{ℕ, List};
    ghost use Rattle.std.specs.String.{string_bytes};

    ghost Value = { List ℕ };

    ghost view = { λ n. string_bytes n.text };
}

impl Name {
    /// The name with this text.
    pub fn new(alloc: Global, text: &str) -> Result<Name, Memory>
        ensures { IfOk result (λ name. name ≡ text.now) }
    {
        Ok(Name {
            text: String::from_str(alloc, text)?,
        })
    }

    /// The name that a word is.
    pub fn of_word(alloc: Global, word: &[u8]) -> Result<Name, AllocError>
        requires { is_name word.now ≡ true }
        ensures { IfOk result (λ name. name ≡ word.now) }
    {
        let mut text = String::new(alloc);
        for b in word {
            text.push(char::from(*b))?;
        }
        Ok(Name { text })
    }

    /// Its text.
    pub fn as_str(&self) -> &str
        ensures { result.now ≡ self.now }
    {
        self.text.as_str()
    }

    /// Its bytes.
    pub fn as_bytes(&self) -> &[u8]
        ensures { result.now ≡ self.now }
    {
        self.text.as_bytes()
    }

    /// Whether it is the other name.
    pub fn is(&self, other: &Name) -> bool
        ensures { result ≡ bytes_eq self.now other.now }
    {
        self.as_bytes() == other.as_bytes()
    }

    /// An equal name.
    pub fn copy(&self, alloc: Global) -> Result<Name, Memory>
        ensures { IfOk result (λ name. name ≡ self.now) }
    {
        Name::new(alloc, self.as_str())
    }
}

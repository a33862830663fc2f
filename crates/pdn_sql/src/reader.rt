//! Reading from tokens.

ghost use Rattle.std.specs.Prelude.{◌≡◌, ◌==◌};
ghost use Rattle.pdn_sql.specs.Part.{Gives, begins};
ghost use Rattle.pdn_sql.specs.Grammar.{is_word, word_part, is_mark, mark_part, number, code, name, op};

use crate::query::Name;
use crate::stop::Stop;
use crate::token::{Keyword, Placed, Symbol, Token};
use pdn_base::{Code, Op};
use std::alloc::Global;
use std::marker::Model;

/// The tokens that are still to come. A method that answers `Here` leaves those from the first that can't stand.
#[derive(Drop)]
pub struct Reader<'a> {
    tokens: &'a [Placed],
}

impl<'a> Model for Reader<'a> {
    ghost use Rattle.std.specs.Prelude.{List};
    ghost use Rattle.pdn_sql.specs.declared.token.Placed.{Placed};

    ghost Value = { List Placed };

    ghost view = { λ r. r.tokens.now };
}

impl<'a> Reader<'a> {
    pub fn new(tokens: &'a [Placed]) -> Reader<'a>
        ensures { result ≡ tokens.now }
    {
        Reader { tokens }
    }

    /// The tokens that are left.
    pub fn left(&self) -> &[Placed]
        ensures { result.now ≡ self.now }
    {
        self.tokens
    }

    #[tactic(auto, unfolding(crate::specs::Grammar::word_part))]
    pub fn keyword(&mut self, word: Keyword) -> Result<(), Stop>
        ensures { Gives (λ x. x) result self.new ((word_part word).read self.old) }
    {
        let Some((first, rest)) = self.tokens.split_first() else {
            return Err(Stop::Here);
        };
        match &first.token {
            Token::Word(found) if same_word(*found, word) => {
                self.tokens = rest;
                Ok(())
            }
            _ => Err(Stop::Here),
        }
    }

    #[tactic(auto, unfolding(crate::specs::Grammar::mark_part))]
    pub fn mark(&mut self, mark: Symbol) -> Result<(), Stop>
        ensures { Gives (λ x. x) result self.new ((mark_part mark).read self.old) }
    {
        let Some((first, rest)) = self.tokens.split_first() else {
            return Err(Stop::Here);
        };
        match &first.token {
            Token::Mark(found) if same_mark(*found, mark) => {
                self.tokens = rest;
                Ok(())
            }
            _ => Err(Stop::Here),
        }
    }

    #[tactic(auto, unfolding(crate::specs::Grammar::number))]
    pub fn number(&mut self) -> Result<u32, Stop>
        ensures { Gives (λ x. x) result self.new (number.read self.old) }
    {
        let Some((first, rest)) = self.tokens.split_first() else {
            return Err(Stop::Here);
        };
        match &first.token {
            Token::Number(found) => {
                self.tokens = rest;
                Ok(*found)
            }
            _ => Err(Stop::Here),
        }
    }

    #[tactic(auto, unfolding(crate::specs::Grammar::code))]
    pub fn code(&mut self) -> Result<Code, Stop>
        ensures { Gives (λ x. x) result self.new (code.read self.old) }
    {
        let Some((first, rest)) = self.tokens.split_first() else {
            return Err(Stop::Here);
        };
        match &first.token {
            Token::Code(found) => {
                self.tokens = rest;
                Ok(*found)
            }
            _ => Err(Stop::Here),
        }
    }

    #[tactic(auto, unfolding(crate::specs::Grammar::op))]
    pub fn op(&mut self) -> Result<Op, Stop>
        ensures { Gives (λ x. x) result self.new (op.read self.old) }
    {
        let Some((first, rest)) = self.tokens.split_first() else {
            return Err(Stop::Here);
        };
        match &first.token {
            Token::Mark(Symbol::Equal) => {
                self.tokens = rest;
                Ok(Op::Eq)
            }
            Token::Mark(Symbol::Unequal) => {
                self.tokens = rest;
                Ok(Op::Ne)
            }
            Token::Mark(Symbol::Less) => {
                self.tokens = rest;
                Ok(Op::Lt)
            }
            Token::Mark(Symbol::AtMost) => {
                self.tokens = rest;
                Ok(Op::Le)
            }
            Token::Mark(Symbol::More) => {
                self.tokens = rest;
                Ok(Op::Gt)
            }
            Token::Mark(Symbol::AtLeast) => {
                self.tokens = rest;
                Ok(Op::Ge)
            }
            _ => Err(Stop::Here),
        }
    }

    #[tactic(auto, unfolding(crate::specs::Grammar::name))]
    pub fn name(&mut self, alloc: Global) -> Result<Name, Stop>
        ensures { Gives (λ x. x) result self.new (name.read self.old) }
    {
        let Some((first, rest)) = self.tokens.split_first() else {
            return Err(Stop::Here);
        };
        match &first.token {
            Token::Name(text) => {
                let name = Name {
                    text: text.copy(alloc)?,
                    at: first.at,
                };
                self.tokens = rest;
                Ok(name)
            }
            _ => Err(Stop::Here),
        }
    }

    #[tactic(auto, unfolding(crate::specs::Grammar::word_part))]
    pub fn at_word(&self, word: Keyword) -> bool
        ensures { result ≡ begins (word_part word).starts self.now }
    {
        match self.tokens.split_first() {
            Some((first, _)) => match &first.token {
                Token::Word(found) => same_word(*found, word),
                _ => false,
            },
            None => false,
        }
    }

    #[tactic(auto, unfolding(crate::specs::Grammar::mark_part))]
    pub fn at_mark(&self, mark: Symbol) -> bool
        ensures { result ≡ begins (mark_part mark).starts self.now }
    {
        match self.tokens.split_first() {
            Some((first, _)) => match &first.token {
                Token::Mark(found) => same_mark(*found, mark),
                _ => false,
            },
            None => false,
        }
    }

    #[tactic(auto, unfolding(crate::specs::Grammar::name))]
    pub fn at_name(&self) -> bool
        ensures { result ≡ begins name.starts self.now }
    {
        match self.tokens.split_first() {
            Some((first, _)) => matches!(&first.token, Token::Name(_)),
            None => false,
        }
    }

    #[tactic(auto, unfolding(crate::specs::Grammar::number))]
    pub fn at_number(&self) -> bool
        ensures { result ≡ begins number.starts self.now }
    {
        match self.tokens.split_first() {
            Some((first, _)) => matches!(&first.token, Token::Number(_)),
            None => false,
        }
    }
}

fn same_word(a: Keyword, b: Keyword) -> bool
    ensures { result ≡ is_word a b }
{
    a == b
}

fn same_mark(a: Symbol, b: Symbol) -> bool
    ensures { result ≡ is_mark a b }
{
    a == b
}

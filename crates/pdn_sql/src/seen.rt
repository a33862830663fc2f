//! What of a file's tokens is seen before one of them: as much as decides whether it is marked.

ghost use Rattle.std.specs.Prelude.{◌≡◌, ◌<◌, ◌^◌};
ghost use Rattle.pdn_sql.specs.Marks.{first_place, over, numbered_after, queries_after, depth_after, blocks_after, main_after, is_comma, start_after, seen_first, seen_after, mark_of, marked_token};

use crate::token::{Keyword, Symbol, Token};

/// What is seen before a token.
#[derive(Clone, Copy, Debug, Drop)]
pub struct Seen {
    /// A ROW_NUMBER stands before, with no SELECT behind it.
    pub numbered: bool,
    /// How many queries may still end.
    pub queries: u32,
    /// How many parentheses of the query are open.
    pub depth: u64,
    /// How many blocks of WITH may still follow in the query.
    pub blocks: u32,
    /// A SELECT of the query stands outside parentheses.
    pub main: bool,
    /// A comma stands directly before.
    pub comma: bool,
    /// Where the query begins, if one is begun.
    pub start: Option<u32>,
}

impl Seen {
    /// Before a file with at most so many queries.
    pub fn first(most: u32) -> Seen
        ensures { result ≡ seen_first most }
    {
        Seen {
            numbered: false,
            queries: most,
            depth: 0,
            blocks: 4,
            main: false,
            comma: false,
            start: None,
        }
    }

    /// The end of the query's room, where it is before this place.
    pub fn over(&self, place: u32) -> Option<u32>
        ensures { result ≡ over self.now.start place }
    {
        let first = self.start?;
        if u64::from(first) + 4096 < u64::from(place) {
            Some(first + 4096)
        } else {
            None
        }
    }

    /// Which fault the token is here, whatever the productions say.
    fn mark_of(&self, token: &Token) -> Option<u8>
        ensures { result ≡ mark_of self.now token.now }
    {
        match token {
            Token::Word(Keyword::RowNumber) if self.numbered => Some(5),
            Token::Word(Keyword::Select) if self.queries == 0 => Some(8),
            Token::Word(Keyword::With) if self.queries == 0 => Some(8),
            Token::Name(_) if self.comma && self.depth == 0 && self.blocks == 0 && !self.main =>
                Some(6),
            _ => None,
        }
    }

    /// The token, or its mark.
    pub fn marked(&self, token: Token) -> Token
        ensures { result ≡ marked_token self.now token }
    {
        match self.mark_of(&token) {
            Some(kind) => Token::Bad(kind),
            None => token,
        }
    }

    /// What is seen behind a token.
    pub fn pass(&self, at: u32, token: &Token) -> Seen
        requires { self.now.depth < 2 ^ 32 }
        ensures { result ≡ seen_after self.now at token.now }
    {
        Seen {
            numbered: numbered_after(self.numbered, token),
            queries: queries_after(self.queries, token),
            depth: depth_after(self.depth, token),
            blocks: blocks_after(self.depth, self.blocks, token),
            main: main_after(self.depth, self.main, token),
            comma: is_comma(token),
            start: start_after(self.start, at, token),
        }
    }
}

fn numbered_after(numbered: bool, token: &Token) -> bool
    ensures { result ≡ numbered_after numbered token.now }
{
    match token {
        Token::Word(Keyword::Select) => false,
        Token::Word(Keyword::RowNumber) => true,
        _ => numbered,
    }
}

fn queries_after(queries: u32, token: &Token) -> u32
    ensures { result ≡ queries_after queries token.now }
{
    match token {
        Token::Mark(Symbol::Semicolon) => queries.saturating_sub(1),
        _ => queries,
    }
}

fn depth_after(depth: u64, token: &Token) -> u64
    requires { depth < 2 ^ 32 }
    ensures { result ≡ depth_after depth token.now }
{
    match token {
        Token::Mark(Symbol::Semicolon) => 0,
        Token::Mark(Symbol::Open) => depth + 1,
        Token::Mark(Symbol::Close) => depth.saturating_sub(1),
        _ => depth,
    }
}

fn blocks_after(depth: u64, blocks: u32, token: &Token) -> u32
    ensures { result ≡ blocks_after depth blocks token.now }
{
    match token {
        Token::Mark(Symbol::Semicolon) => 4,
        Token::Mark(Symbol::Comma) if depth == 0 => blocks.saturating_sub(1),
        _ => blocks,
    }
}

fn main_after(depth: u64, main: bool, token: &Token) -> bool
    ensures { result ≡ main_after depth main token.now }
{
    match token {
        Token::Mark(Symbol::Semicolon) => false,
        Token::Word(Keyword::Select) if depth == 0 => true,
        _ => main,
    }
}

fn is_comma(token: &Token) -> bool
    ensures { result ≡ is_comma token.now }
{
    matches!(token, Token::Mark(Symbol::Comma))
}

fn start_after(start: Option<u32>, at: u32, token: &Token) -> Option<u32>
    ensures { result ≡ start_after start at token.now }
{
    let first = match start {
        Some(first) => first,
        None => at,
    };
    match token {
        Token::Mark(Symbol::Semicolon) if u64::from(at) < u64::from(first) + 4096 => None,
        _ => Some(first),
    }
}

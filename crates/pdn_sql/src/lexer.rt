//! Tokens of bytes.

ghost use Rattle.std.specs.Prelude.{◌≡◌, ◌∷◌, [], ◌++◌, ◌+◌, ◌-◌, ◌<◌, ◌≤◌, ◌^◌, length, take, drop, List, ℕ, IfOk};
ghost use Rattle.std.specs.Str.{str_to_ascii_lowercase};
ghost use Rattle.pdn_sql.specs.Tokens.{is_digit, is_letter, is_word_byte, is_blank, is_line_byte, is_inside, run, keyword_of, word_token, number_token, code_token, code_piece, mark_token, is_pair, mark_piece, word_piece, number_piece, put, piece_of, test_of};
ghost use Rattle.pdn_sql.specs.Marks.{unless, marked, marked_tokens, cut, over};
ghost use Rattle.pdn_sql.specs.declared.token.Placed.{Placed};

use crate::seen::Seen;
use crate::text::Text;
use crate::token::{Keyword, Placed, Symbol, Token};
use pdn_base::Code;
use std::alloc::{AllocError, Global};

/// The piece of a text at its front: how many bytes it has after its first, and its token. Blanks and comments have none.
#[derive(Drop)]
pub struct Piece {
    pub more: usize,
    pub token: Option<Token>,
}

/// Bytes that go on with a piece.
#[derive(Clone, Copy)]
pub enum Class {
    Word,
    Digit,
    Line,
    Inside,
}

fn is_letter(b: u8) -> bool
    ensures { result ≡ is_letter b }
{
    (65 <= b && b <= 90) || (97 <= b && b <= 122)
}

fn is_digit(b: u8) -> bool
    ensures { result ≡ is_digit b }
{
    48 <= b && b <= 57
}

fn is_blank(b: u8) -> bool
    ensures { result ≡ is_blank b }
{
    b == 32 || b == 9 || b == 13 || b == 10
}

fn is_in(class: Class, b: u8) -> bool
    ensures { result ≡ test_of class b }
{
    match class {
        Class::Word => is_letter(b) || is_digit(b) || b == 95,
        Class::Digit => is_digit(b),
        Class::Line => b != 10,
        Class::Inside => b != 39,
    }
}

/// How many bytes of the class stand at the front.
fn run(class: Class, bytes: &[u8]) -> usize
    ensures is { result ≡ run (test_of class) bytes.now }
    ensures within { result ≤ length bytes.now }
{
    let mut n = 0;
    while n < bytes.len() && is_in(class, bytes[n]) {
        n += 1;
    }
    n
}

/// The keyword that a text in small letters is.
#[tactic(auto, unfolding(crate::specs::Tokens::keyword_of))]
fn keyword_of(text: &[u8]) -> Option<Keyword>
    ensures { result ≡ keyword_of text.now }
{
    if text == b"select".as_slice() {
        Some(Keyword::Select)
    } else if text == b"distinct".as_slice() {
        Some(Keyword::Distinct)
    } else if text == b"from".as_slice() {
        Some(Keyword::From)
    } else if text == b"as".as_slice() {
        Some(Keyword::As)
    } else if text == b"join".as_slice() {
        Some(Keyword::Join)
    } else if text == b"inner".as_slice() {
        Some(Keyword::Inner)
    } else if text == b"on".as_slice() {
        Some(Keyword::On)
    } else if text == b"where".as_slice() {
        Some(Keyword::Where)
    } else if text == b"and".as_slice() {
        Some(Keyword::And)
    } else if text == b"or".as_slice() {
        Some(Keyword::Or)
    } else if text == b"group".as_slice() {
        Some(Keyword::Group)
    } else if text == b"by".as_slice() {
        Some(Keyword::By)
    } else if text == b"having".as_slice() {
        Some(Keyword::Having)
    } else if text == b"order".as_slice() {
        Some(Keyword::Order)
    } else if text == b"limit".as_slice() {
        Some(Keyword::Limit)
    } else if text == b"with".as_slice() {
        Some(Keyword::With)
    } else if text == b"count".as_slice() {
        Some(Keyword::Count)
    } else if text == b"row_number".as_slice() {
        Some(Keyword::RowNumber)
    } else if text == b"over".as_slice() {
        Some(Keyword::Over)
    } else if text == b"partition".as_slice() {
        Some(Keyword::Partition)
    } else if text == b"asc".as_slice() {
        Some(Keyword::Asc)
    } else if text == b"desc".as_slice() {
        Some(Keyword::Desc)
    } else {
        None
    }
}

fn word_token(text: Vec<u8>) -> Token
    ensures { result ≡ word_token text.items }
{
    if let Some(word) = keyword_of(&text) {
        return Token::Word(word);
    }
    if 16 < text.len() {
        return Token::Bad(4);
    }
    Token::Name(Text::of(text))
}

#[tactic(auto, unfolding(crate::specs::Tokens::number_token))]
fn number_token(digits: &[u8]) -> Token
    ensures { result ≡ number_token digits.now }
{
    let mut n: u64 = 0;
    for b in digits {
        n = n * 10 + u64::from(b.saturating_sub(48));
        if n > 4294967295 {
            return Token::Bad(2);
        }
    }
    Token::Number(n as u32)
}

fn code_token(inside: &[u8]) -> Token
    ensures { result ≡ code_token inside.now }
{
    match Code::read(inside) {
        Some(code) => Token::Code(code),
        None => Token::Bad(3),
    }
}

#[tactic(auto, unfolding(crate::specs::Tokens::code_piece))]
fn code_piece(rest: &[u8]) -> Piece
    ensures { result ≡ code_piece rest.now }
{
    let n = run(Class::Inside, rest);
    if n == rest.len() {
        return Piece {
            more: n,
            token: Some(Token::Bad(3)),
        };
    }
    Piece {
        more: n + 1,
        token: Some(code_token(&rest[..n])),
    }
}

#[tactic(auto, unfolding(crate::specs::Tokens::mark_token))]
fn mark_token(b: u8) -> Token
    ensures { result ≡ mark_token b }
{
    match b {
        40 => Token::Mark(Symbol::Open),
        41 => Token::Mark(Symbol::Close),
        44 => Token::Mark(Symbol::Comma),
        46 => Token::Mark(Symbol::Dot),
        59 => Token::Mark(Symbol::Semicolon),
        42 => Token::Mark(Symbol::Star),
        43 => Token::Mark(Symbol::Plus),
        61 => Token::Mark(Symbol::Equal),
        60 => Token::Mark(Symbol::Less),
        62 => Token::Mark(Symbol::More),
        _ => Token::Bad(1),
    }
}

fn is_pair(b: u8, c: u8, bytes: &[u8]) -> bool
    ensures { result ≡ is_pair b c bytes.now }
{
    match bytes {
        [x, y, ..] => *x == b && *y == c,
        _ => false,
    }
}

#[tactic(auto, unfolding(crate::specs::Tokens::word_piece))]
fn word_piece(alloc: Global, bytes: &[u8]) -> Result<Piece, AllocError>
    requires { 0 < length bytes.now }
    ensures { IfOk result (λ p. p ≡ word_piece bytes.now) }
{
    let more = run(Class::Word, &bytes[1..]);
    let text = bytes[..more + 1].to_ascii_lowercase(alloc)?;
    Ok(Piece {
        more,
        token: Some(word_token(text)),
    })
}

#[tactic(auto, unfolding(crate::specs::Tokens::number_piece))]
fn number_piece(bytes: &[u8]) -> Piece
    requires { 0 < length bytes.now }
    ensures { result ≡ number_piece bytes.now }
{
    let more = run(Class::Digit, &bytes[1..]);
    Piece {
        more,
        token: Some(number_token(&bytes[..more + 1])),
    }
}

#[tactic(auto, unfolding(crate::specs::Tokens::mark_piece))]
fn mark_piece(bytes: &[u8]) -> Piece
    requires { 0 < length bytes.now }
    ensures { result ≡ mark_piece bytes.now }
{
    if is_pair(60, 62, bytes) {
        return Piece {
            more: 1,
            token: Some(Token::Mark(Symbol::Unequal)),
        };
    }
    if is_pair(60, 61, bytes) {
        return Piece {
            more: 1,
            token: Some(Token::Mark(Symbol::AtMost)),
        };
    }
    if is_pair(62, 61, bytes) {
        return Piece {
            more: 1,
            token: Some(Token::Mark(Symbol::AtLeast)),
        };
    }
    Piece {
        more: 0,
        token: Some(mark_token(bytes[0])),
    }
}

#[tactic(auto, unfolding(crate::specs::Tokens::piece_of))]
fn next_piece(alloc: Global, bytes: &[u8]) -> Result<Piece, AllocError>
    requires { 0 < length bytes.now }
    ensures { IfOk result (λ p. p ≡ piece_of bytes.now) }
{
    let b = bytes[0];
    let rest = &bytes[1..];
    if is_blank(b) {
        return Ok(Piece {
            more: 0,
            token: None,
        });
    }
    if is_pair(45, 45, bytes) {
        return Ok(Piece {
            more: run(Class::Line, rest),
            token: None,
        });
    }
    if is_letter(b) {
        return word_piece(alloc, bytes);
    }
    if is_digit(b) {
        return Ok(number_piece(bytes));
    }
    if b == 39 {
        return Ok(code_piece(rest));
    }
    Ok(mark_piece(bytes))
}

/// Adds a token with its mark, and answers whether the text is cut off before it, since its query is too long.
#[tactic(auto, unfolding(crate::specs::Marks::marked))]
fn put(
    out: &mut Vec<Placed>,
    seen: &mut Seen,
    at: u32,
    token: Option<Token>,
) -> Result<bool, AllocError>
    requires { seen.old.depth < 2 ^ 32 }
    ensures added { IfOk result (λ over. (end : ℕ) (more : List Placed)
        → out.new.items ++ unless over (marked end seen.new
        more) ≡ out.old.items ++ marked end seen.old (put token at more)) }
    ensures deep { seen.new.depth ≤ seen.old.depth + 1 }
{
    let Some(token) = token else {
        return Ok(false);
    };
    if let Some(limit) = seen.over(at) {
        out.push(Placed {
            at: limit,
            token: Token::Bad(7),
        })?;
        return Ok(true);
    }
    let next = seen.pass(at, &token);
    out.push(Placed {
        at,
        token: seen.marked(token),
    })?;
    *seen = next;
    Ok(false)
}

/// The mark of a last query that is too long, if it is.
fn finish(tokens: Vec<Placed>, seen: &Seen, end: u32) -> Result<Vec<Placed>, AllocError>
    ensures { IfOk result (λ ts. ts.items ≡ tokens.items ++ cut (over seen.now.start end) []) }
{
    let mut tokens = tokens;
    if let Some(limit) = seen.over(end) {
        tokens.push(Placed {
            at: limit,
            token: Token::Bad(7),
        })?;
    }
    Ok(tokens)
}

/// The tokens of a text, with their marks.
pub fn tokens(alloc: Global, bytes: &[u8], most: u32) -> Result<Vec<Placed>, AllocError>
    requires { length bytes.now < 2 ^ 32 }
    ensures { IfOk result (λ ts. ts.items ≡ marked_tokens most bytes.now) }
{
    let mut out = Vec::new(alloc);
    let mut seen = Seen::first(most);
    let mut left = 0;
    for i in 0..bytes.len() {
        if left > 0 {
            left -= 1;
            continue;
        }
        let found = next_piece(alloc, &bytes[i..])?;
        left = found.more;
        if put(&mut out, &mut seen, i as u32, found.token)? {
            return Ok(out);
        }
    }
    finish(out, &seen, bytes.len() as u32)
}

//! Queries, printed.

ghost use Rattle.std.specs.Prelude.{◌≡◌, ◌≤◌, ℕ, List, length, ◌∷◌, [], ◌++◌, codes, OnOk, IfOk};
ghost use Rattle.std.specs.Fmt.{decimal};
ghost use Rattle.pdn_sql.specs.declared.token.Token.TheVariants as tokens;
ghost use Rattle.pdn_sql.specs.declared.query.Query.{Query};
ghost use Rattle.pdn_sql.specs.Reading.{Says};
ghost use Rattle.pdn_sql.specs.Same.{SameQuery, Member};
ghost use Rattle.pdn_sql.specs.Printing.{word_text, mark_text, token_text, is_tight, is_tight_behind, is_call, is_open, is_apart, gap, text_behind, text_of, query_text};

use crate::printed::put_query;
use crate::query::Query;
use crate::token::{Keyword, Symbol, Token};
use pdn_base::{Code, Memory};
use std::alloc::{AllocError, Global};

fn word_text(word: Keyword) -> &'static str
    ensures { result.now ≡ word_text word }
{
    match word {
        Keyword::Select => "SELECT",
        Keyword::Distinct => "DISTINCT",
        Keyword::From => "FROM",
        Keyword::As => "AS",
        Keyword::Join => "JOIN",
        Keyword::Inner => "INNER",
        Keyword::On => "ON",
        Keyword::Where => "WHERE",
        Keyword::And => "AND",
        Keyword::Or => "OR",
        Keyword::Group => "GROUP",
        Keyword::By => "BY",
        Keyword::Having => "HAVING",
        Keyword::Order => "ORDER",
        Keyword::Limit => "LIMIT",
        Keyword::With => "WITH",
        Keyword::Count => "COUNT",
        Keyword::RowNumber => "ROW_NUMBER",
        Keyword::Over => "OVER",
        Keyword::Partition => "PARTITION",
        Keyword::Asc => "ASC",
        Keyword::Desc => "DESC",
    }
}

fn mark_text(mark: Symbol) -> &'static str
    ensures { result.now ≡ mark_text mark }
{
    match mark {
        Symbol::Open => "(",
        Symbol::Close => ")",
        Symbol::Comma => ",",
        Symbol::Dot => ".",
        Symbol::Semicolon => ";",
        Symbol::Star => "*",
        Symbol::Plus => "+",
        Symbol::Equal => "=",
        Symbol::Unequal => "<>",
        Symbol::Less => "<",
        Symbol::AtMost => "<=",
        Symbol::More => ">",
        Symbol::AtLeast => ">=",
    }
}

fn put_number(alloc: Global, out: &mut Vec<u8>, n: u32) -> Result<(), AllocError>
    ensures { OnOk result (out.new.items ≡ out.old.items ++ decimal n) }
{
    let text = format!(in alloc; "{n}")?;
    out.extend_from_slice(text.as_bytes())
}

fn put_code(alloc: Global, out: &mut Vec<u8>, code: Code) -> Result<(), Memory>
    ensures { OnOk result (out.new.items ≡ out.old.items ++ token_text (tokens.Code code)) }
{
    let text = code.text(alloc)?;
    out.push(39)?;
    out.extend_from_slice(&text)?;
    out.push(39)?;
    Ok(())
}

fn put_token(alloc: Global, out: &mut Vec<u8>, token: &Token) -> Result<(), Memory>
    ensures { OnOk result (out.new.items ≡ out.old.items ++ token_text token.now) }
{
    match token {
        Token::Word(word) => out.extend_from_slice(word_text(*word).as_bytes())?,
        Token::Name(text) => out.extend_from_slice(text.as_bytes())?,
        Token::Number(n) => put_number(alloc, out, *n)?,
        Token::Code(code) => put_code(alloc, out, *code)?,
        Token::Mark(mark) => out.extend_from_slice(mark_text(*mark).as_bytes())?,
        Token::Bad(_) => {}
    }
    Ok(())
}

fn is_tight(token: &Token) -> bool
    ensures { result ≡ is_tight token.now }
{
    matches!(
        token,
        Token::Mark(Symbol::Dot | Symbol::Comma | Symbol::Semicolon | Symbol::Close)
    )
}

fn is_tight_behind(token: &Token) -> bool
    ensures { result ≡ is_tight_behind token.now }
{
    matches!(token, Token::Mark(Symbol::Dot | Symbol::Open))
}

fn is_call(token: &Token) -> bool
    ensures { result ≡ is_call token.now }
{
    matches!(token, Token::Word(Keyword::Count | Keyword::RowNumber))
}

fn is_open(token: &Token) -> bool
    ensures { result ≡ is_open token.now }
{
    matches!(token, Token::Mark(Symbol::Open))
}

/// Whether a blank stands between two tokens.
fn is_apart(a: &Token, b: &Token) -> bool
    ensures { result ≡ is_apart a.now b.now }
{
    !(is_tight_behind(a) || is_tight(b) || (is_open(b) && is_call(a)))
}

fn put_gap(out: &mut Vec<u8>, a: &Token, b: &Token) -> Result<(), AllocError>
    ensures { OnOk result (out.new.items ≡ out.old.items ++ gap a.now b.now) }
{
    if is_apart(a, b) {
        out.push(32)?;
    }
    Ok(())
}

fn put_next(alloc: Global, out: &mut Vec<u8>, last: &Token, next: &Token) -> Result<(), Memory>
    ensures { OnOk result (out.new.items ≡ out.old.items
        ++ (gap last.now next.now ++ token_text next.now)) }
{
    put_gap(out, last, next)?;
    put_token(alloc, out, next)
}

fn put_behind(alloc: Global, out: &mut Vec<u8>, first: &Token, rest: &[Token]) -> Result<(), Memory>
    ensures { OnOk result (out.new.items ≡ out.old.items ++ text_behind first.now rest.now) }
{
    let mut last = first;
    for next in rest {
        put_next(alloc, out, last, next)?;
        last = next;
    }
    Ok(())
}

/// The text of tokens.
#[tactic(auto, unfolding(crate::specs::Printing::text_of))]
fn put_tokens(alloc: Global, out: &mut Vec<u8>, tokens: &[Token]) -> Result<(), Memory>
    ensures { OnOk result (out.new.items ≡ out.old.items ++ text_of tokens.now) }
{
    let Some((first, rest)) = tokens.split_first() else {
        return Ok(());
    };
    put_token(alloc, out, first)?;
    put_behind(alloc, out, first, rest)
}

/// The text of a query's tokens.
fn printed(alloc: Global, query: &Query) -> Result<Vec<u8>, Memory>
    ensures { IfOk result (λ text. text.items ≡ query_text query.now) }
{
    let mut tokens = Vec::new(alloc);
    put_query(alloc, &mut tokens, query)?;
    let mut out = Vec::new(alloc);
    put_tokens(alloc, &mut out, &tokens)?;
    Ok(out)
}

/// The printed form of a query: keywords in capitals, names small, single blanks between tokens but none round `.`, none
/// before `,`, `;` and `)`, none behind `(`, and none between COUNT or ROW_NUMBER and `(`. ASC and INNER are left out,
/// every alias has its AS, and one comparison has no parentheses.
pub fn print_query(alloc: Global, query: &Query) -> Result<Vec<u8>, Memory>
    ensures text { IfOk result (λ text. text.items ≡ query_text query.now) }
    // For a query that some file says, a printed form of at most 4096 bytes says the same query, but for the places of
    // its names.
    ensures again { (most limit : ℕ) (bytes : List ℕ) (queries : List Query)
        → Says most bytes queries → Member query.now queries → length (query_text
        query.now) ≤ 4096 → 1 ≤ limit → (r : Query) × SameQuery query.now r
        × Says limit (query_text query.now) (r ∷ []) }
{
    printed(alloc, query)
}

//! Queries from the text of a file.

ghost use Rattle.std.specs.Prelude.{◌≡◌, ◌<◌, ◌^◌, List, length, IfOk};
ghost use Rattle.pdn_sql.specs.declared.query.Query.{Query};
ghost use Rattle.pdn_sql.specs.Reading.{Says, GivesQueries, FaultOf, place_of, kind_of};

use crate::lexer::tokens;
use crate::query::Query;
use crate::reader::Reader;
use crate::stop::Stop;
use crate::token::{Placed, Token};
use pdn_base::Memory;
use std::alloc::{AllocError, Global};

/// Why there are no queries: the place and kind of the first fault, or memory. The kinds are
///
/// 1. a byte begins no token;
/// 2. a number above 4294967295;
/// 3. a code that isn't closed, or whose inside is no code;
/// 4. a name of more than 16 bytes;
/// 5. a token that can't stand here, a second ROW_NUMBER of a block included, or the end inside a query;
/// 6. the name of a fifth block of WITH;
/// 7. 4096 bytes from a query's first on, where the text goes on and no `;` of the query stands before;
/// 8. the first token of a query past the most, or the end where there is no query.
#[derive(Clone, Copy, Debug, PartialEq, Eq)]
pub enum SqlErr {
    At { place: u32, kind: u8 },
    Memory,
}

impl From<AllocError> for SqlErr {
    ghost use Rattle.std.specs.Prelude.{◌≡◌};
    ghost use Rattle.pdn_sql.specs.declared.read.SqlErr.TheVariants.{Memory};

    ghost from_gives = { λ _ e. e ≡ Memory };

    fn from(_e: AllocError) -> SqlErr {
        SqlErr::Memory
    }
}

impl From<Memory> for SqlErr {
    ghost use Rattle.std.specs.Prelude.{◌≡◌};
    ghost use Rattle.pdn_sql.specs.declared.read.SqlErr.TheVariants.{Memory};

    ghost from_gives = { λ _ e. e ≡ Memory };

    fn from(_e: Memory) -> SqlErr {
        SqlErr::Memory
    }
}

/// Where the first of these tokens stands, or the text's end.
fn place_of(end: u32, rest: &[Placed]) -> u32
    ensures { result ≡ place_of end rest.now }
{
    match rest.split_first() {
        Some((first, _)) => first.at,
        None => end,
    }
}

/// Which fault it is that the first of these tokens can't stand, or that a file of all of them ends.
fn kind_of(all: &[Placed], rest: &[Placed]) -> u8
    ensures { result ≡ kind_of all.now rest.now }
{
    match rest.split_first() {
        Some((first, _)) => match &first.token {
            Token::Bad(kind) => *kind,
            _ => 5,
        },
        None if all.is_empty() => 8,
        None => 5,
    }
}

/// The queries that a text says, of which there may be at most so many. An error but want of memory is at the first
/// token after which no text says queries, or at the end.
pub fn read_queries(alloc: Global, bytes: &[u8], most: u32) -> Result<Vec<Query>, SqlErr>
    requires { length bytes.now < 2 ^ 32 }
    // What is read is what the bytes say.
    ensures found { IfOk result (λ queries. Says most bytes.now queries.items) }
    // What the bytes say is read, unless memory runs out.
    ensures only { (queries : List Query) → Says most bytes.now queries
        → GivesQueries (λ v. v.items) queries result }
    // An error is memory, or at the first token after which no continuation says queries.
    ensures fault { FaultOf most bytes.now result }
{
    let tokens = tokens(alloc, bytes, most)?;
    let all = tokens.as_slice();
    let mut reader = Reader::new(all);
    match reader.whole_file(alloc) {
        Ok(queries) => Ok(queries),
        Err(Stop::Memory) => Err(SqlErr::Memory),
        Err(Stop::Here) => {
            let rest = reader.left();
            Err(SqlErr::At {
                place: place_of(bytes.len() as u32, rest),
                kind: kind_of(all, rest),
            })
        }
    }
}

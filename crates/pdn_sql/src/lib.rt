//! Queries: read from the text of a file, and printed.
#![tactic(auto)]

mod lexer;
mod limits;
mod print;
mod printed;
mod query;
mod read;
mod read_block;
mod read_cond;
mod read_file;
mod read_item;
mod reader;
mod seen;
mod stop;
mod text;
mod token;

pub use lexer::{Class, Piece, tokens};
pub use limits::texts_keep_limits;
pub use print::print_query;
pub use query::{
    Block, Col, Item, Name, Named, OrderCol, OrderName, Query, Source, SqlClause, SqlCmp,
    SqlOperand, SqlTerm, What,
};
pub use read::{SqlErr, read_queries};
pub use reader::Reader;
pub use seen::Seen;
pub use stop::Stop;
pub use text::Text;
pub use token::{Keyword, Placed, Symbol, Token};

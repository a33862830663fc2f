//! What every crate of the network stands on: sites, marks, values, rows and conditions, words of 64 lanes, what the
//! programs meet outside, and how a command ends.
#![tactic(auto)]

mod calls;
mod code;
mod cond;
mod decimal;
mod files;
mod kernels;
mod marks;
mod mem_files;
mod mem_sink;
mod memory;
mod name;
mod order;
mod real_files;
mod refusal;
mod row;
mod rows_err;
mod sink;
mod site;
mod status;
mod std_sink;
mod value;
mod word;

pub use calls::Calls;
pub use code::Code;
pub use cond::{Clause, Cmp, Cond, Op, Operand, Term, row_meets};
pub use decimal::number;
pub use files::{FileErr, Files};
pub use kernels::{and_step, and_steps, and_words, xor_words};
pub use marks::{Kind, Label};
pub use mem_files::MemFiles;
pub use mem_sink::MemSink;
pub use memory::Memory;
pub use name::{ColumnName, Name};
pub use order::{Key, rows_order, sort_rows};
pub use real_files::RealFiles;
pub use row::{Row, Rows, Tables};
pub use rows_err::RowsErr;
pub use sink::{Sink, SinkErr};
pub use site::Site;
pub use status::{Status, Who};
pub use std_sink::StdSink;
pub use value::Value;
pub use word::Word;

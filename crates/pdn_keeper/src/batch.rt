//! Batches of rows.

use pdn_base::Rows;
use std::marker::Model;

/// A batch of rows of a table, by its number. Contracts see the table's name, the number and the rows.
#[derive(Debug, Drop)]
pub struct Batch {
    pub table: String,
    pub number: u64,
    pub rows: Rows,
}

impl Model for Batch {
    ghost use Rattle.std.specs.String.{string_bytes};
    ghost use Rattle.pdn_keeper.specs.Batches.{BatchHeld};

    ghost Value = { BatchHeld };

    ghost view = { λ b. record { table = string_bytes b.table; number = b.number; rows = b.rows } };
}

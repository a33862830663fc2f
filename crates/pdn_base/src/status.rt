//! How a command ends.
ghost use Rattle.std.specs.Prelude.{◌≡◌};
ghost use Rattle.pdn_base.specs.Statuses.{code_of};

use crate::{ColumnName, Label, Name, RowsErr, Site};

/// An object outside the program.
#[derive(Clone, Copy, Debug, PartialEq, Eq)]
pub enum Who {
    Files,
    SiteA,
    SiteB,
    Desk,
    Sink,
}

/// How a command ends: all was answered, or the first refusal, or memory ran out.
#[derive(Debug, Drop)]
pub enum Status {
    Done,
    /// The words are in no row of the command table.
    Words,
    /// The schema file is refused at a line.
    Schema {
        line: u32,
        cause: u8,
    },
    /// The SQL file is refused at a place.
    Sql {
        place: u32,
        kind: u8,
    },
    /// A query can't be bound.
    Plan {
        kind: u8,
        name: ColumnName,
    },
    /// A query would release this column, whose label isn't public.
    Forbidden {
        column: ColumnName,
        label: Label,
    },
    /// A unit passes a limit.
    TooLarge {
        limit: u8,
        unit: u64,
    },
    /// The rows that a site handed over aren't valid for the schema.
    BadRows {
        site: Site,
        table: u32,
        cause: RowsErr,
    },
    NoFile {
        name: Name,
    },
    /// A call of this object failed.
    Unavailable {
        who: Who,
    },
    TicketsSpent,
    Memory,
    /// A record of a CSV file is refused.
    Csv {
        entry: u32,
        cause: u8,
    },
    /// The batch is kept with other rows, from this row on.
    BatchDiffers {
        row: u32,
    },
    /// The batch passes the table's rows, or this column's rows of one value.
    OverBound {
        column: Option<u32>,
    },
    /// The public values of two worlds differ here.
    Disagree {
        table: u32,
        column: u32,
    },
}

impl Status {
    /// The number that the program ends with.
    pub fn code(&self) -> u8
        ensures { result ≡ code_of self.now }
    {
        match self {
            Status::Done => 0,
            Status::Words => 2,
            Status::Schema { .. } => 3,
            Status::Sql { .. } => 4,
            Status::Plan { .. } => 5,
            Status::Forbidden { .. } => 6,
            Status::TooLarge { .. } => 7,
            Status::BadRows { .. } => 8,
            Status::NoFile { .. } => 9,
            Status::Unavailable { .. } => 10,
            Status::TicketsSpent => 11,
            Status::Memory => 12,
            Status::Csv { .. } => 13,
            Status::BatchDiffers { .. } => 14,
            Status::OverBound { .. } => 15,
            Status::Disagree { .. } => 16,
        }
    }
}

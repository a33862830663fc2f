//! The line of a refusal.
ghost use Rattle.std.specs.Prelude.{◌≡◌, IfOk};
ghost use Rattle.std.specs.String.{string_bytes};
ghost use Rattle.pdn_base.specs.Texts.{refusal};

use crate::{Label, Memory, RowsErr, Site, Status, Who};
use std::alloc::Global;
use std::fmt;

impl fmt::Display for Site {
    ghost use Rattle.std.specs.Prelude.{Some};
    ghost use Rattle.pdn_base.specs.Texts.{site_text};

    ghost output = { λ site. Some (site_text site) };

    fn fmt<W: fmt::Write>(&self, f: &mut fmt::Formatter<W>) -> fmt::Result {
        match self {
            Site::A => f.write_str("a"),
            Site::B => f.write_str("b"),
        }
    }
}

impl fmt::Display for Label {
    ghost use Rattle.std.specs.Prelude.{Some};
    ghost use Rattle.pdn_base.specs.Texts.{label_text};

    ghost output = { λ label. Some (label_text label) };

    fn fmt<W: fmt::Write>(&self, f: &mut fmt::Formatter<W>) -> fmt::Result {
        match self {
            Label::Public => f.write_str("public"),
            Label::Protected => f.write_str("protected"),
            Label::Private => f.write_str("private"),
        }
    }
}

impl fmt::Display for Who {
    ghost use Rattle.std.specs.Prelude.{Some};
    ghost use Rattle.pdn_base.specs.Texts.{who_text};

    ghost output = { λ who. Some (who_text who) };

    fn fmt<W: fmt::Write>(&self, f: &mut fmt::Formatter<W>) -> fmt::Result {
        match self {
            Who::Files => f.write_str("files"),
            Who::SiteA => f.write_str("site a"),
            Who::SiteB => f.write_str("site b"),
            Who::Desk => f.write_str("desk"),
            Who::Sink => f.write_str("sink"),
        }
    }
}

// A refusal, with the names of the table and the column that it speaks of.
#[derive(Drop)]
struct Refusal<'a> {
    status: &'a Status,
    table: &'a str,
    column: &'a str,
}

impl fmt::Display for Refusal<'_> {
    ghost use Rattle.std.specs.Prelude.{Some};
    ghost use Rattle.pdn_base.specs.Texts.{detail};

    ghost output = { λ r. Some (detail r.table.now r.column.now r.status.now) };

    fn fmt<W: fmt::Write>(&self, f: &mut fmt::Formatter<W>) -> fmt::Result {
        let table = self.table;
        let column = self.column;
        match self.status {
            Status::Done | Status::Memory => Ok(()),
            Status::Words => f.write_str("words"),
            Status::Schema { line, cause } => write!(f, "line {line} cause {cause}"),
            Status::Sql { place, kind } => write!(f, "place {place} kind {kind}"),
            Status::Plan { kind, name } if name.as_str().is_empty() => write!(f, "kind {kind}"),
            Status::Plan { kind, name } => {
                let name = name.as_str();
                write!(f, "kind {kind} {name}")
            }
            Status::Forbidden { column, label } => {
                let name = column.as_str();
                write!(f, "{name} {label}")
            }
            Status::TooLarge { limit, unit } => write!(f, "limit {limit} unit {unit}"),
            Status::BadRows { site, cause, .. } => match cause {
                RowsErr::TooMany => write!(f, "{site} {table} rows"),
                RowsErr::PerValue(_) => write!(f, "{site} {table} per {column}"),
                RowsErr::WrongType { row, .. } => write!(f, "{site} {table} type {row} {column}"),
            },
            Status::NoFile { name } => f.write_str(name.as_str()),
            Status::Unavailable { who } => write!(f, "{who}"),
            Status::TicketsSpent => f.write_str("tickets"),
            Status::Csv { entry, cause } => write!(f, "record {entry} cause {cause}"),
            Status::BatchDiffers { row } => write!(f, "row {row}"),
            Status::OverBound { column: None } => f.write_str("rows"),
            Status::OverBound { column: Some(_) } => write!(f, "per {column}"),
            Status::Disagree { .. } => write!(f, "{table}.{column}"),
        }
    }
}

impl Status {
    /// The line of this refusal, where `table` and `column` are the names of those that it speaks of.
    pub fn line(&self, alloc: Global, table: &str, column: &str) -> Result<String, Memory>
        ensures { IfOk result (λ line. string_bytes line ≡ refusal table.now column.now self.now) }
    {
        let code = self.code();
        let refusal = Refusal {
            status: self,
            table,
            column,
        };
        Ok(format!(in alloc; "refused {code} {refusal}\n")?)
    }
}

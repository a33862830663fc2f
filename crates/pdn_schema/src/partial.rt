//! The schema as far as it was read.

ghost use Rattle.std.specs.Prelude.{◌≡◌, IfOk, length, nat_eq, nat_le, nat_lt, None};
ghost use Rattle.std.specs.Str.{bytes_eq};
ghost use Rattle.pdn_schema.specs.Names.{is_among};
ghost use Rattle.pdn_schema.specs.Schemas.{caller_names, column_names, table_names, IsSchema};
ghost use Rattle.pdn_schema.specs.Causes.{start, in_open, is_within, no_form, out_of_place, wrong_version, count_out, rows_out, per_out, name_again, too_many, lacks, cause_of, after, closed, with_column, schema_of};
ghost use Rattle.pdn_schema.specs.declared.form.Form.TheVariants as forms;

use crate::Name;
use crate::cause::Cause;
use crate::form::Form;
use crate::schema::{Caller, Column, Schema, Table};
use pdn_base::Label;
use std::alloc::{AllocError, Global};
use std::marker::Model;

/// The lines so far: the tables that are done, and the one that is open.
#[derive(Drop)]
pub struct Partial {
    begun: bool,
    floor: Option<u32>,
    callers: Vec<Caller>,
    done: Vec<Table>,
    current: Option<Table>,
    ended: bool,
}

impl Model for Partial {
    ghost use Rattle.pdn_schema.specs.Models.{Part};

    ghost Value = { Part };

    ghost view = { λ p. record { begun = p.begun; floor = p.floor; callers = p.callers.items; done = p.done.items; current = p.current; ended = p.ended } };
}

fn is_within(most: u64, n: u64) -> bool
    ensures { result ≡ is_within most n }
{
    1 <= n && n <= most
}

fn names_caller(callers: &[Caller], name: &Name) -> bool
    ensures { result ≡ is_among (caller_names callers.now) name.now }
{
    for c in callers {
        if name.is(&c.name) {
            return true;
        }
    }
    false
}

fn names_table(tables: &[Table], name: &Name) -> bool
    ensures { result ≡ is_among (table_names tables.now) name.now }
{
    for t in tables {
        if name.is(&t.name) {
            return true;
        }
    }
    false
}

fn names_column(columns: &[Column], name: &Name) -> bool
    ensures { result ≡ is_among (column_names columns.now) name.now }
{
    for c in columns {
        if name.is(&c.name) {
            return true;
        }
    }
    false
}

impl Table {
    fn is_empty(&self) -> bool
        ensures { result ≡ nat_eq (length self.now.columns) 0 }
    {
        self.columns.len() == 0
    }

    fn is_full(&self) -> bool
        ensures { result ≡ nat_le 8 (length self.now.columns) }
    {
        8 <= self.columns.len()
    }

    fn has_fewer_rows(&self, per: u64) -> bool
        ensures { result ≡ nat_lt self.now.rows per }
    {
        u64::from(self.rows) < per
    }

    fn has_column(&self, name: &Name) -> bool
        ensures { result ≡ is_among (column_names self.now.columns) name.now }
    {
        names_column(&self.columns, name)
    }

    fn is_named(&self, name: &Name) -> bool
        ensures { result ≡ bytes_eq name.now self.now.name }
    {
        name.is(&self.name)
    }
}

impl Partial {
    /// Before the first line.
    pub fn new(alloc: Global) -> Partial
        ensures { result ≡ start }
    {
        Partial {
            begun: false,
            floor: None,
            callers: Vec::new(alloc),
            done: Vec::new(alloc),
            current: None,
            ended: false,
        }
    }

    /// Whether `end` was there.
    pub fn is_ended(&self) -> bool
        ensures { result ≡ self.now.ended }
    {
        self.ended
    }

    /// The schema that was read.
    pub fn into_schema(self) -> Schema
        requires { IsSchema (schema_of self) }
        ensures { result ≡ schema_of self }
    {
        Schema {
            floor: self.floor.unwrap_or(0),
            callers: self.callers,
            tables: self.done,
        }
    }

    fn no_form(&self, form: &Form) -> bool
        ensures { result ≡ no_form self.now form.now }
    {
        matches!(form, Form::Nothing) && !self.ended
    }

    fn out_of_place(&self, form: &Form) -> bool
        ensures { result ≡ out_of_place self.now form.now }
    {
        match form {
            Form::Version(_) => self.begun,
            Form::Floor(_) => !self.begun || !self.floor.is_none(),
            Form::Caller { .. } => self.floor.is_none() || !self.current.is_none() || self.ended,
            Form::Column { .. } => self.current.is_none(),
            Form::Table { .. } | Form::End => self.floor.is_none() || self.ended,
            Form::Nothing => self.ended,
        }
    }

    fn per_out(&self, form: &Form) -> bool
        ensures { result ≡ per_out self.now form.now }
    {
        match form {
            Form::Column {
                mark: Label::Public,
                per,
                ..
            } => !is_within(64, *per) || self.has_fewer_rows(*per),
            Form::Column { per, .. } => *per != 0,
            _ => false,
        }
    }

    /// Whether the open table has fewer rows.
    fn has_fewer_rows(&self, per: u64) -> bool
        ensures { result ≡ in_open (λ t. nat_lt t.rows per) self.now.current }
    {
        match &self.current {
            Some(t) => t.has_fewer_rows(per),
            None => false,
        }
    }

    fn has_table(&self, name: &Name) -> bool
        ensures { result ≡ is_among (table_names (closed self.now.done self.now.current)) name.now }
    {
        match &self.current {
            Some(t) => names_table(&self.done, name) || t.is_named(name),
            None => names_table(&self.done, name),
        }
    }

    /// How many tables there are, the open one too.
    fn table_count(&self) -> usize
        ensures { result ≡ length (closed self.now.done self.now.current) }
    {
        match &self.current {
            Some(_) => self.done.len() + 1,
            None => self.done.len(),
        }
    }

    fn name_again(&self, form: &Form) -> bool
        ensures { result ≡ name_again self.now form.now }
    {
        match form {
            Form::Caller { name, .. } => names_caller(&self.callers, name),
            Form::Table { name, .. } => self.has_table(name),
            Form::Column { name, .. } => match &self.current {
                Some(t) => t.has_column(name),
                None => false,
            },
            _ => false,
        }
    }

    fn too_many(&self, form: &Form) -> bool
        ensures { result ≡ too_many self.now form.now }
    {
        match form {
            Form::Caller { .. } => 8 <= self.callers.len(),
            Form::Table { .. } => 8 <= self.table_count(),
            Form::Column { .. } => match &self.current {
                Some(t) => t.is_full(),
                None => false,
            },
            _ => false,
        }
    }

    fn lacks(&self, form: &Form) -> bool
        ensures { result ≡ lacks self.now form.now }
    {
        match form {
            Form::Table { .. } => match &self.current {
                Some(t) => t.is_empty(),
                None => false,
            },
            Form::End => match &self.current {
                Some(t) => t.is_empty(),
                None => true,
            },
            _ => false,
        }
    }

    /// The least cause for which a line can't stand here.
    #[tactic(auto, unfolding(crate::specs::Causes::cause_of))]
    pub fn cause(&self, form: &Form) -> Option<Cause>
        ensures { result ≡ cause_of self.now form.now }
    {
        if self.no_form(form) {
            return Some(Cause::NoForm);
        }
        if self.out_of_place(form) {
            return Some(Cause::OutOfPlace);
        }
        if wrong_version(form) {
            return Some(Cause::Version);
        }
        if count_out(form) {
            return Some(Cause::Count);
        }
        if rows_out(form) {
            return Some(Cause::Rows);
        }
        if self.per_out(form) {
            return Some(Cause::Per);
        }
        if self.name_again(form) {
            return Some(Cause::NameAgain);
        }
        if self.too_many(form) {
            return Some(Cause::TooMany);
        }
        if self.lacks(form) {
            return Some(Cause::Empty);
        }
        None
    }

    /// With one more line, which can stand here.
    pub fn add(self, form: Form) -> Result<Partial, AllocError>
        requires { cause_of self form ≡ None }
        ensures { IfOk result (λ p. p ≡ after self form) }
    {
        match form {
            Form::Version(_) => Ok(Partial {
                begun: true,
                ..self
            }),
            Form::Floor(n) => Ok(Partial {
                floor: Some(n as u32),
                ..self
            }),
            Form::Caller { name, calls } => self.add_caller(Caller {
                name,
                calls: calls as u32,
            }),
            Form::Table { name, rows } => self.add_table(name, rows as u32),
            Form::Column {
                name,
                kind,
                mark,
                per,
            } => self.add_column(Column {
                name,
                kind,
                mark,
                per: per as u32,
            }),
            Form::End => self.end(),
            Form::Nothing => Ok(self),
        }
    }

    fn add_caller(self, caller: Caller) -> Result<Partial, AllocError>
        ensures { IfOk result (λ p. p ≡ after self (forms.Caller caller.name caller.calls)) }
    {
        let mut callers = self.callers;
        callers.push(caller)?;
        Ok(Partial {
            begun: self.begun,
            floor: self.floor,
            callers,
            done: self.done,
            current: self.current,
            ended: self.ended,
        })
    }

    fn add_table(self, name: Name, rows: u32) -> Result<Partial, AllocError>
        ensures { IfOk result (λ p. p ≡ after self (forms.Table name rows)) }
    {
        let columns = Vec::new(*self.done.allocator());
        let done = closed(self.done, self.current)?;
        Ok(Partial {
            begun: self.begun,
            floor: self.floor,
            callers: self.callers,
            done,
            current: Some(Table {
                name,
                rows,
                columns,
            }),
            ended: self.ended,
        })
    }

    fn add_column(self, column: Column) -> Result<Partial, AllocError>
        ensures { IfOk result (λ p. p ≡ after self
            (forms.Column column.name column.kind column.mark column.per)) }
    {
        let current = with_column(self.current, column)?;
        Ok(Partial {
            begun: self.begun,
            floor: self.floor,
            callers: self.callers,
            done: self.done,
            current,
            ended: self.ended,
        })
    }

    fn end(self) -> Result<Partial, AllocError>
        ensures { IfOk result (λ p. p ≡ after self forms.End) }
    {
        let done = closed(self.done, self.current)?;
        Ok(Partial {
            begun: self.begun,
            floor: self.floor,
            callers: self.callers,
            done,
            current: None,
            ended: true,
        })
    }
}

/// All tables, the open one last.
fn closed(done: Vec<Table>, current: Option<Table>) -> Result<Vec<Table>, AllocError>
    ensures { IfOk result (λ ts. ts.items ≡ closed done.items current) }
{
    let mut done = done;
    if let Some(t) = current {
        done.push(t)?;
    }
    Ok(done)
}

fn with_column(current: Option<Table>, column: Column) -> Result<Option<Table>, AllocError>
    ensures { IfOk result (λ t. t ≡ with_column current column) }
{
    match current {
        Some(t) => {
            let mut columns = t.columns;
            columns.push(column)?;
            Ok(Some(Table {
                name: t.name,
                rows: t.rows,
                columns,
            }))
        }
        None => Ok(None),
    }
}

fn wrong_version(form: &Form) -> bool
    ensures { result ≡ wrong_version form.now }
{
    match form {
        Form::Version(n) => *n != 1,
        _ => false,
    }
}

fn count_out(form: &Form) -> bool
    ensures { result ≡ count_out form.now }
{
    match form {
        Form::Floor(n) => !is_within(64, *n),
        Form::Caller { calls, .. } => !is_within(65536, *calls),
        _ => false,
    }
}

fn rows_out(form: &Form) -> bool
    ensures { result ≡ rows_out form.now }
{
    match form {
        Form::Table { rows, .. } => !is_within(256, *rows),
        _ => false,
    }
}

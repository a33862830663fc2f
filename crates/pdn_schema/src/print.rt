//! A schema's printed text.

ghost use Rattle.std.specs.Prelude.{codes, ◌≡◌, ◌++◌, ◌∷◌, [], OnOk, IfOk};
ghost use Rattle.std.specs.Fmt.{decimal};
ghost use Rattle.pdn_schema.specs.declared.form.Form.TheVariants as forms;
ghost use Rattle.pdn_schema.specs.Reading.{callers_forms, columns_forms, table_forms, tables_forms, column_form, Says};
ghost use Rattle.pdn_schema.specs.Printing.{kind_word, mark_text, line_text, lines_text, text_of};

use crate::Name;
use crate::schema::{Caller, Column, Schema, Table};
use pdn_base::{Kind, Label, Memory};
use std::alloc::{AllocError, Global};

fn put_number(alloc: Global, out: &mut Vec<u8>, n: u32) -> Result<(), AllocError>
    ensures { OnOk result (out.new.items ≡ out.old.items ++ decimal n) }
{
    let text = format!(in alloc; "{n}")?;
    out.extend_from_slice(text.as_bytes())
}

fn put_floor(alloc: Global, out: &mut Vec<u8>, n: u32) -> Result<(), AllocError>
    ensures { OnOk result (out.new.items ≡ out.old.items ++ line_text (forms.Floor n)) }
{
    out.extend_from_slice(b"floor ".as_slice())?;
    put_number(alloc, out, n)?;
    out.push(10)?;
    Ok(())
}

fn put_caller(alloc: Global, out: &mut Vec<u8>, name: &Name, calls: u32) -> Result<(), AllocError>
    ensures { OnOk result (out.new.items ≡ out.old.items
        ++ line_text (forms.Caller name.now calls)) }
{
    out.extend_from_slice(b"caller ".as_slice())?;
    out.extend_from_slice(name.as_bytes())?;
    out.extend_from_slice(b" calls ".as_slice())?;
    put_number(alloc, out, calls)?;
    out.push(10)?;
    Ok(())
}

fn put_head(alloc: Global, out: &mut Vec<u8>, name: &Name, rows: u32) -> Result<(), AllocError>
    ensures { OnOk result (out.new.items ≡ out.old.items ++ line_text (forms.Table name.now rows)) }
{
    out.extend_from_slice(b"table ".as_slice())?;
    out.extend_from_slice(name.as_bytes())?;
    out.extend_from_slice(b" rows ".as_slice())?;
    put_number(alloc, out, rows)?;
    out.push(10)?;
    Ok(())
}

fn put_kind(out: &mut Vec<u8>, kind: Kind) -> Result<(), AllocError>
    ensures { OnOk result (out.new.items ≡ out.old.items ++ kind_word kind) }
{
    match kind {
        Kind::Int => out.extend_from_slice(b"int".as_slice()),
        Kind::Code => out.extend_from_slice(b"code".as_slice()),
    }
}

fn put_mark(alloc: Global, out: &mut Vec<u8>, mark: Label, per: u32) -> Result<(), AllocError>
    ensures { OnOk result (out.new.items ≡ out.old.items ++ mark_text mark per) }
{
    match mark {
        Label::Public => {
            out.extend_from_slice(b"public per ".as_slice())?;
            put_number(alloc, out, per)
        }
        Label::Protected => out.extend_from_slice(b"protected".as_slice()),
        Label::Private => out.extend_from_slice(b"private".as_slice()),
    }
}

fn put_column(alloc: Global, out: &mut Vec<u8>, column: &Column) -> Result<(), AllocError>
    ensures { OnOk result (out.new.items ≡ out.old.items ++ line_text (column_form column.now)) }
{
    out.extend_from_slice(b"column ".as_slice())?;
    out.extend_from_slice(column.name.as_bytes())?;
    out.push(32)?;
    put_kind(out, column.kind)?;
    out.push(32)?;
    put_mark(alloc, out, column.mark, column.per)?;
    out.push(10)?;
    Ok(())
}

fn put_version(out: &mut Vec<u8>) -> Result<(), AllocError>
    ensures { OnOk result (out.new.items ≡ out.old.items ++ codes "version 1\n") }
{
    out.extend_from_slice(b"version 1\n".as_slice())
}

fn put_end(out: &mut Vec<u8>) -> Result<(), AllocError>
    ensures { OnOk result (out.new.items ≡ out.old.items ++ line_text forms.End) }
{
    out.extend_from_slice(b"end\n".as_slice())
}

fn put_callers(alloc: Global, out: &mut Vec<u8>, callers: &[Caller]) -> Result<(), AllocError>
    ensures { OnOk result (out.new.items ≡ out.old.items
        ++ lines_text (callers_forms callers.now)) }
{
    for c in callers {
        put_caller(alloc, out, &c.name, c.calls)?;
    }
    Ok(())
}

fn put_columns(alloc: Global, out: &mut Vec<u8>, columns: &[Column]) -> Result<(), AllocError>
    ensures { OnOk result (out.new.items ≡ out.old.items
        ++ lines_text (columns_forms columns.now)) }
{
    for c in columns {
        put_column(alloc, out, c)?;
    }
    Ok(())
}

fn put_table(alloc: Global, out: &mut Vec<u8>, t: &Table) -> Result<(), AllocError>
    ensures { OnOk result (out.new.items ≡ out.old.items ++ lines_text (table_forms t.now)) }
{
    put_head(alloc, out, &t.name, t.rows)?;
    put_columns(alloc, out, &t.columns)
}

fn put_tables(alloc: Global, out: &mut Vec<u8>, tables: &[Table]) -> Result<(), AllocError>
    ensures { OnOk result (out.new.items ≡ out.old.items ++ lines_text (tables_forms tables.now)) }
{
    for t in tables {
        put_table(alloc, out, t)?;
    }
    Ok(())
}

fn put_schema(
    alloc: Global,
    out: &mut Vec<u8>,
    floor: u32,
    callers: &[Caller],
    tables: &[Table],
) -> Result<(), AllocError>
    ensures { OnOk result (out.new.items ≡ out.old.items
        ++ text_of (record { floor = floor; callers = callers.now; tables = tables.now })) }
{
    put_version(out)?;
    put_floor(alloc, out, floor)?;
    put_callers(alloc, out, callers)?;
    put_tables(alloc, out, tables)?;
    put_end(out)
}

/// The schema's lines, with single spaces, plain numbers, no comments, and a line feed after each.
pub fn print_schema(alloc: Global, schema: &Schema) -> Result<Vec<u8>, Memory>
    ensures text { IfOk result (λ v. v.items ≡ text_of schema.now) }
    // So `read_schema` gives the schema again.
    ensures says { IfOk result (λ v. Says v.items schema.now) }
{
    let mut out = Vec::new(alloc);
    put_schema(
        alloc,
        &mut out,
        schema.floor,
        &schema.callers,
        &schema.tables,
    )?;
    Ok(out)
}

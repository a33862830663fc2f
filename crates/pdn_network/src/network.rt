//! The stated network of a seed.
ghost use Rattle.std.specs.Prelude.{◌≡◌, ◌≤◌, ◌<◌, ◌∷◌, [], true, IfOk};
ghost use Rattle.pdn_base.specs.Codes.{is_code};
ghost use Rattle.pdn_schema.specs.Rows.{AreValid};
ghost use Rattle.pdn_network.specs.Network.{network_schema, diag, offset, gap, code_at_b, row, rows_a, rows_b, tables_a, tables_b};

use pdn_base::{Code, Kind, Label, Memory, Row, Rows, Tables, Value};
use pdn_schema::{Column, Name, Schema, Table};
use std::alloc::Global;

/// A network: its schema, and the tables of both sites.
#[derive(Debug, Drop)]
pub struct Network {
    pub schema: Schema,
    pub a: Tables,
    pub b: Tables,
}

/// The stated network of this seed, with the patients 1 to `patients`, at most 100.
pub fn stated_network(alloc: Global, seed: u32, patients: u64) -> Result<Network, Memory>
    requires { patients ≤ 100 }
    ensures schema { IfOk result (λ made. made.schema ≡ network_schema) }
    ensures rows_a { IfOk result (λ made. made.a ≡ tables_a seed patients) }
    ensures rows_b { IfOk result (λ made. made.b ≡ tables_b seed patients) }
    ensures valid_a { IfOk result (λ made. AreValid made.schema made.a) }
    ensures valid_b { IfOk result (λ made. AreValid made.schema made.b) }
{
    Ok(Network {
        schema: network_schema(alloc)?,
        a: tables(alloc, rows_a(alloc, seed, patients)?)?,
        b: tables(alloc, rows_b(alloc, seed, patients)?)?,
    })
}

fn network_schema(alloc: Global) -> Result<Schema, Memory>
    ensures { IfOk result (λ schema. schema ≡ network_schema) }
{
    Ok(Schema {
        floor: 3,
        callers: Vec::new(alloc),
        tables: vec![in alloc; diag(alloc)?]?,
    })
}

fn diag(alloc: Global) -> Result<Table, Memory>
    ensures { IfOk result (λ table. table ≡ diag) }
{
    let mut columns = Vec::new(alloc);
    columns.push(column(alloc, "pid", Kind::Int, Label::Public, 4)?)?;
    columns.push(column(alloc, "code", Kind::Code, Label::Protected, 0)?)?;
    columns.push(column(alloc, "day", Kind::Int, Label::Private, 0)?)?;
    Ok(Table {
        name: Name::new(alloc, "diag")?,
        rows: 256,
        columns,
    })
}

fn column(alloc: Global, name: &str, kind: Kind, mark: Label, per: u32) -> Result<Column, Memory>
    ensures { IfOk result (λ column. column
        ≡ record { name = name.now; kind = kind; mark = mark; per = per }) }
{
    Ok(Column {
        name: Name::new(alloc, name)?,
        kind,
        mark,
        per,
    })
}

// A site's tables, of which there is one.
fn tables(alloc: Global, rows: Rows) -> Result<Tables, Memory>
    ensures { IfOk result (λ tables. tables ≡ rows ∷ []) }
{
    Ok(Tables {
        lists: vec![in alloc; rows]?,
    })
}

fn rows_a(alloc: Global, seed: u32, patients: u64) -> Result<Rows, Memory>
    requires { patients ≤ 100 }
    ensures { IfOk result (λ rows. rows ≡ rows_a seed patients) }
{
    let mut rows = Vec::new(alloc);
    for before in 0..patients {
        let patient = before + 1;
        let offset = offset(seed, patient);
        if offset != 0 {
            rows.push(row(alloc, patient, "cdiff", 10 + offset)?)?;
        }
    }
    Ok(Rows { rows })
}

fn rows_b(alloc: Global, seed: u32, patients: u64) -> Result<Rows, Memory>
    requires { patients ≤ 100 }
    ensures { IfOk result (λ rows. rows ≡ rows_b seed patients) }
{
    let mut rows = Vec::new(alloc);
    for before in 0..patients {
        let patient = before + 1;
        let offset = offset(seed, patient);
        if offset != 1 {
            let day = 10 + offset + gap(seed, patient);
            rows.push(row(alloc, patient, code_at_b(seed, patient), day)?)?;
        }
    }
    Ok(Rows { rows })
}

// Days after day 10 until a patient is first seen.
fn offset(seed: u32, patient: u64) -> u64
    requires { patient ≤ 100 }
    ensures is { result ≡ offset seed patient }
    ensures below { result < 11 }
{
    (7 * patient + 13 * u64::from(seed)) % 11
}

// Days until the patient is seen again.
fn gap(seed: u32, patient: u64) -> u64
    requires { patient ≤ 100 }
    ensures is { result ≡ gap seed patient }
    ensures below { result < 60 }
{
    (5 * patient + u64::from(seed)) % 60
}

fn code_at_b(seed: u32, patient: u64) -> &'static str
    requires { patient ≤ 100 }
    ensures { result.now ≡ code_at_b seed patient }
{
    if (patient + u64::from(seed)) % 4 == 0 {
        return "flu";
    }
    "cdiff"
}

fn row(alloc: Global, patient: u64, code: &str, day: u64) -> Result<Row, Memory>
    requires patient { patient ≤ 100 }
    requires code { is_code code.now ≡ true }
    requires day { day ≤ 100 }
    ensures { IfOk result (λ made. made ≡ row patient code.now day) }
{
    let Some(code) = Code::read(code.as_bytes()) else {
        unreachable!()
    };
    let mut values = Vec::new(alloc);
    values.push(Value::Int(patient as u32))?;
    values.push(Value::Code(code))?;
    values.push(Value::Int(day as u32))?;
    Ok(Row::new(values))
}

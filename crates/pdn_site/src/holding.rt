//! Values, rows and tables such as circuits take: that their numbers fit, by what the types of values keep.
ghost use Rattle.std.specs.Prelude.{◌≡◌, List, true, IfOk};
ghost use Rattle.std.specs.List.{All};
ghost use Rattle.pdn_base.specs.declared.value.Value.{Value as Cell};
ghost use Rattle.pdn_schema.specs.Rows.{AreValid, kinds_of, value_kind};
ghost use Rattle.pdn_obl_rows.specs.Encoding.{IsOf, RowIsOf, RowsAreOf};
ghost use Rattle.pdn_site.specs.Meaning.{AreTables};

use crate::fits::Unfit;
use pdn_base::{Kind, Memory, Rows, Tables, Value};
use pdn_schema::Schema;
use std::alloc::Global;

/// A value is one as circuits take those of its kind. What the type of a number keeps is known once it is looked at, of a
/// code once its text is read.
fn value_known(alloc: Global, value: &Value) -> Result<(), Memory>
    ensures { IfOk result (λ _. IsOf (value_kind value.now) value.now) }
{
    match value {
        Value::Int(n) => {
            let _number = *n;
            Ok(())
        }
        Value::Code(code) => {
            let _number = code.number();
            let _text = code.text(alloc)?;
            Ok(())
        }
    }
}

fn row_known(alloc: Global, values: &[Value]) -> Result<(), Memory>
    ensures { IfOk result (λ _. RowIsOf (kinds_of values.now) values.now) }
{
    match values.split_first() {
        None => Ok(()),
        Some((value, rest)) => {
            value_known(alloc, value)?;
            row_known(alloc, rest)
        }
    }
}

fn rows_known(alloc: Global, rows: &Rows) -> Result<(), Memory>
    ensures { IfOk result (λ _. All (λ (row : List Cell). RowIsOf (kinds_of row) row) rows.now) }
{
    for row in rows.as_slice() {
        row_known(alloc, row.values())?;
    }
    Ok(())
}

/// Valid tables are such as circuits take.
#[tactic(auto, using(crate::proofs::HoldingLaws::tables_are))]
pub(crate) fn tables_held(alloc: Global, schema: &Schema, tables: &Tables) -> Result<(), Memory>
    requires { AreValid schema.now tables.now }
    ensures { IfOk result (λ _. AreTables schema.now tables.now) }
{
    for rows in &tables.lists {
        rows_known(alloc, rows)?;
    }
    Ok(())
}

fn is_of(value: &Value, kind: Kind) -> bool
    ensures { result ≡ true → value_kind value.now ≡ kind }
{
    matches!(
        (value, kind),
        (Value::Int(_), Kind::Int) | (Value::Code(_), Kind::Code)
    )
}

fn are_of(values: &[Value], kinds: &[Kind]) -> bool
    ensures { result ≡ true → kinds_of values.now ≡ kinds.now }
{
    let Some((kind, kinds)) = kinds.split_first() else {
        return values.is_empty();
    };
    let Some((value, values)) = values.split_first() else {
        return false;
    };
    is_of(value, *kind) && are_of(values, kinds)
}

fn row_held(alloc: Global, values: &[Value], kinds: &[Kind]) -> Result<(), Memory>
    ensures { IfOk result (λ _. RowIsOf kinds.now values.now) }
{
    if are_of(values, kinds) {
        row_known(alloc, values)
    } else {
        Err(Memory::from(Unfit))
    }
}

/// Rows whose values have these kinds are such rows as circuits take.
pub fn rows_held(alloc: Global, rows: &Rows, kinds: &[Kind]) -> Result<(), Memory>
    ensures { IfOk result (λ _. RowsAreOf kinds.now rows.now) }
{
    for row in rows.as_slice() {
        row_held(alloc, row.values(), kinds)?;
    }
    Ok(())
}

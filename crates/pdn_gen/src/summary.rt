//! The text of an answer in short.
ghost use Rattle.std.specs.Prelude.{◌≡◌, take, IfOk};
ghost use Rattle.std.specs.String.{string_bytes};
ghost use Rattle.pdn_gen.specs.Gen.{network_line, head, summary_line, summary, short_text};

use crate::size::Size;
use pdn_base::{Memory, Row};
use pdn_query::put_rows;
use std::alloc::Global;

/// How many rows of an answer are shown.
const SHOWN: usize = 3;

/// The answer to the query of this number in short, and before the first one the line that names the network.
pub fn short_text(
    alloc: Global,
    size: Size,
    number: u64,
    rows: &[Row],
    units: u64,
) -> Result<Vec<u8>, Memory>
    ensures { IfOk result (λ text. text.items
        ≡ short_text size.seed size.patients number rows.now units) }
{
    let head = head(alloc, size, number)?;
    let summary = summary(alloc, number, rows, units)?;
    let mut text = Vec::from_slice(alloc, head.as_bytes())?;
    text.extend_from_slice(&summary)?;
    Ok(text)
}

// The line that names the network, before the first answer.
fn head(alloc: Global, size: Size, number: u64) -> Result<String, Memory>
    ensures { IfOk result (λ line. string_bytes line ≡ head size.seed size.patients number) }
{
    if number == 1 {
        return network_line(alloc, size);
    }
    Ok(String::new(alloc))
}

fn network_line(alloc: Global, size: Size) -> Result<String, Memory>
    ensures { IfOk result (λ line. string_bytes line ≡ network_line size.seed size.patients) }
{
    let seed = size.seed;
    let patients = size.patients;
    Ok(format!(in alloc; "gen {seed} patients {patients}\n")?)
}

// How many rows an answer has, over how many units, and its first three rows at most.
fn summary(alloc: Global, number: u64, rows: &[Row], units: u64) -> Result<Vec<u8>, Memory>
    ensures { IfOk result (λ text. text.items ≡ summary number rows.now units) }
{
    let line = summary_line(alloc, number, rows.len(), units)?;
    let mut text = Vec::from_slice(alloc, line.as_bytes())?;
    put_rows(alloc, &mut text, first_rows(rows))?;
    Ok(text)
}

fn summary_line(alloc: Global, number: u64, rows: usize, units: u64) -> Result<String, Memory>
    ensures { IfOk result (λ line. string_bytes line ≡ summary_line number rows units) }
{
    Ok(format!(in alloc; "query {number} rows {rows} units {units}\n")?)
}

fn first_rows(rows: &[Row]) -> &[Row]
    ensures { result.now ≡ take 3 rows.now }
{
    if rows.len() <= SHOWN {
        return rows;
    }
    &rows[..SHOWN]
}

//! The records of a CSV text.
ghost use Rattle.std.specs.Prelude.{◌≡◌, ◌≤◌, ◌+◌, map, length, IfOk};
ghost use Rattle.csv.specs.Reading.{records, default_config, strip_bom};
ghost use Rattle.csv.specs.Records.{fields_of};

use csv::{ByteRecord, ReaderBuilder};
use pdn_base::Memory;
use std::alloc::Global;

/// All records of a text, whatever their numbers of fields, the first included. A reader over bytes has no fault of its
/// own, so what it refuses is want of memory.
pub(crate) fn records(alloc: Global, text: &[u8]) -> Result<Vec<ByteRecord>, Memory>
    ensures all { IfOk result (λ v. map fields_of v.items
        ≡ records default_config (strip_bom text.now)) }
    ensures few { IfOk result (λ v. length v.items ≤ length text.now + 1) }
{
    let reader = ReaderBuilder::new()
        .has_headers(false)
        .flexible(true)
        .from_reader(alloc, text);
    let mut records = Vec::new(alloc);
    for record in reader.into_byte_records() {
        let Ok(record) = record else {
            return Err(Memory);
        };
        records.push(record)?;
    }
    Ok(records)
}

//! The lines of a view, as they are written.
ghost use Rattle.std.specs.Prelude.{◌≡◌, ◌++◌, ◌∷◌, [], codes, decimal, OnOk};
ghost use Rattle.std.specs.List.{flat_map};
ghost use Rattle.pdn_base.specs.Texts.{site_text};
ghost use Rattle.pdn_view.specs.Lines.{party_text, value_text, word_text, spaced, head_line, segment_line, counts_text, unit_line, word_line, gate_line, end_line};

use crate::due::{Counts, Due};
use crate::view::Party;
use itoa::Buffer;
use pdn_base::{Memory, Site, Value, Word};
use pdn_gmw::GateView;
use std::alloc::Global;

fn put(out: &mut Vec<u8>, text: &[u8]) -> Result<(), Memory>
    ensures { OnOk result (out.new.items ≡ out.old.items ++ text.now) }
{
    out.extend_from_slice(text)?;
    Ok(())
}

fn put_number(out: &mut Vec<u8>, number: u64) -> Result<(), Memory>
    ensures { OnOk result (out.new.items ≡ out.old.items ++ decimal number) }
{
    let mut buffer = Buffer::new();
    put(out, buffer.format(number).as_bytes())
}

fn put_site(out: &mut Vec<u8>, site: Site) -> Result<(), Memory>
    ensures { OnOk result (out.new.items ≡ out.old.items ++ site_text site) }
{
    match site {
        Site::A => put(out, b"a".as_slice()),
        Site::B => put(out, b"b".as_slice()),
    }
}

fn put_party(out: &mut Vec<u8>, party: Party) -> Result<(), Memory>
    ensures { OnOk result (out.new.items ≡ out.old.items ++ party_text party) }
{
    match party {
        Party::A => put(out, b"a".as_slice()),
        Party::B => put(out, b"b".as_slice()),
        Party::Broker => put(out, b"broker".as_slice()),
    }
}

// A decimal number, or a code between two quotes.
fn put_value(alloc: Global, out: &mut Vec<u8>, value: &Value) -> Result<(), Memory>
    ensures { OnOk result (out.new.items ≡ out.old.items ++ value_text value.now) }
{
    match value {
        Value::Int(n) => put_number(out, u64::from(*n)),
        Value::Code(code) => {
            out.push(b'\'')?;
            put(out, code.text(alloc)?.as_slice())?;
            out.push(b'\'')?;
            Ok(())
        }
    }
}

// 16 hexadecimal digits with small letters.
#[tactic(auto, unfolding(crate::specs::Lines::word_text))]
fn spelled(bits: u64) -> [u8; 16]
    ensures { result ≡ word_text bits }
{
    let mut digits = [0u8; 16];
    let bytes = bits.to_be_bytes();
    let _done = hex::encode_to_slice(bytes.as_slice(), &mut digits);
    digits
}

fn put_word(out: &mut Vec<u8>, word: &Word) -> Result<(), Memory>
    ensures { OnOk result (out.new.items ≡ out.old.items ++ word_text word.now) }
{
    let digits = spelled(word.to_u64());
    put(out, digits.as_slice())
}

/// A view's first line.
pub fn put_head(out: &mut Vec<u8>, party: Party, ticket: u64) -> Result<(), Memory>
    ensures { OnOk result (out.new.items ≡ out.old.items ++ spaced (head_line party ticket)) }
{
    put(out, b"view ".as_slice())?;
    put_party(out, party)?;
    put(out, b" ticket ".as_slice())?;
    put_number(out, ticket)
}

// Values, each behind a blank.
fn put_values(alloc: Global, out: &mut Vec<u8>, values: &[Value]) -> Result<(), Memory>
    ensures { OnOk result
        (out.new.items ≡ out.old.items ++ flat_map (λ v. 32 ∷ value_text v) values.now) }
{
    for value in values {
        out.push(b' ')?;
        put_value(alloc, out, value)?;
    }
    Ok(())
}

/// The line of a site's directory of a segment.
#[tactic(auto, using(crate::proofs::LineLaws::values_are))]
pub fn put_segment(
    alloc: Global,
    out: &mut Vec<u8>,
    number: u64,
    site: Site,
    values: &[Value],
) -> Result<(), Memory>
    ensures { OnOk result
        (out.new.items ≡ out.old.items ++ spaced (segment_line number site values.now)) }
{
    put(out, b"segment ".as_slice())?;
    put_number(out, number)?;
    out.push(b' ')?;
    put_site(out, site)?;
    put_values(alloc, out, values)
}

fn put_counts(out: &mut Vec<u8>, counts: Counts) -> Result<(), Memory>
    ensures { OnOk result (out.new.items ≡ out.old.items ++ spaced (counts_text counts)) }
{
    put(out, b"own ".as_slice())?;
    put_number(out, counts.own)?;
    put(out, b" other ".as_slice())?;
    put_number(out, counts.other)?;
    put(out, b" ands ".as_slice())?;
    put_number(out, counts.ands)?;
    put(out, b" masks ".as_slice())?;
    put_number(out, counts.masks)
}

fn put_plain(alloc: Global, out: &mut Vec<u8>, site: Site, value: &Value) -> Result<(), Memory>
    ensures { OnOk result (out.new.items ≡ out.old.items
        ++ codes " plain " ++ site_text site ++ codes " " ++ value_text value.now) }
{
    put(out, b" plain ".as_slice())?;
    put_site(out, site)?;
    out.push(b' ')?;
    put_value(alloc, out, value)
}

fn put_secure(alloc: Global, out: &mut Vec<u8>, value: &Value, counts: Counts) -> Result<(), Memory>
    ensures { OnOk result (out.new.items ≡ out.old.items
        ++ codes " secure " ++ value_text value.now ++ codes " " ++ spaced (counts_text counts)) }
{
    put(out, b" secure ".as_slice())?;
    put_value(alloc, out, value)?;
    out.push(b' ')?;
    put_counts(out, counts)
}

/// The line of a unit that has so many words.
pub fn put_unit(
    alloc: Global,
    out: &mut Vec<u8>,
    number: u64,
    due: &Due,
    counts: Counts,
) -> Result<(), Memory>
    ensures { OnOk result
        (out.new.items ≡ out.old.items ++ spaced (unit_line number due.now counts)) }
{
    if let Due::Outputs = due {
        put(out, b"root ".as_slice())?;
        put_number(out, number)?;
        put(out, b" words ".as_slice())?;
        return put_number(out, counts.own);
    }
    put(out, b"unit ".as_slice())?;
    put_number(out, number)?;
    match due {
        Due::Plain(site, value) => put_plain(alloc, out, *site, value),
        Due::Secure(value) => put_secure(alloc, out, value, counts),
        Due::Root | Due::Outputs => {
            put(out, b" root ".as_slice())?;
            put_counts(out, counts)
        }
    }
}

/// The line of a word.
pub fn put_word_line(out: &mut Vec<u8>, mark: u8, word: &Word) -> Result<(), Memory>
    ensures { OnOk result
        (out.new.items ≡ out.old.items ++ spaced (word_line (mark ∷ []) word.now)) }
{
    out.push(mark)?;
    out.push(b' ')?;
    put_word(out, word)
}

// A word, behind a blank.
fn put_next_word(out: &mut Vec<u8>, word: &Word) -> Result<(), Memory>
    ensures { OnOk result (out.new.items ≡ out.old.items ++ 32 ∷ word_text word.now) }
{
    out.push(b' ')?;
    put_word(out, word)
}

/// The line of an And gate.
pub fn put_gate_line(out: &mut Vec<u8>, gate: &GateView) -> Result<(), Memory>
    ensures { OnOk result (out.new.items ≡ out.old.items ++ spaced (gate_line gate.now)) }
{
    out.push(b'g')?;
    put_next_word(out, &gate.a)?;
    put_next_word(out, &gate.b)?;
    put_next_word(out, &gate.c)?;
    put_next_word(out, &gate.d)?;
    put_next_word(out, &gate.e)
}

/// A view's last line.
pub fn put_end(out: &mut Vec<u8>) -> Result<(), Memory>
    ensures { OnOk result (out.new.items ≡ out.old.items ++ spaced end_line) }
{
    put(out, b"end".as_slice())
}

//! Views read from their texts, and printed again.
use crate::texts::{BROKER, SITE, one_count, one_plain_unit, one_secure_unit, opened_count};
use pdn_base::{Code, Site, Value, Word};
use pdn_gmw::{GateView, UnitView};
use pdn_site::SegDirs;
use pdn_view::{Party, UnitPart, View, print_view, read_view};
use std::alloc::Global;
use std::test::Fail;

/// The text that is printed of the view that is read.
fn again(alloc: Global, text: &str) -> Result<Vec<u8>, Fail> {
    if text.len() > 1_000_000 {
        return Err("the text is short".into());
    }
    let view = read_view(alloc, text.as_bytes()).ok().ok_or("it is read")?;
    Ok(print_view(alloc, &view)?)
}

/// The texts of the worked rows' views.
fn rows(alloc: Global) -> Result<Vec<String>, Fail> {
    let mut texts = Vec::new(alloc);
    texts.push(one_count(alloc)?)?;
    texts.push(one_plain_unit(alloc)?)?;
    texts.push(one_secure_unit(alloc)?)?;
    texts.push(opened_count(alloc)?)?;
    Ok(texts)
}

#[test]
fn a_view_that_is_read_is_printed_again(rt: HostRuntime) -> Result<(), Fail> {
    let alloc = rt.alloc();
    for text in [SITE, BROKER] {
        assert_eq!(rt; again(alloc, text)?.as_slice(), text.as_bytes());
    }
    for text in &rows(alloc)? {
        assert_eq!(rt; again(alloc, text.as_str())?.as_slice(), text.as_bytes());
    }
    Ok(())
}

/// What a unit's part is, and how many words of each kind it has.
fn shape(alloc: Global, part: &UnitPart) -> Result<String, Fail> {
    Ok(match part {
        UnitPart::Plain(site, value) => {
            let number = value.number();
            format!(in alloc; "plain {site} {number}")?
        }
        UnitPart::Secure(value, words) => {
            let number = value.number();
            let counts = counts(alloc, words)?;
            format!(in alloc; "secure {number} {counts}")?
        }
        UnitPart::Root(words) => {
            let counts = counts(alloc, words)?;
            format!(in alloc; "root {counts}")?
        }
        UnitPart::RootOut(a, b) => {
            let (first, second) = (a.len(), b.len());
            format!(in alloc; "outputs {first} {second}")?
        }
    })
}

fn counts(alloc: Global, words: &UnitView) -> Result<String, Fail> {
    let (own, other) = (words.own.len(), words.other.len());
    let (gates, masks) = (words.gates.len(), words.masks.len());
    Ok(format!(in alloc; "{own} {other} {gates} {masks}")?)
}

/// The parts of the view that a text is of.
fn shapes(alloc: Global, text: &str) -> Result<String, Fail> {
    if text.len() > 1_000_000 {
        return Err("the text is short".into());
    }
    let view = read_view(alloc, text.as_bytes()).ok().ok_or("it is read")?;
    let mut all = String::new(alloc);
    for part in &view.units {
        all.push_str(shape(alloc, part)?.as_str())?;
        all.push_str(";")?;
    }
    Ok(all)
}

/// The parts of the worked rows' views, a line each.
const ROWS: &str = "root 1 1 96 33;
plain a 1;root 0 33 32 33;
secure 3 66 66 33 0;root 0 0 32 33;
outputs 33 33;
";

#[test]
fn a_text_is_of_the_units_that_its_segments_call_for(rt: HostRuntime) -> Result<(), Fail> {
    let alloc = rt.alloc();
    assert_eq!(rt;
        shapes(alloc, SITE)?.as_str(),
        "plain a 1;plain b 2;secure 3 2 1 1 0;plain b 7380402532213850112;root 0 1 0 2;"
    );
    assert_eq!(rt; shapes(alloc, BROKER)?.as_str(), "outputs 2 2;");
    let text = one_count(alloc)?;
    assert_eq!(rt; shapes(alloc, text.as_str())?.as_str(), "root 1 1 96 33;");
    let text = one_plain_unit(alloc)?;
    assert_eq!(rt;
        shapes(alloc, text.as_str())?.as_str(),
        "plain a 1;root 0 33 32 33;"
    );
    let text = one_secure_unit(alloc)?;
    assert_eq!(rt;
        shapes(alloc, text.as_str())?.as_str(),
        "secure 3 66 66 33 0;root 0 0 32 33;"
    );
    let text = opened_count(alloc)?;
    assert_eq!(rt; shapes(alloc, text.as_str())?.as_str(), "outputs 33 33;");
    Ok(())
}

fn word(bits: u64) -> Word {
    Word::from_u64(bits)
}

fn gate() -> GateView {
    GateView {
        a: word(1),
        b: word(2),
        c: word(3),
        d: word(4),
        e: word(u64::MAX),
    }
}

fn words(alloc: Global, bits: &[u64]) -> Result<Vec<Word>, Fail> {
    let mut words = Vec::new(alloc);
    for n in bits {
        words.push(word(*n))?;
    }
    Ok(words)
}

fn gates(alloc: Global, count: u32) -> Result<Vec<GateView>, Fail> {
    let mut gates = Vec::new(alloc);
    for _ in 0..count {
        gates.push(gate())?;
    }
    Ok(gates)
}

fn values(alloc: Global, all: &[Value]) -> Result<Vec<Value>, Fail> {
    Ok(Vec::from_slice(alloc, all)?)
}

/// A secure unit's part.
fn secure(alloc: Global) -> Result<UnitPart, Fail> {
    let own = words(alloc, &[0x0123_4567_89ab_cdef, 0])?;
    let other = words(alloc, &[0xfedc_ba98_7654_3210])?;
    let gates = gates(alloc, 1)?;
    let masks = Vec::new(alloc);
    let seen = UnitView {
        own,
        other,
        gates,
        masks,
    };
    Ok(UnitPart::Secure(Value::Int(3), seen))
}

fn root(alloc: Global) -> Result<UnitPart, Fail> {
    let other = words(alloc, &[0xaa])?;
    let masks = words(alloc, &[0xff, 0x1000_0000_0000_0000])?;
    let seen = UnitView {
        own: Vec::new(alloc),
        other,
        gates: Vec::new(alloc),
        masks,
    };
    Ok(UnitPart::Root(seen))
}

fn add_segment(dirs: &mut Vec<SegDirs>, a: Vec<Value>, b: Vec<Value>) -> Result<(), Fail> {
    dirs.push(SegDirs { a, b })?;
    Ok(())
}

fn segments(alloc: Global, flu: Value) -> Result<Vec<SegDirs>, Fail> {
    let mut dirs = Vec::new(alloc);
    let first = values(alloc, &[Value::Int(1), Value::Int(3)])?;
    let second = values(alloc, &[Value::Int(2), Value::Int(3)])?;
    add_segment(&mut dirs, first, second)?;
    let third = values(alloc, &[flu])?;
    add_segment(&mut dirs, Vec::new(alloc), third)?;
    Ok(dirs)
}

fn units(alloc: Global, flu: Value) -> Result<Vec<UnitPart>, Fail> {
    let mut units = Vec::new(alloc);
    units.push(UnitPart::Plain(Site::A, Value::Int(1)))?;
    units.push(UnitPart::Plain(Site::B, Value::Int(2)))?;
    units.push(secure(alloc)?)?;
    units.push(UnitPart::Plain(Site::B, flu))?;
    units.push(root(alloc)?)?;
    Ok(units)
}

/// The view whose text is `SITE`.
fn site_view(alloc: Global) -> Result<View, Fail> {
    let flu = Value::Code(Code::read(b"flu".as_slice()).ok_or("flu is a code")?);
    let dirs = segments(alloc, flu)?;
    let units = units(alloc, flu)?;
    Ok(View {
        party: Party::A,
        ticket: 7,
        dirs,
        units,
    })
}

#[test]
fn a_view_is_printed_part_by_part(rt: HostRuntime) -> Result<(), Fail> {
    let alloc = rt.alloc();
    let view = site_view(alloc)?;
    let printed = print_view(alloc, &view)?;
    assert_eq!(rt; printed.as_slice(), SITE.as_bytes());
    Ok(())
}

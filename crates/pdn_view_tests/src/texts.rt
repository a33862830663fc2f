//! Texts of views.
use std::alloc::Global;
use std::test::Fail;

/// A site's view of plain units of both sites, a secure unit and the root, over two segments.
pub const SITE: &str = "view a ticket 7
segment 0 a 1 3
segment 0 b 2 3
segment 1 a
segment 1 b 'flu'
unit 0 plain a 1
unit 1 plain b 2
unit 2 secure 3 own 2 other 1 ands 1 masks 0
o 0123456789abcdef
o 0000000000000000
x fedcba9876543210
g 0000000000000001 0000000000000002 0000000000000003 0000000000000004 ffffffffffffffff
unit 3 plain b 'flu'
unit 4 root own 0 other 1 ands 0 masks 2
x 00000000000000aa
m 00000000000000ff
m 1000000000000000
end
";

/// The broker's view of two output words.
pub const BROKER: &str = "view broker ticket 18446744073709551615
segment 0 a 'cold' 'flu'
segment 0 b 'flu'
root 2 words 2
a 0000000000000001
a 0000000000000002
b 0000000000000003
b 0000000000000004
end
";

/// The text, and so many lines of words behind it: a mark, and each word of the line.
pub fn add_words(
    alloc: Global,
    text: String,
    mark: &str,
    word: &str,
    count: u32,
) -> Result<String, Fail> {
    let mut text = text;
    let line = match mark {
        "g" => format!(in alloc; "g {word} {word} {word} {word} {word}\n")?,
        _ => format!(in alloc; "{mark} {word}\n")?,
    };
    for _ in 0..count {
        text.push_str(line.as_str())?;
    }
    Ok(text)
}

/// One count: eight rows in all, 96 And gates. The words are all the same.
pub fn one_count(alloc: Global) -> Result<String, Fail> {
    let head = "view a ticket 0\nunit 0 root own 1 other 1 ands 96 masks 33\n";
    let text = String::from_str(alloc, head)?;
    let text = add_words(alloc, text, "o", "0000000000000007", 1)?;
    let text = add_words(alloc, text, "x", "0000000000000001", 1)?;
    let text = add_words(alloc, text, "g", "00000000000000f0", 96)?;
    let text = add_words(alloc, text, "m", "ffffffffffffffff", 33)?;
    Ok(format!(in alloc; "{text}end\n")?)
}

/// One plain unit of A, as B sees it: 104 lines.
pub fn one_plain_unit(alloc: Global) -> Result<String, Fail> {
    let head =
        "view b ticket 0\nsegment 0 a 1\nsegment 0 b\nunit 0 plain a 1\nunit 1 root own 0 other 33 ands 32 masks 33\n";
    let text = String::from_str(alloc, head)?;
    let text = add_words(alloc, text, "x", "0000000000000001", 33)?;
    let text = add_words(alloc, text, "g", "00000000000000f0", 32)?;
    let text = add_words(alloc, text, "m", "ffffffffffffffff", 33)?;
    Ok(format!(in alloc; "{text}end\n")?)
}

/// A secure unit of two tables, as A sees it.
pub fn one_secure_unit(alloc: Global) -> Result<String, Fail> {
    let head =
        "view a ticket 0\nsegment 0 a 3\nsegment 0 b 3\nunit 0 secure 3 own 66 other 66 ands 33 masks 0\n";
    let text = String::from_str(alloc, head)?;
    let text = add_words(alloc, text, "o", "0000000000000001", 66)?;
    let text = add_words(alloc, text, "x", "0000000000000000", 66)?;
    let text = add_words(alloc, text, "g", "00000000000000f0", 33)?;
    let text = format!(in alloc; "{text}unit 1 root own 0 other 0 ands 32 masks 33\n")?;
    let text = add_words(alloc, text, "g", "00000000000000f1", 32)?;
    let text = add_words(alloc, text, "m", "ffffffffffffffff", 33)?;
    Ok(format!(in alloc; "{text}end\n")?)
}

/// One count, as the broker sees it on a tape of zeros: the shares of 3 in one row.
pub fn opened_count(alloc: Global) -> Result<String, Fail> {
    let head = "view broker ticket 0\nroot 0 words 33\n";
    let text = String::from_str(alloc, head)?;
    let text = add_words(alloc, text, "a", "0000000000000001", 3)?;
    let text = add_words(alloc, text, "a", "0000000000000000", 30)?;
    let text = add_words(alloc, text, "b", "0000000000000000", 33)?;
    Ok(format!(in alloc; "{text}end\n")?)
}

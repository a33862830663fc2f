//! Texts that are no views, with the line at which each leaves the grammar.
use crate::texts::{BROKER, SITE, one_plain_unit};
use pdn_view::{ViewErr, read_view};
use std::alloc::Global;
use std::test::Fail;

/// The line with which a text of at most 4,000,000 bytes is refused, or 0 where it is a view's.
fn fault(alloc: Global, bytes: &[u8]) -> Result<u32, Fail> {
    if bytes.len() > 4_000_000 {
        return Err("the text is short".into());
    }
    match read_view(alloc, bytes) {
        Ok(_) => Ok(0),
        Err(ViewErr::At { line }) => Ok(line),
        Err(ViewErr::Memory) => Err("there is memory".into()),
    }
}

/// Texts, a line each, with `/` for a line feed and `|` for a carriage return, then the line that is answered.
const FAULTS: &str = " => 1
/ => 1
end/ => 1
view c ticket 0/ => 1
view a ticket 01/ => 1
view a ticket +1/ => 1
view a ticket/ => 1
view a ticket / => 1
view a ticket 18446744073709551616/ => 1
view a ticket 18446744073709551615/ => 2
view a ticket 0 => 1
view  a ticket 0/ => 1
view a ticket 0 / => 1
 view a ticket 0/ => 1
view a ticket 0|/ => 1
View a ticket 0/ => 1
view a ticket 0/end/ => 2
view a ticket 0// => 2
view a ticket 0/segment 1 a/ => 2
view a ticket 0/segment 0 b/ => 2
view a ticket 0/segment 00 a/ => 2
view a ticket 0/segment 0 a 2 1/ => 2
view a ticket 0/segment 0 a 1 1/ => 2
view a ticket 0/segment 0 a 1 'b'/ => 2
view a ticket 0/segment 0 a 'b' 'a'/ => 2
view a ticket 0/segment 0 a 4294967296/ => 2
view a ticket 0/segment 0 a 4294967295/ => 3
view a ticket 0/segment 0 a 01/ => 2
view a ticket 0/segment 0 a / => 2
view a ticket 0/segment 0 a 1  2/ => 2
view a ticket 0/segment 0 a 'abcdefghi'/ => 2
view a ticket 0/segment 0 a ''/ => 2
view a ticket 0/segment 0 a 'a/ => 2
view a ticket 0/segment 0 a 'a,'/ => 2
view a ticket 0/segment 0 a flu/ => 2
view a ticket 0/segment 0 a/segment 0 a/ => 3
view a ticket 0/segment 0 a/segment 1 b/ => 3
view a ticket 0/segment 0 a/unit 0 root own 0 other 0 ands 0 masks 0/ => 3
view a ticket 0/segment 0 a/segment 0 b/segment 2 a/ => 4
view a ticket 0/segment 0 a 1/segment 0 b 2/unit 1 plain a 1/ => 4
view a ticket 0/segment 0 a 1/segment 0 b 2/unit 0 plain b 1/ => 4
view a ticket 0/segment 0 a 1/segment 0 b 2/unit 0 plain a 2/ => 4
view a ticket 0/segment 0 a 1/segment 0 b 2/unit 0 secure 1 own 0 other 0 ands 0 masks 0/ => 4
view a ticket 0/segment 0 a 1/segment 0 b 2/unit 0 plain a 1/unit 2 plain b 2/ => 5
view a ticket 0/segment 0 a 1/segment 0 b 2/unit 0 plain a 1/unit 1 root own 0 other 0 ands 0 masks 0/ => 5
view a ticket 0/segment 0 a 1/segment 0 b 1/unit 0 plain a 1/ => 4
view a ticket 0/segment 0 a 1/segment 0 b 1/unit 0 secure 1 own 0 other 0 ands 0 masks 1/ => 4
view a ticket 0/segment 0 a 1/segment 0 b 1/unit 0 secure 1 own 0 other 0 ands 0 masks 0/end/ => 5
view a ticket 0/unit 0 root own 18446744073709551616 other 0 ands 0 masks 0/ => 2
view a ticket 0/unit 0 root own 18446744073709551615 other 0 ands 0 masks 0/ => 3
view a ticket 0/unit 0 root own 00 other 0 ands 0 masks 0/ => 2
view a ticket 0/unit 0 root own 0 other 0 ands 0/ => 2
view a ticket 0/unit 0 root own 0 other 0 ands 0 masks 0 0/ => 2
view a ticket 0/root 0 words 0/ => 2
view a ticket 0/unit 0 root own 0 other 0 ands 0 masks 0/segment 0 a/ => 3
view a ticket 0/unit 0 root own 0 other 0 ands 0 masks 0/unit 1 root own 0 other 0 ands 0 masks 0/ => 3
view a ticket 0/unit 0 root own 0 other 0 ands 0 masks 0/end => 3
view a ticket 0/unit 0 root own 0 other 0 ands 0 masks 0/end// => 4
view a ticket 0/unit 0 root own 0 other 0 ands 0 masks 0/end/x => 4
view a ticket 0/unit 0 root own 0 other 0 ands 0 masks 0/end / => 3
view a ticket 0/unit 0 root own 1 other 0 ands 0 masks 0/o 0000000000000001/ => 4
view a ticket 0/unit 0 root own 1 other 0 ands 0 masks 0/o 000000000000000/ => 3
view a ticket 0/unit 0 root own 1 other 0 ands 0 masks 0/o 00000000000000010/ => 3
view a ticket 0/unit 0 root own 1 other 0 ands 0 masks 0/o 000000000000000A/ => 3
view a ticket 0/unit 0 root own 1 other 0 ands 0 masks 0/o 0000000000000001 / => 3
view a ticket 0/unit 0 root own 1 other 0 ands 0 masks 0/o  0000000000000001/ => 3
view a ticket 0/unit 0 root own 1 other 0 ands 0 masks 0/x 0000000000000001/ => 3
view a ticket 0/unit 0 root own 1 other 0 ands 0 masks 0/o 0000000000000001 0000000000000001/ => 3
view a ticket 0/unit 0 root own 1 other 0 ands 0 masks 0/o 000000000000000g/ => 3
view a ticket 0/unit 0 root own 1 other 0 ands 0 masks 0/o/ => 3
view a ticket 0/unit 0 root own 1 other 0 ands 0 masks 0/O 0000000000000001/ => 3
view a ticket 0/unit 0 root own 0 other 0 ands 1 masks 0/g 0000000000000001 0000000000000001 0000000000000001 0000000000000001 0000000000000001/ => 4
view a ticket 0/unit 0 root own 0 other 0 ands 1 masks 0/g 0000000000000001 0000000000000001 0000000000000001 0000000000000001/ => 3
view a ticket 0/unit 0 root own 0 other 0 ands 1 masks 0/g 0000000000000001 0000000000000001 0000000000000001 0000000000000001 0000000000000001 0000000000000001/ => 3
view a ticket 0/unit 0 root own 0 other 0 ands 1 masks 0/g 0000000000000001 0000000000000001 0000000000000001 0000000000000001 000000000000000/ => 3
view a ticket 0/unit 0 root own 0 other 0 ands 1 masks 0/m 0000000000000001/ => 3
view broker ticket 0/unit 0 root own 0 other 0 ands 0 masks 0/ => 2
view broker ticket 0/root 1 words 0/ => 2
view broker ticket 0/segment 0 a 1/segment 0 b 1 2/root 3 words 0/ => 4
view broker ticket 0/root 0 words 1/b 0000000000000001/ => 3
view broker ticket 0/root 0 words 1/a 0000000000000001/a 0000000000000001/ => 4
view broker ticket 0/root 0 words 18446744073709551616/ => 2
view broker ticket 0/root 0 words 1/a 0000000000000001/b 0000000000000001/root 0 words 0/ => 5";

#[test]
fn the_first_line_that_leaves_the_grammar_is_answered(rt: HostRuntime) -> Result<(), Fail> {
    let alloc = rt.alloc();
    for case in FAULTS.split('\n') {
        let (written, wanted) = case.split_once(" => ").ok_or("a case has an arrow")?;
        let lines = written.replace(alloc, "/", "\n")?;
        let text = lines.replace(alloc, "|", "\r")?;
        let line = fault(alloc, text.as_bytes())?;
        let got = format!(in alloc; "{line}")?;
        assert_eq!(rt; got.as_str(), wanted, "of {written}");
    }
    Ok(())
}

/// How many line feeds bytes have.
fn feeds(bytes: &[u8]) -> usize {
    bytes.iter().filter(|byte| **byte == b'\n').count()
}

#[test]
fn a_proper_prefix_leaves_the_grammar_at_the_line_that_is_cut(rt: HostRuntime) -> Result<(), Fail> {
    let alloc = rt.alloc();
    for text in [SITE, BROKER] {
        let bytes = text.as_bytes();
        for end in 0..bytes.len() {
            let line = fault(alloc, &bytes[..end])?;
            assert_eq!(rt;
                line as usize,
                feeds(&bytes[..end]).saturating_add(1),
                "at {end}"
            );
        }
    }
    let text = one_plain_unit(alloc)?;
    let bytes = text.as_bytes();
    assert_eq!(rt; feeds(bytes), 104);
    let front = text.strip_suffix("end\n").ok_or("its last line is end")?;
    assert_eq!(rt; fault(alloc, front.as_bytes())?, 104);
    assert_eq!(rt; fault(alloc, b"")?, 1);
    Ok(())
}

/// The faults of a text without each of its lines in turn.
fn faults_without_lines(alloc: Global, text: &str) -> Result<String, Fail> {
    let mut faults = String::new(alloc);
    for left in 0..feeds(text.as_bytes()) {
        let mut rest = String::new(alloc);
        for (place, line) in text.lines().enumerate() {
            if place != left {
                rest.push_str(line)?;
                rest.push_str("\n")?;
            }
        }
        let line = fault(alloc, rest.as_bytes())?;
        faults.push_str(format!(in alloc; " {line}")?.as_str())?;
    }
    Ok(faults)
}

#[test]
fn no_line_of_a_view_can_be_left_out(rt: HostRuntime) -> Result<(), Fail> {
    let alloc = rt.alloc();
    for (text, wanted) in [
        (SITE, " 1 2 3 4 5 6 7 8 10 10 11 12 13 14 15 17 17 18"),
        (BROKER, " 1 2 3 4 6 6 8 8 9"),
    ] {
        let faults = faults_without_lines(alloc, text)?;
        assert_eq!(rt; faults.as_str(), wanted);
    }
    Ok(())
}

/// The faults of a text in which each decimal digit in turn is raised by one, a nine to zero.
fn faults_of_digits(alloc: Global, text: &str) -> Result<String, Fail> {
    let mut faults = String::new(alloc);
    let mut bytes = Vec::from_slice(alloc, text.as_bytes())?;
    for place in 0..bytes.len() {
        let byte = bytes[place];
        if !byte.is_ascii_digit() {
            continue;
        }
        bytes[place] = if byte == b'9' { b'0' } else { byte + 1 };
        let line = fault(alloc, bytes.as_slice())?;
        faults.push_str(format!(in alloc; " {line}")?.as_str())?;
        bytes[place] = byte;
    }
    Ok(faults)
}

/// The faults of the site's view: none where the digit stands in the ticket or in a word.
const SITE_DIGITS: &str =
    " 0 2 6 8 3 3 8 4 5 6 6 7 7 8 8 11 12 13 8 0 0 0 0 0 0 0 0 0 0 0 0 0 0 0 0 0 0 0 0 0 0 0 0 0 0 0 0 0 0 0 0 0 0 0 0 0 0 0 0 0 0 0 0 0 0 0 0 0 0 0 0 0 0 0 0 0 0 0 0 0 0 0 0 0 0 0 0 0 0 0 0 0 0 0 0 0 0 0 0 0 0 0 0 0 0 0 0 0 0 0 0 0 0 0 0 0 0 0 0 13 14 15 16 16 18 0 0 0 0 0 0 0 0 0 0 0 0 0 0 0 0 0 0 0 0 0 0 0 0 0 0 0 0 0 0 0 0 0 0 0 0 0 0 0 0 0 0 0 0";

const BROKER_DIGITS: &str =
    " 1 1 1 1 1 1 1 1 1 1 1 1 1 0 1 1 1 1 1 1 2 3 4 7 0 0 0 0 0 0 0 0 0 0 0 0 0 0 0 0 0 0 0 0 0 0 0 0 0 0 0 0 0 0 0 0 0 0 0 0 0 0 0 0 0 0 0 0 0 0 0 0 0 0 0 0 0 0 0 0 0 0 0 0 0 0 0 0";

#[test]
fn a_changed_digit_is_refused_but_in_tickets_and_words(rt: HostRuntime) -> Result<(), Fail> {
    let alloc = rt.alloc();
    for (text, wanted) in [(SITE, SITE_DIGITS), (BROKER, BROKER_DIGITS)] {
        let faults = faults_of_digits(alloc, text)?;
        assert_eq!(rt; faults.as_str(), wanted);
    }
    Ok(())
}

#[test]
fn a_line_of_a_million_bytes_is_refused(rt: HostRuntime) -> Result<(), Fail> {
    let alloc = rt.alloc();
    let mut text = String::from_str(alloc, "view a ticket 0\nsegment 0 a")?;
    for _ in 0..1_000_000 {
        text.push_str(" ")?;
    }
    text.push_str("\n")?;
    assert_eq!(rt; fault(alloc, text.as_bytes())?, 2);
    Ok(())
}

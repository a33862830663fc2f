//! Where a place of a file stands, as lines and columns count it.
ghost use Rattle.std.specs.Prelude.{◌≡◌, ◌≤◌, ◌++◌, length, take, drop, map, replicate, count_by, if◌then◌else◌, IfOk, OnOk, is_ok};
ghost use Rattle.std.specs.List.{after_last, before_first, prefix_len, suffix_len};
ghost use Rattle.pdn_explain.specs.Places.{begins_character, is_line_feed, is_no_line_feed, place_text, shown};

use pdn_base::Memory;
use std::alloc::Global;

/// The line and the column of a place, both from 1 on, its line, and under the place a mark. A column counts characters: a
/// byte of 128 to 191, which in UTF-8 goes on with one, counts none, and every other byte one. A tab and a carriage return
/// are shown as a blank, every other control character as `?`, and the other bytes as they are.
#[tactic(auto, unfolding(crate::specs::Places::place_text))]
pub fn place_text(alloc: Global, file: &[u8], place: usize) -> Result<Vec<u8>, Memory>
    requires { place ≤ length file.now }
    ensures { IfOk result (λ text. text.items ≡ place_text file.now place) }
{
    let (before, behind) = file.split_at(place);
    let (start, end) = (last_line(before), first_line(behind));
    let line = line_feeds(before) + 1;
    let blanks = characters(start);
    let column = blanks + 1;
    let head = format!(in alloc; "line {line}, column {column}\n")?;
    let mut text = Vec::from_slice(alloc, head.as_bytes())?;
    show(&mut text, start)?;
    show(&mut text, end)?;
    text.push(b'\n')?;
    indent(&mut text, blanks)?;
    text.extend_from_slice(b"^\n")?;
    Ok(text)
}

// What stands behind the last line feed.
fn last_line(before: &[u8]) -> &[u8]
    ensures { result.now ≡ after_last is_line_feed before.now }
{
    let (_, line) = before.split_at(before.len() - end_len(before));
    line
}

// What stands before the first line feed.
fn first_line(behind: &[u8]) -> &[u8]
    ensures { result.now ≡ before_first is_line_feed behind.now }
{
    let (line, _) = behind.split_at(front_len(behind));
    line
}

// How many bytes stand behind the last line feed.
fn end_len(before: &[u8]) -> usize
    ensures is { result ≡ suffix_len is_no_line_feed before.now }
    ensures within { result ≤ length before.now }
{
    before
        .iter()
        .rev()
        .take_while(|byte| **byte != b'\n')
        .count()
}

// How many bytes stand before the first line feed.
fn front_len(behind: &[u8]) -> usize
    ensures is { result ≡ prefix_len is_no_line_feed behind.now }
    ensures within { result ≤ length behind.now }
{
    behind.iter().take_while(|byte| **byte != b'\n').count()
}

fn line_feeds(bytes: &[u8]) -> usize
    ensures is { result ≡ count_by is_line_feed bytes.now }
    ensures within { result ≤ length bytes.now }
{
    bytes.iter().filter(|byte| **byte == b'\n').count()
}

fn characters(bytes: &[u8]) -> usize
    ensures is { result ≡ count_by begins_character bytes.now }
    ensures within { result ≤ length bytes.now }
{
    bytes
        .iter()
        .filter(|byte| **byte < 128 || **byte >= 192)
        .count()
}

fn shown(byte: u8) -> u8
    ensures { result ≡ shown byte }
{
    match byte {
        b'\t' | b'\r' => b' ',
        0..=31 | 127 => b'?',
        _ => byte,
    }
}

fn show(text: &mut Vec<u8>, line: &[u8]) -> Result<(), Memory>
    ensures { OnOk result (text.new.items ≡ text.old.items ++ map shown line.now) }
{
    for byte in line {
        text.push(shown(*byte))?;
    }
    Ok(())
}

fn indent(text: &mut Vec<u8>, blanks: usize) -> Result<(), Memory>
    ensures { OnOk result (text.new.items ≡ text.old.items ++ replicate blanks 32) }
{
    for _ in 0..blanks {
        text.push(b' ')?;
    }
    Ok(())
}

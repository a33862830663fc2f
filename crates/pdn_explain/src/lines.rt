//! Which form a line has.
ghost use Rattle.std.specs.Prelude.{◌≡◌, ◌≤◌, length, option_map, IfOk};
ghost use Rattle.std.specs.Char.{is_ascii_digit};
ghost use Rattle.std.specs.List.{prefix_len};
ghost use Rattle.pdn_explain.specs.Forms.{fits, is_no_blank, is_number, meaning};
ghost use Rattle.pdn_explain.specs.Places.{meaning_in, place_of, placed, told_there};

use crate::places::place_text;
use crate::table::{LINES, Told};
use pdn_base::{Memory, number};
use std::alloc::Global;

/// What a line of a program says and what to do about it, in plain words; `None` where the line has none of the forms of
/// `LINES`. The line is given without its line feed.
pub fn explain(line: &str) -> Option<&'static str> {
    meaning(&LINES, line.as_bytes())
}

/// What the first form that a line has says.
pub fn meaning(lines: &[Told], line: &[u8]) -> Option<&'static str>
    ensures { option_map (λ text. text.now) result ≡ meaning lines.now line.now }
{
    for told in lines {
        if fits(told.form.as_bytes(), line) {
            return Some(told.means);
        }
    }
    None
}

/// What a line `refused 4 place <p> kind <k>` says, and where in the file: the sentence, then line and column of the place,
/// and the line with a mark under the place, each ended by a line feed. `None` where the line has none of the forms of
/// `LINES`, where it names no place, and where the file ends before the place.
pub fn explain_in(alloc: Global, line: &str, file: &[u8]) -> Result<Option<Vec<u8>>, Memory> {
    meaning_in(alloc, &LINES, line.as_bytes(), file)
}

/// What the first form that a line has says, and where in a file.
pub fn meaning_in(
    alloc: Global,
    lines: &[Told],
    line: &[u8],
    file: &[u8],
) -> Result<Option<Vec<u8>>, Memory>
    ensures { IfOk result (λ told. option_map (λ text. text.items) told
        ≡ meaning_in lines.now line.now file.now) }
{
    let Some(means) = meaning(lines, line) else {
        return Ok(None);
    };
    let Some(place) = place_of(line) else {
        return Ok(None);
    };
    told_there(alloc, means, place as usize, file)
}

/// The place in bytes that a line `refused 4 place <p> kind <k>` names, up to 4294967295; `None` of another line.
pub fn place_of(line: &[u8]) -> Option<u32>
    ensures { result ≡ place_of line.now }
{
    if !is_placed(line) {
        return None;
    }
    let behind = line.get(16..)?;
    let (place, _) = behind.split_at(digits(behind));
    number(place)
}

// Whether a line has the form of those that name a place.
#[tactic(auto, unfolding(crate::specs::Places::placed))]
fn is_placed(line: &[u8]) -> bool
    ensures { result ≡ fits placed line.now }
{
    fits(b"refused 4 place # kind #", line)
}

// A sentence, and where in a file; nothing where the file ends before the place.
fn told_there(
    alloc: Global,
    means: &str,
    place: usize,
    file: &[u8],
) -> Result<Option<Vec<u8>>, Memory>
    ensures { IfOk result (λ told. option_map (λ text. text.items) told
        ≡ told_there means.now (Some place) file.now) }
{
    if place > file.len() {
        return Ok(None);
    }
    let there = place_text(alloc, file, place)?;
    let mut text = Vec::from_slice(alloc, means.as_bytes())?;
    text.push(b'\n')?;
    text.extend_from_slice(there.as_slice())?;
    Ok(Some(text))
}

// How many digits stand at the front.
fn digits(line: &[u8]) -> usize
    ensures is { result ≡ prefix_len is_ascii_digit line.now }
    ensures within { result ≤ length line.now }
{
    line.iter().take_while(|byte| byte.is_ascii_digit()).count()
}

// How many bytes stand before the first blank or the end.
fn word_len(line: &[u8]) -> usize
    ensures is { result ≡ prefix_len is_no_blank line.now }
    ensures within { result ≤ length line.now }
{
    line.iter().take_while(|byte| **byte != b' ').count()
}

fn is_number(digits: &[u8]) -> bool
    ensures { result ≡ is_number digits.now }
{
    match digits {
        [] => false,
        [first, more @ ..] => *first != b'0' || more.is_empty(),
    }
}

fn fits(form: &[u8], line: &[u8]) -> bool
    ensures { result ≡ fits form.now line.now }
{
    match form {
        [] => line.is_empty(),
        [b'#', form @ ..] => {
            let (number, line) = line.split_at(digits(line));
            is_number(number) && fits(form, line)
        }
        [b'*', form @ ..] => {
            let (word, line) = line.split_at(word_len(line));
            !word.is_empty() && fits(form, line)
        }
        [b'~', form @ ..] => form.is_empty(),
        [byte, form @ ..] => match line {
            [first, line @ ..] => first == byte && fits(form, line),
            [] => false,
        },
    }
}

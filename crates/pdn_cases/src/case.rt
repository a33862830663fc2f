//! A case: the commands, what comes of them, and the calls that fail on the way.
use pdn_base::{Memory, number};
use std::alloc::{AllocError, AllocFailed, Global};

/// A file by its name.
pub type NamedFile = (String, Vec<u8>);

/// Why a case was not run: this file of it isn't there or isn't in its form; or memory ran out.
#[derive(Debug, Drop)]
pub enum CaseErr {
    Unreadable(&'static str),
    Memory,
}

impl From<AllocError> for CaseErr {
    fn from(_: AllocError) -> CaseErr {
        CaseErr::Memory
    }
}

impl<T: Drop> From<AllocFailed<T>> for CaseErr {
    fn from(_: AllocFailed<T>) -> CaseErr {
        CaseErr::Memory
    }
}

impl From<Memory> for CaseErr {
    fn from(_: Memory) -> CaseErr {
        CaseErr::Memory
    }
}

/// The calls that fail, by number from 1, how many tickets the desk has left, and how many bytes the sink takes.
#[derive(Drop)]
pub struct Fails {
    pub files: Vec<u64>,
    pub site_a: Vec<u64>,
    pub site_b: Vec<u64>,
    pub desk: Vec<u64>,
    pub tickets: u64,
    pub sink: Vec<u64>,
    pub room: usize,
}

/// The first words of a section, each of which is all ones.
#[derive(Clone, Copy, Debug)]
pub struct Ones {
    pub ticket: u64,
    pub unit: u64,
    pub count: u32,
}

/// What is said in the files of a case. `words` has a line for each command, its words parted by single blanks, `status`
/// the status of each, a line for each, and `text` all that the sink takes. `fails` need not be there, nor `ones`, which has
/// the ones of a tape that is zero elsewhere.
#[derive(Drop)]
pub struct Case {
    pub commands: Vec<Vec<String>>,
    pub statuses: Vec<u64>,
    pub text: Vec<u8>,
    pub fails: Fails,
    pub ones: Vec<Ones>,
}

impl Case {
    /// The case of these files.
    pub fn read(alloc: Global, files: &[NamedFile]) -> Result<Case, CaseErr> {
        let commands = commands_of(alloc, wanted(files, "words")?)?;
        let statuses = numbers_of(alloc, wanted(files, "status")?)?;
        let text = Vec::from_slice(alloc, wanted(files, "text")?)?;
        let fails = fails_of(alloc, content(files, "fails").unwrap_or(b""))?;
        let ones = ones_of(alloc, content(files, "ones").unwrap_or(b""))?;
        Ok(Case {
            commands,
            statuses,
            text,
            fails,
            ones,
        })
    }
}

/// What the file of this name holds.
pub fn content<'a>(files: &'a [NamedFile], name: &str) -> Option<&'a [u8]> {
    let (_, bytes) = files.iter().find(|file| file.0.as_str() == name)?;
    Some(bytes.as_slice())
}

fn wanted<'a>(files: &'a [NamedFile], name: &'static str) -> Result<&'a [u8], CaseErr> {
    content(files, name).ok_or(CaseErr::Unreadable(name))
}

// The lines of a text, whose last line feed begins none.
fn lines_of<'a>(alloc: Global, text: &'a [u8]) -> Result<Vec<&'a [u8]>, CaseErr> {
    let mut lines = Vec::new(alloc);
    if text.is_empty() {
        return Ok(lines);
    }
    let whole = text.strip_suffix(b"\n").unwrap_or(text);
    for line in whole.split(|byte| *byte == b'\n') {
        lines.push(line)?;
    }
    Ok(lines)
}

// The commands, one a line. An empty line has no words.
fn commands_of(alloc: Global, text: &[u8]) -> Result<Vec<Vec<String>>, CaseErr> {
    let mut commands = Vec::new(alloc);
    for line in lines_of(alloc, text)? {
        commands.push(words_of(alloc, line)?)?;
    }
    Ok(commands)
}

fn words_of(alloc: Global, line: &[u8]) -> Result<Vec<String>, CaseErr> {
    let mut words = Vec::new(alloc);
    if line.is_empty() {
        return Ok(words);
    }
    let Ok(line) = std::str::from_utf8(line) else {
        return Err(CaseErr::Unreadable("words"));
    };
    for word in line.split(' ') {
        words.push(String::from_str(alloc, word)?)?;
    }
    Ok(words)
}

fn numbers_of(alloc: Global, text: &[u8]) -> Result<Vec<u64>, CaseErr> {
    let mut numbers = Vec::new(alloc);
    for line in lines_of(alloc, text)? {
        let number = number(line).ok_or(CaseErr::Unreadable("status"))?;
        numbers.push(u64::from(number))?;
    }
    Ok(numbers)
}

// Each line of `fails` names an object and a call of it, the tickets that are left, or the room of the sink.
fn fails_of(alloc: Global, text: &[u8]) -> Result<Fails, CaseErr> {
    let mut fails = Fails {
        files: Vec::new(alloc),
        site_a: Vec::new(alloc),
        site_b: Vec::new(alloc),
        desk: Vec::new(alloc),
        tickets: 1 << 40,
        sink: Vec::new(alloc),
        room: 100_000,
    };
    for line in lines_of(alloc, text)? {
        let (object, call) = parted(line).ok_or(CaseErr::Unreadable("fails"))?;
        match object {
            "files" => fails.files.push(u64::from(call))?,
            "site a" => fails.site_a.push(u64::from(call))?,
            "site b" => fails.site_b.push(u64::from(call))?,
            "desk" => fails.desk.push(u64::from(call))?,
            "tickets" => fails.tickets = u64::from(call),
            "sink" => fails.sink.push(u64::from(call))?,
            "room" => fails.room = call as usize,
            _ => return Err(CaseErr::Unreadable("fails")),
        }
    }
    Ok(fails)
}

// A line up to its last blank, and the number behind it.
fn parted(line: &[u8]) -> Option<(&str, u32)> {
    let (object, call) = std::str::from_utf8(line).ok()?.rsplit_once(' ')?;
    Some((object, number(call.as_bytes())?))
}

// Each line of `ones` is a ticket, a unit, and how many words of their section are ones.
fn ones_of(alloc: Global, text: &[u8]) -> Result<Vec<Ones>, CaseErr> {
    let mut sections = Vec::new(alloc);
    for line in lines_of(alloc, text)? {
        sections.push(section_of(line).ok_or(CaseErr::Unreadable("ones"))?)?;
    }
    Ok(sections)
}

fn section_of(line: &[u8]) -> Option<Ones> {
    let mut fields = line.split(|byte| *byte == b' ');
    Some(Ones {
        ticket: u64::from(number(fields.next()?)?),
        unit: u64::from(number(fields.next()?)?),
        count: number(fields.next()?)?,
    })
}

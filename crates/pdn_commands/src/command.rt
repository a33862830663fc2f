//! The words of the command line.
ghost use Rattle.std.specs.Prelude.{◌≡◌, ◌≤◌, ◌∷◌, Some, map, length, IfSome, IsTrue};
ghost use Rattle.std.specs.Char.{is_ascii_digit};
ghost use Rattle.std.specs.List.{list_all};
ghost use Rattle.std.specs.String.{string_bytes};
ghost use Rattle.std.specs.Option.{option_map};
ghost use Rattle.pdn_base.specs.Numbers.{value_of};
ghost use Rattle.pdn_commands.specs.Commands.{task_of, run_task, show_task, check_task, twin_task, load_task, generate_task, size_of, seed_of, patients_of, workers_of, shown_of, site_of, batch_of, seen};
ghost use Rattle.pdn_query.specs.Showing.{parties_of};

use crate::load::BatchFile;
use pdn_base::{Site, number};
use pdn_gen::Size;
use pdn_query::{Show, Workers};

/// What a command line asks for.
#[derive(Clone, Copy, Debug)]
pub enum Command<'a> {
    /// `run <sqlfile> <workers>`, and behind it `show <a, b, broker or all>`
    Run {
        file: &'a str,
        workers: Workers,
        show: Option<Show>,
    },
    /// `check <sqlfile>`
    Check {
        file: &'a str,
    },
    /// `twin <a or b> <sqlfile> <folder> <workers>`
    Twin {
        site: Site,
        file: &'a str,
        folder: &'a str,
        workers: Workers,
    },
    /// `load <a or b> <table> <batch> <csvfile>`
    Load(Site, BatchFile<'a>),
    /// `gen <seed> <patients> <workers>`
    Generate(Size, Workers),
}

/// What the words ask for, where they are in the table of commands.
pub fn read_command(words: &[String]) -> Option<Command<'_>>
    ensures { option_map seen result ≡ task_of (map string_bytes words.now) }
{
    let Some((verb, rest)) = words.split_first() else {
        return None;
    };
    match verb.as_str() {
        "run" => read_run(rest),
        "load" => read_load(rest),
        "check" => read_check(rest),
        "twin" => read_twin(rest),
        "gen" => read_generate(rest),
        _ => None,
    }
}

fn read_run(words: &[String]) -> Option<Command<'_>>
    ensures { option_map seen result ≡ run_task (map string_bytes words.now) }
{
    match words {
        [file, workers] => Some(Command::Run {
            file: file.as_str(),
            workers: read_workers(workers.as_bytes())?,
            show: None,
        }),
        [file, workers, verb, word] => {
            read_shown(
                file.as_str(),
                workers.as_bytes(),
                verb.as_str(),
                word.as_str(),
            )
        }
        _ => None,
    }
}

fn read_shown<'a>(file: &'a str, workers: &[u8], verb: &str, word: &str) -> Option<Command<'a>>
    ensures { option_map seen result ≡ show_task file.now workers.now verb.now word.now }
{
    if verb != "show" {
        return None;
    }
    Some(Command::Run {
        file,
        workers: read_workers(workers)?,
        show: Some(read_show(word)?),
    })
}

// Whose views are shown.
fn read_show(word: &str) -> Option<Show>
    ensures { option_map (λ show. parties_of (Some show)) result ≡ shown_of word.now }
{
    match word {
        "a" => Some(Show::A),
        "b" => Some(Show::B),
        "broker" => Some(Show::Broker),
        "all" => Some(Show::All),
        _ => None,
    }
}

fn read_check(words: &[String]) -> Option<Command<'_>>
    ensures { option_map seen result ≡ check_task (map string_bytes words.now) }
{
    match words {
        [file] => Some(Command::Check {
            file: file.as_str(),
        }),
        _ => None,
    }
}

fn read_twin(words: &[String]) -> Option<Command<'_>>
    ensures { option_map seen result ≡ twin_task (map string_bytes words.now) }
{
    match words {
        [site, file, folder, workers] => Some(Command::Twin {
            site: read_site(site.as_str())?,
            file: file.as_str(),
            folder: folder.as_str(),
            workers: read_workers(workers.as_bytes())?,
        }),
        _ => None,
    }
}

fn read_load(words: &[String]) -> Option<Command<'_>>
    ensures { option_map seen result ≡ load_task (map string_bytes words.now) }
{
    match words {
        [site, table, batch, file] => {
            let site = read_site(site.as_str())?;
            let batch = BatchFile {
                table: table.as_str(),
                number: read_batch(batch.as_bytes())?,
                file: file.as_str(),
            };
            Some(Command::Load(site, batch))
        }
        _ => None,
    }
}

fn read_generate(words: &[String]) -> Option<Command<'_>>
    ensures { option_map seen result ≡ generate_task (map string_bytes words.now) }
{
    match words {
        [seed, patients, workers] => {
            let size = read_size(seed.as_bytes(), patients.as_bytes())?;
            let workers = read_workers(workers.as_bytes())?;
            Some(Command::Generate(size, workers))
        }
        _ => None,
    }
}

fn read_size(seed: &[u8], patients: &[u8]) -> Option<Size>
    ensures { option_map (λ size. (size.seed, size.patients)) result
        ≡ size_of seed.now patients.now }
{
    Some(Size {
        seed: read_seed(seed)?,
        patients: read_patients(patients)?,
    })
}

// 0 to 2^32 - 1, without a leading zero.
fn read_seed(word: &[u8]) -> Option<u32>
    ensures { result ≡ seed_of word.now }
{
    let seed = number(word)?;
    if word.len() > 1 && word[0] == b'0' {
        return None;
    }
    Some(seed)
}

// 1 to 100, without a leading zero.
fn read_patients(word: &[u8]) -> Option<u64>
    ensures is { result ≡ patients_of word.now }
    ensures few { IfSome result (λ patients. patients ≤ 100) }
{
    let patients = number(word)?;
    if patients < 1 || patients > 100 || word[0] == b'0' {
        return None;
    }
    Some(u64::from(patients))
}

fn read_site(word: &str) -> Option<Site>
    ensures { result ≡ site_of word.now }
{
    match word {
        "a" => Some(Site::A),
        "b" => Some(Site::B),
        _ => None,
    }
}

fn read_workers(word: &[u8]) -> Option<Workers>
    ensures { option_map (λ workers. workers.count) result ≡ workers_of word.now }
{
    let count = number(word)?;
    if count < 1 || count > 16 || word[0] == b'0' {
        return None;
    }
    Some(Workers { count })
}

// The number of a batch: 0 to 2^64 - 1, without a leading zero.
fn read_batch(word: &[u8]) -> Option<u64>
    ensures { result ≡ batch_of word.now }
{
    if word.is_empty()
        || word.len() > 20
        || !all_digits(word)
        || (word.len() > 1 && word[0] == b'0')
    {
        return None;
    }
    let value = value(word);
    if value > u128::from(u64::MAX) {
        return None;
    }
    Some(value as u64)
}

fn all_digits(bytes: &[u8]) -> bool
    ensures { result ≡ list_all is_ascii_digit bytes.now }
{
    bytes.iter().all(|byte| byte.is_ascii_digit())
}

fn value(digits: &[u8]) -> u128
    requires few { length digits.now ≤ 20 }
    requires digits { IsTrue (list_all is_ascii_digit digits.now) }
    ensures { result ≡ value_of digits.now }
{
    let mut value = 0;
    for digit in digits {
        value = value * 10 + u128::from(*digit - b'0');
    }
    value
}

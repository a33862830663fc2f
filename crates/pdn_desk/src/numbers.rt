//! The numbers with which a desk is started.
ghost use Rattle.std.specs.Prelude.{◌≡◌, ◌≤◌, map, IfSome};
ghost use Rattle.std.specs.Option.{option_map};
ghost use Rattle.std.specs.String.{string_bytes};
ghost use Rattle.pdn_desk.specs.Starting.{has_no_zero_first, number_within, numbers_by, numbers_of, seen};

use pdn_base::number;
use pdn_query::Workers;

/// The port to listen on, 1 to 65535, how many workers answer a query, and how many connections are served, at most 65535.
#[derive(Clone, Copy, Debug)]
pub(crate) struct Numbers {
    pub(crate) port: u16,
    pub(crate) workers: Workers,
    pub(crate) connections: u32,
}

/// The numbers that the words of a command line say, where they do.
pub(crate) fn numbers_of(words: &[String]) -> Option<Numbers>
    ensures { option_map seen result ≡ numbers_of (map string_bytes words.now) }
{
    match words {
        [port, workers, connections] => {
            numbers_by(port.as_bytes(), workers.as_bytes(), connections.as_bytes())
        }
        _ => None,
    }
}

fn numbers_by(port: &[u8], workers: &[u8], connections: &[u8]) -> Option<Numbers>
    ensures { option_map seen result ≡ numbers_by (number_within 1 65535 port.now)
        (number_within 1 16 workers.now) (number_within 0 65535 connections.now) }
{
    Some(Numbers {
        port: port_of(port)?,
        workers: workers_of(workers)?,
        connections: number_within(0, 65535, connections)?,
    })
}

fn port_of(word: &[u8]) -> Option<u16>
    ensures { result ≡ number_within 1 65535 word.now }
{
    let port = number_within(1, 65535, word)?;
    Some(port as u16)
}

fn workers_of(word: &[u8]) -> Option<Workers>
    ensures { option_map (λ workers. workers.count) result ≡ number_within 1 16 word.now }
{
    let count = number_within(1, 16, word)?;
    Some(Workers { count })
}

/// The number that a word says, from `least` to `most`, without a zero first.
#[tactic(auto, unfolding(crate::specs::Starting::number_within))]
fn number_within(least: u32, most: u32, word: &[u8]) -> Option<u32>
    ensures is { result ≡ number_within least most word.now }
    ensures within { IfSome result (λ n. (least ≤ n) × (n ≤ most)) }
{
    let n = number(word)?;
    if least <= n && n <= most && has_no_zero_first(word) {
        return Some(n);
    }
    None
}

fn has_no_zero_first(word: &[u8]) -> bool
    ensures { result ≡ has_no_zero_first word.now }
{
    word.len() <= 1 || word[0] != b'0'
}

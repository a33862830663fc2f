//! A dealer of ChaCha20 words.
ghost use Rattle.std.specs.Prelude.{◌≡◌, ℕ, IfOk};
ghost use Rattle.pdn_dealer.specs.Tapes.{first_words, chacha_tape};

use crate::{Deal, Section};
use pdn_base::{Memory, Word};
use rand_chacha::ChaCha20Rng;
use rand_core::SeedableRng;
use rand_core::utils::next_u64_via_u32;
use std::alloc::Global;
use std::marker::Model;

/// Deals the key stream of ChaCha20 (RFC 8439 with a 64-bit block counter and a 64-bit stream number): the ticket
/// is the number of the stream, and word p of a unit has as its low half the stream's word at place
/// unit · 2^32 + 2p, modulo 2^68, and as its high half the next one.
#[derive(Drop)]
pub struct ChaChaDeal {
    key: [u8; 32],
}

impl Model for ChaChaDeal {
    ghost use Rattle.std.specs.Prelude.{ℕ, List};

    ghost Value = { List ℕ };

    ghost view = { λ d. d.key };
}

impl ChaChaDeal {
    /// The dealer of a key. Whoever knows the key knows all words.
    pub fn new(key: [u8; 32]) -> ChaChaDeal
        ensures { result ≡ key }
    {
        ChaChaDeal { key }
    }
}

impl Deal for ChaChaDeal {
    ghost tape = { λ d. chacha_tape d };

    fn section(&self, alloc: Global, ticket: u64, unit: u64, len: u64) -> Result<Section, Memory> {
        let words = chacha_words(alloc, self.key, ticket, unit, len)?;
        Ok(Section::from_words(words))
    }
}

fn chacha_words(
    alloc: Global,
    key: [u8; 32],
    ticket: u64,
    unit: u64,
    len: u64,
) -> Result<Vec<Word>, Memory>
    ensures { IfOk result (λ words. words.items ≡ first_words (chacha_tape key ticket unit) len) }
{
    let mut stream = ChaCha20Rng::from_seed(key);
    stream.set_stream(ticket);
    stream.set_word_pos(u128::from(unit) * 4_294_967_296);
    let mut words = Vec::with_capacity(alloc, len as usize)?;
    for _ in 0..len {
        words.push(Word::from_u64(next_u64_via_u32(&mut stream)))?;
    }
    Ok(words)
}

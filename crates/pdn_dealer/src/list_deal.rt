//! A dealer of given words.
ghost use Rattle.std.specs.Prelude.{◌≡◌, ℕ, ◌==◌, ◌&&◌, IfOk, map, slice_index};
ghost use Rattle.pdn_dealer.specs.Tapes.{first_words, entry_of, words_for, list_tape};

use crate::{Deal, Section};
use pdn_base::{Memory, Word};
use std::alloc::Global;
use std::marker::Model;

/// Deals given words. An entry is a ticket, a unit and the first words of their section; all other words are zero.
#[derive(Drop)]
pub struct ListDeal {
    entries: Vec<(u64, u64, Vec<Word>)>,
}

impl Model for ListDeal {
    ghost use Rattle.std.specs.Prelude.{List, map};
    ghost use Rattle.pdn_dealer.specs.Tapes.{Entry, entry_of};

    ghost Value = { List Entry };

    ghost view = { λ d. map entry_of d.entries.items };
}

impl ListDeal {
    /// The dealer of these entries. Of two for one ticket and unit the first counts.
    pub fn new(entries: Vec<(u64, u64, Vec<Word>)>) -> ListDeal
        ensures { result ≡ map entry_of entries.items }
    {
        ListDeal { entries }
    }

    fn words_for(&self, ticket: u64, unit: u64) -> &[Word]
        ensures { result.now ≡ words_for self.now ticket unit }
    {
        for entry in &self.entries {
            if is_for(entry, ticket, unit) {
                return entry.2.as_slice();
            }
        }
        &[]
    }
}

fn is_for(entry: &(u64, u64, Vec<Word>), ticket: u64, unit: u64) -> bool
    ensures { result ≡ (entry.now.0 == ticket && entry.now.1 == unit) }
{
    entry.0 == ticket && entry.1 == unit
}

impl Deal for ListDeal {
    ghost tape = { λ d. list_tape d };

    fn section(&self, alloc: Global, ticket: u64, unit: u64, len: u64) -> Result<Section, Memory> {
        let given = self.words_for(ticket, unit);
        let words = padded(alloc, given, len)?;
        Ok(Section::from_words(words))
    }
}

// The first words of a list, and zero past its end.
fn padded(alloc: Global, given: &[Word], len: u64) -> Result<Vec<Word>, Memory>
    ensures { IfOk result (λ words. words.items ≡ first_words (slice_index given.now) len) }
{
    let mut words = Vec::with_capacity(alloc, len as usize)?;
    for place in 0..len {
        words.push(word_or_zero(given, place))?;
    }
    Ok(words)
}

fn word_or_zero(given: &[Word], place: u64) -> Word
    ensures { result ≡ slice_index given.now place }
{
    let place = place as usize;
    if place < given.len() {
        given[place]
    } else {
        Word::from_u64(0)
    }
}

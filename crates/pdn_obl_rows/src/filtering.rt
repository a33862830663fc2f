//! The rows of a list that meet a condition.
ghost use Rattle.std.specs.Prelude.{◌<◌, length};
ghost use Rattle.std.specs.List.{All, range_with_len};
ghost use Rattle.pdn_circuit.specs.Blocks.{each};
ghost use Rattle.pdn_circuit.specs.Building.{GivesGate, GivesGates, Tries, TriesList};
ghost use Rattle.pdn_obl_rows.specs.Lists.{words_for};
ghost use Rattle.pdn_obl_rows.specs.Conditions.{CondFits};
ghost use Rattle.pdn_obl_rows.specs.Operators.{IsThere, GivesList, filter_word, filter_gates};

use crate::Padded;
use crate::conditions::{clauses, cond_gate};
use pdn_base::{Clause, Cond};
use pdn_circuit::{BuildErr, Builder};
use std::alloc::Global;

/// The list with those of its valid rows that meet the condition.
pub fn filter(
    alloc: Global,
    b: &mut Builder,
    list: &Padded,
    cond: &Cond,
) -> Result<Padded, BuildErr>
    requires there { IsThere b.old list.now }
    requires fits { CondFits list.now.kinds cond.now }
    ensures made { Tries b.old b.new (filter_gates list.now cond.now) result }
    ensures there { GivesList b.new result }
{
    let valid = filter_words(alloc, b, list, clauses(cond))?;
    match list.with_valid(alloc, valid) {
        Ok(out) => Ok(out),
        Err(_) => Err(BuildErr::Memory),
    }
}

/// The valid plane, word by word.
fn filter_words(
    alloc: Global,
    b: &mut Builder,
    list: &Padded,
    clauses: &[Clause],
) -> Result<Vec<u32>, BuildErr>
    requires there { IsThere b.old list.now }
    requires fits { CondFits list.now.kinds clauses.now }
    ensures made { TriesList b.old b.new
        (each (filter_word list.now clauses.now)
        (range_with_len 0 (length list.now.valid))) result }
    ensures there { GivesGates b.new result }
{
    let mut words = Vec::new(alloc);
    for j in 0..list.valid().len() {
        let word = filter_word(alloc, b, list, clauses, j)?;
        words.push(word)?;
    }
    Ok(words)
}

fn filter_word(
    alloc: Global,
    b: &mut Builder,
    list: &Padded,
    clauses: &[Clause],
    word: usize,
) -> Result<u32, BuildErr>
    requires there { IsThere b.old list.now }
    requires fits { CondFits list.now.kinds clauses.now }
    requires word { word < words_for list.now.len }
    ensures made { Tries b.old b.new (filter_word list.now clauses.now word) result }
    ensures there { GivesGate b.new result }
{
    let meets = cond_gate(alloc, b, list, word, clauses)?;
    b.and(list.valid()[word], meets)
}

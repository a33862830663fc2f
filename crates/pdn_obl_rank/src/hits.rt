//! One row against the words of a list.
ghost use Rattle.std.specs.Prelude.{◌≡◌, ◌<◌, [], length, slice_index_or, IfOk};
ghost use Rattle.std.specs.List.{All};
ghost use Rattle.pdn_circuit.specs.Building.{Builds, GivesGate, GivesGates, Tries, TriesList};
ghost use Rattle.pdn_circuit.specs.Compare.{equal_gates, less_gates};
ghost use Rattle.pdn_obl_group.specs.Loops.{each_word};
ghost use Rattle.pdn_obl_rank.specs.Keys.{planes_up, planes_down, word_columns};
ghost use Rattle.pdn_obl_rank.specs.Numbers.{hit_gates, against_gates};
ghost use Rattle.pdn_obl_rank.specs.Building.{TriesItems, RankedThere, LanesThere, GatesThere, PlanesThere, ColumnsReach, columns_width};

use crate::column::{Column, Number, bits_of};
use crate::numbers::{from_place, planes_down, planes_up, word_columns};
use pdn_circuit::{BuildErr, Builder};
use std::alloc::{AllocError, Global};
use std::marker::Model;

/// What is numbered: the valid plane, the columns that are compared, and the places among them of the partition and of the sort
/// key, the most significant column first.
#[derive(Debug, Drop)]
pub struct Compared {
    pub valid: Vec<u32>,
    pub columns: Vec<Column>,
    pub partition: Vec<u32>,
    pub key: Vec<u32>,
}

impl Model for Compared {
    ghost use Rattle.pdn_obl_rank.specs.Numbers.{Ranked};

    ghost Value = { Ranked };

    ghost view = { λ r. record { valid = r.valid.items; columns = r.columns.items; partition = r.partition.items; key = r.key.items } };
}

/// One row's lanes in every lane of a word: its valid lane, those of the partition and those of the sort key.
#[derive(Debug, Drop)]
pub struct Lanes {
    pub valid: u32,
    pub part: Vec<u32>,
    pub key: Vec<u32>,
}

impl Model for Lanes {
    ghost use Rattle.pdn_obl_rank.specs.Numbers.{RowLanes};

    ghost Value = { RowLanes };

    ghost view = { λ l. record { valid = l.valid; part = l.part.items; key = l.key.items } };
}

impl Compared {
    pub fn valid(&self) -> &[u32]
        ensures { result.now ≡ self.now.valid }
    {
        self.valid.as_slice()
    }

    pub fn columns(&self) -> &[Column]
        ensures { result.now ≡ self.now.columns }
    {
        self.columns.as_slice()
    }

    pub fn partition(&self) -> &[u32]
        ensures { result.now ≡ self.now.partition }
    {
        self.partition.as_slice()
    }

    pub fn key(&self) -> &[u32]
        ensures { result.now ≡ self.now.key }
    {
        self.key.as_slice()
    }
}

impl Lanes {
    fn part(&self) -> &[u32]
        ensures { result.now ≡ self.now.part }
    {
        self.part.as_slice()
    }

    fn key(&self) -> &[u32]
        ensures { result.now ≡ self.now.key }
    {
        self.key.as_slice()
    }
}

/// A word's planes of the partition.
fn word_part(alloc: Global, compared: &Compared, word: usize) -> Result<Vec<u32>, AllocError>
    requires word { ColumnsReach word compared.now.columns }
    requires places { All (λ place. place < length compared.now.columns) compared.now.partition }
    ensures { IfOk result (λ planes. planes.items
        ≡ planes_up (word_columns compared.now.columns word compared.now.partition)) }
{
    let numbers = word_columns(alloc, compared.columns(), compared.partition(), word)?;
    planes_up(alloc, numbers.as_slice())
}

/// A word's planes of the sort key.
fn word_key(alloc: Global, compared: &Compared, word: usize) -> Result<Vec<u32>, AllocError>
    requires word { ColumnsReach word compared.now.columns }
    requires places { All (λ place. place < length compared.now.columns) compared.now.key }
    ensures { IfOk result (λ planes. planes.items
        ≡ planes_down (word_columns compared.now.columns word compared.now.key)) }
{
    let numbers = word_columns(alloc, compared.columns(), compared.key(), word)?;
    planes_down(alloc, numbers.as_slice())
}

/// The rows of a word that are of a row's partition.
fn same_gate(
    alloc: Global,
    b: &mut Builder,
    compared: &Compared,
    part: &[u32],
    word: usize,
) -> Result<u32, BuildErr>
    requires there { RankedThere (length b.old.gates) compared.now }
    requires word { word < length compared.now.valid }
    requires part { GatesThere (length b.old.gates) part.now }
    requires wide { length part.now ≡ columns_width compared.now.columns compared.now.partition }
    ensures made { Builds b.old b.new
        (equal_gates part.now
        (planes_up (word_columns compared.now.columns word compared.now.partition))) result }
    ensures there { GivesGate b.new result }
{
    let planes = word_part(alloc, compared, word)?;
    b.equal(part, planes.as_slice())
}

/// The rows of a word whose key is greater than a row's; where it is equal, those of `ties`.
fn before_gate(
    alloc: Global,
    b: &mut Builder,
    compared: &Compared,
    ties: u32,
    key: &[u32],
    word: usize,
) -> Result<u32, BuildErr>
    requires there { RankedThere (length b.old.gates) compared.now }
    requires word { word < length compared.now.valid }
    requires ties { ties < length b.old.gates }
    requires key { GatesThere (length b.old.gates) key.now }
    requires wide { length key.now ≡ columns_width compared.now.columns compared.now.key }
    ensures made { Builds b.old b.new
        (less_gates ties key.now
        (planes_down (word_columns compared.now.columns word compared.now.key))) result }
    ensures there { GivesGate b.new result }
{
    let planes = word_key(alloc, compared, word)?;
    b.less(ties, key, planes.as_slice())
}

/// The rows of a word at which a row counts: those of its partition that come after it, or are equal and not earlier.
fn hit(
    alloc: Global,
    b: &mut Builder,
    compared: &Compared,
    lanes: &Lanes,
    row: u32,
    word: usize,
) -> Result<u32, BuildErr>
    requires there { RankedThere (length b.old.gates) compared.now }
    requires word { word < length compared.now.valid }
    requires lanes { LanesThere (length b.old.gates) compared.now lanes.now }
    ensures made { Tries b.old b.new (hit_gates compared.now lanes.now.valid lanes.now.part
        lanes.now.key row word) result }
    ensures there { GivesGate b.new result }
{
    let same = same_gate(alloc, b, compared, lanes.part(), word)?;
    let ties = b.constant(from_place(row, word))?;
    let before = before_gate(alloc, b, compared, ties, lanes.key(), word)?;
    let both = b.and(same, before)?;
    b.and(lanes.valid, both)
}

/// A word's counter, once a row was counted.
fn against(
    alloc: Global,
    b: &mut Builder,
    compared: &Compared,
    lanes: &Lanes,
    row: u32,
    word: usize,
    counter: &[u32],
) -> Result<Number, BuildErr>
    requires there { RankedThere (length b.old.gates) compared.now }
    requires word { word < length compared.now.valid }
    requires lanes { LanesThere (length b.old.gates) compared.now lanes.now }
    requires counter { GatesThere (length b.old.gates) counter.now }
    ensures made { Tries b.old b.new (against_gates compared.now lanes.now.valid lanes.now.part
        lanes.now.key row word counter.now) result }
    ensures there { IfOk result (λ counter. GatesThere (length b.new.gates) counter) }
{
    let hit = hit(alloc, b, compared, lanes, row, word)?;
    let bits = b.add_bit(counter, hit)?;
    Ok(Number { bits })
}

fn against_word(
    alloc: Global,
    b: &mut Builder,
    compared: &Compared,
    lanes: &Lanes,
    row: u32,
    word: usize,
    counters: &[Number],
) -> Result<Number, BuildErr>
    requires there { RankedThere (length b.old.gates) compared.now }
    requires word { word < length compared.now.valid }
    requires lanes { LanesThere (length b.old.gates) compared.now lanes.now }
    requires counters { PlanesThere (length b.old.gates) counters.now }
    requires count { length counters.now ≡ length compared.now.valid }
    ensures made { Tries b.old b.new (against_gates compared.now lanes.now.valid lanes.now.part
        lanes.now.key row word (slice_index_or counters.now word [])) result }
    ensures there { IfOk result (λ counter. GatesThere (length b.new.gates) counter) }
{
    against(
        alloc,
        b,
        compared,
        lanes,
        row,
        word,
        bits_of(&counters[word]),
    )
}

/// Each word's counter, once a row was counted.
pub fn against_words(
    alloc: Global,
    b: &mut Builder,
    compared: &Compared,
    lanes: &Lanes,
    row: u32,
    counters: &[Number],
) -> Result<Vec<Number>, BuildErr>
    requires there { RankedThere (length b.old.gates) compared.now }
    requires lanes { LanesThere (length b.old.gates) compared.now lanes.now }
    requires counters { PlanesThere (length b.old.gates) counters.now }
    requires count { length counters.now ≡ length compared.now.valid }
    ensures made { TriesItems b.old b.new
        (each_word [] (against_gates compared.now lanes.now.valid lanes.now.part lanes.now.key row)
        counters.now) result }
    ensures there { IfOk result (λ counters. PlanesThere (length b.new.gates) counters.items) }
{
    let mut more = Vec::new(alloc);
    for word in 0..counters.len() {
        let counter = against_word(alloc, b, compared, lanes, row, word, counters)?;
        more.push(counter)?;
    }
    Ok(more)
}

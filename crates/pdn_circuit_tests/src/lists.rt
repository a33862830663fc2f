//! Lists of input words, the words of their rows, and what a circuit makes of them.
ghost use Rattle.std.specs.Prelude.{◌≡◌, ◌<◌, ◌≤◌, ◌∷◌, [], length, IfOk};
ghost use Rattle.std.specs.List.{All};
ghost use Rattle.pdn_base.specs.declared.marks.Kind.TheVariants as kind;
ghost use Rattle.pdn_obl_rows.specs.Lists.{IsShaped, widths, words_for};
ghost use Rattle.pdn_obl_rows.specs.Operators.{IsThere};

use pdn_base::{Kind, Site, Word};
use pdn_circuit::{BuildErr, Builder, Circuit, Inputs, eval};
use pdn_obl_rows::{Padded, Plane, words_for};
use std::alloc::Global;
use std::test::Fail;

/// As many input words of site A as a plane has.
fn input_plane(alloc: Global, b: &mut Builder, len: u32) -> Result<Vec<u32>, Fail>
    ensures longer { length b.old.gates ≤ length b.new.gates }
    ensures count { IfOk result (λ words. length words.items ≡ words_for len) }
    ensures there { IfOk result (λ words. All (λ gate. gate < length b.new.gates) words.items) }
{
    let mut words = Vec::new(alloc);
    for _ in 0..words_for(len) {
        words.push(b.input(Site::A)?)?;
    }
    Ok(words)
}

/// The next input words of site A as a list.
fn input_list(
    alloc: Global,
    b: &mut Builder,
    kinds: Vec<Kind>,
    planes: usize,
    len: u32,
) -> Result<Padded, Fail>
    requires { planes ≡ widths kinds.items }
    ensures longer { length b.old.gates ≤ length b.new.gates }
    ensures there { IfOk result (λ list. IsThere b.new list) }
    ensures len { IfOk result (λ list. list.len ≡ len) }
    ensures kinds { IfOk result (λ list. list.kinds ≡ kinds.items) }
    ensures shaped { IfOk result (λ list. IsShaped list) }
{
    let valid = input_plane(alloc, b, len)?;
    let mut all = Vec::new(alloc);
    for _ in 0..planes {
        let words = input_plane(alloc, b, len)?;
        all.push(Plane { words })?;
    }
    Ok(Padded::of(len, valid, kinds, all))
}

/// The next input words of site A as a list of numbers.
pub fn numbers_list(alloc: Global, b: &mut Builder, len: u32) -> Result<Padded, Fail>
    ensures longer { length b.old.gates ≤ length b.new.gates }
    ensures there { IfOk result (λ list. IsThere b.new list) }
    ensures len { IfOk result (λ list. list.len ≡ len) }
    ensures kinds { IfOk result (λ list. list.kinds ≡ kind.Int ∷ []) }
    ensures shaped { IfOk result (λ list. IsShaped list) }
{
    input_list(alloc, b, vec![in alloc; Kind::Int]?, 32, len)
}

/// The next input words of site A as a list of two numbers a row.
pub fn pairs_list(alloc: Global, b: &mut Builder, len: u32) -> Result<Padded, Fail>
    ensures longer { length b.old.gates ≤ length b.new.gates }
    ensures there { IfOk result (λ list. IsThere b.new list) }
    ensures len { IfOk result (λ list. list.len ≡ len) }
    ensures kinds { IfOk result (λ list. list.kinds ≡ kind.Int ∷ kind.Int ∷ []) }
{
    input_list(alloc, b, vec![in alloc; Kind::Int, Kind::Int]?, 64, len)
}

/// A row of a list: its place, and its two numbers, of which a list of one column has the first.
pub type Placed = (usize, u32, u32);

/// The numbers of the row in this lane of a word, if there is one.
fn placed(rows: &[Placed], word: usize, lane: usize) -> Option<(u32, u32)> {
    rows.iter()
        .find(|(row, _, _)| *row / 64 == word && *row % 64 == lane)
        .map(|(_, first, second)| (*first, *second))
}

/// A word of the valid plane.
fn valid_word(rows: &[Placed], word: usize) -> Word {
    let mut lanes = 0u64;
    for lane in (0..64).rev() {
        lanes = (lanes << 1) | u64::from(placed(rows, word, lane).is_some());
    }
    Word::from_u64(lanes)
}

/// A bit of a column of a word's rows; in the lanes of no row that of the rubbish.
fn number_word(rows: &[Placed], rubbish: u32, column: usize, bit: u32, word: usize) -> Word
    requires { bit < 32 }
{
    let mut lanes = 0u64;
    for lane in (0..64).rev() {
        let (first, second) = placed(rows, word, lane).unwrap_or((rubbish, rubbish));
        let number = if column == 0 { first } else { second };
        lanes = (lanes << 1) | u64::from((number >> bit) & 1);
    }
    Word::from_u64(lanes)
}

/// The words of a list of so many columns of numbers, of which these rows are there.
pub fn words_with(
    alloc: Global,
    len: u32,
    columns: usize,
    rubbish: u32,
    rows: &[Placed],
) -> Result<Vec<Word>, Fail> {
    let mut words = Vec::new(alloc);
    for word in 0..words_for(len) {
        words.push(valid_word(rows, word))?;
    }
    for column in 0..columns {
        for bit in 0..32 {
            for word in 0..words_for(len) {
                words.push(number_word(rows, rubbish, column, bit, word))?;
            }
        }
    }
    Ok(words)
}

/// The words of all gates on these inputs, which are as many as the circuit takes.
pub fn words_on(alloc: Global, circuit: &Circuit, inputs: &Inputs) -> Result<Vec<Word>, Fail> {
    let a = circuit.input_count(Site::A) == inputs.a.len();
    let b = circuit.input_count(Site::B) == inputs.b.len();
    let given = circuit.given_count() == inputs.given.len();
    if !a || !b || !given {
        return Err(Fail::new("the circuit takes other words"));
    }
    Ok(eval(alloc, circuit, inputs)?)
}

/// Input words of site A alone.
pub fn of_a(alloc: Global, a: Vec<Word>) -> Inputs {
    Inputs {
        a,
        b: Vec::new(alloc),
        given: Vec::new(alloc),
    }
}

/// The words of all gates of a builder on these input words of site A.
pub fn words_of(alloc: Global, b: Builder, a: Vec<Word>) -> Result<Vec<Word>, Fail> {
    let circuit = b.finish(Vec::new(alloc), false);
    words_on(alloc, &circuit, &of_a(alloc, a))
}

/// A row's lane in a plane.
fn lane(words: &[Word], plane: &[u32], row: u32) -> u64 {
    let gate = plane
        .get((row / 64) as usize)
        .map_or(usize::MAX, |gate| *gate as usize);
    let word = words.get(gate).map_or(0, Word::to_u64);
    (word >> (row % 64)) & 1
}

/// The valid rows of a list of numbers as a text: each number behind a blank, and each row in front of a semicolon.
pub fn text_of(alloc: Global, words: &[Word], list: &Padded) -> Result<String, Fail> {
    let mut text = String::new(alloc);
    for row in 0..list.len() {
        if lane(words, list.valid(), row) == 0 {
            continue;
        }
        for column in list.planes().chunks(32) {
            let mut number = 0u64;
            for plane in column.iter().rev() {
                number = (number << 1) | lane(words, plane.words(), row);
            }
            text.push_str(&format!(in alloc; " {number}")?)?;
        }
        text.push(';')?;
    }
    Ok(text)
}

/// What an operator made of a list, whose words are these, as a text; or the limit that its gates pass.
pub fn told(
    alloc: Global,
    b: Builder,
    made: Result<Padded, BuildErr>,
    a: Vec<Word>,
) -> Result<String, Fail> {
    match made {
        Ok(out) => {
            let words = words_of(alloc, b, a)?;
            text_of(alloc, &words, &out)
        }
        Err(BuildErr::Full { limit }) => Ok(format!(in alloc; "limit {limit}")?),
        Err(BuildErr::Memory) => Ok(format!(in alloc; "memory")?),
    }
}

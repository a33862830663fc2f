//! The reading of a view as a machine: what may come next after the lines so far, and where a line leads.
ghost use Rattle.std.specs.Prelude.{◌≡◌, ◌+◌, ◌∷◌, ◌<◌, ◌^◌, ◌≤◌, [], length, Some, None, IfOk, OnOk, MatchBool, MatchOption, List};
ghost use Rattle.pdn_view.specs.declared.due.Due.{Due};
ghost use Rattle.pdn_view.specs.declared.due.Due.TheVariants.{Outputs};
ghost use Rattle.pdn_view.specs.Views.{part_of, words_of};
ghost use Rattle.pdn_view.specs.Lines.{segment_line, unit_line, own_mark, other_mark};
ghost use Rattle.pdn_view.specs.Guesses.{head_in, segment_in, counts_in};
ghost use Rattle.pdn_view.specs.Machine.{begins, body_of, with_dirs, next, next_unit, opens, begun, kept, closed, onto, view_of, add_own, add_other, add_gate, add_mask, lack, added, next_word, word_of, gate_of, checked, half, whole};

use crate::due::{Counts, Due, dues_of, first_number};
use crate::guesses::{counts_in, gate_in, head_in, segment_in};
use crate::lines::{put_end, put_gate_line, put_head, put_segment, put_unit, put_word_line};
use crate::view::{Party, UnitPart, View};
use crate::words::{word, word_in};
use pdn_base::{Memory, Site, Value, Word};
use pdn_gmw::{GateView, UnitView};
use pdn_site::SegDirs;
use std::alloc::Global;
use std::marker::Model;

/// Values. Contracts see the list of them.
#[derive(Drop)]
pub struct Values {
    pub values: Vec<Value>,
}

impl Model for Values {
    ghost use Rattle.std.specs.Prelude.{List};
    ghost use Rattle.pdn_base.specs.declared.value.Value.{Value as Cell};

    ghost Value = { List Cell };

    ghost view = { λ v. v.values.items };
}

/// The head of a view, and the segments that are whole.
#[derive(Drop)]
pub struct Opening {
    party: Party,
    ticket: u64,
    dirs: Vec<SegDirs>,
}

impl Model for Opening {
    ghost use Rattle.pdn_view.specs.Parts as parts;

    ghost Value = { parts.Opening };

    ghost view = { λ o. record { party = o.party; ticket = o.ticket; dirs = o.dirs.items } };
}

/// The units that are still due.
#[derive(Drop)]
pub struct Todo {
    dues: Vec<Due>,
    at: usize,
}

impl Model for Todo {
    ghost use Rattle.std.specs.Prelude.{List, drop, length, ◌≤◌};
    ghost use Rattle.pdn_view.specs.declared.due.Due.{Due};

    ghost Value = { List Due };

    ghost view = { λ t. drop t.at t.dues.items };

    ghost invariant = { λ t. t.at ≤ length t.dues.items };
}

/// The units of a view that are whole, those that are still due, and the number of the next one.
#[derive(Drop)]
pub struct Body {
    party: Party,
    ticket: u64,
    dirs: Vec<SegDirs>,
    units: Vec<UnitPart>,
    todo: Todo,
    number: u64,
}

impl Model for Body {
    ghost use Rattle.std.specs.Prelude.{map, length, ◌+◌, ◌<◌, ◌^◌};
    ghost use Rattle.pdn_view.specs.Views.{part_of};
    ghost use Rattle.pdn_view.specs.Parts as parts;

    ghost Value = { parts.Body };

    ghost view = { λ b. record {
      party = b.party;
      ticket = b.ticket;
      dirs = b.dirs.items;
      units = map part_of b.units.items;
      todo = b.todo;
      number = b.number;
    } };

    ghost invariant = { λ b. b.number + length b.todo < 2 ^ 64 };
}

/// A unit whose words are read, and how many its line says.
#[derive(Drop)]
pub struct Begun {
    due: Due,
    want: Counts,
    words: UnitView,
}

impl Model for Begun {
    ghost use Rattle.pdn_view.specs.Parts as parts;

    ghost Value = { parts.Begun };

    ghost view = { λ g. record { due = g.due; want = g.want; words = g.words } };
}

/// What was read so far: nothing; whole segments; these and A's line of one more; whole units and one whose words are read; or
/// all of a view.
#[derive(Drop)]
pub enum State {
    Begin,
    Segments(Opening),
    Half(Opening, Values),
    Words(Body, Begun),
    Closed(View),
}

impl Opening {
    // One segment more.
    fn add(&mut self, a: Values, b: Values) -> Result<(), Memory>
        ensures { OnOk result (self.new ≡ with_dirs self.old a b) }
    {
        self.dirs.push(SegDirs {
            a: a.values,
            b: b.values,
        })?;
        Ok(())
    }

    // The values of a site in the next segment, where the line says them.
    fn segment(
        &self,
        alloc: Global,
        site: Site,
        line: &[u8],
        text: &mut Vec<u8>,
    ) -> Result<Option<Values>, Memory>
        ensures { IfOk result (λ values. values ≡ checked
            (segment_line (length self.now.dirs) site) line.now (segment_in line.now)) }
    {
        let Some(values) = segment_in(alloc, line)? else {
            return Ok(None);
        };
        text.clear();
        let number = self.dirs.len() as u64;
        put_segment(alloc, text, number, site, values.values.as_slice())?;
        if text.as_slice() != line {
            return Ok(None);
        }
        Ok(Some(values))
    }

    // The units come next.
    fn into_body(self, alloc: Global) -> Result<Body, Memory>
        ensures { IfOk result (λ body. body ≡ body_of self) }
    {
        let number = first_number(alloc, self.party, self.dirs.as_slice())?;
        let dues = dues_of(alloc, self.party, self.dirs.as_slice())?;
        Ok(Body {
            party: self.party,
            ticket: self.ticket,
            dirs: self.dirs,
            units: Vec::new(alloc),
            todo: Todo { dues, at: 0 },
            number,
        })
    }
}

impl Todo {
    fn next(&mut self) -> Option<Due>
        ensures { MatchOption result ((self.old ≡ []) × (self.new ≡ self.old))
            (λ due. self.old ≡ due ∷ self.new) }
    {
        let due = *self.dues.get(self.at)?;
        self.at += 1;
        Some(due)
    }
}

impl Body {
    // The next unit.
    fn next(&mut self) -> Option<Due>
        ensures { MatchOption result ((self.old.todo ≡ []) × (self.new ≡ self.old))
            (λ due. (todo : List Due) × (self.old.todo ≡ due ∷ todo)
            × (self.new ≡ onto self.old todo)) }
    {
        let due = self.todo.next()?;
        self.number += 1;
        Some(due)
    }

    fn add(&mut self, begun: Begun) -> Result<(), Memory>
        ensures { OnOk result (self.new ≡ closed self.old begun) }
    {
        self.units.push(begun.into_part())?;
        Ok(())
    }

    fn into_view(self) -> View
        ensures { result ≡ view_of self }
    {
        View {
            party: self.party,
            ticket: self.ticket,
            dirs: self.dirs,
            units: self.units,
        }
    }
}

impl Begun {
    fn new(alloc: Global, due: Due, want: Counts) -> Begun
        ensures { result ≡ begun due want }
    {
        let words = UnitView {
            own: Vec::new(alloc),
            other: Vec::new(alloc),
            gates: Vec::new(alloc),
            masks: Vec::new(alloc),
        };
        Begun { due, want, words }
    }

    fn into_part(self) -> UnitPart
        ensures { part_of result ≡ record { due = self.due; words = kept self.due self.words } }
    {
        let Begun { due, words, .. } = self;
        part(&due, words)
    }
}

// What a view has of a unit.
fn part(due: &Due, words: UnitView) -> UnitPart
    ensures { part_of result ≡ record { due = due.now; words = kept due.now words } }
{
    match due {
        Due::Plain(site, value) => UnitPart::Plain(*site, *value),
        Due::Secure(value) => UnitPart::Secure(*value, words),
        Due::Root => UnitPart::Root(words),
        Due::Outputs => outputs(words),
    }
}

// The root's outputs.
fn outputs(words: UnitView) -> UnitPart
    ensures { part_of result ≡ record { due = Outputs; words = words_of words.own words.other } }
{
    let UnitView { own, other, .. } = words;
    UnitPart::RootOut(own, other)
}

// ---- lines

// A view's first line.
fn begins(alloc: Global, line: &[u8], text: &mut Vec<u8>) -> Result<Option<State>, Memory>
    ensures { IfOk result (λ state. state ≡ begins line.now) }
{
    let Some((party, ticket)) = head_in(line) else {
        return Ok(None);
    };
    text.clear();
    put_head(text, party, ticket)?;
    if text.as_slice() != line {
        return Ok(None);
    }
    let dirs = Vec::new(alloc);
    Ok(Some(State::Segments(Opening {
        party,
        ticket,
        dirs,
    })))
}

// How many words a unit has, where the line is its own.
fn counts_of(
    alloc: Global,
    number: u64,
    due: &Due,
    line: &[u8],
    text: &mut Vec<u8>,
) -> Result<Option<Counts>, Memory>
    ensures { IfOk result (λ counts. counts ≡ checked
        (unit_line number due.now) line.now (counts_in due.now line.now)) }
{
    let Some(counts) = counts_in(due, line) else {
        return Ok(None);
    };
    text.clear();
    put_unit(alloc, text, number, due, counts)?;
    if text.as_slice() != line {
        return Ok(None);
    }
    Ok(Some(counts))
}

// A word, behind its mark.
fn word_of(mark: u8, line: &[u8], text: &mut Vec<u8>) -> Result<Option<Word>, Memory>
    ensures { IfOk result (λ w. w ≡ word_of (mark ∷ []) line.now) }
{
    let Some(word) = word_in(word(line, 1)) else {
        return Ok(None);
    };
    text.clear();
    put_word_line(text, mark, &word)?;
    if text.as_slice() != line {
        return Ok(None);
    }
    Ok(Some(word))
}

fn gate_of(line: &[u8], text: &mut Vec<u8>) -> Result<Option<GateView>, Memory>
    ensures { IfOk result (λ g. g ≡ gate_of line.now) }
{
    let Some(gate) = gate_in(line) else {
        return Ok(None);
    };
    text.clear();
    put_gate_line(text, &gate)?;
    if text.as_slice() != line {
        return Ok(None);
    }
    Ok(Some(gate))
}

// ---- units

// The line of the next unit, or the end.
fn next_unit(
    alloc: Global,
    body: Body,
    line: &[u8],
    text: &mut Vec<u8>,
) -> Result<Option<State>, Memory>
    ensures { IfOk result (λ state. state ≡ next_unit body line.now) }
{
    let mut body = body;
    let number = body.number;
    let Some(due) = body.next() else {
        return Ok(ends(body, line));
    };
    let Some(want) = counts_of(alloc, number, &due, line, text)? else {
        return Ok(None);
    };
    Ok(Some(State::Words(body, Begun::new(alloc, due, want))))
}

fn ends(body: Body, line: &[u8]) -> Option<State>
    ensures { result ≡ opens body [] line.now }
{
    if line != b"end".as_slice() {
        return None;
    }
    Some(State::Closed(body.into_view()))
}

fn own_mark(due: &Due) -> u8
    ensures { result ∷ [] ≡ own_mark due.now }
{
    match due {
        Due::Outputs => b'a',
        _ => b'o',
    }
}

fn other_mark(due: &Due) -> u8
    ensures { result ∷ [] ≡ other_mark due.now }
{
    match due {
        Due::Outputs => b'b',
        _ => b'x',
    }
}

// The words that come next in a unit.
#[derive(Clone, Copy, Debug, PartialEq, Eq)]
enum Lack {
    Own,
    Other,
    Gates,
    Masks,
    Nothing,
}

impl Begun {
    fn lack(&self) -> Lack
        ensures { result ≡ lack self.now }
    {
        if (self.words.own.len() as u64) < self.want.own {
            Lack::Own
        } else if (self.words.other.len() as u64) < self.want.other {
            Lack::Other
        } else if (self.words.gates.len() as u64) < self.want.ands {
            Lack::Gates
        } else if (self.words.masks.len() as u64) < self.want.masks {
            Lack::Masks
        } else {
            Lack::Nothing
        }
    }

    fn add_own(&mut self, word: Word) -> Result<(), Memory>
        ensures { OnOk result (self.new ≡ add_own self.old word) }
    {
        self.words.own.push(word)?;
        Ok(())
    }

    fn add_other(&mut self, word: Word) -> Result<(), Memory>
        ensures { OnOk result (self.new ≡ add_other self.old word) }
    {
        self.words.other.push(word)?;
        Ok(())
    }

    fn add_gate(&mut self, gate: GateView) -> Result<(), Memory>
        ensures { OnOk result (self.new ≡ add_gate self.old gate) }
    {
        self.words.gates.push(gate)?;
        Ok(())
    }

    fn add_mask(&mut self, word: Word) -> Result<(), Memory>
        ensures { OnOk result (self.new ≡ add_mask self.old word) }
    {
        self.words.masks.push(word)?;
        Ok(())
    }

    // The line of a word that is lacking. It answers whether it is one.
    fn take(&mut self, lack: Lack, line: &[u8], text: &mut Vec<u8>) -> Result<bool, Memory>
        ensures { IfOk result (λ taken. MatchBool taken
            (added self.old lack line.now ≡ Some self.new)
            (added self.old lack line.now ≡ None)) }
    {
        match lack {
            Lack::Own => {
                let Some(word) = word_of(own_mark(&self.due), line, text)? else {
                    return Ok(false);
                };
                self.add_own(word)?;
            }
            Lack::Other => {
                let Some(word) = word_of(other_mark(&self.due), line, text)? else {
                    return Ok(false);
                };
                self.add_other(word)?;
            }
            Lack::Gates => {
                let Some(gate) = gate_of(line, text)? else {
                    return Ok(false);
                };
                self.add_gate(gate)?;
            }
            Lack::Masks => {
                let Some(word) = word_of(b'm', line, text)? else {
                    return Ok(false);
                };
                self.add_mask(word)?;
            }
            Lack::Nothing => return Ok(false),
        }
        Ok(true)
    }
}

// The kinds of words in their order, each until there are as many as the unit's line says; then the next unit.
fn next_word(
    alloc: Global,
    body: Body,
    begun: Begun,
    line: &[u8],
    text: &mut Vec<u8>,
) -> Result<Option<State>, Memory>
    ensures { IfOk result (λ state. state ≡ next_word body begun line.now) }
{
    let mut body = body;
    let mut begun = begun;
    let lack = begun.lack();
    if lack == Lack::Nothing {
        body.add(begun)?;
        return next_unit(alloc, body, line, text);
    }
    if !begun.take(lack, line, text)? {
        return Ok(None);
    }
    Ok(Some(State::Words(body, begun)))
}

fn half(
    alloc: Global,
    opening: Opening,
    line: &[u8],
    text: &mut Vec<u8>,
) -> Result<Option<State>, Memory>
    ensures { IfOk result (λ state. state ≡ half opening line.now) }
{
    match opening.segment(alloc, Site::A, line, text)? {
        Some(a) => Ok(Some(State::Half(opening, a))),
        None => Ok(None),
    }
}

fn whole(
    alloc: Global,
    opening: Opening,
    a: Values,
    line: &[u8],
    text: &mut Vec<u8>,
) -> Result<Option<State>, Memory>
    ensures { IfOk result (λ state. state ≡ whole opening a line.now) }
{
    let mut opening = opening;
    let Some(b) = opening.segment(alloc, Site::B, line, text)? else {
        return Ok(None);
    };
    opening.add(a, b)?;
    Ok(Some(State::Segments(opening)))
}

/// Where a line leads; nowhere, where it can't come next. `text` is room that is used again and again.
pub fn next(
    alloc: Global,
    state: State,
    line: &[u8],
    text: &mut Vec<u8>,
) -> Result<Option<State>, Memory>
    ensures { IfOk result (λ after. after ≡ next state line.now) }
{
    match state {
        State::Begin => begins(alloc, line, text),
        State::Segments(opening) => {
            if word(line, 0) == b"segment".as_slice() {
                return half(alloc, opening, line, text);
            }
            next_unit(alloc, opening.into_body(alloc)?, line, text)
        }
        State::Half(opening, a) => whole(alloc, opening, a, line, text),
        State::Words(body, begun) => next_word(alloc, body, begun, line, text),
        State::Closed(_) => Ok(None),
    }
}

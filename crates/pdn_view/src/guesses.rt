//! What a line seems to say. Whether it says it is then seen from the text of what was guessed.
ghost use Rattle.std.specs.Prelude.{◌≡◌, ◌+◌, ◌<◌, ◌^◌, ◌&&◌, eqb, nat_lt, IfOk};
ghost use Rattle.pdn_base.specs.Values.{kind_of, number_of as value_number};
ghost use Rattle.pdn_view.specs.Views.{ascends, ascends_from};
ghost use Rattle.pdn_view.specs.Guesses.{head_in, values_in, segment_in, counts_at, counts_in, gate_in};
ghost use Rattle.pdn_view.specs.Cuts.{words_left};

use crate::due::{Counts, Due};
use crate::machine::Values;
use crate::view::Party;
use crate::words::{behind, front, number_of, party_in, rest, value_in, word, word_in};
use pdn_base::{Memory, Value};
use pdn_gmw::GateView;
use std::alloc::Global;

/// The party and the ticket of a first line.
pub fn head_in(line: &[u8]) -> Option<(Party, u64)>
    ensures { result ≡ head_in line.now }
{
    let party = party_in(word(line, 1))?;
    let ticket = number_of(word(line, 3))?;
    Some((party, ticket))
}

fn is_below(first: &Value, second: &Value) -> bool
    ensures { result ≡ (eqb (kind_of first.now) (kind_of second.now)
        && nat_lt (value_number first.now) (value_number second.now)) }
{
    let first = first.rank();
    let second = second.rank();
    first.0 == second.0 && first.1 < second.1
}

// Whether values ascend strictly and are of one kind.
fn ascends(values: &[Value]) -> bool
    ensures { result ≡ ascends values.now }
{
    match values.split_first() {
        None => true,
        Some((first, rest)) => ascends_from(first, rest),
    }
}

fn ascends_from(first: &Value, values: &[Value]) -> bool
    ensures { result ≡ ascends_from first.now values.now }
{
    match values.split_first() {
        None => true,
        Some((next, rest)) => is_below(first, next) && ascends_from(next, rest),
    }
}

// The values that the words of what is left of a line seem to be.
fn values_in(alloc: Global, text: Option<&[u8]>) -> Result<Option<Values>, Memory>
    ensures { IfOk result (λ values. values ≡ values_in (words_left text.entry)) }
{
    let mut values = Vec::new(alloc);
    let mut left = text;
    while let Some(text) = left {
        let Some(value) = value_in(front(text)) else {
            return Ok(None);
        };
        values.push(value)?;
        left = rest(text);
    }
    Ok(Some(Values { values }))
}

/// The values of a segment's line, where they ascend and are of one kind.
pub fn segment_in(alloc: Global, line: &[u8]) -> Result<Option<Values>, Memory>
    ensures { IfOk result (λ values. values ≡ segment_in line.now) }
{
    let Some(values) = values_in(alloc, behind(line, 3))? else {
        return Ok(None);
    };
    if !ascends(values.values.as_slice()) {
        return Ok(None);
    }
    Ok(Some(values))
}

// Four numbers, each two words after the one before.
#[tactic(auto, unfolding(crate::specs::Guesses::counts_at))]
fn counts_at(line: &[u8], place: usize) -> Option<Counts>
    requires { place + 6 < 2 ^ 64 }
    ensures { result ≡ counts_at place line.now }
{
    let own = number_of(word(line, place))?;
    let other = number_of(word(line, place + 2))?;
    let ands = number_of(word(line, place + 4))?;
    let masks = number_of(word(line, place + 6))?;
    Some(Counts {
        own,
        other,
        ands,
        masks,
    })
}

/// How many words a unit's line says.
pub fn counts_in(due: &Due, line: &[u8]) -> Option<Counts>
    ensures { result ≡ counts_in due.now line.now }
{
    match due {
        Due::Plain(_, _) => Some(Counts {
            own: 0,
            other: 0,
            ands: 0,
            masks: 0,
        }),
        Due::Secure(_) => {
            let counts = counts_at(line, 5)?;
            Some(Counts { masks: 0, ..counts })
        }
        Due::Root => counts_at(line, 4),
        Due::Outputs => {
            let count = number_of(word(line, 3))?;
            Some(Counts {
                own: count,
                other: count,
                ands: 0,
                masks: 0,
            })
        }
    }
}

/// What a gate's line seems to say.
#[tactic(auto, unfolding(crate::specs::Guesses::gate_in))]
pub fn gate_in(line: &[u8]) -> Option<GateView>
    ensures { result ≡ gate_in line.now }
{
    let a = word_in(word(line, 1))?;
    let b = word_in(word(line, 2))?;
    let c = word_in(word(line, 3))?;
    let d = word_in(word(line, 4))?;
    let e = word_in(word(line, 5))?;
    Some(GateView { a, b, c, d, e })
}

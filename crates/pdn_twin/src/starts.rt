//! What a unit begins with.
ghost use Rattle.std.specs.Prelude.{◌≡◌, length, IfOk};
ghost use Rattle.pdn_base.specs.Words.{xor_lists};
ghost use Rattle.pdn_broker.specs.Runs.{world};

use pdn_base::{Memory, Word, xor_words};
use pdn_broker::Shares;
use pdn_circuit::Inputs;
use std::alloc::Global;

/// What a unit begins with in a world: both sites' own words, and their shares of the given ones.
#[derive(Drop)]
pub(crate) struct Start {
    pub own: Shares,
    pub given: Shares,
}

/// What it begins with in each of two worlds.
#[derive(Drop)]
pub(crate) struct Starts {
    pub first: Start,
    pub second: Start,
}

/// The words that a unit's circuit reads, in plain.
pub(crate) fn plain(alloc: Global, own: &Shares, given: &Shares) -> Result<Inputs, Memory>
    requires { length given.now.b ≡ length given.now.a }
    ensures { IfOk result (λ inputs. inputs ≡ (world own.now given.now).inputs) }
{
    let given = opened(alloc, given)?;
    let Shares { a, b } = own.copy(alloc)?;
    Ok(Inputs { a, b, given })
}

/// What both sites' shares come to.
fn opened(alloc: Global, shares: &Shares) -> Result<Vec<Word>, Memory>
    requires { length shares.now.b ≡ length shares.now.a }
    ensures { IfOk result (λ words. words.items ≡ xor_lists shares.now.a shares.now.b) }
{
    let mut words = vec![in alloc; Word::from_u64(0); shares.a.len()]?;
    xor_words(&mut words, shares.a.as_slice(), shares.b.as_slice());
    Ok(words)
}

//! What a half begins with, and its shares of the gates that read no other.
ghost use Rattle.std.specs.Prelude.{◌≡◌, ◌<◌, ◌≤◌, ◌^◌, ℕ, IsTrue, true, length, replicate, slice_index, IfOk};
ghost use Rattle.std.specs.List.{fold};
ghost use Rattle.pdn_gmw.specs.Halves.{half_input, half_const, IsOwn};
ghost use Rattle.pdn_gmw.specs.Known.{leaf_share, CanLeaf, LeavesThere, leaf_settled, HasLeaves, first_shares};
ghost use Rattle.pdn_gmw.specs.Steps.{covered};

use crate::layers::Leaf;
use crate::rounds::share_rest;
use crate::schedule::Schedule;
use pdn_base::{Memory, Site, Word};
use pdn_circuit::Gate;
use std::alloc::Global;
use std::marker::Model;

/// A site's own words, its shares of the given words, and of its part the words r and the masks.
#[derive(Drop)]
pub struct Holdings {
    pub site: Site,
    pub own: Vec<Word>,
    pub given: Vec<Word>,
    pub r: Vec<Word>,
    pub masks: Vec<Word>,
}

impl Model for Holdings {
    ghost use Rattle.pdn_gmw.specs.Known.{HeldWords};

    ghost Value = { HeldWords };

    ghost view = { λ h. record {
      site = h.site;
      own = h.own.items;
      given = h.given.items;
      r = h.r.items;
      masks = h.masks.items;
    } };
}

impl Holdings {
    pub fn site(&self) -> Site
        ensures { result ≡ self.now.site }
    {
        self.site
    }

    /// The shares of the gates of depth 0 in their places among all gates, and zero at the others.
    pub fn first_shares(&self, alloc: Global, schedule: &Schedule) -> Result<Vec<Word>, Memory>
        requires { HasLeaves schedule.now self.now }
        ensures { IfOk result (λ shares. shares.items ≡ first_shares self.now schedule.now.gates) }
    {
        let circuit = schedule.circuit();
        let first = schedule.first();
        let mut shares = zeros(alloc, circuit.gates.len())?;
        self.share_leaves(schedule.leaves(), shares.as_mut_slice());
        share_rest(circuit, first.rest.as_slice(), shares.as_mut_slice());
        Ok(shares)
    }

    // Puts the shares of these gates in their places.
    fn share_leaves(&self, leaves: &[Leaf], shares: &mut [Word])
        requires { LeavesThere self.now (length shares.old) leaves.now }
        ensures long { length shares.new ≡ length shares.old }
        ensures shares { shares.new ≡ fold (leaf_settled self.now) shares.old leaves.now }
    {
        for leaf in leaves {
            shares[leaf.at as usize] = self.leaf_share(leaf.inputs as usize, &leaf.gate);
        }
    }

    // The share of such a gate, where so many Input gates stand before it.
    fn leaf_share(&self, inputs: usize, gate: &Gate) -> Word
        requires { CanLeaf self.now inputs gate.now }
        ensures { result ≡ leaf_share self.now inputs gate.now }
    {
        match gate {
            Gate::Input { site, index } => self.input_share(*site, *index as usize, inputs),
            Gate::Given { index } => self.given[*index as usize],
            Gate::Const { word } => self.const_share(word),
            Gate::Xor { .. } | Gate::And { .. } | Gate::Spread { .. } | Gate::Move { .. } => {
                Word::from_u64(0)
            }
        }
    }

    /// The share of output number `at`, as it is put out.
    pub fn cover(&self, released: bool, at: usize, share: &Word) -> Word
        requires { IsTrue released → at < length self.now.masks }
        ensures { result ≡ covered released self.now.masks at share.now }
    {
        if released {
            share.xor(&self.masks[at])
        } else {
            *share
        }
    }

    // A site masks its own input by r, and holds r alone of the other's.
    fn input_share(&self, from: Site, index: usize, at: usize) -> Word
        requires own { IsOwn self.now.site from index (length self.now.own) }
        requires r { at < length self.now.r }
        ensures { result ≡ half_input self.now.site from (slice_index self.now.own index)
            (slice_index self.now.r at) }
    {
        match (self.site, from) {
            (Site::A, Site::A) | (Site::B, Site::B) => self.own[index].xor(&self.r[at]),
            (Site::A, Site::B) | (Site::B, Site::A) => self.r[at],
        }
    }

    // A holds the constant.
    fn const_share(&self, word: &Word) -> Word
        ensures { result ≡ half_const self.now.site word.now }
    {
        match self.site {
            Site::A => *word,
            Site::B => Word::from_u64(0),
        }
    }
}

fn zeros(alloc: Global, count: usize) -> Result<Vec<Word>, Memory>
    ensures { IfOk result (λ words. words.items ≡ replicate count 0) }
{
    Ok(vec![in alloc; Word::from_u64(0); count]?)
}

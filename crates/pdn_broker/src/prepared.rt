//! A query that is ready to be answered.
ghost use Rattle.std.specs.Prelude.{◌≡◌, ◌<◌, true, length, IfOk};
ghost use Rattle.pdn_broker.specs.Prepared.{IsPrepared};
ghost use Rattle.pdn_broker.specs.Units.{net_or, is_secure, is_dealt, dealt_of};
ghost use Rattle.pdn_broker.specs.Running.{unit_at, engines_own};

use crate::answered::Dealt;
use crate::shares::Shares;
use crate::units::{circuit_of, dealt_sections, is_secure, unit_at};
use pdn_base::{Key, Kind, Memory};
use pdn_circuit::Circuit;
use pdn_site::{PublicView, SiteEngine, Units};
use std::alloc::Global;
use std::marker::Model;

/// The engines of both sites over valid tables, what is public of their rows, the units of a query with their circuits, the kinds
/// and the order of its answer, and both sites' words of the root. It isn't copied: one answer uses it up.
#[derive(Drop)]
pub struct Prepared {
    pub(crate) a: SiteEngine,
    pub(crate) b: SiteEngine,
    pub(crate) view: PublicView,
    pub(crate) units: Units,
    pub(crate) columns: Vec<Kind>,
    pub(crate) order: Vec<Key>,
    pub(crate) own: Shares,
}

impl Model for Prepared {
    ghost use Rattle.pdn_broker.specs.Prepared.{PreparedModel, IsPrepared};
    ghost use Rattle.pdn_tree.specs.contracts.node.Node as tree;
    ghost use Rattle.std.specs.Coded.{codes};

    ghost Value = { PreparedModel };

    ghost coded = { Prim.hlevel (codes, tree.the_row.coded) };

    ghost view = { λ p. record {
      a = p.a;
      b = p.b;
      dirs = p.view;
      units = p.units;
      columns = p.columns.items;
      order = p.order.items;
      own = p.own;
    } };

    ghost invariant = { λ p. IsPrepared (record {
      a = p.a;
      b = p.b;
      dirs = p.view;
      units = p.units;
      columns = p.columns.items;
      order = p.order.items;
      own = p.own;
    }) };
}

/// By the calls on it a query can be run piece by piece: unit by unit, on sections of the caller's choice.
impl Prepared {
    /// How many units there are, with the root, which is the last.
    pub fn units(&self) -> u64
        ensures count { result ≡ length self.now.units }
        ensures kept { IsPrepared self.now }
    {
        self.units.units.len() as u64
    }

    /// Whether both sites run this unit on shares of their own words, before the root.
    pub fn is_secure(&self, unit: u64) -> bool
        requires { unit < length self.now.units }
        ensures { result ≡ is_secure (unit_at self.now unit).kind }
    {
        is_secure(unit_at(&self.units, unit))
    }

    /// The circuit of a unit for which a section is dealt: of a secure one, or of the root.
    pub fn circuit(&self, unit: u64) -> &Circuit
        requires in_range { unit < length self.now.units }
        requires dealt { is_dealt (unit_at self.now unit).kind ≡ true }
        ensures net { result.now ≡ net_or (unit_at self.now unit).circuit }
        ensures kept { IsPrepared self.now }
    {
        circuit_of(unit_at(&self.units, unit))
    }

    /// Both sites' words of a secure unit. Memory is the only error.
    pub fn secure_words(&self, alloc: Global, unit: u64) -> Result<Shares, Memory>
        requires in_range { unit < length self.now.units }
        requires secure { is_secure (unit_at self.now unit).kind ≡ true }
        ensures { IfOk result (λ own.
            own ≡ engines_own self.now.a self.now.b (unit_at self.now unit)) }
    {
        Ok(Shares {
            a: self.a.secure_inputs(alloc, &self.units, unit)?,
            b: self.b.secure_inputs(alloc, &self.units, unit)?,
        })
    }

    /// Both sites' words of the root. Memory is the only error.
    pub fn root_words(&self, alloc: Global) -> Result<Shares, Memory>
        ensures { IfOk result (λ own. own ≡ self.now.own) }
    {
        self.own.copy(alloc)
    }

    /// The sections that are dealt for a ticket: one for each secure unit and for the root, in unit order. Memory is the only error.
    pub fn dealt_sections(&self, alloc: Global, ticket: u64) -> Result<Vec<Dealt>, Memory>
        ensures are { IfOk result (λ dealt. dealt.items ≡ dealt_of ticket self.now.units) }
        ensures kept { IsPrepared self.now }
    {
        dealt_sections(alloc, &self.units, ticket)
    }
}

//! What a half finished with.
ghost use Rattle.std.specs.Prelude.{◌≡◌, length, []};
ghost use Rattle.std.specs.Arc.{arc_value};
ghost use Rattle.pdn_gmw.specs.Known.{held};
ghost use Rattle.pdn_dealer.specs.Sections.{mask_count};
ghost use Rattle.pdn_gmw.specs.Steps.{shares_out};

use crate::holdings::Holdings;
use crate::views::UnitView;
use pdn_base::{Site, Word};
use pdn_circuit::Circuit;
use std::marker::Model;
use std::sync::Arc;

/// A half that has come to its end. It is made by `Half::finish` alone.
#[derive(Drop)]
pub struct Finished {
    circuit: Arc<Circuit>,
    site: Site,
    own: Vec<Word>,
    given: Vec<Word>,
    view: UnitView,
    outputs: Vec<Word>,
}

impl Model for Finished {
    ghost use Rattle.std.specs.Arc.{arc_value};
    ghost use Rattle.pdn_gmw.specs.Steps.{FinishedHalf};

    ghost Value = { FinishedHalf };

    ghost view = { λ f. record {
      net = arc_value f.circuit;
      site = f.site;
      own = f.own.items;
      given = f.given.items;
      view = f.view;
      outputs = f.outputs.items;
    } };
}

impl Finished {
    pub(crate) fn of(
        circuit: Arc<Circuit>,
        site: Site,
        own: Vec<Word>,
        given: Vec<Word>,
        view: UnitView,
        outputs: Vec<Word>,
    ) -> Finished
        ensures { result ≡ record {
          net = arc_value circuit;
          site = site;
          own = own.items;
          given = given.items;
          view = view;
          outputs = outputs.items;
        } }
    {
        Finished {
            circuit,
            site,
            own,
            given,
            view,
            outputs,
        }
    }

    /// What the site saw of the run.
    pub fn view(&self) -> &UnitView
        ensures { result.now ≡ self.now.view }
    {
        &self.view
    }

    /// The half's shares of the outputs, each under its mask where the circuit is released.
    pub fn outputs(&self) -> &[Word]
        ensures { result.now ≡ self.now.outputs }
    {
        self.outputs.as_slice()
    }

    /// The view and the shares of the outputs.
    pub fn into_parts(self) -> (UnitView, Vec<Word>)
        ensures view { result.0 ≡ self.view }
        ensures outputs { result.1.items ≡ self.outputs }
    {
        let Finished { view, outputs, .. } = self;
        (view, outputs)
    }
}

/// Writes the shares of the outputs, each under its mask where the circuit is released.
pub(crate) fn write_outputs(
    circuit: &Circuit,
    holdings: &Holdings,
    shares: &[Word],
    outputs: &mut Vec<Word>,
)
    requires masks { length holdings.now.masks ≡ mask_count circuit.now }
    requires shares { length shares.now ≡ length circuit.now.gates }
    requires outputs { length outputs.old.items ≡ length circuit.now.outputs }
    ensures { outputs.new.items ≡ shares_out circuit.now (held holdings.now []) shares.now }
{
    for k in 0..circuit.outputs.len() {
        let share = shares[circuit.outputs[k] as usize];
        outputs[k] = holdings.cover(circuit.released, k, &share);
    }
}

//! What the units of a query leave of the limits, and circuits within them.
ghost use Rattle.std.specs.Prelude.{◌≡◌, ◌-◌, ◌≤◌, true, false, count_by, IfOk, MatchResult};
ghost use Rattle.pdn_circuit.specs.Building.{StartRefused, and_count};
ghost use Rattle.pdn_circuit.specs.declared.tally.BuildErr.TheVariants as build;
ghost use Rattle.pdn_obl_rows.specs.Operators.{IsThere};
ghost use Rattle.pdn_site.specs.Circuits.{list_gates, net_of, root_list};
ghost use Rattle.pdn_site.specs.Built.{laid_through};
ghost use Rattle.pdn_circuit.specs.Gates.{is_and};
ghost use Rattle.pdn_site.specs.Budget.{Begins, MakesNet, spent};

use crate::fits::Unfit;
use crate::outputs::list_gates;
use crate::root_lengths::Parts;
use crate::rooting::root_list;
use crate::trees::tree_list;
use pdn_base::{Memory, Value};
use pdn_circuit::{BuildErr, Builder, Circuit, Gate};
use pdn_level::Leaf;
use pdn_obl_rows::Padded;
use pdn_schema::Schema;
use pdn_tree::Node;
use std::alloc::Global;

/// The most outputs of a circuit.
const MOST_OUTPUTS: usize = 16_777_216;

/// The number of the unit that comes next, and how many And gates and gates may still be made.
#[derive(Clone, Copy, Debug, Drop)]
pub struct Left {
    pub unit: u64,
    pub ands: u32,
    pub gates: u32,
}

fn count_ands(gates: &[Gate]) -> usize
    ensures { result ≡ count_by is_and gates.now }
{
    gates
        .iter()
        .filter(|gate| matches!(gate, Gate::And { .. }))
        .count()
}

#[tactic(auto, using(crate::proofs::CompilingLaws::ands_counted))]
fn and_count(gates: &[Gate]) -> usize
    ensures { result ≡ and_count gates.now }
{
    count_ands(gates)
}

/// A limit less what was made of it.
fn less(limit: u32, made: usize) -> u32
    ensures { result ≡ limit - made }
{
    (limit as usize).saturating_sub(made) as u32
}

/// What is left after a unit with these gates.
pub fn spent(left: &Left, made: &[Gate]) -> Result<Left, Memory>
    ensures { IfOk result (λ now. now ≡ spent left.now made.now) }
{
    let Some(unit) = left.unit.checked_add(1) else {
        // the count of units passes its type
        return Err(Memory);
    };
    Ok(Left {
        unit,
        ands: less(left.ands, and_count(made)),
        gates: less(left.gates, made.len()),
    })
}

/// A builder of what is left.
fn begun(alloc: Global, left: &Left) -> Result<Builder, BuildErr>
    requires { left.now.gates ≤ 16777216 }
    ensures { MatchResult result (Begins left.now) (StartRefused left.now.ands left.now.gates) }
{
    let b = Builder::new(alloc, left.ands, left.gates)?;
    // what every builder keeps is known once it is looked at
    let _count = b.len();
    Ok(b)
}

/// The circuit that puts out a list.
fn finished(alloc: Global, b: Builder, list: &Padded, released: bool) -> Result<Circuit, BuildErr>
    requires { IsThere b list.now }
    ensures { MatchResult result (λ circuit. circuit
        ≡ record { gates = b.gates; outputs = list_gates list.now; released = released })
        (λ err. err ≡ build.Memory) }
{
    let Ok(outputs) = list_gates(alloc, list) else {
        // a growth was refused
        return Err(BuildErr::Memory);
    };
    if outputs.len() > MOST_OUTPUTS {
        return Err(BuildErr::from(Unfit));
    }
    Ok(b.finish(outputs, released))
}

/// The circuit of a secure unit, within what is left.
#[tactic(auto, using(crate::proofs::BudgetLaws::start_over, crate::proofs::BudgetLaws::list_over, crate::proofs::BudgetLaws::net_made))]
pub fn secure_circuit(
    alloc: Global,
    schema: &Schema,
    value: &Value,
    top: &Node,
    leaves: &[Leaf],
    left: &Left,
) -> Result<Circuit, BuildErr>
    requires { left.now.gates ≤ 16777216 }
    ensures { MakesNet left.now
        (net_of false (laid_through schema.now value.now top.now leaves.now).list) result }
{
    let mut b = begun(alloc, left)?;
    let list = tree_list(alloc, &mut b, schema, value, top, leaves)?;
    finished(alloc, b, &list, false)
}

/// The circuit of the root, within what is left.
#[tactic(auto, using(crate::proofs::BudgetLaws::start_over, crate::proofs::BudgetLaws::list_over, crate::proofs::BudgetLaws::net_made))]
pub fn root_circuit(
    alloc: Global,
    schema: &Schema,
    parts: &[Parts],
    root: &Node,
    left: &Left,
) -> Result<Circuit, BuildErr>
    requires { left.now.gates ≤ 16777216 }
    ensures { MakesNet left.now (net_of true (root_list schema.now parts.now root.now)) result }
{
    let mut b = begun(alloc, left)?;
    let rooting = root_list(alloc, &mut b, schema, parts, root, 0)?;
    finished(alloc, b, &rooting.list, true)
}

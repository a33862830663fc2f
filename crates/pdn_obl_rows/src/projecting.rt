//! A list cut to some of its columns.
ghost use Rattle.std.specs.Prelude.{◌≡◌, ◌<◌, ◌++◌, length, map, IfOk, OnOk};
ghost use Rattle.std.specs.List.{AllByRecursion, flat_map};
ghost use Rattle.pdn_obl_rows.specs.Lists.{kind_at, column_planes};
ghost use Rattle.pdn_obl_rows.specs.Operators.{projected};
ghost use Rattle.pdn_obl_rows.specs.Means.{ProjectMeans};

use crate::shape::kind_at;
use crate::{Padded, Plane};
use pdn_base::{Kind, Memory};
use std::alloc::Global;

/// The list cut to these columns, in this order. It needs no gates: its valid rows are those of the list, cut.
pub fn project(alloc: Global, list: &Padded, columns: &[u32]) -> Result<Padded, Memory>
    requires { AllByRecursion (λ column. column < length list.now.kinds) columns.now }
    ensures made { IfOk result (λ out. out ≡ projected list.now columns.now) }
    ensures means { IfOk result (λ out. ProjectMeans list.now columns.now out) }
{
    let kinds = chosen_kinds(alloc, list.kinds(), columns)?;
    let planes = chosen_planes(alloc, list, columns)?;
    let valid = Vec::from_slice(alloc, list.valid())?;
    Ok(Padded::of(list.len, valid, kinds, planes))
}

fn chosen_kinds(alloc: Global, kinds: &[Kind], columns: &[u32]) -> Result<Vec<Kind>, Memory>
    requires { AllByRecursion (λ column. column < length kinds.now) columns.now }
    ensures { IfOk result (λ chosen. chosen.items ≡ map (kind_at kinds.now) columns.now) }
{
    let mut chosen = Vec::new(alloc);
    for k in 0..columns.len() {
        chosen.push(kind_at(kinds, columns[k] as usize))?;
    }
    Ok(chosen)
}

fn chosen_planes(alloc: Global, list: &Padded, columns: &[u32]) -> Result<Vec<Plane>, Memory>
    requires { AllByRecursion (λ column. column < length list.now.kinds) columns.now }
    ensures { IfOk result (λ chosen. chosen.items
        ≡ flat_map (λ column. column_planes list.now.kinds column list.now.planes) columns.now) }
{
    let mut chosen = Vec::new(alloc);
    for k in 0..columns.len() {
        push_planes(alloc, &mut chosen, list.column(columns[k] as usize))?;
    }
    Ok(chosen)
}

/// Adds equal planes.
pub(crate) fn push_planes(
    alloc: Global,
    planes: &mut Vec<Plane>,
    more: &[Plane],
) -> Result<(), Memory>
    ensures { OnOk result (planes.new.items ≡ planes.old.items ++ more.now) }
{
    for plane in more {
        planes.push(plane.copy(alloc)?)?;
    }
    Ok(())
}

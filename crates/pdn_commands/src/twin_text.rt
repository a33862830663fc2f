//! The text of a twin: both views, and the places at which each section is changed.
ghost use Rattle.std.specs.Prelude.{◌≡◌, ◌++◌, IfOk, OnOk};
ghost use Rattle.std.specs.List.{flat_map};
ghost use Rattle.std.specs.String.{string_bytes};
ghost use Rattle.pdn_view.specs.Lines.{view_text};
ghost use Rattle.pdn_commands.specs.Twinning.{twin_line, place_text, changed_head, changed_line, twin_text};

use pdn_base::{Memory, Site};
use pdn_twin::{Change, Twin};
use pdn_view::{View, print_view};
use std::alloc::Global;

/// The text of the twin of the query of this number and ticket.
#[tactic(auto, unfolding(crate::specs::Twinning::twin_text))]
pub(crate) fn twin_text(
    alloc: Global,
    site: Site,
    query: u64,
    ticket: u64,
    twin: &Twin,
) -> Result<Vec<u8>, Memory>
    ensures { IfOk result (λ text. text.items ≡ twin_text site query ticket twin.now) }
{
    let head = twin_line(alloc, site, query, ticket)?;
    let mut text = Vec::from_slice(alloc, head.as_bytes())?;
    put_view(alloc, &mut text, &twin.first)?;
    put_view(alloc, &mut text, &twin.second)?;
    put_changes(alloc, &mut text, &twin.changed)?;
    Ok(text)
}

fn twin_line(alloc: Global, site: Site, query: u64, ticket: u64) -> Result<String, Memory>
    ensures { IfOk result (λ line. string_bytes line ≡ twin_line site query ticket) }
{
    Ok(format!(in alloc; "twin {site} query {query} ticket {ticket}\n")?)
}

fn put_view(alloc: Global, out: &mut Vec<u8>, view: &View) -> Result<(), Memory>
    ensures { OnOk result (out.new.items ≡ out.old.items ++ view_text view.now) }
{
    let text = print_view(alloc, view)?;
    out.extend_from_slice(&text)?;
    Ok(())
}

fn put_changes(alloc: Global, out: &mut Vec<u8>, changes: &[Change]) -> Result<(), Memory>
    ensures { OnOk result
        (out.new.items ≡ out.old.items ++ flat_map changed_line changes.now) }
{
    for change in changes {
        put_change(alloc, out, change)?;
    }
    Ok(())
}

#[tactic(auto, unfolding(crate::specs::Twinning::changed_line))]
fn put_change(alloc: Global, out: &mut Vec<u8>, change: &Change) -> Result<(), Memory>
    ensures { OnOk result (out.new.items ≡ out.old.items ++ changed_line change.now) }
{
    let head = changed_head(alloc, change.unit)?;
    out.extend_from_slice(head.as_bytes())?;
    put_places(alloc, out, &change.places)?;
    out.push(b'\n')?;
    Ok(())
}

#[tactic(auto, unfolding(crate::specs::Twinning::changed_head))]
fn changed_head(alloc: Global, unit: u64) -> Result<String, Memory>
    ensures { IfOk result (λ head. string_bytes head ≡ changed_head unit) }
{
    Ok(format!(in alloc; "changed unit {unit} words")?)
}

fn put_places(alloc: Global, out: &mut Vec<u8>, places: &[u64]) -> Result<(), Memory>
    ensures { OnOk result (out.new.items ≡ out.old.items ++ flat_map place_text places.now) }
{
    for place in places {
        put_place(alloc, out, *place)?;
    }
    Ok(())
}

fn put_place(alloc: Global, out: &mut Vec<u8>, place: u64) -> Result<(), Memory>
    ensures { OnOk result (out.new.items ≡ out.old.items ++ place_text place) }
{
    let text = format!(in alloc; " {place}")?;
    out.extend_from_slice(text.as_bytes())?;
    Ok(())
}

//! The views that are shown after an answer.
ghost use Rattle.std.specs.Prelude.{◌≡◌, ◌++◌, OnOk};
ghost use Rattle.pdn_view.specs.Lines.{view_text};
ghost use Rattle.pdn_query.specs.Answering.{shown_text};
ghost use Rattle.pdn_query.specs.Showing.{parties_of, views_of};

use crate::show::Show;
use pdn_base::Memory;
use pdn_broker::Answered;
use pdn_view::{View, print_view};
use std::alloc::Global;

/// Adds the views of an answer that are shown. Of a view that isn't shown no text is made.
pub fn put_views(
    alloc: Global,
    out: &mut Vec<u8>,
    answered: &Answered,
    show: Option<Show>,
) -> Result<(), Memory>
    ensures { OnOk result
        (out.new.items ≡ out.old.items
        ++ shown_text (parties_of show) (views_of answered.now)) }
{
    match show {
        None => Ok(()),
        Some(Show::A) => put_view(alloc, out, &answered.view_a),
        Some(Show::B) => put_view(alloc, out, &answered.view_b),
        Some(Show::Broker) => put_view(alloc, out, &answered.view_broker),
        Some(Show::All) => put_all(alloc, out, answered),
    }
}

// All three, A's first.
fn put_all(alloc: Global, out: &mut Vec<u8>, answered: &Answered) -> Result<(), Memory>
    ensures { OnOk result (out.new.items ≡ out.old.items
        ++ (view_text answered.now.view_a
        ++ (view_text answered.now.view_b ++ view_text answered.now.view_broker))) }
{
    put_view(alloc, out, &answered.view_a)?;
    put_view(alloc, out, &answered.view_b)?;
    put_view(alloc, out, &answered.view_broker)
}

fn put_view(alloc: Global, out: &mut Vec<u8>, view: &View) -> Result<(), Memory>
    ensures { OnOk result (out.new.items ≡ out.old.items ++ view_text view.now) }
{
    let text = print_view(alloc, view)?;
    out.extend_from_slice(&text)?;
    Ok(())
}

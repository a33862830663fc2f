//! A view's way into its text and out of it, with the processor time that each takes.
use crate::phases::now;
use crate::stop::Stop;
use pdn_base::Word;
use pdn_gmw::{GateView, UnitView};
use pdn_view::{Party, UnitPart, View, print_view, read_view};
use std::alloc::Global;
use std::time::CpuClock;

/// Nanoseconds of each step, of a view whose text has so many bytes.
#[derive(Clone, Copy, Debug)]
pub struct ViewTimes {
    pub bytes: u64,
    pub print: u64,
    pub read: u64,
}

// The longest text that a view is read from.
const LONGEST: usize = 536_870_912;

/// One view printed and read again.
///
/// # Errors
///
/// `Large` comes where the text is longer than those that are read.
pub fn measure_view(rt: &impl CpuClock, alloc: Global, gates: u32) -> Result<ViewTimes, Stop> {
    let (text, print) = printed(rt, alloc, gates)?;
    if text.len() > LONGEST {
        return Err(Stop::Large);
    }
    let start = now(rt)?;
    let _view = read_view(alloc, &text)?;
    let read = now(rt)?.saturating_sub(start);
    Ok(ViewTimes {
        bytes: text.len() as u64,
        print,
        read,
    })
}

// The text of a view, which is let go, and how long its printing took.
fn printed(rt: &impl CpuClock, alloc: Global, gates: u32) -> Result<(Vec<u8>, u64), Stop> {
    let view = view_of(alloc, gates)?;
    let start = now(rt)?;
    let text = print_view(alloc, &view)?;
    let print = now(rt)?.saturating_sub(start);
    Ok((text, print))
}

// What site A sees of a query of no segment whose root has so many And gates.
fn view_of(alloc: Global, gates: u32) -> Result<View, Stop> {
    let root = UnitView {
        own: Vec::new(alloc),
        other: Vec::new(alloc),
        gates: gate_views(alloc, gates)?,
        masks: Vec::new(alloc),
    };
    let mut units = Vec::new(alloc);
    units.push(UnitPart::Root(root))?;
    Ok(View {
        party: Party::A,
        ticket: 0,
        dirs: Vec::new(alloc),
        units,
    })
}

fn gate_views(alloc: Global, gates: u32) -> Result<Vec<GateView>, Stop> {
    let mut views = Vec::new(alloc);
    for gate in 0..gates {
        views.push(gate_view(u64::from(gate)))?;
    }
    Ok(views)
}

// Five words that are no zeros.
fn gate_view(gate: u64) -> GateView {
    let spread = gate.wrapping_mul(0x9e37_79b9_7f4a_7c15);
    GateView {
        a: Word::from_u64(spread),
        b: Word::from_u64(spread.rotate_left(13)),
        c: Word::from_u64(spread.rotate_left(26)),
        d: Word::from_u64(spread.rotate_left(39)),
        e: Word::from_u64(spread.rotate_left(52)),
    }
}

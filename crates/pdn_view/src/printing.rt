//! A view's text.
ghost use Rattle.std.specs.Prelude.{◌≡◌, ◌++◌, ◌∷◌, ◌+◌, ◌<◌, ◌^◌, [], map, length, IfOk, OnOk};
ghost use Rattle.pdn_base.specs.declared.site.Site.TheVariants.{A, B};
ghost use Rattle.pdn_view.specs.declared.due.Due.TheVariants.{Outputs};
ghost use Rattle.pdn_view.specs.Views.{part_of, words_of, IsRun, dir_of};
ghost use Rattle.pdn_view.specs.Lines.{word_line, gate_line, segment_line, segment_lines, unit_line, part_lines, parts_lines, lines_text, line_text, view_text};

use crate::due::{Counts, Due, counts_of, first_number};
use crate::lines::{put_end, put_gate_line, put_head, put_segment, put_unit, put_word_line};
use crate::view::{UnitPart, View};
use pdn_base::{Memory, Site, Word};
use pdn_gmw::{GateView, UnitView};
use pdn_site::SegDirs;
use std::alloc::Global;

fn put_word_lines(out: &mut Vec<u8>, mark: u8, words: &[Word]) -> Result<(), Memory>
    ensures { OnOk result
        (out.new.items ≡ out.old.items ++ lines_text (map (word_line (mark ∷ [])) words.now)) }
{
    for word in words {
        put_word_line(out, mark, word)?;
        out.push(b'\n')?;
    }
    Ok(())
}

fn put_gate_lines(out: &mut Vec<u8>, gates: &[GateView]) -> Result<(), Memory>
    ensures { OnOk result (out.new.items ≡ out.old.items ++ lines_text (map gate_line gates.now)) }
{
    for gate in gates {
        put_gate_line(out, gate)?;
        out.push(b'\n')?;
    }
    Ok(())
}

fn put_segment_line(
    alloc: Global,
    out: &mut Vec<u8>,
    number: usize,
    site: Site,
    dirs: &SegDirs,
) -> Result<(), Memory>
    ensures { OnOk result (out.new.items ≡ out.old.items
        ++ line_text (segment_line number site (dir_of site dirs.now))) }
{
    let values = match site {
        Site::A => &dirs.a,
        Site::B => &dirs.b,
    };
    put_segment(alloc, out, number as u64, site, values.as_slice())?;
    out.push(b'\n')?;
    Ok(())
}

// Both lines of a segment.
fn put_segment_lines(
    alloc: Global,
    out: &mut Vec<u8>,
    number: usize,
    dirs: &SegDirs,
) -> Result<(), Memory>
    ensures { OnOk result (out.new.items ≡ out.old.items
        ++ lines_text (segment_line number A dirs.now.a ∷ segment_line number B dirs.now.b ∷ [])) }
{
    put_segment_line(alloc, out, number, Site::A, dirs)?;
    put_segment_line(alloc, out, number, Site::B, dirs)
}

// Both lines of each segment.
fn put_segments(alloc: Global, out: &mut Vec<u8>, dirs: &[SegDirs]) -> Result<(), Memory>
    ensures { OnOk result (out.new.items ≡ out.old.items ++ lines_text (segment_lines 0 dirs.now)) }
{
    for i in 0..dirs.len() {
        put_segment_lines(alloc, out, i, &dirs[i])?;
    }
    Ok(())
}

fn put_unit_line(
    alloc: Global,
    out: &mut Vec<u8>,
    number: u64,
    due: &Due,
    counts: Counts,
) -> Result<(), Memory>
    ensures { OnOk result
        (out.new.items ≡ out.old.items ++ line_text (unit_line number due.now counts)) }
{
    put_unit(alloc, out, number, due, counts)?;
    out.push(b'\n')?;
    Ok(())
}

// A unit of a site's view that isn't plain, with its words.
fn put_run(
    alloc: Global,
    out: &mut Vec<u8>,
    number: u64,
    due: &Due,
    words: &UnitView,
) -> Result<(), Memory>
    requires { IsRun due.now }
    ensures { OnOk result (out.new.items ≡ out.old.items
        ++ lines_text (part_lines number (record { due = due.now; words = words.now }))) }
{
    put_unit_line(alloc, out, number, due, counts_of(words))?;
    put_word_lines(out, b'o', words.own.as_slice())?;
    put_word_lines(out, b'x', words.other.as_slice())?;
    put_gate_lines(out, words.gates.as_slice())?;
    put_word_lines(out, b'm', words.masks.as_slice())
}

// The root's outputs.
fn put_outputs(
    alloc: Global,
    out: &mut Vec<u8>,
    number: u64,
    a: &[Word],
    b: &[Word],
) -> Result<(), Memory>
    ensures { OnOk result (out.new.items ≡ out.old.items
        ++ lines_text (part_lines number
        (record { due = Outputs; words = words_of a.now b.now }))) }
{
    let counts = Counts {
        own: a.len() as u64,
        other: b.len() as u64,
        ands: 0,
        masks: 0,
    };
    put_unit_line(alloc, out, number, &Due::Outputs, counts)?;
    put_word_lines(out, b'a', a)?;
    put_word_lines(out, b'b', b)
}

fn put_part(alloc: Global, out: &mut Vec<u8>, number: u64, part: &UnitPart) -> Result<(), Memory>
    ensures { OnOk result
        (out.new.items ≡ out.old.items ++ lines_text (part_lines number (part_of part.now))) }
{
    match part {
        UnitPart::Plain(site, value) => {
            let counts = Counts {
                own: 0,
                other: 0,
                ands: 0,
                masks: 0,
            };
            put_unit_line(alloc, out, number, &Due::Plain(*site, *value), counts)
        }
        UnitPart::Secure(value, words) => put_run(alloc, out, number, &Due::Secure(*value), words),
        UnitPart::Root(words) => put_run(alloc, out, number, &Due::Root, words),
        UnitPart::RootOut(a, b) => put_outputs(alloc, out, number, a.as_slice(), b.as_slice()),
    }
}

fn put_parts(alloc: Global, out: &mut Vec<u8>, first: u64, units: &[UnitPart]) -> Result<(), Memory>
    requires { first + length units.now < 2 ^ 64 }
    ensures { OnOk result
        (out.new.items ≡ out.old.items ++ lines_text (parts_lines first (map part_of units.now))) }
{
    for i in 0..units.len() {
        put_part(alloc, out, first + i as u64, &units[i])?;
    }
    Ok(())
}

/// A view's text: a line for each of its parts, each with a line feed.
pub fn print_view(alloc: Global, view: &View) -> Result<Vec<u8>, Memory>
    ensures { IfOk result (λ text. text.items ≡ view_text view.now) }
{
    let first = first_number(alloc, view.party, view.dirs.as_slice())?;
    let mut out = Vec::new(alloc);
    put_head(&mut out, view.party, view.ticket)?;
    out.push(b'\n')?;
    put_segments(alloc, &mut out, view.dirs.as_slice())?;
    put_parts(alloc, &mut out, first, view.units.as_slice())?;
    put_end(&mut out)?;
    out.push(b'\n')?;
    Ok(out)
}

//! A view from its text.
ghost use Rattle.std.specs.Prelude.{◌≡◌, IfOk, IfErr};
ghost use Rattle.pdn_base.specs.Bounds.{IsShort};
ghost use Rattle.pdn_view.specs.Views.{ViewWords, IsView};
ghost use Rattle.pdn_view.specs.Lines.{view_text};
ghost use Rattle.pdn_view.specs.Faults.{IsFault, Gives, Finishes};

use crate::machine::{State, next};
use crate::view::View;
use crate::view_err::ViewErr;
use crate::words::cut;
use std::alloc::Global;

/// The view that a text is of. A text is taken exactly where `print_view` writes it of a view whose values, words and numbers are
/// of their types, whose directories ascend, and whose units are those that the directories call for.
///
/// # Errors
///
/// `At` carries the first line at which the text leaves the grammar: the lines before it begin some view's text, and with
/// this one they don't, or the text ends before the line does.
pub fn read_view(alloc: Global, bytes: &[u8]) -> Result<View, ViewErr>
    requires short { IsShort bytes.now }
    ensures found { IfOk result (λ v. IsView v × (bytes.now ≡ view_text v)) }
    ensures only { (v : ViewWords) → IsView v → bytes.now ≡ view_text v → Gives v result }
    ensures fault { IfErr result (IsFault bytes.now) }
{
    let mut text = Vec::new(alloc);
    let mut state = State::Begin;
    let mut rest = bytes;
    let mut line = 1u32;
    while let Some((front, more)) = cut(rest, b'\n') {
        let Some(after) = next(alloc, state, front, &mut text)? else {
            return Err(ViewErr::At { line });
        };
        state = after;
        rest = more;
        line += 1;
    }
    finish(state, rest, line)
}

// All whole lines are read.
fn finish(state: State, rest: &[u8], line: u32) -> Result<View, ViewErr>
    ensures { Finishes state rest.now line result }
{
    match state {
        State::Closed(view) if rest.is_empty() => Ok(view),
        _ => Err(ViewErr::At { line }),
    }
}

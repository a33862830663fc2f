//! The lines of a head, by their names.
ghost use Rattle.std.specs.Prelude.{◌≡◌, length, map};
ghost use Rattle.std.specs.List.{AllByRecursion, list_any};
ghost use Rattle.httparse.specs.Spans.{IsHeaderWithin, header_bytes};
ghost use Rattle.pdn_http.specs.Heads.{has_name, values_of};
ghost use Rattle.pdn_http.specs.Requests.{body_size};

use crate::Refusal;
use crate::length::size_of;
use httparse::spans::HeaderSpan;

fn is_named(buf: &[u8], line: HeaderSpan, name: &[u8]) -> bool
    requires { IsHeaderWithin (length buf.now) line }
    ensures { result ≡ has_name name.now (header_bytes buf.now line) }
{
    line.name.of(buf).eq_ignore_ascii_case(name)
}

/// Whether one of these lines has this name, in letters of either case.
pub(crate) fn has_line(buf: &[u8], lines: &[HeaderSpan], name: &[u8]) -> bool
    requires { AllByRecursion (IsHeaderWithin (length buf.now)) lines.now }
    ensures { result ≡ list_any (has_name name.now) (map (header_bytes buf.now) lines.now) }
{
    let Some((line, later)) = lines.split_first() else {
        return false;
    };
    is_named(buf, *line, name) || has_line(buf, later, name)
}

/// How long the body is by its lines of this name.
#[tactic(auto, using(crate::proofs::LineLaws::none_named, crate::proofs::LineLaws::again_named))]
pub(crate) fn body_size(
    buf: &[u8],
    lines: &[HeaderSpan],
    name: &[u8],
) -> Result<Option<usize>, Refusal>
    requires { AllByRecursion (IsHeaderWithin (length buf.now)) lines.now }
    ensures { result ≡ body_size (values_of name.now (map (header_bytes buf.now) lines.now)) }
{
    let Some((line, later)) = lines.split_first() else {
        return Ok(None);
    };
    if !is_named(buf, *line, name) {
        return body_size(buf, later, name);
    }
    if has_line(buf, later, name) {
        return Err(Refusal::Request);
    }
    size_of(line.value.of(buf))
}

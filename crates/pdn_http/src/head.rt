//! The front of a connection's bytes, as far as they have come.
ghost use Rattle.std.specs.Prelude.{◌≡◌, ◌≤◌, length, map, take, Option, IsUtf8};
ghost use Rattle.httparse.specs.Spans.{IsRequestWithin, header_bytes, span_bytes};
ghost use Rattle.pdn_schema.specs.Schemas.{IsCallers};
ghost use Rattle.pdn_http.specs.Heads.{path_of};
ghost use Rattle.pdn_http.specs.Requests.{want_of};
ghost use Rattle.pdn_http.specs.Routes.{HasRoute, Leads};
ghost use Rattle.pdn_http.specs.Fronts.{ShowsFront};

use crate::fields::{body_size, has_line};
use crate::route::route_of;
use crate::want::{Want, if_known};
use crate::{Call, Refusal};
use httparse::Status;
use httparse::spans::{EMPTY_HEADER_SPAN, HeaderSpan, RequestSpans, parse_request};
use matchit::Router;
use pdn_schema::Caller;

/// What the bytes of a connection show so far.
#[derive(Clone, Copy, Debug)]
pub(crate) enum Front {
    /// A head of this length, and what it asks for.
    Head(usize, Want),
    /// No head yet.
    More,
    /// Whatever follows, no head.
    Never,
}

/// What these bytes show, the first ones of a connection.
#[tactic(auto, using(crate::proofs::LookLaws::shows_head, crate::proofs::LookLaws::shows_more, crate::proofs::LookLaws::shows_never))]
pub(crate) fn front_of(router: &Router<()>, callers: &[Caller], bytes: &[u8]) -> Front
    requires router { HasRoute router.now }
    requires callers { IsCallers callers.now }
    requires size { length bytes.now ≤ 8192 }
    ensures { ShowsFront callers.now bytes.now result }
{
    let mut lines = [EMPTY_HEADER_SPAN; 64];
    match parse_request(bytes, &mut lines) {
        Ok(Status::Complete(spans)) => {
            let wanted = want_of(router, callers, bytes, &spans, &lines);
            Front::Head(spans.len, wanted)
        }
        Ok(Status::Partial) => Front::More,
        Err(_) => Front::Never,
    }
}

/// What a head asks for, whose parts are there.
#[tactic(auto, using(crate::proofs::LineLaws::lines_within))]
fn want_of(
    router: &Router<()>,
    callers: &[Caller],
    bytes: &[u8],
    spans: &RequestSpans,
    lines: &[HeaderSpan],
) -> Want
    requires router { HasRoute router.now }
    requires callers { IsCallers callers.now }
    requires within { IsRequestWithin bytes.now lines.now spans.now }
    requires text { IsUtf8 (span_bytes bytes.now spans.now.path) }
    ensures { (route : Option Call) × Leads callers.now
        (path_of (span_bytes bytes.now spans.now.path)) route
        × (result ≡ want_of (span_bytes bytes.now spans.now.method)
        (map (header_bytes bytes.now) (take spans.now.headers lines.now)) route) }
{
    let route = route_at(router, callers, spans.path.of(bytes));
    let lines = &lines[..spans.headers];
    if has_line(bytes, lines, b"transfer-encoding") {
        return Want::Refused(Refusal::Encoding);
    }
    let size = body_size(bytes, lines, b"content-length");
    if_known(spans.method.of(bytes), route, size)
}

/// Where the path of a target leads, which is text.
fn route_at(router: &Router<()>, callers: &[Caller], target: &[u8]) -> Option<Call>
    requires router { HasRoute router.now }
    requires callers { IsCallers callers.now }
    requires text { IsUtf8 target.now }
    ensures { Leads callers.now (path_of target.now) result }
{
    match str::from_utf8(target) {
        Ok(target) => route_of(router, callers, target),
        Err(_) => None,
    }
}

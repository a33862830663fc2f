//! Where a path leads.
ghost use Rattle.std.specs.Prelude.{◌≡◌, ◌≢◌, ◌≤◌, ◌<◌, ◌^◌, ◌++◌, length, ℕ, List, IfOk, MatchOption, Some, decimal};
ghost use Rattle.std.specs.Str.{bytes_eq};
ghost use Rattle.pdn_schema.specs.Schemas.{IsCallers};
ghost use Rattle.pdn_http.specs.Heads.{path_of};
ghost use Rattle.pdn_http.specs.Routes.{HasRoute, Leads, call_path};

use crate::Call;
use itoa::Buffer;
use matchit::{InsertError, Router};
use pdn_schema::Caller;
use std::alloc::Global;

/// The router of the one route.
pub(crate) fn call_router(alloc: Global) -> Result<Router<()>, InsertError>
    ensures { IfOk result HasRoute }
{
    let mut router = Router::new(alloc);
    router.insert("/callers/{caller}/queries/{number}", ())?;
    Ok(router)
}

/// The path of a target: what stands before its first `?`.
fn path_of(target: &str) -> &str
    ensures { result.now ≡ path_of target.now }
{
    match target.split_once('?') {
        Some((path, _)) => path,
        None => target,
    }
}

/// What stands behind this front.
fn after<'a>(front: &[u8], text: &'a [u8]) -> Option<&'a [u8]>
    ensures { MatchOption result ((rest : List ℕ) → text.now ≢ front.now ++ rest)
        (λ rest. text.now ≡ front.now ++ rest.now) }
{
    text.strip_prefix(front)
}

fn parsed(text: &str) -> Option<u64>
    ensures { (n : ℕ) → n < 2 ^ 64 → text.now ≡ decimal n → result ≡ Some n }
{
    text.parse::<u64>().ok()
}

fn spells(text: &str, number: u64) -> bool
    ensures { result ≡ bytes_eq text.now (decimal number) }
{
    let mut buffer = Buffer::new();
    text == buffer.format(number)
}

/// The number that a text says: 0 to 2^64 - 1 in decimal, without leading zeros.
#[tactic(auto, using(crate::proofs::RouteLaws::no_number_parses, crate::proofs::RouteLaws::this_number, crate::proofs::RouteLaws::other_number))]
fn number_in(text: &str) -> Option<u64>
    ensures { MatchOption result ((n : ℕ) → n < 2 ^ 64 → text.now ≢ decimal n)
        (λ n. text.now ≡ decimal n) }
{
    let Some(number) = parsed(text) else {
        return None;
    };
    if spells(text, number) {
        return Some(number);
    }
    None
}

/// The same of bytes.
#[tactic(auto, using(crate::proofs::RouteLaws::no_text_no_number))]
fn number_of(text: &[u8]) -> Option<u64>
    ensures { MatchOption result ((n : ℕ) → n < 2 ^ 64 → text.now ≢ decimal n)
        (λ n. text.now ≡ decimal n) }
{
    match str::from_utf8(text) {
        Ok(text) => number_in(text),
        Err(_) => None,
    }
}

/// The number of this caller that a path leads to, if any.
#[tactic(auto, using(crate::proofs::RouteLaws::no_front, crate::proofs::RouteLaws::no_caller, crate::proofs::RouteLaws::no_middle, crate::proofs::RouteLaws::no_number, crate::proofs::RouteLaws::spelled))]
fn number_at(caller: &[u8], path: &[u8]) -> Option<u64>
    ensures { MatchOption result
        ((n : ℕ) → n < 2 ^ 64 → path.now ≢ call_path caller.now (decimal n))
        (λ n. path.now ≡ call_path caller.now (decimal n)) }
{
    let Some(named) = after(b"/callers/", path) else {
        return None;
    };
    let Some(behind) = after(caller, named) else {
        return None;
    };
    let Some(number) = after(b"/queries/", behind) else {
        return None;
    };
    number_of(number)
}

/// Where a path leads, that the router found.
#[tactic(auto, using(crate::proofs::RouteLaws::none_before_next, crate::proofs::RouteLaws::none_of_all, crate::proofs::RouteLaws::leads_there))]
fn call_at(callers: &[Caller], path: &[u8]) -> Option<Call>
    requires few { length callers.now ≤ 8 }
    ensures { Leads callers.now path.now result }
{
    for at in 0..callers.len() {
        if let Some(number) = number_at(callers[at].name.as_bytes(), path) {
            let caller = at as u32;
            return Some(Call { caller, number });
        }
    }
    None
}

/// Where the path of a target leads.
pub(crate) fn route_of(router: &Router<()>, callers: &[Caller], target: &str) -> Option<Call>
    requires router { HasRoute router.now }
    requires callers { IsCallers callers.now }
    ensures { Leads callers.now (path_of target.now) result }
{
    let path = path_of(target);
    match router.at(path) {
        Ok(_) => call_at(callers, path.as_bytes()),
        Err(_) => None,
    }
}

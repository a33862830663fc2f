//! What a head asks for.
ghost use Rattle.std.specs.Prelude.{◌≡◌};
ghost use Rattle.pdn_http.specs.Requests.{by_method, getting, if_known, posting};

use crate::{Call, Refusal};

/// What a head asks for, whose body has not been read.
#[derive(Clone, Copy, Debug, PartialEq, Eq)]
pub(crate) enum Want {
    Refused(Refusal),
    Get(Call),
    /// With a body of this size.
    Post(Call, usize),
}

fn getting(call: Call, size: Result<Option<usize>, Refusal>) -> Want
    ensures { result ≡ getting call size }
{
    match size {
        Ok(_) => Want::Get(call),
        Err(refusal) => Want::Refused(refusal),
    }
}

fn posting(call: Call, size: Result<Option<usize>, Refusal>) -> Want
    ensures { result ≡ posting call size }
{
    match size {
        Ok(None) => Want::Refused(Refusal::Length),
        Ok(Some(size)) => Want::Post(call, size),
        Err(refusal) => Want::Refused(refusal),
    }
}

fn by_method(method: &[u8], call: Call, size: Result<Option<usize>, Refusal>) -> Want
    ensures { result ≡ by_method method.now call size }
{
    if method == b"GET".as_slice() {
        return getting(call, size);
    }
    if method == b"POST".as_slice() {
        return posting(call, size);
    }
    Want::Refused(Refusal::Method)
}

/// What a head of this method asks for, whose path leads there, and whose lines give the body this
/// size.
pub(crate) fn if_known(
    method: &[u8],
    route: Option<Call>,
    size: Result<Option<usize>, Refusal>,
) -> Want
    ensures { result ≡ if_known method.now route size }
{
    match route {
        Some(call) => by_method(method, call, size),
        None => Want::Refused(Refusal::Unknown),
    }
}

//! Why a request is refused.
ghost use Rattle.std.specs.Prelude.{◌≡◌};
ghost use Rattle.pdn_http.specs.Refusals.{error_of, status_of};

/// Why a request is refused, before anything is looked up for it. The statuses are those of RFC
/// 9110.
#[derive(Clone, Copy, Debug, PartialEq, Eq)]
pub enum Refusal {
    /// 400: no head, no length, or a body that is cut off.
    Request,
    /// 501: a transfer coding is named.
    Encoding,
    /// 404: the path leads nowhere.
    Unknown,
    /// 405: neither GET nor POST.
    Method,
    /// 411: POST, and no length is given.
    Length,
    /// 413: the body is longer than 4096 bytes.
    Long,
}

impl Refusal {
    /// The status of its reply.
    pub fn status(&self) -> u16
        ensures { result ≡ status_of self.now }
    {
        match self {
            Refusal::Request => 400,
            Refusal::Encoding => 501,
            Refusal::Unknown => 404,
            Refusal::Method => 405,
            Refusal::Length => 411,
            Refusal::Long => 413,
        }
    }

    /// The error that its reply names.
    pub fn error(&self) -> &'static str
        ensures { result.now ≡ error_of self.now }
    {
        match self {
            Refusal::Request => "request",
            Refusal::Encoding => "encoding",
            Refusal::Unknown => "unknown",
            Refusal::Method => "method",
            Refusal::Length => "length",
            Refusal::Long => "long",
        }
    }
}

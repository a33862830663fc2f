//! The objects outside by their names.
ghost use Rattle.std.specs.Prelude.{◌≡◌, [], IfOk};
ghost use Rattle.std.specs.String.{string_bytes};
ghost use Rattle.pdn_base.specs.Texts.{refusal};
ghost use Rattle.pdn_query.specs.Questions.{who_of};

use pdn_base::{Memory, Site, Status, Who};
use std::alloc::Global;

/// Which object a site is.
pub fn who_of(site: Site) -> Who
    ensures { result ≡ who_of site }
{
    match site {
        Site::A => Who::SiteA,
        Site::B => Who::SiteB,
    }
}

/// The line that names an object that failed.
pub fn failed_line(alloc: Global, who: Who) -> Result<String, Memory>
    ensures { IfOk result (λ line. string_bytes line ≡ refusal [] [] (Status.Unavailable who)) }
{
    let status = Status::Unavailable { who };
    status.line(alloc, "", "")
}

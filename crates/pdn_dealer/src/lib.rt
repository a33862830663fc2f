//! The tape of random words that a dealer deals: sections, and the parts into which a section is split.
#![tactic(auto)]

mod chacha_deal;
mod dealers;
mod list_deal;
mod parts;
mod sections;

pub use chacha_deal::ChaChaDeal;
pub use dealers::Deal;
pub use list_deal::ListDeal;
pub use parts::{Part, Triple};
pub use sections::{Section, section_len, sections_are_laid_out};

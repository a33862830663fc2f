//! What a site keeps: the batches of rows that it took, table by table, and the rows of a CSV text.
#![tactic(auto)]

mod batch;
mod bounds;
mod cause;
mod compare;
mod import;
mod mem_site;
mod records;
mod site_keeper;

pub use batch::Batch;
pub use cause::CsvErr;
pub use import::import_csv;
pub use mem_site::MemSite;
pub use site_keeper::{AddErr, Added, KeepErr, SiteKeeper};

//! Which sections of the tape two queries of a file ask for.
ghost use Rattle.std.specs.Prelude.{◌≤◌, length, All, IfOk};

use crate::networks::{file, network, words};
use crate::recording::Recording;
use pdn_commands::pdn;
use std::alloc::{AllocError, Global};
use std::test::Fail;

const SCHEMA: &str = "version 1\nfloor 3\ntable t rows 8\ncolumn c int private\nend\n";

const TWO_COUNTS: &str = "SELECT COUNT(*) FROM t WHERE c = 5; SELECT COUNT(*) FROM t;";

// The schema and two counts.
fn files(alloc: Global) -> Result<Vec<(String, Vec<u8>)>, AllocError>
    ensures { IfOk result (λ files. All (λ f. length f.1.items ≤ 536870912) files.items) }
{
    let mut files = Vec::new(alloc);
    files.push(file(alloc, "net.schema", SCHEMA)?)?;
    files.push(file(alloc, "q.sql", TWO_COUNTS)?)?;
    Ok(files)
}

#[test]
fn two_queries_ask_for_the_sections_of_tickets_0_and_1_once(rt: HostRuntime) -> Result<(), Fail> {
    let alloc = rt.alloc();
    let mut world = network(alloc, files(alloc)?, 1000)?;
    let deal = Recording::new(alloc);
    let words = words(alloc, "run q.sql 1")?;
    let status = pdn(&rt, alloc, &words, &mut world, &deal);
    assert_eq!(rt; status.code(), 0);
    assert_eq!(rt; deal.first.told(), (1, 1));
    assert_eq!(rt; deal.second.told(), (1, 1));
    assert_eq!(rt; deal.others.told(), (0, 0));
    Ok(())
}

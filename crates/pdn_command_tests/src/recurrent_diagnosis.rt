//! The recurrent diagnosis over two hospitals: which sections it asks for, and that its views are the same by any number of workers.
ghost use Rattle.std.specs.Prelude.{◌≤◌, length, All, IfOk};

use crate::networks::{Network, file, network, words};
use crate::recording::Recording;
use crate::waiting::Waiting;
use pdn_broker::Watch;
use pdn_commands::pdn;
use pdn_dealer::Deal;
use std::alloc::{AllocError, Global};
use std::test::Fail;
use std::thread::Threads;

const SCHEMA: &str = "\
version 1
floor 3
table diag rows 16
column pid int public per 4
column code code protected
column day int private
end
";

const QUERY: &str = "\
WITH d AS (SELECT pid, day, ROW_NUMBER() OVER (PARTITION BY pid ORDER BY day) AS r FROM diag WHERE code = 'cdiff')
SELECT DISTINCT a.pid FROM d a JOIN d b ON a.pid = b.pid AND b.r = a.r + 1
WHERE b.day >= a.day + 15 AND b.day <= a.day + 56 ORDER BY pid;
";

const DIAG_A: &str = "\
pid,code,day
1,cdiff,10
1,cdiff,30
2,cdiff,5
3,cdiff,100
4,flu,1
5,cdiff,50
6,cdiff,60
7,cdiff,7
8,cdiff,80
9,cdiff,9
9,cdiff,40
10,flu,3
";

const DIAG_B: &str = "\
pid,code,day
2,cdiff,20
3,cdiff,156
4,cdiff,30
5,cdiff,64
6,cdiff,117
7,cdiff,27
8,cdiff,80
9,cdiff,20
10,cdiff,50
11,cdiff,1
11,cdiff,40
12,cdiff,5
";

// Of the units 0 to 15 those for which a section is dealt, a digit each: 1 to 9, which are secure, and 12, the root. Units 0, 10 and 11
// are plain.
const DEALT: u64 = 0x1_0011_1111_1110;

// Room for all views.
const ROOM: usize = 1 << 26;

fn files(alloc: Global) -> Result<Vec<(String, Vec<u8>)>, AllocError>
    ensures { IfOk result (λ files. All (λ f. length f.1.items ≤ 536870912) files.items) }
{
    let mut files = Vec::new(alloc);
    files.push(file(alloc, "net.schema", SCHEMA)?)?;
    files.push(file(alloc, "q.sql", QUERY)?)?;
    files.push(file(alloc, "a.csv", DIAG_A)?)?;
    files.push(file(alloc, "b.csv", DIAG_B)?)?;
    Ok(files)
}

// What comes of these commands, one after the other: the network, where each is done.
fn done<R: Threads + Sync, D: Deal + Watch>(
    rt: &R,
    alloc: Global,
    commands: &[&str],
    deal: &D,
) -> Result<Option<Network>, Fail> {
    let mut world = network(alloc, files(alloc)?, ROOM)?;
    for command in commands {
        let words = words(alloc, command)?;
        if pdn(rt, alloc, &words, &mut world, deal).code() != 0 {
            return Ok(None);
        }
    }
    Ok(Some(world))
}

#[test]
fn each_unit_that_is_dealt_asks_once_and_runs_once(rt: HostRuntime) -> Result<(), Fail> {
    let alloc = rt.alloc();
    let deal = Recording::new(alloc);
    let commands = [
        "load a diag 1 a.csv",
        "load b diag 1 b.csv",
        "run q.sql 2 show a",
    ];
    let world = done(&rt, alloc, &commands, &deal)?;
    assert!(rt; world.is_some());
    assert_eq!(rt; deal.first.told(), (DEALT, DEALT));
    assert_eq!(rt; deal.second.told(), (0, 0));
    assert_eq!(rt; deal.others.told(), (0, 0));
    Ok(())
}

// All that is put where so many workers run the query, with all views.
fn shown<R: Threads + Sync>(rt: &R, alloc: Global, run: &str) -> Result<Vec<u8>, Fail> {
    let deal = Recording::new(alloc);
    let commands = ["load a diag 1 a.csv", "load b diag 1 b.csv", run];
    match done(rt, alloc, &commands, &deal)? {
        Some(world) => Ok(world.out.bytes().to_vec(alloc)?),
        None => Ok(Vec::new(alloc)),
    }
}

#[test]
fn all_views_are_the_same_by_one_and_two_workers(rt: HostRuntime) -> Result<(), Fail> {
    let alloc = rt.alloc();
    let one = shown(&rt, alloc, "run q.sql 1 show all")?;
    let two = shown(&rt, alloc, "run q.sql 2 show all")?;
    assert!(rt; one.len() > 100_000 && one == two);
    Ok(())
}

#[test]
fn all_views_are_the_same_by_two_and_sixteen_workers(rt: HostRuntime) -> Result<(), Fail> {
    let alloc = rt.alloc();
    let two = shown(&rt, alloc, "run q.sql 2 show all")?;
    let sixteen = shown(&rt, alloc, "run q.sql 16 show all")?;
    assert!(rt; two.len() > 100_000 && two == sixteen);
    Ok(())
}

#[test]
fn the_first_secure_unit_sees_the_other_eight_of_two_workers(rt: HostRuntime) -> Result<(), Fail> {
    let alloc = rt.alloc();
    let deal = Waiting::new(alloc, 9);
    let commands = ["load a diag 1 a.csv", "load b diag 1 b.csv", "run q.sql 2"];
    let world = done(&rt, alloc, &commands, &deal)?;
    assert!(rt; world.is_some() && deal.met());
    Ok(())
}

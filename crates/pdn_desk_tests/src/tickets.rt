//! Tickets of one keeper.
use pdn_desk_keeper::{DeskKeeper, MemDesk};
use pdn_keeper::KeepErr;
use std::test::Fail;

/// The number after the last ticket.
const END: u64 = 1_099_511_627_776;

/// The next ticket at first, the calls that are to fail, what four calls answer, and the next
/// ticket after them.
const RUNS: &[(u64, &[u64], [Result<u64, KeepErr>; 4], u64)] = &[
    (0, &[], [Ok(0), Ok(1), Ok(2), Ok(3)], 4),
    (7, &[1], [Err(KeepErr::Failed), Ok(7), Ok(8), Ok(9)], 10),
    (
        0,
        &[2, 3],
        [Ok(0), Err(KeepErr::Failed), Err(KeepErr::Failed), Ok(1)],
        2,
    ),
    (END - 1, &[], [Ok(END - 1), Ok(END), Ok(END), Ok(END)], END),
    (
        END,
        &[2],
        [Ok(END), Err(KeepErr::Failed), Ok(END), Ok(END)],
        END,
    ),
];

#[test]
fn tickets_rise_until_none_is_left_and_a_failed_call_takes_none(
    rt: HostRuntime,
) -> Result<(), Fail> {
    let alloc = rt.alloc();
    for (first, fail, answers, last) in RUNS {
        let fail = Vec::from_slice(alloc, fail)?;
        let mut desk = MemDesk::new((*first).min(END), fail);
        for answer in answers {
            assert_eq!(rt; desk.ticket(alloc), *answer);
        }
        assert_eq!(rt; desk.next(), *last);
    }
    Ok(())
}

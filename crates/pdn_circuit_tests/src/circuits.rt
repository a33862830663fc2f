//! Single gates and blocks of gates, evaluated in plain, and bounds of gates.
use crate::lists::{of_a, words_of, words_on};
use pdn_base::{Site, Word};
use pdn_circuit::{BuildErr, Builder, Inputs, Pick};
use std::test::Fail;

// lanes 0, 1, 31, 32, 62 and 63
const EDGES: u64 = 0xc000_0001_8000_0003;
// lanes 0, 32 and 63
const SOME: u64 = 0x8000_0001_0000_0001;

/// The word of a gate.
fn word_at(words: &[Word], gate: u32) -> Option<u64> {
    words.get(gate as usize).map(Word::to_u64)
}

#[test]
fn a_lane_is_spread_and_lanes_are_moved_from_their_own_places(rt: HostRuntime) -> Result<(), Fail> {
    let alloc = rt.alloc();
    let mut b = Builder::new(alloc, 0, 16)?;
    let edges = b.constant(Word::from_u64(EDGES))?;
    let some = b.constant(Word::from_u64(SOME))?;
    let set = b.spread(edges, 63)?;
    let clear = b.spread(some, 31)?;
    let low = b.move_lanes(edges, 62, 2, 0)?;
    let high = b.move_lanes(edges, 0, 2, 62)?;
    let same = b.move_lanes(some, 0, 64, 0)?;
    let words = words_of(alloc, b, Vec::new(alloc))?;
    for (gate, wanted) in [
        (set, u64::MAX),
        (clear, 0),
        (low, 3),
        (high, 0xc000_0000_0000_0000),
        (same, SOME),
    ] {
        assert_eq!(rt; word_at(&words, gate), Some(wanted));
    }
    Ok(())
}

#[test]
fn a_bound_refuses_the_first_gate_too_many(rt: HostRuntime) -> Result<(), Fail> {
    let alloc = rt.alloc();
    assert!(rt; Builder::new(alloc, 0, 1).is_err());
    let mut b = Builder::new(alloc, 0, 3)?;
    assert!(rt; b.and(0, 1) == Err(BuildErr::Full { limit: 2 }));
    assert!(rt; b.xor(0, 1) == Ok(2));
    assert!(rt; b.xor(0, 1) == Err(BuildErr::Full { limit: 3 }));
    assert!(rt; b.len() == 3);
    Ok(())
}

#[test]
fn inputs_of_both_sites_and_given_words_meet(rt: HostRuntime) -> Result<(), Fail> {
    let alloc = rt.alloc();
    let mut b = Builder::new(alloc, 1, 8)?;
    let from_a = b.input(Site::A)?;
    let from_b = b.input(Site::B)?;
    let given = b.given()?;
    let both = b.and(from_a, from_b)?;
    let sum = b.xor(both, given)?;
    let circuit = b.finish(vec![in alloc; sum]?, true);
    let copy = circuit.copy(alloc)?;
    let inputs = Inputs {
        a: vec![in alloc; Word::from_u64(EDGES)]?,
        b: vec![in alloc; Word::from_u64(SOME)]?,
        given: vec![in alloc; Word::from_u64(1)]?,
    };
    let words = words_on(alloc, &copy, &inputs)?;
    assert!(rt; copy.outputs.as_slice() == [6].as_slice());
    assert!(rt; copy.released);
    let wanted = [0, u64::MAX, EDGES, SOME, 1, SOME, 0x8000_0001_0000_0000];
    assert_eq!(rt; words.len(), 7);
    for (word, wanted) in words.iter().zip(wanted) {
        assert_eq!(rt; word.to_u64(), wanted);
    }
    Ok(())
}

#[test]
fn a_counter_takes_a_bit_and_rows_are_laid_out(rt: HostRuntime) -> Result<(), Fail> {
    let alloc = rt.alloc();
    let mut b = Builder::new(alloc, 1, 16)?;
    let low = b.constant(Word::from_u64(0b0101))?;
    let high = b.constant(Word::from_u64(0b0011))?;
    let bit = b.constant(Word::from_u64(0b1111))?;
    let sums = b.add_bit(&[low, high], bit)?;
    assert!(rt; sums.as_slice() == [5, 7].as_slice());
    let pick = |list, row, gate| Pick { list, row, gate };
    let picks = [
        pick(0, 1, high),
        pick(0, 1, high),
        pick(1, 0, low),
        pick(1, 1, low),
        pick(1, 2, low),
    ];
    let laid = b.lay(&picks)?;
    assert!(rt; laid.as_slice() == [11].as_slice());
    let words = words_of(alloc, b, Vec::new(alloc))?;
    // the counter's lanes 0 to 3 held 3, 2, 1 and 0, and now hold 0, 3, 2 and 1
    assert!(rt; word_at(&words, 5) == Some(0xa));
    assert!(rt; word_at(&words, 7) == Some(0x6));
    // rows 1 and 1 of the first list, and rows 0 to 2 of the second
    assert!(rt; word_at(&words, 11) == Some(0b10111));
    Ok(())
}

#[test]
fn words_are_compared_lane_by_lane(rt: HostRuntime) -> Result<(), Fail> {
    let alloc = rt.alloc();
    let mut b = Builder::new(alloc, 4, 32)?;
    let x = b.constant(Word::from_u64(0b0101))?;
    let y = b.constant(Word::from_u64(0b0011))?;
    let either = b.or(x, y)?;
    let less = b.less(0, &[x], &[y])?;
    let equal = b.equal(&[x, y], &[y, y])?;
    let other = b.not(x)?;
    let words = words_of(alloc, b, Vec::new(alloc))?;
    assert!(rt; word_at(&words, either) == Some(0b0111));
    assert!(rt; word_at(&words, less) == Some(0b0010));
    // the lower planes are the same in lanes 0 and 3 and from lane 4 on
    assert!(rt; word_at(&words, equal) == Some(u64::MAX - 0b0110));
    assert!(rt; word_at(&words, other) == Some(u64::MAX - 0b0101));
    Ok(())
}

//! Blocks of circuits that no test below uses.
use pdn_base::{Site, Word};
use pdn_circuit::{Builder, Circuit, Gate};
use pdn_dealer::{Deal, ListDeal, Triple, section_len};
use std::alloc::Global;
use std::test::Fail;

#[test]
fn equal_makes_two_gates_a_plane_and_plus_five(rt: HostRuntime) -> Result<(), Fail> {
    let mut builder = Builder::new(rt.alloc(), 100, 200)?;
    assert_eq!(rt; builder.equal(&[0], &[0])?, 3);
    let planes = builder.plus(&[0; 32], 1)?;
    assert_eq!(rt; planes.len(), 33);
    assert_eq!(rt; planes.first(), Some(&7));
    assert_eq!(rt; planes.last(), Some(&163));
    assert_eq!(rt; builder.len(), 164);
    Ok(())
}

#[test]
fn a_lane_is_a_bit(rt: HostRuntime) -> Result<(), Fail> {
    let word = Word::from_u64(0x8000_0000_0000_0002);
    assert!(rt; word.lane(1) && word.lane(63));
    assert!(rt; !word.lane(0) && !word.lane(62));
    Ok(())
}

// Two And gates, the second of which reads the first.
fn two_ands(alloc: Global) -> Result<Circuit, Fail> {
    let mut builder = Builder::new(alloc, 2, 10)?;
    let x = builder.input(Site::A)?;
    let y = builder.input(Site::B)?;
    let first = builder.and(x, y)?;
    let second = builder.and(first, y)?;
    let mut outputs = Vec::new(alloc);
    outputs.push(second)?;
    Ok(builder.finish(outputs, true))
}

fn triple(a: u64, b: u64, c: u64) -> Triple {
    Triple {
        a: Word::from_u64(a),
        b: Word::from_u64(b),
        c: Word::from_u64(c),
    }
}

#[test]
fn a_section_of_two_and_gates_is_split(rt: HostRuntime) -> Result<(), Fail> {
    let alloc = rt.alloc();
    let circuit = two_ands(alloc)?;
    let mut words = Vec::new(alloc);
    for number in 1..14u64 {
        words.push(Word::from_u64(number))?;
    }
    let mut entries = Vec::new(alloc);
    entries.push((0, 0, words))?;
    let section = ListDeal::new(entries).section(alloc, 0, 0, section_len(&circuit))?;
    assert_eq!(rt; section.words().len(), 13);
    let (a, b) = section.split(alloc, &circuit)?;
    let r = [Word::from_u64(1), Word::from_u64(2)];
    let masks = [Word::from_u64(13)];
    assert_eq!(rt;
        a.triples.as_slice(),
        [triple(3, 5, 7), triple(8, 10, 12)].as_slice()
    );
    assert_eq!(rt;
        b.triples.as_slice(),
        [triple(4, 6, 4), triple(9, 11, 13)].as_slice()
    );
    assert_eq!(rt; a.r.as_slice(), r.as_slice());
    assert_eq!(rt; b.r.as_slice(), r.as_slice());
    assert_eq!(rt; a.masks.as_slice(), masks.as_slice());
    assert_eq!(rt; b.masks.as_slice(), masks.as_slice());
    Ok(())
}

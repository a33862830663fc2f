//! Words of the tape.
use pdn_base::Word;
use pdn_dealer::{ChaChaDeal, Deal, ListDeal};
use std::test::Fail;

// The key stream vectors of RFC 8439: appendix A.1, numbers 1 to 5, and section 2.3.2. There the counter has 32
// bits and the nonce 96: the nonce's first 32 bits are the counter's high half here, the others the ticket.
#[test]
fn words_are_the_key_stream_of_chacha20(rt: HostRuntime) -> Result<(), Fail> {
    let zero = [0; 32];
    let mut one = [0; 32];
    one[31] = 1;
    let mut high = [0; 32];
    high[1] = 0xff;
    let mut counting = [0; 32];
    for k in 0..32u8 {
        counting[k as usize] = k;
    }
    let table = [
        (zero, 0, 0, 0, 0x903d_f1a0_ade0_b876, 0x28bd_8653_e56a_5d40),
        (zero, 0, 0, 8, 0x7a38_5155_bee7_079f, 0x0d08_2d73_7c97_ba98),
        (one, 0, 0, 8, 0x9249_f8ec_2452_eb3a, 0xddd4_ceb1_8d82_9d9b),
        (high, 0, 0, 16, 0x4bc4_2ef1_fb4d_d572, 0x327f_1394_df92_2636),
        (
            zero,
            0x0200_0000_0000_0000,
            0,
            0,
            0x3736_d58c_374d_c6c2,
            0xcd3f_93ef_b904_e24a,
        ),
        (
            counting,
            0x4a00_0000,
            0x9000_0000,
            8,
            0x1559_3bd1_e4e7_f110,
            0xc471_20a3_1fdd_0f50,
        ),
        // places are numbers modulo 2^68
        (
            zero,
            0,
            0x10_0000_0000,
            8,
            0x7a38_5155_bee7_079f,
            0x0d08_2d73_7c97_ba98,
        ),
    ];
    for (key, ticket, unit, place, first, second) in table {
        let section = ChaChaDeal::new(key).section(rt.alloc(), ticket, unit, place + 2)?;
        let words = section.words();
        assert!(rt; (place as usize) + 2 == words.len());
        assert_eq!(rt;
            words[place as usize].to_u64(),
            first,
            "first word of unit {unit}"
        );
        assert_eq!(rt;
            words[place as usize + 1].to_u64(),
            second,
            "second word of unit {unit}"
        );
    }
    Ok(())
}

#[test]
fn given_words_end_in_zero(rt: HostRuntime) -> Result<(), Fail> {
    let mut words = Vec::new(rt.alloc());
    words.push(Word::from_u64(5))?;
    words.push(Word::from_u64(6))?;
    let mut entries = Vec::new(rt.alloc());
    entries.push((3, 1, words))?;
    let deal = ListDeal::new(entries);
    for (ticket, unit, expected) in [(3, 1, [5, 6, 0]), (3, 0, [0, 0, 0]), (1, 1, [0, 0, 0])] {
        let section = deal.section(rt.alloc(), ticket, unit, 3)?;
        let mut seen = [9; 3];
        for (place, word) in section.words().iter().enumerate() {
            assert!(rt; place < 3);
            seen[place] = word.to_u64();
        }
        assert_eq!(rt; seen, expected, "ticket {ticket} unit {unit}");
    }
    Ok(())
}

//! Lists of words joined four words at a time, against a plain loop over their numbers.
ghost use Rattle.std.specs.Prelude.{◌≡◌, length, IfOk};

use pdn_base::{Site, Word, and_steps, and_words, xor_words};
use std::alloc::Global;
use std::test::Fail;

// none, fewer than four, four, and past four
const LENGTHS: [usize; 4] = [0, 3, 4, 9];

/// Words that differ from place to place, and from list to list.
fn words(alloc: Global, seed: u64, len: usize) -> Result<Vec<Word>, Fail>
    ensures { IfOk result (λ words. length words.items ≡ len) }
{
    let mut words = vec![in alloc; Word::from_u64(0); len]?;
    for k in 0..words.len() {
        let place = (k as u64).wrapping_add(seed.wrapping_mul(1_000_003));
        words[k] = Word::from_u64(place.wrapping_mul(0x9e37_79b9_7f4a_7c15));
    }
    Ok(words)
}

fn is_at(words: &[Word], place: usize, wanted: u64) -> bool {
    words.get(place).map(Word::to_u64) == Some(wanted)
}

/// Whether XOR and AND of two lists are those of their numbers, place by place.
fn lists_are_joined(alloc: Global, len: usize) -> Result<bool, Fail> {
    let a = words(alloc, 1, len)?;
    let b = words(alloc, 2, len)?;
    let mut xor = words(alloc, 3, len)?;
    let mut and = words(alloc, 4, len)?;
    xor_words(&mut xor, &a, &b);
    and_words(&mut and, &a, &b);
    let mut same = xor.len() == len && and.len() == len;
    for k in 0..len {
        let (x, y) = (a[k].to_u64(), b[k].to_u64());
        same = same && is_at(&xor, k, x ^ y) && is_at(&and, k, x & y);
    }
    Ok(same)
}

/// Whether a site's shares of And gates are those of the numbers, place by place.
fn shares_are_found(alloc: Global, site: Site, len: usize) -> Result<bool, Fail> {
    let a = words(alloc, 1, len)?;
    let b = words(alloc, 2, len)?;
    let c = words(alloc, 3, len)?;
    let d = words(alloc, 4, len)?;
    let e = words(alloc, 5, len)?;
    let mut out = words(alloc, 6, len)?;
    and_steps(&mut out, site, &c, (&a, &b), (&d, &e));
    let mut same = out.len() == len;
    for k in 0..len {
        let (open_x, open_y) = (d[k].to_u64(), e[k].to_u64());
        let share = c[k].to_u64() ^ (open_x & b[k].to_u64()) ^ (open_y & a[k].to_u64());
        let wanted = match site {
            Site::A => share ^ (open_x & open_y),
            Site::B => share,
        };
        same = same && is_at(&out, k, wanted);
    }
    Ok(same)
}

#[test]
fn lists_of_every_length_are_joined_as_a_plain_loop_joins_them(
    rt: HostRuntime,
) -> Result<(), Fail> {
    let alloc = rt.alloc();
    for len in LENGTHS {
        assert!(rt; lists_are_joined(alloc, len)?);
        assert!(rt; shares_are_found(alloc, Site::A, len)?);
        assert!(rt; shares_are_found(alloc, Site::B, len)?);
    }
    Ok(())
}

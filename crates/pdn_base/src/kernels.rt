//! Lists of words, four words at a time, and a plain loop for the rest.
ghost use Rattle.std.specs.Prelude.{◌≡◌, ◌+◌, ◌≤◌, ◌<◌, length, take, drop, slice_index};
ghost use Rattle.std.specs.Simd.Lanes.{put_chunk};
ghost use Rattle.pdn_base.specs.Words.{xor_lists, and_lists, and_step, and_steps};
ghost use Rattle.pdn_base.specs.Lanes.{lanes_step};

use crate::{Site, Word};
use std::simd::prelude::*;

/// The words of `out` become those of `a` and of `b`, lane by lane, in which just one of the two is true.
pub fn xor_words(out: &mut [Word], a: &[Word], b: &[Word])
    requires a { length a.now ≡ length out.old }
    requires b { length b.now ≡ length out.old }
    ensures { out.new ≡ xor_lists a.now b.now }
{
    let mut i = 0;
    while i + 4 <= out.len() {
        let lanes = load(a, i) ^ load(b, i);
        store(out, i, lanes);
        i += 4;
    }
    while i < out.len() {
        out[i] = a[i].xor(&b[i]);
        i += 1;
    }
}

/// The words of `out` become those of `a` and of `b`, lane by lane, in which both are true.
pub fn and_words(out: &mut [Word], a: &[Word], b: &[Word])
    requires a { length a.now ≡ length out.old }
    requires b { length b.now ≡ length out.old }
    ensures { out.new ≡ and_lists a.now b.now }
{
    let mut i = 0;
    while i + 4 <= out.len() {
        let lanes = load(a, i) & load(b, i);
        store(out, i, lanes);
        i += 4;
    }
    while i < out.len() {
        out[i] = a[i].and(&b[i]);
        i += 1;
    }
}

/// The words of `out` become a site's shares of And gates whose operands are open under their masks, as d and e: c xor (d and b) xor
/// (e and a), to which A adds d and e (Beaver 1991). The masks are a and b, and c is the site's share of their product.
pub fn and_steps(
    out: &mut [Word],
    site: Site,
    c: &[Word],
    masks: (&[Word], &[Word]),
    opened: (&[Word], &[Word]),
)
    requires c { length c.now ≡ length out.old }
    requires a { length masks.0.now ≡ length out.old }
    requires b { length masks.1.now ≡ length out.old }
    requires d { length opened.0.now ≡ length out.old }
    requires e { length opened.1.now ≡ length out.old }
    ensures { let a = masks.entry.0.now in let b = masks.entry.1.now in
        let d = opened.entry.0.now in let e = opened.entry.1.now in
        out.new ≡ and_steps site c.now a b d e }
{
    let (a, b) = masks;
    let (d, e) = opened;
    let mut i = 0;
    while i + 4 <= out.len() {
        let lanes = lanes_step(
            site,
            load(c, i),
            (load(a, i), load(b, i)),
            (load(d, i), load(e, i)),
        );
        store(out, i, lanes);
        i += 4;
    }
    while i < out.len() {
        out[i] = and_step(site, &c[i], &a[i], &b[i], &d[i], &e[i]);
        i += 1;
    }
}

// Four And gates at once.
fn lanes_step(site: Site, c: u64x4, masks: (u64x4, u64x4), opened: (u64x4, u64x4)) -> u64x4
    ensures { result ≡ lanes_step site c masks.0 masks.1 opened.0 opened.1 }
{
    let share = c ^ (opened.0 & masks.1) ^ (opened.1 & masks.0);
    match site {
        Site::A => share ^ (opened.0 & opened.1),
        Site::B => share,
    }
}

/// A site's share of one And gate whose operands are open under their masks a and b, as d and e (Beaver 1991).
pub fn and_step(site: Site, c: &Word, a: &Word, b: &Word, d: &Word, e: &Word) -> Word
    ensures { result ≡ and_step site c.now a.now b.now d.now e.now }
{
    let share = c.xor(&d.and(b)).xor(&e.and(a));
    match site {
        Site::A => share.xor(&d.and(e)),
        Site::B => share,
    }
}

// Four words of a list, from a place on.
fn load(words: &[Word], at: usize) -> u64x4
    requires { at + 4 ≤ length words.now }
    ensures { result ≡ take 4 (drop at words.now) }
{
    u64x4::from_array([
        bits_at(words, at),
        bits_at(words, at + 1),
        bits_at(words, at + 2),
        bits_at(words, at + 3),
    ])
}

fn bits_at(words: &[Word], at: usize) -> u64
    requires { at < length words.now }
    ensures { result ≡ slice_index words.now at }
{
    words[at].to_u64()
}

// Four words of a list become these, from a place on.
fn store(out: &mut [Word], at: usize, lanes: u64x4)
    requires place { at + 4 ≤ length out.old }
    requires four { length lanes ≡ 4 }
    ensures { out.new ≡ put_chunk at out.old lanes }
{
    let [first, second, third, fourth] = lanes.to_array();
    out[at] = Word { bits: first };
    out[at + 1] = Word { bits: second };
    out[at + 2] = Word { bits: third };
    out[at + 3] = Word { bits: fourth };
}

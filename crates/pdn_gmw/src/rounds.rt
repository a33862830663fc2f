//! One depth: the frame that goes out, and what comes of the one that comes in.
ghost use Rattle.std.specs.Prelude.{◌≡◌, ℕ, ◌*◌, ◌<◌, ◌≤◌, ◌^◌, length, take, slice_index, slice_index_or};
ghost use Rattle.std.specs.List.{fold, flat_map};
ghost use Rattle.pdn_circuit.specs.declared.gate.Gate.{Gate};
ghost use Rattle.pdn_circuit.specs.Gates.{NamesBelow, LanesFit};
ghost use Rattle.pdn_gmw.specs.Layers.{LayerAnd};
ghost use Rattle.pdn_gmw.specs.Halves.{half_product};
ghost use Rattle.pdn_gmw.specs.Known.{own_triple, AndThere, AndsThere, and_sends, heard_by, settled_by, linear_share, linear_settled};
ghost use Rattle.pdn_gmw.specs.Steps.{masked_words};

use crate::layers::LayerAnd;
use crate::masked::Masked;
use crate::views::GateView;
use pdn_base::{Site, Word};
use pdn_circuit::{Circuit, Gate};

/// Writes the words that go out for these And gates, two for each.
pub fn write_frame(ands: &[LayerAnd], views: &[GateView], shares: &[Word], frame: &mut [Word])
    requires there { AndsThere ands.now (length views.now) (length shares.now) }
    requires room { 2 * length ands.now ≤ length frame.old }
    ensures long { length frame.new ≡ length frame.old }
    ensures words { take (2 * length ands.now) frame.new
        ≡ flat_map (λ s. masked_words (and_sends views.now shares.now s)) ands.now }
{
    for k in 0..ands.len() {
        let masked = sends(&ands[k], views, shares);
        frame[2 * k] = masked.d;
        frame[2 * k + 1] = masked.e;
    }
}

// What goes out for one And gate.
fn sends(and: &LayerAnd, views: &[GateView], shares: &[Word]) -> Masked
    requires { AndThere (length views.now) (length shares.now) and.now }
    ensures { result ≡ and_sends views.now shares.now and.now }
{
    let view = views[and.number as usize];
    Masked {
        d: shares[and.x as usize].xor(&view.a),
        e: shares[and.y as usize].xor(&view.b),
    }
}

/// The frames of one depth: the half's own, and the other side's.
#[derive(Clone, Copy)]
pub struct Exchange<'a> {
    pub sent: &'a [Word],
    pub heard: &'a [Word],
}

/// What was exchanged for a depth goes to its views, and settles the shares of its And gates.
pub fn settle_ands(
    site: Site,
    ands: &[LayerAnd],
    frames: Exchange<'_>,
    views: &mut [GateView],
    shares: &mut [Word],
)
    requires there { AndsThere ands.now (length views.old) (length shares.old) }
    requires sent { length frames.sent.now ≡ 2 * length ands.now }
    requires heard { length frames.heard.now ≡ 2 * length ands.now }
    ensures long { length shares.new ≡ length shares.old }
    ensures views { views.new ≡ heard_by ands.now frames.entry.heard.now views.old }
    ensures shares { shares.new
        ≡ settled_by site views.old ands.now frames.entry.sent.now frames.entry.heard.now shares.old }
{
    for k in 0..ands.len() {
        let and = ands[k];
        let at = and.number as usize;
        let old = views[at];
        let view = GateView {
            d: frames.heard[2 * k],
            e: frames.heard[2 * k + 1],
            ..old
        };
        let d = frames.sent[2 * k].xor(&view.d);
        let e = frames.sent[2 * k + 1].xor(&view.e);
        views[at] = view;
        shares[and.gate as usize] = product_share(site, &view, &d, &e);
    }
}

// A site's share of a product, where both operands are open under their masks: A alone adds their product.
fn product_share(site: Site, view: &GateView, d: &Word, e: &Word) -> Word
    ensures { result ≡ half_product site (own_triple view.now) d.now e.now }
{
    let share = view.c.xor(&d.and(&view.b)).xor(&e.and(&view.a));
    match site {
        Site::A => share.xor(&d.and(e)),
        Site::B => share,
    }
}

/// Computes the shares of these Xor, Spread and Move gates, each of which stands after what it reads.
pub fn share_rest(circuit: &Circuit, rest: &[u32], shares: &mut [Word])
    requires long { length shares.old ≡ length circuit.now.gates }
    requires there { (m : ℕ) → m < length rest.now
        → slice_index rest.now m < length circuit.now.gates }
    ensures long { length shares.new ≡ length shares.old }
    ensures shares { shares.new ≡ fold (linear_settled circuit.now.gates) shares.old rest.now }
{
    for k in 0..rest.len() {
        let at = rest[k] as usize;
        let share = linear_share(&circuit.gates[at], shares);
        shares[at] = share;
    }
}

fn linear_share(gate: &Gate, shares: &[Word]) -> Word
    requires names { NamesBelow (length shares.now) gate.now }
    requires lanes { LanesFit gate.now }
    ensures { result ≡ linear_share shares.now gate.now }
{
    match gate {
        Gate::Xor { a, b } => shares[*a as usize].xor(&shares[*b as usize]),
        Gate::Spread { a, lane } => shares[*a as usize].spread(*lane),
        Gate::Move { a, from, count, to } => shares[*a as usize].move_lanes(*from, *count, *to),
        Gate::Input { .. } | Gate::Given { .. } | Gate::Const { .. } | Gate::And { .. } => {
            Word::from_u64(0)
        }
    }
}

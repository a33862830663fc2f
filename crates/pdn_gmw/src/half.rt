//! One half of a run.
ghost use Rattle.std.specs.Prelude.{◌≡◌, ℕ, ◌*◌, ◌<◌, ◌≤◌, ◌^◌, length, map, replicate, IfOk};
ghost use Rattle.std.specs.Borrow.{sem};

use crate::finished::{Finished, write_outputs};
use crate::holdings::Holdings;
use crate::input_masks::r_words;
use crate::rounds::{Exchange, settle_ands, share_rest, write_frame};
use crate::schedule::Schedule;
use crate::stage::Stage;
use crate::step::{FrameErr, Step};
use crate::views::{GateView, UnitView};
use pdn_base::{Memory, Site, Word};
use pdn_circuit::Circuit;
use pdn_dealer::{Part, Triple};
use std::alloc::Global;
use std::marker::Model;

/// One site's half of a circuit's run.
#[derive(Drop)]
pub struct Half {
    schedule: Schedule,
    holdings: Holdings,
    own_r: Vec<Word>,
    other_r: Vec<Word>,
    views: Vec<GateView>,
    shares: Vec<Word>,
    taken: usize,
    frame: Vec<Word>,
    outputs: Vec<Word>,
    stage: Stage,
}

impl Model for Half {
    ghost use Rattle.pdn_gmw.specs.Steps.{HalfState};

    ghost Value = { HalfState };

    ghost use Rattle.pdn_gmw.specs.Places.{state_of, IsHalf};

    ghost view = { state_of };

    ghost invariant = { IsHalf };
}

impl Half {
    ghost use Rattle.pdn_gmw.specs.declared.stage.Stage.TheVariants.{Ready, Wanting, Over};
    ghost use Rattle.pdn_gmw.specs.Steps.{half_words, Fits, begun, after_next, after_take, next_frame, frame_count, IsTaken, finished};
    ghost use Rattle.pdn_circuit.specs.Gates.{IsCircuit};
    ghost use Rattle.pdn_gmw.specs.Given.{IsStep, LeavesStepped};

    /// A half of a circuit's run that has made no step. `own` are the site's input words, `given` its shares of
    /// the given words, and `part` its part of the section. All that the half will need is reserved here.
    ///
    /// It works out the circuit's schedule for itself: `Half::on` takes one that both halves read.
    pub fn new(
        alloc: Global,
        circuit: &Circuit,
        site: Site,
        own: Vec<Word>,
        given: Vec<Word>,
        part: Part,
    ) -> Result<Half, Memory>
        requires { Fits circuit.now (half_words site own.items given.items part) }
        ensures { IfOk result (λ h. h ≡ begun circuit.now
            (half_words site own.items given.items part)) }
    {
        let schedule = Schedule::new(alloc, circuit)?;
        Half::on(alloc, &schedule, site, own, given, part)
    }

    /// The same on a schedule that both halves read.
    pub fn on(
        alloc: Global,
        schedule: &Schedule,
        site: Site,
        own: Vec<Word>,
        given: Vec<Word>,
        part: Part,
    ) -> Result<Half, Memory>
        requires { Fits schedule.now (half_words site own.items given.items part) }
        ensures { IfOk result (λ h.
            h ≡ begun schedule.now (half_words site own.items given.items part)) }
    {
        let Part { r, triples, masks } = part;
        let circuit = schedule.circuit();
        let leaves = schedule.leaves();
        let own_r = r_words(alloc, leaves, site, r.as_slice())?;
        let other_r = r_words(alloc, leaves, other(site), r.as_slice())?;
        let views = unheard(alloc, triples)?;
        let zero = Word::from_u64(0);
        let outputs = vec![in alloc; zero; circuit.outputs.len()]?;
        let frame = vec![in alloc; zero; 2 * schedule.most_ands()]?;
        let holdings = Holdings {
            site,
            own,
            given,
            r,
            masks,
        };
        let shares = holdings.first_shares(alloc, schedule)?;
        let schedule = schedule.share()?;
        Ok(Half {
            schedule,
            holdings,
            own_r,
            other_r,
            views,
            shares,
            taken: 0,
            frame,
            outputs,
            stage: Stage::Ready,
        })
    }

    /// The next step: Send once for each frame, then Want until the other side's frame is taken, and Done at the
    /// end. The frames are those of the depths in order: the k-th has two words for each And gate of depth k, in
    /// gate order.
    pub fn next(&mut self) -> Step<'_>
        ensures* left { sem 𝓛 (LeavesStepped self.entry) }
        ensures gives { IsStep self.old result }
    {
        self.turn();
        match self.stage {
            Stage::Sent => {
                let layer = self.schedule.after(self.taken);
                Step::Send(&self.frame[..2 * layer.ands.len()])
            }
            Stage::Wanting => Step::Want(self.frame_len() as u32),
            Stage::Ready | Stage::Over => Step::Done,
        }
    }

    /// Takes the other side's frame. One of another length is not taken, and leaves the half as it was.
    pub fn take(&mut self, frame: &[Word]) -> Result<(), FrameErr>
        requires wanting { self.old.stage ≡ Wanting }
        requires few { length frame.now < 2 ^ 32 }
        ensures { IsTaken self.old self.new frame.now result }
    {
        let want = self.frame_len();
        if frame.len() == want {
            self.settle(frame);
            Ok(())
        } else {
            Err(FrameErr::Length {
                got: frame.len() as u32,
                want: want as u32,
            })
        }
    }

    /// What the half finished with.
    pub fn finish(self) -> Finished
        requires { self.stage ≡ Over }
        ensures { result ≡ finished self }
    {
        let Half {
            schedule,
            holdings,
            own_r,
            other_r,
            views,
            shares,
            mut outputs,
            ..
        } = self;
        write_outputs(
            schedule.circuit(),
            &holdings,
            shares.as_slice(),
            &mut outputs,
        );
        let Holdings {
            site,
            own,
            given,
            masks,
            ..
        } = holdings;
        let view = UnitView {
            own: own_r,
            other: other_r,
            gates: views,
            masks,
        };
        Finished::of(schedule.into_circuit(), site, own, given, view, outputs)
    }

    // How many frames each half sends.
    pub(crate) fn frames(&self) -> usize
        ensures count { result ≡ frame_count self.now.net }
        ensures fits { Fits self.now.net self.now.half }
        ensures circuit { IsCircuit self.now.net }
    {
        self.schedule.frames()
    }

    // How many words the frame of this round has, either way.
    fn frame_len(&self) -> usize
        requires { self.now.stage ≡ Wanting }
        ensures words { result ≡ length (next_frame self.now) }
        ensures few { result < 2 ^ 32 }
    {
        let layer = self.schedule.after(self.taken);
        2 * layer.ands.len()
    }

    // The step that the next one is, once it is found.
    fn turn(&mut self)
        ensures { self.new ≡ after_next self.old }
    {
        match self.stage {
            Stage::Ready => self.begin_round(),
            Stage::Sent => self.stage = Stage::Wanting,
            Stage::Wanting | Stage::Over => {}
        }
    }

    // The frame of the next depth is made, where there is one.
    fn begin_round(&mut self)
        requires { self.old.stage ≡ Ready }
        ensures { self.new ≡ after_next self.old }
    {
        if self.taken < self.schedule.frames() {
            let layer = self.schedule.after(self.taken);
            write_frame(
                layer.ands.as_slice(),
                self.views.as_slice(),
                self.shares.as_slice(),
                self.frame.as_mut_slice(),
            );
            self.stage = Stage::Sent;
        } else {
            self.stage = Stage::Over;
        }
    }

    // What came in settles the shares of the next depth.
    fn settle(&mut self, frame: &[Word])
        requires wanting { self.old.stage ≡ Wanting }
        requires long { length frame.now ≡ length (next_frame self.old) }
        ensures { self.new ≡ after_take self.old frame.now }
    {
        let layer = self.schedule.after(self.taken);
        let frames = Exchange {
            sent: &self.frame[..2 * layer.ands.len()],
            heard: frame,
        };
        settle_ands(
            self.holdings.site(),
            layer.ands.as_slice(),
            frames,
            self.views.as_mut_slice(),
            self.shares.as_mut_slice(),
        );
        share_rest(
            self.schedule.circuit(),
            layer.rest.as_slice(),
            self.shares.as_mut_slice(),
        );
        self.taken += 1;
        self.stage = Stage::Ready;
    }
}

ghost use Rattle.pdn_base.specs.declared.site.Site.{Site};
ghost use Rattle.pdn_gmw.specs.Shares.{other_site};
ghost use Rattle.pdn_gmw.specs.Known.{unheard};

fn other(site: Site) -> Site
    ensures { result ≡ other_site site }
{
    match site {
        Site::A => Site::B,
        Site::B => Site::A,
    }
}

// The views of the And gates before anything has come in. The triples' memory is then free.
fn unheard(alloc: Global, triples: Vec<Triple>) -> Result<Vec<GateView>, Memory>
    ensures { IfOk result (λ views. views.items ≡ map unheard triples.items) }
{
    let zero = Word::from_u64(0);
    let mut views = Vec::with_capacity(alloc, triples.len())?;
    for triple in triples.as_slice() {
        views.push(GateView {
            a: triple.a,
            b: triple.b,
            c: triple.c,
            d: zero,
            e: zero,
        })?;
    }
    Ok(views)
}

//! A plan run twice, side by side: all of it amid the others, and a handle's own pieces of it by themselves.

ghost use Rattle.std.specs.Prelude.{◌≡◌, true, false, IfOk, is_some};
ghost use Rattle.usb_model.specs.World.Plans.{is_submission};
ghost use Rattle.usb_core.specs.Public.{setup_of};
ghost use Rattle.usb_plans.specs.Alone.{AdvancesBoth, AreLeft, Begins, PerformsTwice, is_own_by};
ghost use Rattle.usb_plans.specs.PlanRuns.{is_verdict};

use crate::drives::next_callback;
use crate::plan_run::{Performed, PlanRun, copy_of};
use std::alloc::{AllocError, Global};
use std::marker::Model;
use std::vec::IntoIter;
use usb_core::{Callback, Setup};
use usb_device::Device;
use usb_model::{Entry, Name, Plan};

/// What came of a piece that is the handle's own.
#[derive(Drop)]
pub struct TwinPiece<C> {
    /// Amid the others.
    pub shared: Performed<C>,
    /// In the handle's own run.
    pub alone: Performed<C>,
}

/// A run of a plan amid all handles, and one of a handle's own pieces beside it, each with callbacks of its own for the
/// submissions to come. Contracts see both runs and both lists of callbacks. Where memory is refused it is to be dropped:
/// what it shows then isn't said.
#[derive(Drop)]
pub struct Twins<C: Callback, D: Device> {
    run: PlanRun<C, D>,
    own: PlanRun<C, D>,
    left: IntoIter<C>,
    its: IntoIter<C>,
}

impl<C: Callback, D: Device> Model for Twins<C, D> {
    ghost use Rattle.std.specs.Vec.Iter.{into_iter_items};
    ghost use Rattle.usb_plans.specs.Alone.{TwinState};

    ghost Value = { TwinState C };

    ghost view = { λ t. record {
      run = t.run;
      own = t.own;
      left = into_iter_items t.left;
      its = into_iter_items t.its;
    } };
}

/// Whether a piece is the handle's own: a step by its entry, a return by the name that it says.
pub(crate) fn is_own(h: Name, piece: &Plan, entry: &Entry) -> bool
    ensures { result ≡ is_own_by h piece.now entry.now }
{
    match piece {
        Plan::Do(step) => entry.is_own(h, step),
        Plan::Return { h: name, .. } => *name == h,
    }
}

impl<C: Callback, D: Device> Twins<C, D> {
    /// Neither has a device open or a callback that runs. Each has a setup and callbacks of its own.
    pub fn new(
        alloc: Global,
        setup: Setup<D>,
        other_setup: Setup<D>,
        callbacks: Vec<C>,
        other_callbacks: Vec<C>,
    ) -> Result<Twins<C, D>, AllocError>
        ensures { IfOk result (λ t. Begins C.rule (setup_of setup) (setup_of other_setup) callbacks.items other_callbacks.items t) }
    {
        let Ok(run) = PlanRun::new(alloc, setup) else {
            return Err(AllocError);
        };
        let Ok(own) = PlanRun::new(alloc, other_setup) else {
            return Err(AllocError);
        };
        Ok(Twins {
            run,
            own,
            left: callbacks.into_iter(),
            its: other_callbacks.into_iter(),
        })
    }

    /// A piece is performed amid the others; and where it is the handle's own, by itself too.
    fn perform(
        &mut self,
        h: Name,
        piece: &Plan,
        callback: Option<C>,
        its: Option<C>,
    ) -> Result<Option<TwinPiece<C>>, AllocError>
        requires submits { is_submission piece.now ≡ true → is_some callback ≡ true }
        requires submits_its { is_submission piece.now ≡ true → is_some its ≡ true }
        requires no_verdict { is_verdict piece.now ≡ false }
        ensures { IfOk result (λ told. PerformsTwice C.rule h piece.now callback its self.old self.new told) }
    {
        let shared = self.run.perform(copy_of(piece)?, callback)?;
        if !is_own(h, piece, &shared.entry) {
            return Ok(None);
        }
        let alone = self.own.perform(copy_of(piece)?, its)?;
        Ok(Some(TwinPiece { shared, alone }))
    }

    /// One piece of the plan more, with the next callbacks where it submits. What is told is what came of it, by either
    /// run; nothing of a piece that isn't the handle's own.
    pub fn advance(&mut self, h: Name, piece: &Plan) -> Result<Option<TwinPiece<C>>, AllocError>
        requires submits { is_submission piece.now ≡ true → AreLeft self.old }
        requires no_verdict { is_verdict piece.now ≡ false }
        ensures { IfOk result (λ told. AdvancesBoth C.rule h piece.now self.old self.new told) }
    {
        let callback = next_callback(piece, &mut self.left);
        let its = next_callback(piece, &mut self.its);
        self.perform(h, piece, callback, its)
    }
}

//! The lines of a handle on their way to its thread: a channel that is filled before, and gets no more.

ghost use Rattle.std.specs.Prelude.{◌≡◌, ◌∷◌, [], IfNone, IfOk, IfSome};
ghost use Rattle.crossbeam_channel.specs.Claims.{IsSeatAt};
ghost use Rattle.crossbeam_channel.specs.Ends.{sends_on};
ghost use Rattle.trace_live.specs.Lines.{known};

use crate::line::Line;
use crate::planned::Planned;
use crossbeam_channel::protocol::{Lesson, Outcome, Protocol};
use crossbeam_channel::{Pass, RuledReceiver, RuledSender, bounded_with};
use std::alloc::{AllocError, Global};
use std::collections::LinkedList;
use std::marker::Model;
use std::sync::Wait;
use usb_model::Sequence;

/// What is known of a channel: which lines are in it. No value of it is made.
pub(crate) struct Coming<Q: Planned> {
    pub(crate) lines: LinkedList<Line<Q>>,
}

/// One thread knows them all, in order.
pub(crate) struct InOrder;

impl<Q: Planned> Protocol<Line<Q>, Coming<Q>> for InOrder {
    ghost use Rattle.std.specs.Prelude.{[]};
    ghost use Rattle.trace_live.specs.Lines.{InOrder, coming};

    ghost holds = { InOrder };

    ghost first = { coming [] };
}

/// A line goes in, behind the others.
struct Enters;

impl<Q: Planned> Outcome<Line<Q>, Coming<Q>> for Enters {
    ghost use Rattle.std.specs.Prelude.{◌≡◌, ◌++◌, ◌∷◌, []};

    ghost then = { λ v x w. w.lines ≡ v.lines ++ x ∷ [] };
}

impl<Q: Planned> Lesson<Line<Q>, Coming<Q>> for Enters {
    ghost use Rattle.std.specs.Prelude.{⊤};

    ghost fact = { λ v items. ⊤ };
}

/// The oldest comes out; where none does there is none.
struct Leaves;

impl<Q: Planned> Outcome<Line<Q>, Coming<Q>> for Leaves {
    ghost use Rattle.std.specs.Prelude.{◌≡◌, ◌∷◌};

    ghost then = { λ v x w. v.lines ≡ x ∷ w.lines };
}

impl<Q: Planned> Lesson<Line<Q>, Coming<Q>> for Leaves {
    ghost use Rattle.std.specs.Prelude.{◌≡◌};

    ghost fact = { λ v items. v.lines ≡ items };
}

/// Lines that wait for their thread. Contracts see them, the next first.
#[derive(Drop)]
pub(crate) struct Queue<Q: Planned> {
    receiver: RuledReceiver<Line<Q>, Coming<Q>, InOrder>,
    pass: Pass<Line<Q>, Coming<Q>>,
}

impl<Q: Planned> Model for Queue<Q> {
    ghost use Rattle.std.specs.Prelude.{List};
    ghost use Rattle.crossbeam_channel.specs.Claims.{IsSeatAt};
    ghost use Rattle.crossbeam_channel.specs.Ends.{receives_on};
    ghost use Rattle.trace_live.specs.declared.line.Line.{Line};
    ghost use Rattle.trace_live.specs.Lines.{known};

    ghost Value = { List (Line Q) };

    ghost view = { λ q. known q.pass };

    ghost invariant = { λ q. IsSeatAt (receives_on q.receiver) q.pass };
}

/// Puts these lines into a channel, behind those that are in it. An error where its other end is gone.
fn send_all<Q: Planned, R: Wait>(
    rt: &R,
    sender: &RuledSender<Line<Q>, Coming<Q>, InOrder>,
    pass: &mut Pass<Line<Q>, Coming<Q>>,
    lines: Vec<Line<Q>>,
) -> Result<(), AllocError>
    requires channel { IsSeatAt (sends_on sender.now) pass.old }
    requires none { known pass.old ≡ [] }
    ensures channel { IsSeatAt (sends_on sender.now) pass.new }
    ensures lines { IfOk result (λ _. known pass.new ≡ lines.items) }
{
    for line in lines {
        if sender.send_as::<Enters, R>(rt, pass, line).is_err() {
            return Err(AllocError);
        }
    }
    Ok(())
}

impl<Q: Planned> Queue<Q> {
    /// These lines, in order. An error where memory is refused.
    pub(crate) fn of<R: Wait>(
        rt: &R,
        alloc: Global,
        lines: Sequence<Line<Q>>,
    ) -> Result<Queue<Q>, AllocError>
        ensures { IfOk result (λ queue. queue ≡ lines) }
    {
        let room = lines.len().max(1);
        let (sender, receiver, mut pass) = bounded_with::<Line<Q>, Coming<Q>, InOrder, Global>(
            alloc, room,
        )?;
        send_all(rt, &sender, &mut pass, lines.into_vec())?;
        Ok(Queue { receiver, pass })
    }

    /// Takes out the next line, if one is left.
    pub(crate) fn next<R: Wait>(&mut self, rt: &R) -> Option<Line<Q>>
        ensures next { IfSome result (λ line. self.old ≡ line ∷ self.new) }
        ensures end { IfNone result (self.old ≡ []) }
    {
        self.receiver.recv_as::<Leaves, R>(rt, &mut self.pass).ok()
    }
}

//! What follows when an errand ended.

ghost use Rattle.std.specs.Prelude.{◌≡◌, ◌≤◌, ◌||◌, ℕ, length, map, not};
ghost use Rattle.usb_model.specs.Kept.{KeptEndpoint};
ghost use Rattle.usb_model.specs.Settlements as kept;
ghost use Rattle.usb_tables.specs.Settlements.{fails_stop, leading, mark_of, resumed_at, settled_by};

use usb_model::Errand;

/// What errands read of a transfer in its endpoint's line; by default it is neither blank nor asked to end.
#[derive(Clone, Copy, PartialEq, Eq, Debug, Default)]
pub struct Mark {
    /// It was withdrawn before: its TRBs are No Ops.
    pub blank: bool,
    /// It was asked to end.
    pub asked: bool,
}

/// What follows when an errand ended, in this order.
#[derive(Clone, Copy, PartialEq, Eq, Debug)]
pub struct Settlement {
    /// How many transfers leave the line's front; all of them are blank.
    pub leave: usize,
    /// Whether those of the rest that were asked to end are withdrawn: their TRBs become No Ops, and their results are made.
    pub withdraw: bool,
    /// What is ordered then; None where the doorbell is rung, so that the endpoint goes on.
    pub next: Option<Errand>,
}

impl Mark {
    /// Whether it is blank once those that were asked to end are withdrawn.
    fn is_past(self) -> bool
        ensures { result ≡ (self.blank || self.asked) }
    {
        self.blank || self.asked
    }
}

/// What follows when the errand ended at an endpoint with this line.
///
/// A Stop that failed did so since the endpoint halted before: Reset follows, and nothing is withdrawn yet. A Reset is
/// followed by Move in any case, since the controller stands amid the transfer that failed. After a Stop or a Move the
/// endpoint goes on, unless its line begins with a blank then: so Move is ordered (xHCI 1.2, 4.6.9 and 4.6.10).
pub fn settle(errand: Errand, ok: bool, line: &[Mark]) -> Settlement
    ensures endpoint { (ep next : ℕ) (b : KeptEndpoint) → map mark_of b.line ≡ line.now → kept.settle ep next b errand ok ≡ settled_by result ep next b errand ok }
    ensures leave { result.leave ≤ length line.now }
    ensures withdraw { result.withdraw ≡ not (fails_stop errand ok) }
{
    match errand {
        Errand::Stop if !ok => Settlement {
            leave: 0,
            withdraw: false,
            next: Some(Errand::Reset),
        },
        Errand::Stop => resume(0, line),
        Errand::Reset => Settlement {
            leave: 0,
            withdraw: true,
            next: Some(Errand::Move),
        },
        Errand::Move => resume(leading_blanks(line), line),
    }
}

/// How many blanks lead the line.
fn leading_blanks(line: &[Mark]) -> usize
    ensures value { result ≡ leading line.now }
    ensures within { result ≤ length line.now }
{
    line.iter().take_while(|mark| mark.blank).count()
}

/// The endpoint goes on without so many of its line, unless a blank leads then.
fn resume(leave: usize, line: &[Mark]) -> Settlement
    requires { leave ≤ length line.now }
    ensures { result ≡ resumed_at leave line.now }
{
    let next = match line.get(leave) {
        Some(first) if first.is_past() => Some(Errand::Move),
        _ => None,
    };
    Settlement {
        leave,
        withdraw: true,
        next,
    }
}

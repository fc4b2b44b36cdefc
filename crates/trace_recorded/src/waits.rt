//! Which answers of an endpoint wait for what.

ghost use Rattle.std.specs.Prelude.{◌≡◌, IfOk};
ghost use Rattle.std.specs.List.{filter};
ghost use Rattle.trace_recorded.specs.Folds.{after};
ghost use Rattle.trace_recorded.specs.Waits.{is_awaited, no_waits, source_number, told_of, with_wait, with_waits};

use crate::key::key_of;
use crate::table::ByNumber;
use std::alloc::{AllocError, Global};
use trace_capture::ControlSetup;
use usb_model::{EpAddr, Sequence};

/// What is counted of what moved at a device.
#[derive(Clone, Copy)]
pub(crate) enum Source {
    /// Packets at an endpoint for OUT. At one for IN answers, where another's wait for them; or withdrawn reads, where its own do.
    Endpoint(EpAddr),
    /// Control requests of this one's type, number, value and index.
    Requests(ControlSetup),
}

impl Source {
    /// Its number in a table.
    fn number(self) -> u64
        ensures { result ≡ source_number self }
    {
        match self {
            Source::Endpoint(ep) => u64::from(ep.address()),
            Source::Requests(setup) => 256 + key_of(setup),
        }
    }
}

/// How much was taken or given of something.
#[derive(Clone, Copy)]
pub(crate) struct TakenCount {
    /// Of what.
    pub(crate) source: Source,
    /// How much.
    pub(crate) count: u64,
    /// The packet of the capture that has the last answer of an endpoint; 0 for none.
    pub(crate) frame: u64,
}

impl TakenCount {
    /// Whether a read at an endpoint waits for it, which was submitted in this packet of the capture: for answers at another endpoint for IN
    /// where one came since, and for all that is no answer.
    #[tactic(auto, unfolding(crate::specs::Waits::is_awaited))]
    fn is_awaited(&self, ep: EpAddr, since: u64) -> bool
        ensures { result ≡ is_awaited ep since self.now }
    {
        match self.source {
            Source::Endpoint(other) if other.is_in() => other != ep && since < self.frame,
            _ => true,
        }
    }
}

/// Those of these for which a read at an endpoint waits that was submitted in this packet of the capture.
pub(crate) fn awaited(
    alloc: Global,
    ep: EpAddr,
    since: u64,
    taken: &[TakenCount],
) -> Result<Vec<TakenCount>, AllocError>
    ensures { IfOk result (λ awaited. awaited.items ≡ filter (is_awaited ep since) taken.now) }
{
    taken
        .iter()
        .filter(|count| count.is_awaited(ep, since))
        .copied()
        .collect(alloc)
}

/// The answers from a place on wait until so much was taken of something.
#[derive(Clone, Copy)]
pub(crate) struct Wait {
    /// The place, counted from 0.
    pub(crate) place: u64,
    /// Of what.
    pub(crate) source: Source,
    /// How much.
    pub(crate) count: u64,
}

/// Which answers of an endpoint wait for what.
#[derive(Drop)]
pub(crate) struct Waits {
    /// For how much its answers wait so far, by the number of what is counted.
    told: ByNumber<u64>,
    /// The waits, by rising place.
    pub(crate) lines: Sequence<Wait>,
}

impl Waits {
    /// None.
    pub(crate) fn new(alloc: Global) -> Waits
        ensures { result ≡ no_waits }
    {
        Waits {
            told: ByNumber::new(alloc),
            lines: Sequence::new(alloc),
        }
    }

    /// For how much of something its answers wait so far.
    fn told_of(&self, source: Source) -> u64
        ensures { result ≡ told_of source self.now }
    {
        match self.told.get(source.number()) {
            Some(count) => *count,
            None => 0,
        }
    }

    /// The answers from a place on wait for this, where it is more than what those before them wait for.
    #[tactic(auto, unfolding(crate::specs::Waits::with_wait))]
    fn put(&mut self, place: u64, taken: TakenCount) -> Result<(), AllocError>
        ensures { IfOk result (λ _. self.new ≡ with_wait place taken self.old) }
    {
        if self.told_of(taken.source) >= taken.count {
            return Ok(());
        }
        let key = taken.source.number();
        let _ = self.told.take(key);
        self.told.put(key, taken.count)?;
        self.lines.push(Wait {
            place,
            source: taken.source,
            count: taken.count,
        })
    }

    /// They wait for each of these.
    fn put_each(&mut self, place: u64, taken: &[TakenCount]) -> Result<(), AllocError>
        ensures { IfOk result (λ _. self.new ≡ after (with_wait place) self.old taken.now) }
    {
        for count in taken {
            self.put(place, *count)?;
        }
        Ok(())
    }

    /// They wait for what was taken at their own endpoint, and elsewhere.
    pub(crate) fn put_all(
        &mut self,
        place: u64,
        own: TakenCount,
        taken: &[TakenCount],
    ) -> Result<(), AllocError>
        ensures { IfOk result (λ _. self.new ≡ with_waits place own taken.now self.old) }
    {
        self.put(place, own)?;
        self.put_each(place, taken)
    }
}

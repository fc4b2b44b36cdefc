//! What a callback answered is told to the library.

ghost use Rattle.std.specs.Prelude.{◌≡◌, false, true, IfOk, IfSome, OnErr, is_err, is_some};
ghost use Rattle.usb_model.specs.declared.verdict.Verdict.TheVariants.{Again, AgainWith, Stop};
ghost use Rattle.usb_workers.specs.Rounds.{AreCounted, Ends, Resubmits, Tells};

use crate::tries::Tries;
use std::sync::Wait;
use usb_core::{Callback, End, SubmitError};
use usb_device::Device;
use usb_journal::{Naming, RecordError, Recorder};
use usb_library::{Caller, Library, Payload, Submitted};
use usb_model::{Bytes, Name, Verdict};

/// A callback that isn't called again, and how it ended.
#[derive(Drop)]
struct EndedCallback<C> {
    callback: C,
    end: End,
}

/// What is left of a resubmission: nothing where it was accepted, else its callback, which isn't called again.
fn left<L: Naming, G: Drop, C: Drop>(
    made: Result<Submitted<L, G, C>, RecordError<G, C>>,
) -> Option<EndedCallback<C>>
    ensures refused { IfOk made (λ x. is_some result ≡ is_err x.number) }
    ensures lacked { OnErr made (is_some result ≡ true) }
{
    match made {
        Ok(submitted) => {
            let SubmitError { why, payload, .. } = submitted.number.err()?;
            Some(EndedCallback {
                callback: payload,
                end: End::Refused(why),
            })
        }
        Err(back) => Some(EndedCallback {
            callback: back.payload,
            end: End::NoMemory,
        }),
    }
}

/// The transfer is submitted once more; where it is refused, or there is no memory, its callback comes back.
fn again<L: Naming, C: Callback + Payload, D: Device, J: Recorder, R: Wait>(
    rt: &R,
    library: &Library<L, C, D, J>,
    caller: &mut Caller<L>,
    h: Name,
    n: u64,
    callback: C,
) -> Option<EndedCallback<C>>
    requires suits { C.Whom.suits callback h }
    ensures { Resubmits L.setup h n Again (is_some result) caller.old caller.new }
{
    left(library.again(rt, caller, h, n, callback))
}

/// The same with other bytes.
fn again_with<L: Naming, C: Callback + Payload, D: Device, J: Recorder, R: Wait>(
    rt: &R,
    library: &Library<L, C, D, J>,
    caller: &mut Caller<L>,
    h: Name,
    n: u64,
    bytes: Bytes,
    callback: C,
) -> Option<EndedCallback<C>>
    requires suits { C.Whom.suits callback h }
    ensures { Resubmits L.setup h n (AgainWith bytes) (is_some result) caller.old caller.new }
{
    left(library.again_with(rt, caller, h, n, bytes, callback))
}

/// The transfer of a callback is submitted once more, if its verdict asks for that; a callback that isn't called again comes back.
fn resubmit<L: Naming, C: Callback + Payload, D: Device, J: Recorder, R: Wait>(
    rt: &R,
    library: &Library<L, C, D, J>,
    caller: &mut Caller<L>,
    h: Name,
    n: u64,
    verdict: Verdict,
    callback: C,
) -> Option<EndedCallback<C>>
    requires suits { C.Whom.suits callback h }
    ensures { Resubmits L.setup h n verdict (is_some result) caller.old caller.new }
{
    match verdict {
        Verdict::Stop => Some(EndedCallback {
            callback,
            end: End::ByVerdict,
        }),
        Verdict::Again => again(rt, library, caller, h, n, callback),
        Verdict::AgainWith(bytes) => again_with(rt, library, caller, h, n, bytes, callback),
    }
}

/// The end of a callback. Where memory is refused it is told once more, until it is told, or the worker gives up.
fn stop<L: Naming, C: Callback + Payload, D: Device, J: Recorder, R: Wait>(
    rt: &R,
    library: &Library<L, C, D, J>,
    caller: &mut Caller<L>,
    tries: &mut Tries,
    h: Name,
    n: u64,
)
    requires counted { AreCounted tries.old.refused caller.old }
    ensures told { Ends L.setup h n caller.old caller.new }
    ensures counted { AreCounted tries.new.refused caller.new }
{
    for _ in rt.forever() {
        if library.stop(rt, caller, h, n).is_ok() {
            tries.done();
            return;
        }
        tries.refused(rt, library);
        if tries.are_over(library) {
            return;
        }
    }
    unreachable!()
}

/// The library is told of a callback that ended early, and why.
fn note<L: Naming, C: Callback + Payload, D: Device, J: Recorder>(
    library: &Library<L, C, D, J>,
    end: End,
) {
    match end {
        End::ByVerdict => {}
        End::Refused(_) => library.note_cut(),
        End::NoMemory => {
            library.note_cut();
            library.note_lack();
        }
    }
}

/// Tells the verdict of the callback of this transfer, with the callback if it can be called again. Where the transfer isn't
/// submitted once more, for whatever cause, its callback has ended: Stop is told, and the callback is told how it ended.
pub(crate) fn answer<L: Naming, C: Callback + Payload, D: Device, J: Recorder, R: Wait>(
    rt: &R,
    library: &Library<L, C, D, J>,
    caller: &mut Caller<L>,
    tries: &mut Tries,
    h: Name,
    n: u64,
    verdict: Verdict,
    callback: Option<C>,
)
    requires stops { is_some callback ≡ false → verdict ≡ Stop }
    requires suits { IfSome callback (λ c. C.Whom.suits c h) }
    requires counted { AreCounted tries.old.refused caller.old }
    ensures told { Tells L.setup h n verdict caller.old caller.new }
    ensures counted { AreCounted tries.new.refused caller.new }
{
    let Some(callback) = callback else {
        stop(rt, library, caller, tries, h, n);
        return;
    };
    if let Some(EndedCallback { callback, end }) = resubmit(
        rt, library, caller, h, n, verdict, callback,
    ) {
        stop(rt, library, caller, tries, h, n);
        note(library, end);
        callback.ended(end);
    }
}

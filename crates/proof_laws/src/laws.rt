//! Small laws that show what the definitions mean. Each is the contract of a function with an empty body.

ghost use Rattle.std.specs.Prelude.{ℕ, List};
ghost use Rattle.usb_model.specs.Setup.{Setup};
ghost use Rattle.usb_model.specs.World.Due.{Dated};
ghost use Rattle.proof_laws.specs.Dues.{AsksForDue};
ghost use Rattle.proof_laws.specs.Nothing.{NobodyChangesNothing, RefusedChangesNothing};
ghost use Rattle.proof_laws.specs.Outcomes.{EndsForGood, TellsOutcomes};
ghost use Rattle.proof_laws.specs.Packets.{CutsIntoPackets};
ghost use Rattle.proof_laws.specs.Statuses.{TellsStatuses};

/// The packets of an OUT transfer are its bytes, cut into full ones and a last (USB 2.0, 5.8.3).
pub fn packets()
    ensures { CutsIntoPackets }
{}

/// The outcome of a share of answers is what the standard makes of it, at a packet size of at least 1; and once a transfer
/// ended it is at its end.
pub fn outcomes()
    ensures told { TellsOutcomes }
    ensures ended { EndsForGood }
{}

/// Each status is told just where the code, the device and the ask say so (libusb_transfer_status).
pub fn statuses()
    ensures { TellsStatuses }
{}

/// What is nobody's, or refused, changes nothing.
pub fn idle_and_refused()
    ensures nobody { NobodyChangesNothing }
    ensures refused { RefusedChangesNothing }
{}

/// The passing of time asks for one Expire of each transfer that is due, and for nothing else, by name and number
/// (libusb_transfer, timeout).
pub fn dues()
    ensures { (setup : Setup) (book : List Dated) (moment : ℕ) → AsksForDue setup book moment }
{}

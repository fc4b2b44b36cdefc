//! What the packets that move are to the device.

ghost use Rattle.reference.specs.Laws.{DeviceReceivesWhatMoves};

/// Of a transfer that writes, the packets that move are those that the device receives.
#[tactic(auto, using(crate::proofs::Received::device_receives))]
pub fn moved()
    ensures device { DeviceReceivesWhatMoves }
{}

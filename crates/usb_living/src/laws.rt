//! What holds of devices that are asked, whatever they compute. Each is a law over definitions, the contract of a function with an empty
//! body.

ghost use Rattle.usb_living.specs.Offered.{FeedingGoesOn, FitsTheRoomItIsTold, TakesWhatItIsTold};
ghost use Rattle.usb_living.specs.Rows.{RowsAreAsIfKnown};

/// The packet that a device is told to be next it has behind its Ack, and a packet of its own is too long just where it has more bytes
/// than the room that it is told: over scripts that go on with that answer, as those do behind which it was fed.
pub fn offered<P>()
    ensures taken { TakesWhatItIsTold P }
    ensures room { FitsTheRoomItIsTold P }
    ensures fed { FeedingGoesOn P }
{}

/// Of calls in a row, some of which put answers behind scripts, and each of whose packets had an answer: the core shows the world where
/// their steps lead over the scripts as they are at the end, and what was told is what is told over these.
pub fn rows<P>()
    ensures { RowsAreAsIfKnown P }
{}

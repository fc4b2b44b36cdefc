//! Laws over the definitions, as functions that do nothing.

ghost use Rattle.trace_recorded.specs.DescribedLaws.{EventsStay, NothingMissing, NothingSaidIsPutIn};
ghost use Rattle.trace_recorded.specs.Laws.{AnswersAreThose, EventsAreReadBack, FilesAreReadBack, LinesHaveTheAnswers, PacketsAreWritten, ReadsAreToldAgain, WritesAreToldAgain};
ghost use Rattle.trace_recorded.specs.WaitLaws.{AnswersWait};

/// What a capture says of an event is read back from it.
pub fn events()
    ensures { EventsAreReadBack }
{}

/// A file of events, as `trace_capture` writes it, gives what it says of each, in order, and isn't cut.
pub fn files()
    ensures { FilesAreReadBack }
{}

/// Who reads as the recorded driver did is told what it was told: the same bytes, and the same status.
pub fn reads()
    ensures { ReadsAreToldAgain }
{}

/// Who writes as the recorded driver did is told what it was told: as many bytes, and the same status.
pub fn writes()
    ensures { WritesAreToldAgain }
{}

/// The answers that are told with what was written are those of the transfer.
pub fn answers()
    ensures { AnswersAreThose }
{}

/// Who writes as the recorded driver did sends the packets that are told: the first ones, as many as were acknowledged.
pub fn packets()
    ensures { PacketsAreWritten }
{}

/// The k-th request of a type, number, value and index gets the k-th recorded answer to such a request.
pub fn requests()
    ensures { LinesHaveTheAnswers }
{}

/// An answer waits until what had been taken when it came is taken, and what those before it wait for, and no longer: so it is with the
/// answers of each endpoint, over all events of its device.
pub fn waits()
    ensures { AnswersWait }
{}

/// Of what a file says of a device nothing is put in front of its events that they say themselves: a device descriptor, any configuration, a
/// string of the same index.
pub fn unsaid()
    ensures { NothingSaidIsPutIn }
{}

/// A device's events stay as they are, behind what is put in; and where nothing is missing they are all.
pub fn events_stay()
    ensures stay { EventsStay }
    ensures same { NothingMissing }
{}

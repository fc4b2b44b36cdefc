//! Laws over the definitions, as functions that do nothing.

ghost use Rattle.trace_capture.specs.Laws.{BytesAreBytes, CallbacksAnswer, IdsDiffer, RecordsHaveLengths, SameOfVerdicts};
ghost use Rattle.trace_capture.specs.Vectors.{IsCaptured, cancelled_read, failed_transfers};

/// The captures of worked runs have these bytes, computed.
pub fn vectors()
    ensures cancelled_read { IsCaptured cancelled_read }
    ensures failed_transfers { IsCaptured failed_transfers }
{}

/// A record has 80 bytes and those of its data, and each is a byte.
pub fn records()
    ensures lengths { RecordsHaveLengths }
    ensures bytes { BytesAreBytes }
{}

/// Events of different transfers have different ids.
pub fn ids()
    ensures { IdsDiffer }
{}

/// In each run, whatever steps and entries it has, a callback has its submission in front of it: of the same transfer, at the
/// same endpoint of the same device.
pub fn callbacks()
    ensures { CallbacksAnswer }
{}

/// Who tells of a callback that returned may tell either verdict that brings no bytes: the reply says what came of it.
pub fn verdicts()
    ensures { SameOfVerdicts }
{}

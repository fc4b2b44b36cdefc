//! Why a line isn't taken.

ghost use Rattle.std.specs.Prelude.{◌≡◌};
ghost use Rattle.usb_scripttext.specs.declared.fault.LineFault.TheVariants as LineFault;
ghost use Rattle.usb_scripttext.specs.declared.problem.Problem.TheVariants as Problem;

use crate::expected::Expected;
use crate::problem::Problem;
use std::alloc::{AllocError, AllocFailed};

/// Why a line isn't taken.
#[derive(Clone, Copy, PartialEq, Eq, Debug)]
pub enum LineFault {
    /// It is none that may stand there.
    Bad(Problem),
    /// No memory was to be had.
    Memory,
}

impl From<Problem> for LineFault {
    ghost from_gives = { λ problem fault. fault ≡ LineFault.Bad problem };

    fn from(problem: Problem) -> LineFault {
        LineFault::Bad(problem)
    }
}

impl From<Expected> for LineFault {
    ghost from_gives = { λ expected fault. fault ≡ LineFault.Bad (Problem.Word expected) };

    fn from(expected: Expected) -> LineFault {
        LineFault::Bad(Problem::Word(expected))
    }
}

impl From<AllocError> for LineFault {
    ghost from_gives = { λ _ fault. fault ≡ LineFault.Memory };

    fn from(_error: AllocError) -> LineFault {
        LineFault::Memory
    }
}

impl<T: Drop> From<AllocFailed<T>> for LineFault {
    ghost from_gives = { λ _ fault. fault ≡ LineFault.Memory };

    fn from(_error: AllocFailed<T>) -> LineFault {
        LineFault::Memory
    }
}

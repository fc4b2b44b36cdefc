//! For whom an entry is entered.

/// An entry of a log, which names its bearer.
pub trait Borne {
    ghost use Rattle.std.specs.Prelude.{ℕ};

    /// The number of the bearer for whom it is entered.
    ghost bearer: { Self → ℕ };
}

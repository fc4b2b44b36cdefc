//! Laws of the definitions that `read_config` is stated with.

ghost use Rattle.std.specs.Prelude.{◌≡◌, ℕ, List};
ghost use Rattle.usb_descriptors.specs.Pieces.{Piece, IsCut, pieces, rest};

/// The pieces are the cut of the bytes into descriptors (USB 2.0, 9.5), and there is no other: joined, with what is
/// left, they are the bytes; each is as long as its first byte says; and what is left begins no further one.
pub fn pieces_are_the_cut()
    ensures cut { (at : ℕ) (bytes : List ℕ) → IsCut at bytes (pieces at bytes) (rest bytes) }
    ensures unique { (at : ℕ) (bytes : List ℕ) (ps : List Piece) (left : List ℕ)
        → IsCut at bytes ps left → (ps ≡ pieces at bytes) × (left ≡ rest bytes) }
{}

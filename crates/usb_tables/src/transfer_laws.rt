//! Laws over the definitions, as functions that do nothing.

ghost use Rattle.std.specs.Prelude.{◌≡◌, ℕ};
ghost use Rattle.usb_model.specs.Kept.{trbs_of};
ghost use Rattle.usb_model.specs.declared.request.Request.{Request};
ghost use Rattle.usb_tables.specs.Tds.{Tds, lengths, tds_of};
ghost use Rattle.usb_tables.specs.Trbs.{lengths_in, normals_of};
ghost use Rattle.usb_tables.specs.Vectors.{HasTrbs};

/// A request's TRBs have the lengths that the core counts by, under each key.
#[tactic(auto, using(crate::proofs::Pieces::normals_at_lengths))]
pub fn lengths_are_kept()
    ensures counted { (size : ℕ) (request : Request) → lengths (tds_of size request) ≡ trbs_of size request }
    ensures sent { (key : ℕ) (tds : Tds) → lengths_in (normals_of key tds) ≡ lengths tds }
{}

/// Three requests, with the addresses and flags of their TRBs (xHCI 1.2, 6.4.1.1).
pub fn vectors()
    ensures { HasTrbs }
{}

//! When an errand is ordered.

ghost use Rattle.std.specs.Prelude.{◌≡◌, ℕ, Bool, IfSome, [], ◌∷◌};
ghost use Rattle.usb_model.specs.declared.item.Ask.{Ask};
ghost use Rattle.usb_model.specs.Endpoint.Deliver.{needs_reset};
ghost use Rattle.usb_model.specs.declared.reply.Reply.TheVariants.{Done, Finished};
ghost use Rattle.usb_model.specs.Kept.{KeptEndpoint};
ghost use Rattle.usb_model.specs.Events.{Reading, errand_of, finish, kept_result};
ghost use Rattle.usb_model.specs.Joins.{asked};
ghost use Rattle.usb_tables.specs.Orders.{ordered, with_ask, without_ended};

use usb_model::Errand;
use usb_model::completion::halts;

/// What is ordered when a transfer is asked to end, by the errand that is outstanding at its endpoint: Stop where there is
/// none. Where there is one the transfer is withdrawn when that one has ended.
pub fn ask(outstanding: Option<Errand>) -> Option<Errand>
    ensures endpoint { (next n : ℕ) (why : Ask) (b : KeptEndpoint) → errand_of b.errand ≡ outstanding → asked next b n why ≡ ordered result next (with_ask n why b) Done [] }
    ensures one { IfSome outstanding (λ _. result ≡ None) }
{
    match outstanding {
        None => Some(Errand::Stop),
        Some(_) => None,
    }
}

/// What is ordered when the end of a transfer with this completion code is told, by the errand that is outstanding at its
/// endpoint: Reset where the code halted the endpoint (xHCI 1.2, 4.8.3) and there is none. Where a Stop is outstanding it
/// will fail first, and Reset is ordered then.
pub fn next_order(outstanding: Option<Errand>, code: u8) -> Option<Errand>
    ensures endpoint { (gone : Bool) (next p : ℕ) (b : KeptEndpoint) (found : Reading) → errand_of b.errand ≡ outstanding → finish gone next b p code found ≡ ordered result next (without_ended p code b) (Finished found.kept.n) (kept_result gone code found.kept found.actual ∷ []) }
    ensures one { IfSome outstanding (λ _. result ≡ None) }
{
    if needs_reset(outstanding, code) {
        Some(Errand::Reset)
    } else {
        None
    }
}

/// Whether the way out of a halt begins with this code.
fn needs_reset(outstanding: Option<Errand>, code: u8) -> bool
    ensures { result ≡ needs_reset code outstanding }
{
    halts(code) && outstanding.is_none()
}

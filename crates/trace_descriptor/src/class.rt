//! Classes of interfaces (USB-IF, defined class codes).

ghost use Rattle.std.specs.Prelude.{◌≡◌};
ghost use Rattle.trace_descriptor.specs.Lines.{class_name};

/// The name of a common class in parentheses, behind a space; nothing for any other.
#[tactic(auto, unfolding(crate::specs::Lines::class_name))]
pub(crate) fn class_name(class: u8) -> &'static str
    ensures { result.now ≡ class_name class }
{
    match class {
        0x01 => " (audio)",
        0x02 => " (communications)",
        0x03 => " (human interface device)",
        0x06 => " (imaging)",
        0x07 => " (printer)",
        0x08 => " (mass storage)",
        0x09 => " (hub)",
        0x0a => " (communications data)",
        0x0b => " (smart card)",
        0x0e => " (video)",
        0xe0 => " (wireless controller)",
        0xfe => " (application specific)",
        0xff => " (vendor specific)",
        _ => "",
    }
}

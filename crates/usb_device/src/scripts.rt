//! Which scripts a device of a configuration may have.

ghost use Rattle.std.specs.Prelude.{◌≡◌, ◌==◌, count_by, length, map};
ghost use Rattle.std.specs.List.{find, list_all};
ghost use Rattle.std.specs.Option.{option_copied};
ghost use Rattle.usb_model.specs.Direction.{is_of_direction};
ghost use Rattle.usb_device.specs.Pipe.{is_ack};
ghost use Rattle.usb_device.specs.Scripts.{are_scripts, info_by, is_answer, is_script, is_short, script_by, size_by};

use usb_descriptors::Config;
use usb_model::limits::{LARGEST_PACKET, LONGEST_SCRIPT};
use usb_model::{EndpointInfo, Response, Script};

/// What the configuration says of the endpoint of this id; None where it has none.
pub fn info_by(config: &Config, id: usize) -> Option<&EndpointInfo>
    ensures { option_copied result ≡ info_by config.now id }
{
    config
        .endpoints()
        .iter()
        .find(|info| usize::from(info.address.id()) == id)
}

/// The packet size of the endpoint of this id in bytes; 0 where there is no such endpoint.
pub(crate) fn size_by(config: &Config, id: usize) -> u16
    ensures { result ≡ size_by config.now id }
{
    match info_by(config, id) {
        Some(info) => info.packet_size,
        None => 0,
    }
}

/// The answers of this id; past the last script there are none.
pub(crate) fn script_by(scripts: &[Script], id: usize) -> &[Response]
    ensures { result.now ≡ script_by scripts.now id }
{
    match scripts.get(id) {
        Some(script) => script.as_slice(),
        None => &[],
    }
}

/// How many packets a script takes.
pub(crate) fn acks(script: &[Response]) -> usize
    ensures { result ≡ count_by is_ack script.now }
{
    script
        .iter()
        .filter(|answer| matches!(answer, Response::Ack))
        .count()
}

/// Whether an endpoint of this direction may give this answer, and its packet isn't too long.
pub(crate) fn is_answer(inward: bool, answer: &Response) -> bool
    ensures { result ≡ is_answer inward answer.now }
{
    match answer {
        Response::Data(packet) => inward && packet.len() <= LARGEST_PACKET,
        Response::Ack => !inward,
        _ => true,
    }
}

/// Whether an endpoint of this direction may give each of these answers.
fn are_answers(inward: bool, script: &[Response]) -> bool
    ensures { result ≡ list_all (is_answer inward) script.now }
{
    script.iter().all(|answer| is_answer(inward, answer))
}

/// Whether a script may stand where the configuration says this.
fn is_script(info: Option<&EndpointInfo>, script: &[Response]) -> bool
    ensures { result ≡ is_script (option_copied info.entry) script.now }
{
    match info {
        Some(info) => {
            script.len() <= LONGEST_SCRIPT && are_answers(info.address.is_in(), script)
        }
        None => script.is_empty(),
    }
}

/// Whether a device of this configuration may have these scripts, by endpoint id.
pub(crate) fn are_scripts(config: &Config, scripts: &[Script]) -> bool
    ensures { result ≡ are_scripts config.now scripts.now }
{
    for (id, script) in scripts.iter().enumerate() {
        if !is_script(info_by(config, id), script.as_slice()) {
            return false;
        }
    }
    true
}

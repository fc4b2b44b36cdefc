//! What is told of the run of a text's scenario.

ghost use Rattle.std.specs.Prelude.{◌≡◌, IfOk, length, map};
ghost use Rattle.trace_scenario.specs.StepLines.{numbered};
ghost use Rattle.trace_judged.specs.Missing.{is_wanted};
ghost use Rattle.trace_judged.specs.Text.{AreExpected, expects, line_expects, told_text, unexpected_in};

use crate::gathered::gathered;
use crate::judged::judge;
use crate::unexpected::Unexpected;
use std::alloc::{AllocError, Global};
use trace_scenario::{ExpectedPackets, NumberedLine, Scenario, read_expected};
use usb_device::into_setups;
use usb_model::Sequence;
use usb_scripttext::ExpectedPacket;

/// Whether a packet is expected that isn't any.
fn is_wanted(packet: &ExpectedPacket) -> bool
    ensures { result ≡ is_wanted packet.now }
{
    !matches!(packet, ExpectedPacket::Anything)
}

/// Whether a line expects anything of a packet.
fn line_expects(line: &ExpectedPackets) -> bool
    ensures { result ≡ line_expects line.now }
{
    line.packets
        .as_slice()
        .iter()
        .any(|packet| is_wanted(packet))
}

/// Whether lines expect anything of a packet.
fn expects(lines: &[ExpectedPackets]) -> bool
    ensures { result ≡ expects lines.now }
{
    lines.iter().any(|line| line_expects(line))
}

/// What the lines of a scenario's text expect of the packets of its devices, joined by endpoint: one entry for each endpoint that has
/// a line. None where they expect nothing: then nothing is told of its run, which needn't be made. An error where memory is refused.
pub fn expectations(
    alloc: Global,
    text: &[u8],
) -> Result<Option<Sequence<ExpectedPackets>>, AllocError>
    ensures { IfOk result (λ expected. AreExpected text.now expected) }
{
    let lines = read_expected(alloc, text)?;
    let entries = gathered(alloc, lines)?;
    if expects(entries.as_slice()) {
        Ok(Some(Sequence::from_vec(entries)))
    } else {
        Ok(None)
    }
}

/// What is told of the run of a scenario, by what is expected of it, where its steps' lines have these numbers: nothing where each packet
/// is as expected. An error where memory is refused.
pub fn unexpected_in(
    alloc: Global,
    expected: &[ExpectedPackets],
    scenario: Scenario,
    lines: &[NumberedLine<'_>],
) -> Result<Option<Unexpected>, AllocError>
    requires each { length lines.now ≡ length scenario.plan }
    ensures { IfOk result (λ u. u ≡ unexpected_in expected.now scenario.setup scenario.plan scenario.rules (map numbered lines.now)) }
{
    let Scenario { setup, plan, rules } = scenario;
    let setup = into_setups(alloc, setup)?;
    let (plan, rules) = (plan.as_slice(), rules.as_slice());
    judge(alloc, expected, &setup, plan, rules, lines)?.into_unexpected(alloc)
}

/// Its lines; none where there is nothing. An error where memory is refused.
pub fn told_text(alloc: Global, unexpected: Option<Unexpected>) -> Result<Vec<u8>, AllocError>
    ensures { IfOk result (λ told. told.items ≡ told_text unexpected) }
{
    match unexpected {
        Some(unexpected) => unexpected.lines(alloc),
        None => Ok(Vec::new(alloc)),
    }
}

//! The scenario that the lines so far say.

ghost use Rattle.std.specs.Prelude.{◌≡◌, ◌++◌, ◌==◌, [], IfOk, Some, length, not, slice_set, true};
ghost use Rattle.std.specs.Option.{option_and_then};
ghost use Rattle.trace_scenario.specs.Counts.{counts_of, scripts_of, written_scripts};
ghost use Rattle.trace_scenario.specs.Line.{feed_line, line_of};
ghost use Rattle.trace_scenario.specs.LineResults.{submitted_line};
ghost use Rattle.trace_scenario.specs.Scenario.{has_room, script_at};
ghost use Rattle.usb_scripttext.specs.Results.{Becomes};
ghost use Rattle.trace_scenario.specs.TextResults.{IsJudged};
ghost use Rattle.usb_scripttext.specs.Words.{words_of};
ghost use Rattle.usb_model.specs.Setup.{endpoint_id};

use crate::findings::Counts;
use crate::line::piece;
use crate::scenario::Scenario;
use crate::submit::{Submitted, submit};
use crate::{Line, Verb};
use std::alloc::{AllocError, Global};
use std::marker::Model;
use std::mem;
use usb_descriptors::Config;
use usb_device::ScriptedDevice;
use usb_model::limits::LONGEST_SCRIPT;
use usb_model::{DeviceNo, EpAddr, Plan, Rule, Script, Sequence, Step};
use usb_scripttext::devices::{add_script, find_endpoint, new_device, put_script};
use usb_scripttext::words::{cut, says_nothing};
use usb_scripttext::{EndpointAnswers, LineFault, Misplaced, Problem, endpoint_answers};

/// The scenario that the lines so far say.
#[derive(Drop)]
pub(crate) struct Draft {
    devices: Vec<ScriptedDevice>,
    plan: Vec<Plan>,
    rules: Vec<Rule>,
}

impl Model for Draft {
    ghost use Rattle.trace_scenario.specs.declared.scenario.Scenario.{Scenario};

    ghost Value = { Scenario };

    ghost view = { λ d. record { setup = d.devices.items; plan = d.plan.items; rules = d.rules.items } };
}

impl Draft {
    ghost use Rattle.trace_scenario.specs.Scenario.{nothing_said, with_device, with_line, with_text, with_piece};
    ghost use Rattle.usb_scripttext.specs.Devices.{device_with};

    /// Nothing is read yet.
    pub(crate) fn new(alloc: Global) -> Draft
        ensures { result ≡ nothing_said }
    {
        Draft {
            devices: Vec::new(alloc),
            plan: Vec::new(alloc),
            rules: Vec::new(alloc),
        }
    }

    /// The scenario of what was read.
    pub(crate) fn into_scenario(self) -> Scenario
        ensures { result ≡ self }
    {
        let Draft {
            devices,
            plan,
            rules,
        } = self;
        Scenario {
            setup: Sequence::from_vec(devices),
            plan: Sequence::from_vec(plan),
            rules: Sequence::from_vec(rules),
        }
    }

    /// Reads a line, and keeps its words in the place of those of the line before. An empty one and a comment say nothing.
    pub(crate) fn read<'a>(
        &mut self,
        alloc: Global,
        text: &'a [u8],
        words: &mut Vec<&'a str>,
    ) -> Result<(), LineFault>
        ensures { Becomes result (with_text self.old text.now) self.old self.new }
    {
        if says_nothing(text) {
            return Ok(());
        }
        if !cut(text, words)? {
            return Err(LineFault::Bad(Problem::Ascii));
        }
        self.read_words(alloc, words.as_slice())
    }

    /// Adds what the words of a line say. A piece of the plan and answers are added as they are read, without the line that they would be.
    fn read_words(&mut self, alloc: Global, words: &[&str]) -> Result<(), LineFault>
        ensures { Becomes result (option_and_then (with_line self.old) (line_of (words_of words.now))) self.old self.new }
    {
        let [first, rest @ ..] = words else {
            return Err(LineFault::Bad(Problem::FirstWord));
        };
        match Verb::read(first).ok_or(Problem::FirstWord)? {
            verb @ (Verb::Device | Verb::Script) => {
                self.take(alloc, Line::of_verb(alloc, verb, rest)?)
            }
            Verb::Submit => self.add_submission(submit(alloc, rest)?),
            Verb::Feed => self.add_answers(alloc, endpoint_answers(alloc, rest)?),
            verb => self.add_piece(piece(verb, rest)?),
        }
    }

    /// Reads a line, and tells what is wrong with it where it is bad, and then takes nothing of it.
    pub(crate) fn judge<'a>(
        &mut self,
        alloc: Global,
        text: &'a [u8],
        words: &mut Vec<&'a str>,
    ) -> Result<Option<Problem>, AllocError>
        ensures { IfOk result (λ problem. IsJudged problem (with_text self.old text.now) self.old self.new) }
    {
        match self.read(alloc, text, words) {
            Ok(()) => Ok(None),
            Err(LineFault::Bad(problem)) => Ok(Some(problem)),
            Err(LineFault::Memory) => Err(AllocError),
        }
    }

    /// How much the lines so far say. There are at most 4 devices with 32 scripts each, so their sum fits; no contract
    /// says so, and where it didn't memory would count as wanting.
    pub(crate) fn counts(&self) -> Result<Counts, AllocError>
        ensures { IfOk result (λ counts. counts ≡ counts_of self.now) }
    {
        Ok(Counts {
            devices: self.devices.len(),
            scripts: scripts_of(self.devices.as_slice())?,
            steps: self.plan.len(),
        })
    }

    /// Adds what a line says, where it may stand here.
    fn take(&mut self, alloc: Global, line: Line) -> Result<(), LineFault>
        ensures { Becomes result (with_line self.old line) self.old self.new }
    {
        match line {
            Line::Device { number, config } => self.add_device(alloc, number, config),
            Line::Script { dev, ep, answers } => self.add_script(alloc, dev, ep, answers),
            Line::Feed { dev, ep, answers } => {
                self.add_answers(alloc, EndpointAnswers { dev, ep, answers })
            }
            Line::Submit { h, request, rule } => {
                self.add_submission(Submitted { h, request, rule })
            }
            Line::Piece(piece) => self.add_piece(piece),
        }
    }

    /// How many pieces the plan has so far.
    pub(crate) fn pieces(&self) -> usize
        ensures { result ≡ length self.now.plan }
    {
        self.plan.len()
    }

    /// How many devices there are so far.
    pub(crate) fn setups(&self) -> usize
        ensures { result ≡ length self.now.setup }
    {
        self.devices.len()
    }

    /// Whether a step stands before, so that no device or script may stand here.
    fn has_steps(&self) -> bool
        ensures { result ≡ not (length self.now.plan == 0) }
    {
        !self.plan.is_empty()
    }

    /// Adds a submission, and the rule of its callback.
    fn add_submission(&mut self, submission: Submitted) -> Result<(), LineFault>
        ensures { Becomes result (with_line self.old (submitted_line submission)) self.old self.new }
    {
        let Submitted { h, request, rule } = submission;
        self.rules.push(rule)?;
        self.add_piece(Plan::Do(Step::Submit { h, request }))
    }

    /// Adds a piece of the plan.
    fn add_piece(&mut self, piece: Plan) -> Result<(), LineFault>
        ensures { Becomes result (Some (with_piece piece self.old)) self.old self.new }
    {
        self.plan.push(piece)?;
        Ok(())
    }

    /// Adds the device of the next number, before the first step.
    fn add_device(
        &mut self,
        alloc: Global,
        number: DeviceNo,
        config: Config,
    ) -> Result<(), LineFault>
        ensures { Becomes result (with_line self.old (Line.Device number config)) self.old self.new }
    {
        if self.has_steps() {
            return Err(LineFault::Bad(Problem::Place(Misplaced::Late)));
        }
        if usize::from(number.number()) != self.devices.len() {
            let turn = Misplaced::Turn(self.devices.len());
            return Err(LineFault::Bad(Problem::Place(turn)));
        }
        self.devices.push(new_device(alloc, config)?)?;
        Ok(())
    }

    /// Adds the script of an endpoint that has none so far, before the first step.
    fn add_script(
        &mut self,
        alloc: Global,
        dev: DeviceNo,
        ep: EpAddr,
        answers: Script,
    ) -> Result<(), LineFault>
        ensures { Becomes result (with_line self.old (Line.Script dev ep answers)) self.old self.new }
    {
        if self.has_steps() {
            return Err(LineFault::Bad(Problem::Place(Misplaced::Late)));
        }
        self.give_script(alloc, dev, ep, answers)
    }

    /// Gives an endpoint of a device its script, where it has none so far.
    fn give_script(
        &mut self,
        alloc: Global,
        dev: DeviceNo,
        ep: EpAddr,
        answers: Script,
    ) -> Result<(), LineFault>
        ensures { Becomes result (with_device (device_with ep answers) dev self.old) self.old self.new }
    {
        let place = usize::from(dev.number());
        if place >= self.devices.len() {
            return Err(LineFault::Bad(Problem::Place(Misplaced::NoDevice)));
        }
        add_script(alloc, &mut self.devices[place], ep, answers)?;
        Ok(())
    }

    /// Adds answers behind those that an endpoint has, where the whole script stays within its limit. Steps may stand before.
    fn add_answers(&mut self, alloc: Global, more: EndpointAnswers) -> Result<(), LineFault>
        ensures { Becomes result (with_line self.old (feed_line more)) self.old self.new }
    {
        let EndpointAnswers { dev, ep, answers } = more;
        let (place, id) = places(dev, ep);
        let device = self
            .devices
            .get(place)
            .ok_or(Problem::Place(Misplaced::NoDevice))?;
        find_endpoint(&device.config, ep)?;
        if !has_room(device.scripts.as_slice(), id, answers.len()) {
            return Err(LineFault::Bad(Problem::Answers));
        }
        feed_script(alloc, &mut self.devices[place], id, answers)?;
        Ok(())
    }
}

/// How many scripts some devices have.
fn scripts_of(devices: &[ScriptedDevice]) -> Result<usize, AllocError>
    ensures { IfOk result (λ count. count ≡ scripts_of devices.now) }
{
    let mut count: usize = 0;
    for device in devices {
        let more = written_scripts(device.scripts.as_slice());
        count = count.checked_add(more).ok_or(AllocError)?;
    }
    Ok(count)
}

/// How many of some scripts aren't empty.
fn written_scripts(scripts: &[Script]) -> usize
    ensures { result ≡ written_scripts scripts.now }
{
    scripts.iter().filter(|script| !script.is_empty()).count()
}

/// Where a device stands among the others, and an endpoint's script among those of its device.
fn places(dev: DeviceNo, ep: EpAddr) -> (usize, usize)
    ensures device { result.0 ≡ dev }
    ensures script { result.1 ≡ endpoint_id ep }
{
    (usize::from(dev.number()), usize::from(ep.id()))
}

/// Whether so many more answers fit behind the script at an id.
fn has_room(scripts: &[Script], id: usize, more: usize) -> bool
    ensures { result ≡ has_room id more scripts.now }
{
    match scripts.get(id) {
        Some(script) => script.len().saturating_add(more) <= LONGEST_SCRIPT,
        None => false,
    }
}

/// Takes the script at an id out of its place, which is free then.
#[tactic(auto, using(crate::proofs::Places::room_place, crate::proofs::Places::room_read))]
fn take_script(alloc: Global, device: &mut ScriptedDevice, id: usize) -> Script
    requires { has_room id 0 device.old.scripts ≡ true }
    ensures script { result ≡ script_at id device.old.scripts }
    ensures others { device.new ≡ record device.old { scripts = slice_set device.old.scripts id [] } }
{
    let mut scripts = mem::replace(&mut device.scripts, Sequence::new(alloc)).into_vec();
    let script = mem::replace(&mut scripts[id], Script::new(alloc));
    device.scripts = Sequence::from_vec(scripts);
    script
}

/// Puts answers behind those of the script at an id, where they fit. An error where memory is refused.
#[tactic(auto, using(crate::proofs::Places::room_for_none, crate::proofs::Places::freed, crate::proofs::Places::put_back))]
fn feed_script(
    alloc: Global,
    device: &mut ScriptedDevice,
    id: usize,
    answers: Script,
) -> Result<(), AllocError>
    requires { has_room id (length answers) device.old.scripts ≡ true }
    ensures { IfOk result (λ _. device.new ≡ record device.old { scripts = slice_set device.old.scripts id (script_at id device.old.scripts ++ answers) }) }
{
    let script = take_script(alloc, device, id);
    put_script(alloc, device, id, script.append(answers)?);
    Ok(())
}

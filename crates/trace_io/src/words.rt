//! The words of the command line.

ghost use Rattle.std.specs.Prelude.{◌≡◌, IfOk, Some, codes, false, option_map, if◌then◌else◌};
ghost use Rattle.std.specs.Option.{option_map_or};
ghost use Rattle.std.specs.Str.{bytes_eq};
ghost use Rattle.clap.specs.Kinds.{FailsBy};
ghost use Rattle.clap.specs.Faults.{fault_of};
ghost use Rattle.clap.specs.Matches.{found_of};
ghost use Rattle.clap.specs.Simple.{app_of, shape_of};
ghost use Rattle.clap.specs.declared.builder.command.Command.TheViews.{out-Command as fields_of};
ghost use Rattle.clap.specs.Walk.{rows_of, rule_of};
ghost use Rattle.trace_io.specs.CommandLine.{AskFor, alone_words, capture_words, check_words, describe_words, device_words, devices_in, devices_words, draw_words, drawing_in, explain_words, from_word, grammar, handle_in, handle_word, html_word, is_set, left_words, live_words, number_in, packets_word, program_alone, program_of_captures, program_of_reasons, program_of_runs, program_of_scenarios, rounds_word, run_in, run_words, scenario_word, steps_word, test_words, to_word};
ghost use Rattle.usb_scripttext.specs.Words.{words_of};

use crate::help;
use clap::builder::ValueParser;
use clap::{Arg, ArgAction, ArgMatches, Command, Error};
use std::alloc::{AllocError, Global};
use trace_faults::TextReader;
use usb_model::Name;

/// What the program is asked to do.
#[derive(Clone, Copy, PartialEq, Eq, Debug)]
pub enum Task {
    /// Run the scenario, and print all entries.
    Run,
    /// The same, each entry behind the line of its step.
    Steps,
    /// Run the scenario, and print all entries with the packets that moved.
    Packets {
        /// Whether each entry stands behind the line of its step.
        steps: bool,
    },
    /// Print the entries of this handle alone.
    Alone(Name),
    /// Run the scenario in threads, and print what its callbacks were told, of which at most so many are called.
    Live(u64),
    /// Print what the run of the scenario leaves behind.
    Left,
    /// Print what is wrong with the scenario.
    Check,
    /// Draw the run of the scenario, from one of its lines to another, both counted from 1.
    Draw {
        /// The first that is drawn.
        from: u64,
        /// The last, where there are as many.
        to: u64,
    },
    /// The same, as a page with the picture, the steps and their entries.
    Page {
        /// The first that is drawn.
        from: u64,
        /// The last, where there are as many.
        to: u64,
    },
    /// Write the run of the scenario as a capture.
    Capture,
    /// Print the devices of a capture, and what they answered, for who reads it.
    Devices(TextReader),
    /// Run the scenario, and print all entries with their reasons.
    Explain,
    /// Run a scenario whose lines say what is expected, and compare.
    Test,
    /// Print the device line of a descriptor.
    Device,
    /// Print a descriptor as a table.
    Describe,
}

/// The largest number of callbacks, and of a step.
const LAST: u64 = u64::MAX;

/// The last name of a handle.
const LAST_HANDLE: u64 = 63;

/// The task of some words, of which the first is the program's name. Else their fault, or the help that they ask for.
pub fn read_words(alloc: Global, words: &[&str]) -> Result<Task, Error>
    ensures task { IfOk result (AskFor (words_of words.now)) }
    ensures fault { FailsBy (fault_of grammar (words_of words.now)) result }
{
    let matches = command(alloc)?.try_get_matches_from(words)?;
    if let Some(found) = matches.subcommand_matches("alone") {
        return Ok(Task::Alone(handle_of(found)?));
    }
    if let Some(found) = matches.subcommand_matches("live") {
        return Ok(Task::Live(number_of(found, "rounds")?));
    }
    if matches.subcommand_matches("left").is_some() {
        return Ok(Task::Left);
    }
    if matches.subcommand_matches("check").is_some() {
        return Ok(Task::Check);
    }
    if let Some(found) = matches.subcommand_matches("draw") {
        return Ok(draw_task(found)?);
    }
    if matches.subcommand_matches("capture").is_some() {
        return Ok(Task::Capture);
    }
    if let Some(found) = matches.subcommand_matches("devices") {
        return Ok(devices_task(found));
    }
    if matches.subcommand_matches("explain").is_some() {
        return Ok(Task::Explain);
    }
    if matches.subcommand_matches("test").is_some() {
        return Ok(Task::Test);
    }
    if matches.subcommand_matches("device").is_some() {
        return Ok(Task::Device);
    }
    if matches.subcommand_matches("describe").is_some() {
        return Ok(Task::Describe);
    }
    if let Some(found) = matches.subcommand_matches("run") {
        return Ok(run_task(found));
    }
    // clap has seen that there is one of the words, so that nothing comes here.
    Ok(Task::Run)
}

/// The words that the program takes.
fn command<'a>(alloc: Global) -> Result<Command<'a>, AllocError>
    ensures { IfOk result (λ command. app_of command ≡ grammar) }
{
    reasons(alloc)?
        .subcommand(device(alloc))?
        .subcommand(describe(alloc))
}

/// The words but those that read a descriptor.
fn reasons<'a>(alloc: Global) -> Result<Command<'a>, AllocError>
    ensures { IfOk result (λ command. app_of command ≡ program_of_reasons) }
{
    captures(alloc)?
        .subcommand(explain(alloc))?
        .subcommand(test(alloc))
}

/// The words that print or write something of a scenario, or read a capture.
fn captures<'a>(alloc: Global) -> Result<Command<'a>, AllocError>
    ensures { IfOk result (λ command. app_of command ≡ program_of_captures) }
{
    scenarios(alloc)?
        .subcommand(capture(alloc))?
        .subcommand(devices(alloc)?)
}

/// The words that print something of a scenario.
fn scenarios<'a>(alloc: Global) -> Result<Command<'a>, AllocError>
    ensures { IfOk result (λ command. app_of command ≡ program_of_scenarios) }
{
    runs(alloc)?
        .subcommand(left(alloc))?
        .subcommand(check(alloc))?
        .subcommand(draw(alloc)?)
}

/// The words that run a scenario and print entries.
fn runs<'a>(alloc: Global) -> Result<Command<'a>, AllocError>
    ensures { IfOk result (λ command. app_of command ≡ program_of_runs) }
{
    program(alloc)
        .subcommand(run(alloc)?)?
        .subcommand(alone(alloc)?)?
        .subcommand(live(alloc)?)
}

/// The program's name, with what holds for all its words.
fn program<'a>(alloc: Global) -> Command<'a>
    ensures { app_of result ≡ program_alone }
{
    Command::new(alloc, "usbtrace")
        .about("Runs a scenario of USB transfers, read from standard input or a file")
        .after_help(help::PROGRAM)
        .disable_help_subcommand(true)
        .subcommand_required(true)
}

/// The words `run`, `run --steps`, `run --packets` and both.
fn run<'a>(alloc: Global) -> Result<Command<'a>, AllocError>
    ensures words { IfOk result (λ command. shape_of command ≡ run_words) }
    ensures local { IfOk result (λ command. (fields_of command).has_globals ≡ false) }
{
    Command::new(alloc, "run")
        .about("Runs the scenario and prints its entries")
        .after_help(help::RUN)
        .arg(steps(alloc))?
        .arg(packets(alloc))
}

/// The word `--steps`.
fn steps<'a>(alloc: Global) -> Arg<'a>
    ensures word { rule_of result ≡ steps_word }
    ensures local { result.global ≡ false }
{
    Arg::new(alloc, "steps")
        .long("steps")
        .action(ArgAction::SetTrue)
        .help("Each entry behind the number and the text of its step's line")
}

/// The word `--packets`.
fn packets<'a>(alloc: Global) -> Arg<'a>
    ensures word { rule_of result ≡ packets_word }
    ensures local { result.global ≡ false }
{
    Arg::new(alloc, "packets")
        .long("packets")
        .action(ArgAction::SetTrue)
        .help("Below each entry the packet that its step moved, with its bytes")
}

/// Whether a flag's text says that it is there.
fn is_true(given: Option<&str>) -> bool
    ensures { result ≡ option_map_or (λ text. bytes_eq text (codes "true")) (option_map (λ s. s.now) given.entry) false }
{
    match given {
        Some(text) => text == "true",
        None => false,
    }
}

/// Whether a flag is there.
fn is_set(found: &ArgMatches<'_>, id: &str) -> bool
    ensures { result ≡ is_set id.now (rows_of (found_of found.now)) }
{
    is_true(found.get_str(id))
}

/// Which run the words behind `run` ask for.
fn run_task(found: &ArgMatches<'_>) -> Task
    ensures { result ≡ run_in (rows_of (found_of found.now)) }
{
    match (is_set(found, "packets"), is_set(found, "steps")) {
        (true, steps) => Task::Packets { steps },
        (false, true) => Task::Steps,
        (false, false) => Task::Run,
    }
}

/// The words `alone H`.
fn alone<'a>(alloc: Global) -> Result<Command<'a>, AllocError>
    ensures words { IfOk result (λ command. shape_of command ≡ alone_words) }
    ensures local { IfOk result (λ command. (fields_of command).has_globals ≡ false) }
{
    Command::new(alloc, "alone")
        .about("Prints the entries of one handle, alone over its own steps")
        .after_help(help::ALONE)
        .arg(handle(alloc))
}

/// The words `live` and `live --rounds N`.
fn live<'a>(alloc: Global) -> Result<Command<'a>, AllocError>
    ensures words { IfOk result (λ command. shape_of command ≡ live_words) }
    ensures local { IfOk result (λ command. (fields_of command).has_globals ≡ false) }
{
    Command::new(alloc, "live")
        .about("Runs the scenario in threads, and prints what its callbacks were told")
        .after_help(help::LIVE)
        .arg(rounds(alloc))
}

/// The word `--rounds`.
fn rounds<'a>(alloc: Global) -> Arg<'a>
    ensures word { rule_of result ≡ rounds_word }
    ensures local { result.global ≡ false }
{
    Arg::new(alloc, "rounds")
        .long("rounds")
        .action(ArgAction::Set)
        .value_name("N")
        .value_parser(ValueParser::unsigned(0, LAST))
        .default_value("1000000")
        .help("How many callbacks are called at most; where more would be, it ends with status 1")
}

/// The number that a word says. clap has seen that it is one; but no contract of clap's says so of what stands behind a
/// subcommand, so where it is missing memory counts as wanting.
fn number_of(found: &ArgMatches<'_>, id: &str) -> Result<u64, AllocError>
    ensures { IfOk result (λ number. number_in id.now (rows_of (found_of found.now)) ≡ Some number) }
{
    found.get_one::<u64>(id).ok_or(AllocError)
}

/// Which picture the words behind `draw` ask for.
fn draw_task(found: &ArgMatches<'_>) -> Result<Task, AllocError>
    ensures { IfOk result (λ task. drawing_in (rows_of (found_of found.now)) ≡ Some task) }
{
    let from = number_of(found, "from")?;
    let to = number_of(found, "to")?;
    if is_set(found, "html") {
        Ok(Task::Page { from, to })
    } else {
        Ok(Task::Draw { from, to })
    }
}

/// The words `left`.
fn left<'a>(alloc: Global) -> Command<'a>
    ensures words { shape_of result ≡ left_words }
    ensures local { (fields_of result).has_globals ≡ false }
{
    Command::new(alloc, "left")
        .about("Prints what the scenario's run leaves behind, handle by handle")
        .after_help(help::LEFT)
}

/// The words `check`.
fn check<'a>(alloc: Global) -> Command<'a>
    ensures words { shape_of result ≡ check_words }
    ensures local { (fields_of result).has_globals ≡ false }
{
    Command::new(alloc, "check")
        .about("Prints what is wrong with the scenario, line by line")
        .after_help(help::CHECK)
}

/// The words `draw`, `draw --from A`, `draw --html` and so on.
fn draw<'a>(alloc: Global) -> Result<Command<'a>, AllocError>
    ensures words { IfOk result (λ command. shape_of command ≡ draw_words) }
    ensures local { IfOk result (λ command. (fields_of command).has_globals ≡ false) }
{
    Command::new(alloc, "draw")
        .about("Prints a picture of the scenario's run, an SVG document")
        .after_help(help::DRAW)
        .arg(from(alloc))?
        .arg(to(alloc))?
        .arg(html(alloc))
}

/// The word `--html`.
fn html<'a>(alloc: Global) -> Arg<'a>
    ensures word { rule_of result ≡ html_word }
    ensures local { result.global ≡ false }
{
    Arg::new(alloc, "html")
        .long("html")
        .action(ArgAction::SetTrue)
        .help("A page with the picture, the steps and what they print")
}

/// The words `capture`.
fn capture<'a>(alloc: Global) -> Command<'a>
    ensures words { shape_of result ≡ capture_words }
    ensures local { (fields_of result).has_globals ≡ false }
{
    Command::new(alloc, "capture")
        .about("Writes the scenario's run as a capture of usbmon, a pcap file")
        .after_help(help::CAPTURE)
}

/// The words `devices` and `devices --scenario`.
fn devices<'a>(alloc: Global) -> Result<Command<'a>, AllocError>
    ensures words { IfOk result (λ command. shape_of command ≡ devices_words) }
    ensures local { IfOk result (λ command. (fields_of command).has_globals ≡ false) }
{
    Command::new(alloc, "devices")
        .about("Prints the devices of a capture, and what they answered, as lines of a text")
        .after_help(help::DEVICES)
        .arg(scenario(alloc))
}

/// The word `--scenario`.
fn scenario<'a>(alloc: Global) -> Arg<'a>
    ensures word { rule_of result ≡ scenario_word }
    ensures local { result.global ≡ false }
{
    Arg::new(alloc, "scenario")
        .long("scenario")
        .action(ArgAction::SetTrue)
        .help("Only the lines that a scenario may have: device and script")
}

/// Which text the words behind `devices` ask for.
fn devices_task(found: &ArgMatches<'_>) -> Task
    ensures { result ≡ devices_in (rows_of (found_of found.now)) }
{
    if is_set(found, "scenario") {
        Task::Devices(TextReader::Scenario)
    } else {
        Task::Devices(TextReader::Library)
    }
}

/// The words `explain`.
fn explain<'a>(alloc: Global) -> Command<'a>
    ensures words { shape_of result ≡ explain_words }
    ensures local { (fields_of result).has_globals ≡ false }
{
    Command::new(alloc, "explain")
        .about("Runs the scenario, and says of each refusal, idle step and end why it came")
        .after_help(help::EXPLAIN)
}

/// The words `test`.
fn test<'a>(alloc: Global) -> Command<'a>
    ensures words { shape_of result ≡ test_words }
    ensures local { (fields_of result).has_globals ≡ false }
{
    Command::new(alloc, "test")
        .about("Runs a scenario with `expect` lines, and compares what it prints")
        .after_help(help::TEST)
}

/// The words `device`.
fn device<'a>(alloc: Global) -> Command<'a>
    ensures words { shape_of result ≡ device_words }
    ensures local { (fields_of result).has_globals ≡ false }
{
    Command::new(alloc, "device")
        .about("Prints the device line of a configuration descriptor")
        .after_help(help::DEVICE)
}

/// The words `describe`.
fn describe<'a>(alloc: Global) -> Command<'a>
    ensures words { shape_of result ≡ describe_words }
    ensures local { (fields_of result).has_globals ≡ false }
{
    Command::new(alloc, "describe")
        .about("Prints descriptors as a table, as lsusb does")
        .after_help(help::DESCRIBE)
}

/// The word `--from`.
fn from<'a>(alloc: Global) -> Arg<'a>
    ensures word { rule_of result ≡ from_word }
    ensures local { result.global ≡ false }
{
    Arg::new(alloc, "from")
        .long("from")
        .action(ArgAction::Set)
        .value_name("A")
        .value_parser(ValueParser::unsigned(1, LAST))
        .default_value("1")
        .help("The first line of the scenario whose steps are drawn")
}

/// The word `--to`.
fn to<'a>(alloc: Global) -> Arg<'a>
    ensures word { rule_of result ≡ to_word }
    ensures local { result.global ≡ false }
{
    Arg::new(alloc, "to")
        .long("to")
        .action(ArgAction::Set)
        .value_name("B")
        .value_parser(ValueParser::unsigned(1, LAST))
        .default_value("18446744073709551615")
        .hide_default_value(true)
        .help("The last line whose steps are drawn; the scenario's last where it isn't said")
}

/// The word of a handle.
fn handle<'a>(alloc: Global) -> Arg<'a>
    ensures word { rule_of result ≡ handle_word }
    ensures local { result.global ≡ false }
{
    Arg::new(alloc, "H")
        .required(true)
        .action(ArgAction::Set)
        .value_parser(ValueParser::unsigned(0, LAST_HANDLE))
        .help("The handle, 0 to 63")
}

/// The handle that was given. clap has seen that it is there, and at most 63; but no contract of clap's says so of what
/// stands behind a subcommand, so where it is missing memory counts as wanting.
fn handle_of(found: &ArgMatches<'_>) -> Result<Name, AllocError>
    ensures { IfOk result (λ h. handle_in (rows_of (found_of found.now)) ≡ Some h) }
{
    let number = found.get_one::<u8>("H").ok_or(AllocError)?;
    Ok(Name::new(number).ok_or(AllocError)?)
}

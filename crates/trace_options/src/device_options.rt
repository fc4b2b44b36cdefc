//! The options of `devices` by which one device is meant, and a file that says what the capture lacks of it.

ghost use Rattle.std.specs.Prelude.{◌≡◌, false};
ghost use Rattle.trace_options.specs.CommandLine.{no_options};

use crate::beside::{read_beside, read_file};
use std::alloc::{AllocError, Global};
use std::fmt;
use std::io::Write;
use std::rt::Files;
use trace_faults::DeviceIds;
use trace_io::Fault;
use trace_recorded::{
    DescribedDevice, DescribedFault, DeviceChoice, DeviceTexts, described_by_descriptors,
    described_by_umockdev,
};

/// The status of a run that ended early.
const FAILED: u8 = 1;

/// The status of bad words.
const BAD_WORDS: u8 = 2;

/// The options, each with its word.
#[derive(Clone, Copy)]
pub struct DeviceOptions<'a> {
    /// Vendor and product of the device that is meant.
    device: Option<&'a str>,
    /// Linux's file of its descriptors, or a copy.
    descriptors: Option<&'a str>,
    /// A file of umockdev-record.
    umockdev: Option<&'a str>,
    /// The first word that is wrong.
    problem: Option<OptionProblem<'a>>,
}

/// What is wrong with the options.
#[derive(Clone, Copy)]
pub enum OptionProblem<'a> {
    /// Nothing stands behind this one.
    NoWord(&'a str),
    /// This one stands there twice.
    Twice(&'a str),
    /// Two files are named.
    TwoFiles,
    /// This is no vendor and product.
    NoIds(&'a str),
}

/// Why there is no choice.
#[derive(Drop)]
enum ChoiceFault<'a> {
    /// The words are bad.
    Problem(OptionProblem<'a>),
    /// This file can't be read.
    Unread(&'a str),
    /// This file describes no device.
    Described(&'a str, DescribedFault),
    /// No memory was to be had.
    Memory,
}

impl fmt::Display for OptionProblem<'_> {
    fn fmt<W: fmt::Write>(&self, f: &mut fmt::Formatter<W>) -> fmt::Result {
        match self {
            OptionProblem::NoWord(option) => write!(f, "{option}: say what, behind it"),
            OptionProblem::Twice(option) => write!(f, "{option}: say it once"),
            OptionProblem::TwoFiles => f.write_str("--descriptors and --umockdev: say one of them"),
            OptionProblem::NoIds(word) => write!(
                f,
                "--device {word}: say vendor and product as lsusb has them, four hexadecimal digits each: 1209:0001"
            ),
        }
    }
}

impl fmt::Display for ChoiceFault<'_> {
    fn fmt<W: fmt::Write>(&self, f: &mut fmt::Formatter<W>) -> fmt::Result {
        match self {
            ChoiceFault::Problem(problem) => write!(f, "{problem}"),
            ChoiceFault::Unread(file) => write!(f, "{file} can't be read"),
            ChoiceFault::Described(file, fault) => write!(f, "{file} {fault}"),
            ChoiceFault::Memory => f.write_str("out of memory"),
        }
    }
}

impl From<AllocError> for ChoiceFault<'_> {
    fn from(_error: AllocError) -> Self {
        ChoiceFault::Memory
    }
}

impl ChoiceFault<'_> {
    /// The status of a run that ends so.
    fn status(&self) -> u8 {
        match self {
            ChoiceFault::Problem(_) => BAD_WORDS,
            ChoiceFault::Unread(_) | ChoiceFault::Described(..) | ChoiceFault::Memory => FAILED,
        }
    }
}

impl<'a> DeviceOptions<'a> {
    /// None.
    pub fn new() -> DeviceOptions<'a> {
        DeviceOptions {
            device: None,
            descriptors: None,
            umockdev: None,
            problem: None,
        }
    }

    /// Whether a word is one of the options, which have a word behind them.
    pub fn is_option(word: &str) -> bool {
        matches!(word, "--device" | "--descriptors" | "--umockdev")
    }

    /// Whether there is one.
    pub fn is_any(&self) -> bool
        ensures none { self.now ≡ no_options → result ≡ false }
    {
        self.device.is_some()
            || self.descriptors.is_some()
            || self.umockdev.is_some()
            || self.problem.is_some()
    }

    /// The first problem counts.
    fn note(&mut self, problem: OptionProblem<'a>) {
        if self.problem.is_none() {
            self.problem = Some(problem);
        }
    }

    /// An option, and the word behind it.
    pub fn put(&mut self, option: &'a str, word: Option<&'a str>) {
        let Some(word) = word else {
            return self.note(OptionProblem::NoWord(option));
        };
        let before = match option {
            "--device" => self.device.replace(word),
            "--descriptors" => self.descriptors.replace(word),
            _ => self.umockdev.replace(word),
        };
        if before.is_some() {
            self.note(OptionProblem::Twice(option));
        }
    }

    /// The vendor and the product that are asked for.
    fn ids(&self) -> Result<Option<DeviceIds>, ChoiceFault<'a>> {
        match self.device {
            None => Ok(None),
            Some(word) => match ids_in(word) {
                Some(ids) => Ok(Some(ids)),
                None => Err(ChoiceFault::Problem(OptionProblem::NoIds(word))),
            },
        }
    }

    /// The device that a file describes, where one is named.
    fn described<R: Files>(
        &self,
        rt: &R,
        alloc: Global,
    ) -> Result<Option<DescribedDevice>, ChoiceFault<'a>> {
        match (self.descriptors, self.umockdev) {
            (None, None) => Ok(None),
            (Some(_), Some(_)) => Err(ChoiceFault::Problem(OptionProblem::TwoFiles)),
            (Some(file), None) => Ok(Some(by_descriptors(rt, alloc, file)?)),
            (None, Some(file)) => Ok(Some(by_umockdev(rt, alloc, file)?)),
        }
    }

    /// The device that is meant; None where no option says one.
    fn choice<R: Files>(
        &self,
        rt: &R,
        alloc: Global,
    ) -> Result<Option<DeviceChoice>, ChoiceFault<'a>> {
        if let Some(problem) = self.problem {
            return Err(ChoiceFault::Problem(problem));
        }
        let ids = self.ids()?;
        match (self.described(rt, alloc)?, ids) {
            (Some(described), ids) => Ok(Some(DeviceChoice::of_file(described, ids))),
            (None, Some(ids)) => Ok(Some(DeviceChoice::of_ids(ids))),
            (None, None) => Ok(None),
        }
    }

    /// The same; an error is told, and is the status.
    pub fn tell_choice<R: Files, E: Write>(
        &self,
        rt: &R,
        alloc: Global,
        err: &mut E,
    ) -> Result<Option<DeviceChoice>, u8> {
        match self.choice(rt, alloc) {
            Ok(choice) => Ok(choice),
            Err(fault) => {
                let _ = write!(err, "usbtrace: {fault}\n");
                Err(fault.status())
            }
        }
    }
}

/// A number of four hexadecimal digits.
fn number_in(word: &str) -> Option<u16> {
    let digits = word.as_bytes();
    if digits.len() != 4 || !digits.iter().all(|digit| digit.is_ascii_hexdigit()) {
        return None;
    }
    u16::from_str_radix(word, 16).ok()
}

/// The vendor and the product of a word, as lsusb has them.
fn ids_in(word: &str) -> Option<DeviceIds> {
    let (vendor, product) = word.split_once(':')?;
    Some(DeviceIds {
        vendor: number_in(vendor)?,
        product: number_in(product)?,
    })
}

/// All bytes of a file that has to be there.
fn read_named<'a, R: Files>(
    rt: &R,
    alloc: Global,
    file: &'a str,
) -> Result<Vec<u8>, ChoiceFault<'a>> {
    match read_file(rt, alloc, file) {
        Ok(bytes) => Ok(bytes),
        Err(Fault::Memory) => Err(ChoiceFault::Memory),
        Err(_) => Err(ChoiceFault::Unread(file)),
    }
}

/// A file's name as comments tell it: what isn't printable ASCII is a question mark.
fn told_name(alloc: Global, file: &str) -> Result<String, AllocError> {
    let mut name = String::new(alloc);
    for letter in file.chars() {
        let is_plain = letter == ' ' || letter.is_ascii_graphic();
        name.push(if is_plain { letter } else { '?' })?;
    }
    Ok(name)
}

/// The device of Linux's file of its descriptors, with what stands beside it.
fn by_descriptors<'a, R: Files>(
    rt: &R,
    alloc: Global,
    file: &'a str,
) -> Result<DescribedDevice, ChoiceFault<'a>> {
    let bytes = read_named(rt, alloc, file)?;
    let manufacturer = read_beside(rt, alloc, file, "manufacturer")?;
    let product = read_beside(rt, alloc, file, "product")?;
    let serial = read_beside(rt, alloc, file, "serial")?;
    let speed = read_beside(rt, alloc, file, "speed")?;
    let texts = DeviceTexts {
        manufacturer: manufacturer.as_slice(),
        product: product.as_slice(),
        serial: serial.as_slice(),
        speed: speed.as_slice(),
    };
    let name = told_name(alloc, file)?;
    match described_by_descriptors(alloc, name.as_str(), bytes.as_slice(), texts) {
        Ok(described) => Ok(described),
        Err(fault) => Err(ChoiceFault::Described(file, fault)),
    }
}

/// The device of a file of umockdev-record.
fn by_umockdev<'a, R: Files>(
    rt: &R,
    alloc: Global,
    file: &'a str,
) -> Result<DescribedDevice, ChoiceFault<'a>> {
    let bytes = read_named(rt, alloc, file)?;
    let name = told_name(alloc, file)?;
    match described_by_umockdev(alloc, name.as_str(), bytes.as_slice()) {
        Ok(described) => Ok(described),
        Err(fault) => Err(ChoiceFault::Described(file, fault)),
    }
}

//! What descriptors say together, read one after another.

ghost use Rattle.std.specs.Prelude.{◌≡◌, ◌%◌, ◌<◌, [], Ok};
ghost use Rattle.usb_descriptors.specs.Pieces.{Piece as Cut};
ghost use Rattle.usb_descriptors.specs.Descriptors.{descriptor_of};

use crate::config::Config;
use crate::descriptor::{Descriptor, Endpoint, Interface};
use crate::fault::DescFault;
use crate::piece::Piece;

/// What a descriptor stands under: the nearest interface descriptor in front of it.
#[derive(Clone, Copy)]
pub(crate) enum Section {
    /// There is none.
    Start,
    /// It isn't used.
    Unused,
    /// It is used, and has this number.
    Used(u8),
}

/// What the descriptors so far say. After a fault nothing is said of it.
#[derive(Drop)]
pub(crate) struct Reader {
    config: Config,
    section: Section,
}

impl Reader {
    ghost use Rattle.usb_descriptors.specs.Reader.{HasRead, ReadsOn, is_new};

    /// Nothing is read yet.
    pub(crate) fn new() -> Reader
        ensures { HasRead [] result }
    {
        Reader {
            config: Config::new(),
            section: Section::Start,
        }
    }

    /// What was read.
    pub(crate) fn into_config(self) -> Config
        ensures { result ≡ self.config }
    {
        let Reader { config, section: _ } = self;
        config
    }

    /// Reads one more descriptor. Refuses: what the descriptor by itself is refused for, and then TooMany at the
    /// 33rd interface; WrongType of an endpoint before any interface, then SharedEndpoint, then BadPacketSize.
    pub(crate) fn read(&mut self, piece: &Piece<'_>) -> Result<(), DescFault>
        ensures { ReadsOn piece.now self.old self.new result }
    {
        match Descriptor::read(piece)? {
            Descriptor::Interface(interface) => self.read_interface(interface),
            Descriptor::Endpoint(endpoint) => self.read_endpoint(piece.at(), endpoint),
            Descriptor::Other => Ok(()),
        }
    }

    /// Whether an interface is used: it has alternate setting 0, and its number is new.
    fn is_new(&self, interface: Interface) -> bool
        ensures { result ≡ is_new self.now.config.interfaces interface }
    {
        interface.setting == 0 && !self.config.has_interface(interface.number)
    }

    /// Adds an interface, where it is used; TooMany where there are 32.
    fn read_interface(&mut self, interface: Interface) -> Result<(), DescFault>
        ensures { (p : Cut) → descriptor_of p ≡ Ok (Descriptor.Interface interface)
            → ReadsOn p self.old self.new result }
    {
        if !self.is_new(interface) {
            self.section = Section::Unused;
            return Ok(());
        }
        self.config.add_interface(interface.number)?;
        self.section = Section::Used(interface.number);
        Ok(())
    }

    /// Adds an endpoint with a number other than 0, where it stands under an interface that is used. WrongType
    /// before any interface, SharedEndpoint where one has its address, BadPacketSize where its size can't be.
    fn read_endpoint(&mut self, at: usize, endpoint: Endpoint) -> Result<(), DescFault>
        requires { endpoint.address % 128 < 16 }
        ensures { (p : Cut) → p.at ≡ at → descriptor_of p ≡ Ok (Descriptor.Endpoint endpoint)
            → ReadsOn p self.old self.new result }
    {
        match self.section {
            Section::Start => Err(DescFault::WrongType(at)),
            Section::Unused => Ok(()),
            Section::Used(_) if endpoint.has_number_0() => Ok(()),
            Section::Used(interface) => self.config.add_endpoint(endpoint.info(interface)),
        }
    }
}

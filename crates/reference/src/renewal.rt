//! Endpoints are made new: the device's script begins anew (USB 2.0, 9.4.7 and 7.1.7.5).

ghost use Rattle.std.specs.Prelude.{◌≡◌, ℕ, ◌<◌, ◌==◌, ◌&&◌, IfOk, None, if◌then◌else◌};
ghost use Rattle.usb_model.specs.Endpoint.{fresh};
ghost use Rattle.reference.specs.Tables.{cell_at};
ghost use Rattle.reference.specs.Renewed.{is_renewed};

use crate::table::Table;
use std::alloc::{AllocError, Global};
use usb_model::{DeviceNo, Endpoint, EpAddr, Name, Setup};

/// Which endpoints are made new.
#[derive(Clone, Copy)]
pub enum Renewed {
    /// All of them.
    All,
    /// Those of this interface.
    Within { dev: DeviceNo, i: u8 },
    /// Those whose interface this name holds.
    Held { h: Name },
}

impl Renewed {
    /// Whether an endpoint is among them.
    fn has(&self, setup: &Setup, claims: &Table<Option<Name>>, d: DeviceNo, e: EpAddr) -> bool
        ensures { result ≡ is_renewed setup.now claims.now self.now d e }
    {
        match *self {
            Renewed::All => true,
            Renewed::Within { dev, i } => setup.is_within(dev, i, d, e),
            Renewed::Held { h } => match setup.interface_of(d, e) {
                None => false,
                Some(i) => h.is_its(*claims.get(d, i)),
            },
        }
    }
}

impl Table<Endpoint> {
    /// Makes one endpoint new, if it is among these.
    fn renew_one(
        &mut self,
        alloc: Global,
        setup: &Setup,
        claims: &Table<Option<Name>>,
        which: &Renewed,
        dev: DeviceNo,
        ep: EpAddr,
    ) -> Result<(), AllocError>
        ensures { IfOk result (λ _. (other : Endpoint) (d e : ℕ) → cell_at other self.new d e ≡ (if ((dev == d) && (ep == e)) && is_renewed setup.now claims.now which.now d e then fresh setup.now d e else cell_at other self.old d e)) }
    {
        if which.has(setup, claims, dev, ep) {
            let _ = self.replace(dev, ep.address(), Endpoint::fresh(alloc, setup, dev, ep)?);
        }
        Ok(())
    }

    /// Makes these endpoints of a device new.
    fn renew_device(
        &mut self,
        alloc: Global,
        setup: &Setup,
        claims: &Table<Option<Name>>,
        which: &Renewed,
        dev: DeviceNo,
    ) -> Result<(), AllocError>
        ensures { IfOk result (λ _. (d e : ℕ) → cell_at (fresh setup.now d e) self.new d e ≡ (if (dev == d) && is_renewed setup.now claims.now which.now d e then fresh setup.now d e else cell_at (fresh setup.now d e) self.old d e)) }
    {
        for byte in 0..256_u16 {
            self.renew_one(alloc, setup, claims, which, dev, EpAddr::new(byte as u8))?;
        }
        Ok(())
    }

    /// The same of the device of this number.
    fn renew_numbered(
        &mut self,
        alloc: Global,
        setup: &Setup,
        claims: &Table<Option<Name>>,
        which: &Renewed,
        number: u8,
    ) -> Result<(), AllocError>
        requires { number < 4 }
        ensures { IfOk result (λ _. (d e : ℕ) → cell_at (fresh setup.now d e) self.new d e ≡ (if (number == d) && is_renewed setup.now claims.now which.now d e then fresh setup.now d e else cell_at (fresh setup.now d e) self.old d e)) }
    {
        match DeviceNo::new(number) {
            Some(dev) => self.renew_device(alloc, setup, claims, which, dev),
            None => Ok(()),
        }
    }

    /// Makes these endpoints new.
    pub fn renew(
        &mut self,
        alloc: Global,
        setup: &Setup,
        claims: &Table<Option<Name>>,
        which: &Renewed,
    ) -> Result<(), AllocError>
        ensures { IfOk result (λ _. (d e : ℕ) → cell_at (fresh setup.now d e) self.new d e ≡ (if is_renewed setup.now claims.now which.now d e then fresh setup.now d e else cell_at (fresh setup.now d e) self.old d e)) }
    {
        for number in 0..4_u8 {
            self.renew_numbered(alloc, setup, claims, which, number)?;
        }
        Ok(())
    }
}

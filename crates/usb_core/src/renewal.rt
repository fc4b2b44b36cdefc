//! Endpoints are made new: those of an interface that is claimed, and those of a device that is reset.

ghost use Rattle.std.specs.Prelude.{◌≡◌, ◌==◌, false};
ghost use Rattle.std.specs.Option.{option_map_or};
ghost use Rattle.usb_descriptors.specs.Table.{info_at};
ghost use Rattle.refine_core.specs.Renewals.{RenewedAll, is_held_by, is_of_interface};

use usb_descriptors::Config;
use usb_device::Device;
use usb_model::{DeviceNo, EpAddr, Name};
use usb_tables::Claims;
use usb_xhc::Controller;

/// Those of an interface of a device.
pub(crate) fn renew_interface<D: Device>(
    controller: &mut Controller<D>,
    claims: &Claims,
    dev: DeviceNo,
    i: u8,
)
    ensures { RenewedAll claims.now controller.old controller.new dev (λ setup e. is_of_interface setup dev i e) }
{
    let Some(config) = claims.config(dev) else {
        return;
    };
    for info in config.endpoints() {
        if is_of_interface(config, info.address, i) {
            controller.renew(dev, info.address);
        }
    }
}

/// Those of a device that a name holds.
pub(crate) fn renew_held<D: Device>(
    controller: &mut Controller<D>,
    claims: &Claims,
    h: Name,
    dev: DeviceNo,
)
    ensures { RenewedAll claims.now controller.old controller.new dev (λ setup e. is_held_by setup claims.now h dev e) }
{
    let Some(config) = claims.config(dev) else {
        return;
    };
    for info in config.endpoints() {
        if h.is_its(claims.holder(dev, info.address)) {
            controller.renew(dev, info.address);
        }
    }
}

/// Whether an endpoint is of this interface.
fn is_of_interface(config: &Config, ep: EpAddr, i: u8) -> bool
    ensures { result ≡ option_map_or (λ x. x.interface == i) (info_at config.now ep) false }
{
    match config.interface_of(ep) {
        Some(interface) => interface == i,
        None => false,
    }
}

//! A file of descriptors as a table.

use crate::input::bytes_of;
use crate::piece::{begins_with_piece, byte_at, front, past, piece_size, total_length};
use crate::stop::{StopReason, TableStop};
use crate::table::Table;
use std::alloc::{AllocError, Global};
use trace_faults::DescriptorFault;

/// The type of a device descriptor (USB 2.0, table 9-5).
const DEVICE: u8 = 1;

/// That of a configuration.
const CONFIGURATION: u8 = 2;

/// How many bytes a device descriptor has (USB 2.0, table 9-8).
const DEVICE_SIZE: usize = 18;

/// The place of what is left of bytes.
fn place(whole: &[u8], rest: &[u8]) -> usize {
    whole.len().saturating_sub(rest.len())
}

/// Puts the descriptors of a configuration that begins at this byte behind a table; whether they could all be read. Of a configuration that is cut
/// off the last one may be cut too.
fn put_pieces(
    table: &mut Table,
    start: usize,
    configuration: &[u8],
    is_cut: bool,
) -> Result<bool, AllocError> {
    let mut rest = configuration;
    'pieces: while begins_with_piece(rest) {
        let size = piece_size(rest);
        table.put_piece(front(rest, size))?;
        rest = past(rest, size);
    }
    if rest.is_empty() {
        return Ok(true);
    }
    let at = start.saturating_add(place(configuration, rest));
    if rest.len() < 2 || piece_size(rest) < 2 {
        table.put_stop(at, StopReason::BadLength, rest)?;
        return Ok(false);
    }
    table.put_piece(rest)?;
    if !is_cut {
        table.put_stop(at, StopReason::BadLength, &[])?;
    }
    Ok(false)
}

/// Puts a configuration that begins at this byte behind a table; whether more may stand behind it.
fn put_configuration(table: &mut Table, start: usize, rest: &[u8]) -> Result<bool, AllocError> {
    if byte_at(rest, 1) != CONFIGURATION || piece_size(rest) < 9 {
        table.put_stop(start, StopReason::NoConfiguration, rest)?;
        return Ok(false);
    }
    let size = total_length(rest);
    let goes_on = put_pieces(table, start, front(rest, size), size > rest.len())?;
    if size < 9 {
        table.put_stop(start, StopReason::ShortTotal, &[])?;
        return Ok(false);
    }
    if size > rest.len() {
        let end = start.saturating_add(rest.len());
        table.put_stop(end, StopReason::CutConfiguration, &[])?;
        return Ok(false);
    }
    Ok(goes_on)
}

/// Puts configurations behind a table, in bytes that begin with the first of them at this byte: how many there are, if all could be read.
fn put_configurations(
    table: &mut Table,
    start: usize,
    bytes: &[u8],
) -> Result<Option<u64>, AllocError> {
    let (mut rest, mut count) = (bytes, 0u64);
    'configurations: while !rest.is_empty() {
        let at = start.saturating_add(place(bytes, rest));
        if !put_configuration(table, at, rest)? {
            return Ok(None);
        }
        count = count.saturating_add(1);
        rest = past(rest, total_length(rest).max(1));
    }
    Ok(Some(count))
}

/// Puts the configurations behind a table that stand behind a device descriptor, and that some are missing, if so.
fn put_counted(table: &mut Table, all: u8, bytes: &[u8]) -> Result<(), AllocError> {
    let Some(count) = put_configurations(table, DEVICE_SIZE, bytes)? else {
        return Ok(());
    };
    if count >= u64::from(all) {
        return Ok(());
    }
    let end = DEVICE_SIZE.saturating_add(bytes.len());
    table.put_stop(end, StopReason::FewConfigurations(count, all), &[])
}

/// Puts a device descriptor, and what stands behind it, behind a table.
fn put_file(table: &mut Table, bytes: &[u8]) -> Result<(), AllocError> {
    if piece_size(bytes) != DEVICE_SIZE {
        return table.put_stop(0, StopReason::OtherDevice, bytes);
    }
    table.put_device(front(bytes, DEVICE_SIZE))?;
    if bytes.len() < DEVICE_SIZE {
        return table.put_stop(bytes.len(), StopReason::CutDevice, &[]);
    }
    put_counted(table, byte_at(bytes, 17), past(bytes, DEVICE_SIZE))
}

/// The table of an input, and why it ends before the input does, if so.
fn table_of(alloc: Global, input: &[u8]) -> Result<(Vec<u8>, Option<TableStop>), DescriptorFault> {
    let bytes = bytes_of(alloc, input)?;
    let mut table = Table::new(alloc);
    match byte_at(bytes.as_slice(), 1) {
        DEVICE => put_file(&mut table, bytes.as_slice())?,
        CONFIGURATION => {
            let _ = put_configurations(&mut table, 0, bytes.as_slice())?;
        }
        _ => return Err(DescriptorFault::NotADescriptor),
    }
    Ok(table.into_parts())
}

/// The descriptors of an input as a table, in the layout of `lsusb -v`: a device descriptor, if there is one, and each configuration
/// with its interfaces, endpoints and descriptors of their classes. Strings and the names of vendors aren't in the input, nor in the table.
/// A descriptor that is too short is printed as far as it goes, and that it is cut off. Where nothing further can be read the table ends
/// with a line that says so, and where.
///
/// The input is as `device_lines` has it. Refuses a text with other characters or an odd number of digits, and an input that begins
/// with no device descriptor and no configuration.
pub fn description(alloc: Global, input: &[u8]) -> Result<Vec<u8>, DescriptorFault> {
    let (text, _) = table_of(alloc, input)?;
    Ok(text)
}

/// Where the table of an input ends before the input does, or the input before the device, and why; None where all is printed. Refuses what
/// `description` does.
pub fn description_stop(alloc: Global, input: &[u8]) -> Result<Option<TableStop>, DescriptorFault> {
    let (_, stop) = table_of(alloc, input)?;
    Ok(stop)
}

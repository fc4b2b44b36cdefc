//! Why an input that is no scenario is refused, in words: a capture, and a file of descriptors. And who reads the devices of a capture. So
//! what tells a fault, and what runs a scenario, needn't wait for those who read captures and descriptors.
//!
//! The one promise: a fault's printed text is that of its definition.
//!
//! # Files
//!
//! - `descriptor_fault.rt`, specs/DescriptorFaults: why no device is made of a file of descriptors
//! - `capture_fault.rt`, specs/CaptureFaults: why no scenario is read from a capture
//! - `device_ids.rt`: whose device it is, as lsusb prints that
//! - `text_reader.rt`: who reads a text of recorded devices
//!
//! # Contracts
//!
//! - `DescriptorFault`: its printed text is that of the definition (`descriptor_fault_text`)
//! - `CaptureFault`: its printed text is that of the definition (`capture_fault_text`)
//! - `DeviceIds`: its printed text is that of the definition (`ids_text`)
#![tactic(auto)]

mod capture_fault;
mod descriptor_fault;
mod device_ids;
mod text_reader;

pub use capture_fault::CaptureFault;
pub use descriptor_fault::DescriptorFault;
pub use device_ids::DeviceIds;
pub use text_reader::TextReader;

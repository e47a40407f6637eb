//! A call of a master, and the byte of it that was not acknowledged.
use bus::sender::{PutFault, ReadFault};
use bus::{Bus, sender};
use rig::{LONGEST_BLOCK, base_of};
use samples::ring::Resolution;
use samples::signal::Signal;
use std::fmt;
use thiserror::Error;

#[derive(Clone, Copy)]
pub enum Request {
    /// Writes a byte into a register.
    Put { register: u8, byte: u8 },
    /// Reads a register.
    Get(u8),
    /// Reads a whole ring.
    Block(Signal, Resolution),
}

/// A request, and the address of the part that it is for.
#[derive(Clone, Copy)]
pub struct Call {
    pub address: u8,
    pub request: Request,
}

/// The byte of a call that was not acknowledged, and which ended it.
#[derive(Clone, Copy, Debug, Error)]
pub enum NotAcknowledged {
    /// With the write bit.
    #[error("address not acknowledged")]
    Address,
    #[error("register not acknowledged")]
    Register,
    #[error("data not acknowledged")]
    Data,
    /// The address with the read bit.
    #[error("address not acknowledged after the repeated START")]
    Repeat,
}

// By hand: the derive takes a fault in whole, and does not turn case into case.
impl From<PutFault> for NotAcknowledged {
    fn from(e: PutFault) -> NotAcknowledged {
        match e {
            PutFault::Address => NotAcknowledged::Address,
            PutFault::Register => NotAcknowledged::Register,
            PutFault::Data => NotAcknowledged::Data,
        }
    }
}

impl From<ReadFault> for NotAcknowledged {
    fn from(e: ReadFault) -> NotAcknowledged {
        match e {
            ReadFault::Address => NotAcknowledged::Address,
            ReadFault::Register => NotAcknowledged::Register,
            ReadFault::Repeat => NotAcknowledged::Repeat,
        }
    }
}

impl Call {
    /// The whole call on a bus, from START to STOP, and its first byte of data, written or read.
    pub(crate) fn make<B: Bus>(self, bus: &mut B) -> Result<u8, NotAcknowledged> {
        let mut bytes = [0; LONGEST_BLOCK];
        let (register, count) = match self.request {
            Request::Put { register, byte } => {
                sender::put(bus, self.address, register, byte)?;
                return Ok(byte);
            }
            Request::Get(register) => (register, 1),
            Request::Block(signal, resolution) => (base_of(signal), resolution.ring_bytes()),
        };
        sender::read(bus, self.address, register, &mut bytes[..count])?;
        Ok(bytes[0])
    }
}

impl fmt::Display for Call {
    fn fmt<W: fmt::Write>(&self, f: &mut fmt::Formatter<W>) -> fmt::Result {
        let address = self.address;
        match self.request {
            Request::Put { register, byte } => write!(
                f,
                "put 0x{byte:02X} into 0x{register:02X} at 0x{address:02X}"
            ),
            Request::Get(register) => write!(f, "get 0x{register:02X} at 0x{address:02X}"),
            Request::Block(signal, _) => {
                write!(f, "block of the {signal} ring at 0x{address:02X}")
            }
        }
    }
}

//! A script played on the bus of the payload bay's part, call by call.
use crate::call::{Call, NotAcknowledged, Request};
use crate::vcd::Dump;
use anyhow::ensure;
use bus::recorder::Recorder;
use part::events::Pin;
use registers::causes::Trip;
use registers::{bits, register};
use report::SIGNALS;
use rig::{check_register, samples_of};
use script::Command;
use session::{ADDRESS, PATIENCE};
use wire::receiver::Receiver;

/// The part behind its bus, and the dump so far.
#[derive(Drop)]
pub struct Player {
    pub part: Receiver,
    pub dump: Dump,
}

impl Player {
    /// One try of a call, recorded and printed.
    fn attempt(
        &mut self,
        rt: &HostRuntime,
        call: Call,
    ) -> anyhow::Result<Result<u8, NotAcknowledged>> {
        let mut bus = Recorder::new(&mut self.part, rt.alloc());
        let ending = call.make(&mut bus);
        ensure!(bus.complete(), "no memory for the record of the bus");
        self.dump.call(rt, call, ending, bus.record())?;
        Ok(ending)
    }

    /// A call, tried again while it meets silence; its first byte of data, or none where it was never acknowledged.
    fn call(&mut self, rt: &HostRuntime, request: Request) -> anyhow::Result<Option<u8>> {
        let call = Call {
            address: ADDRESS,
            request,
        };
        // not `Patience`, which stands over a rig: each try is recorded here
        for _ in 0..=PATIENCE {
            if let Ok(byte) = self.attempt(rt, call)? {
                return Ok(Some(byte));
            }
        }
        Ok(None)
    }

    /// All registers and then both rings, unless the first get is refused.
    // Not `reading::registers`, which gets them over a rig: each call is recorded here.
    fn read(&mut self, rt: &HostRuntime) -> anyhow::Result<()> {
        let mut bytes = [0; register::COUNT];
        for (number, byte) in bytes.iter_mut().enumerate() {
            let Some(got) = self.call(rt, Request::Get(number as u8))? else {
                return Ok(());
            };
            *byte = got;
        }
        for signal in SIGNALS {
            let resolution = bits::resolution(bytes[register::CBUFRD_HIBYONLY as usize], signal);
            self.call(rt, Request::Block(signal, resolution))?;
        }
        Ok(())
    }

    /// Does what a command says.
    pub(crate) fn obey(&mut self, rt: &HostRuntime, command: Command) -> anyhow::Result<()> {
        match command {
            // a tick that is refused does nothing, on the bus or off it
            Command::Tick { current, voltage } => {
                if let Ok(samples) = samples_of(current, voltage) {
                    self.part.tick(samples);
                }
            }
            Command::On(level) => self.part.pin(Pin::On, level),
            Command::Pol(level) => self.part.pin(Pin::Pol, level),
            Command::Fast => self.part.trip(Trip::Fast),
            Command::Slow => self.part.trip(Trip::Slow),
            Command::Put { register, byte } if check_register(register).is_ok() => {
                self.call(rt, Request::Put { register, byte })?;
            }
            Command::Get(register) if check_register(register).is_ok() => {
                self.call(rt, Request::Get(register))?;
            }
            // one past the last register is refused before the bus
            Command::Put { .. } | Command::Get(_) => {}
            Command::Read => self.read(rt)?,
        }
        Ok(())
    }
}

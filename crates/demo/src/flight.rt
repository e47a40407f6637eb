//! A flight over any rig: settings, power-good, a warning, a trip, the stop delay, and the rings read out.
use crate::print;
use crate::stop::Stop;
use registers::causes::Trip;
use registers::{bits, register};
use report::SIGNALS;
use rig::{LONGEST_BLOCK, Refusal, Rig, base_of};
use std::io;

const CURRENT: u16 = 200;

const VOLTAGE: u16 = 700;

/// How long power-good is waited for.
const MOST_TICKS: u16 = 5000;

/// Undervoltage warning below 600, overcurrent above 800, ten bits, and ten more samples after a shutdown.
const SETTINGS: [(u8, u8); 6] = [
    (register::UV1TH_MSB, 150),
    (register::UV1TH_LSB, 0),
    (register::OITHR_MSB, 200),
    (register::OITHR_LSB, 0),
    (register::CBUFRD_HIBYONLY, 0),
    (register::CBUF_DLY_STOP, 10),
];

/// A rig that flies, and the address of its part.
#[derive(Drop)]
pub struct Flight<R> {
    pub rig: R,
    address: u8,
}

impl<R: Rig> Flight<R> {
    pub(crate) fn new(rig: R, address: u8) -> Flight<R> {
        Flight { rig, address }
    }

    fn get(&mut self, number: u8) -> Result<u8, Refusal> {
        self.rig.get(self.address, number)
    }

    fn set_up(&mut self) -> Result<(), Refusal> {
        for (number, byte) in SETTINGS {
            self.rig.put(self.address, number, byte)?;
        }
        Ok(())
    }

    /// Steady ticks until power-good, and how many there were.
    fn until_good(&mut self) -> Result<u16, Stop> {
        for ticks in 0..MOST_TICKS {
            if bits::is_set(self.get(register::STATUS3)?, bits::POWER_GOOD) {
                return Ok(ticks);
            }
            self.rig.tick(CURRENT, VOLTAGE)?;
        }
        Err(Stop::NeverGood)
    }

    /// Twenty ticks in which current and voltage fall to 0.
    fn run_down(&mut self) -> Result<(), Refusal> {
        for left in (1..=20u16).rev() {
            self.rig.tick(left * 10, left * 30)?;
        }
        Ok(())
    }

    /// The whole flight, untold: power-good, a dip of the voltage to this, a trip and the run-down.
    // These stages stand in `tell` too: a closure for what it prints between them would be no plainer.
    pub(crate) fn fly(&mut self, dip: u16) -> Result<(), Stop> {
        self.set_up()?;
        self.until_good()?;
        self.rig.tick(CURRENT, dip)?;
        self.rig.trip(Trip::Fast);
        self.run_down()?;
        Ok(())
    }

    /// Gets a register until it is answered, and prints each refusal.
    pub(crate) fn wait(&mut self, rt: &impl Print) -> io::Result<()> {
        for _ in 0..255u8 {
            match self.get(register::STATUS1) {
                Ok(_) => return println!(rt; "  the part answers"),
                Err(refusal) => {
                    let number = refusal.number();
                    println!(rt; "  refusal {number}")?;
                }
            }
        }
        Ok(())
    }

    /// The whole flight, stage by stage.
    pub(crate) fn tell(&mut self, rt: &impl Print) -> Result<(), Stop> {
        let bytes = reading::registers(&mut self.rig, self.address)?;
        print::registers(rt, &bytes)?;
        self.set_up()?;
        println!(rt; "  settings written")?;
        let ticks = self.until_good()?;
        println!(rt; "  power-good after {ticks} ticks")?;
        self.status(rt)?;
        self.rig.tick(CURRENT, 590)?;
        println!(rt; "  the voltage dips to 590")?;
        self.status(rt)?;
        self.rig.trip(Trip::Fast);
        println!(rt; "  the breaker trips")?;
        self.status(rt)?;
        self.run_down()?;
        println!(rt; "  twenty ticks later, of which the rings stored ten")?;
        self.rings(rt)
    }

    /// The output pins and the status and log registers that are not 0.
    fn status(&mut self, rt: &impl Print) -> Result<(), Stop> {
        print::outputs(rt, self.rig.outputs())?;
        for number in register::STATUS0..=register::FAULT2 {
            print::unless_zero(rt, number, self.get(number)?)?;
        }
        Ok(())
    }

    fn rings(&mut self, rt: &impl Print) -> Result<(), Stop> {
        let mut block = [0; LONGEST_BLOCK];
        for signal in SIGNALS {
            self.rig.block(self.address, base_of(signal), &mut block)?;
            println!(rt; "  {signal} ring, oldest last")?;
            print::byte_rows(rt, &block)?;
        }
        Ok(())
    }
}

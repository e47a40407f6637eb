//! A record of the bus as a value change dump: one unit of time for each pair of levels.
ghost use Rattle.std.specs.Prelude.{◌≡◌, ◌&&◌};

use crate::call::{Call, NotAcknowledged};
use bus::levels::Levels;
use bus::recorder::Recorded;
use std::io;

/// How the dump writes the line SCL.
const SCL: char = '!';

/// How the dump writes the line SDA.
const SDA: char = '"';

/// SDA is high only where neither end pulls it.
// Said in `wire::change` too: the dump shows what was recorded, the receiver acts on what it sees.
fn bus_sda(recorded: Recorded) -> bool
    ensures { result ≡ (recorded.levels.sda && recorded.sda) }
{
    recorded.levels.sda && recorded.sda
}

/// The lines as both ends leave them. Only the master drives SCL.
fn bus_levels(recorded: Recorded) -> Levels
    ensures scl { result.scl ≡ recorded.levels.scl }
    ensures sda { result.sda ≡ (recorded.levels.sda && recorded.sda) }
{
    Levels {
        scl: recorded.levels.scl,
        sda: bus_sda(recorded),
    }
}

/// How far a dump has come: the time of the last pair, and the lines as it left them.
#[derive(Drop)]
pub struct Dump {
    time: u64,
    levels: Levels,
}

fn line(rt: &impl Print, mark: char, level: bool) -> io::Result<()> {
    let digit = u8::from(level);
    println!(rt; "{digit}{mark}")
}

impl Dump {
    /// The header, and the bus at rest at time 0.
    pub(crate) fn begin(rt: &impl Print) -> io::Result<Dump> {
        println!(rt; "$timescale 1 us $end")?;
        println!(rt; "$scope module bus $end")?;
        println!(rt; "$var wire 1 {SCL} SCL $end")?;
        println!(rt; "$var wire 1 {SDA} SDA $end")?;
        println!(rt; "$upscope $end")?;
        println!(rt; "$enddefinitions $end")?;
        println!(rt; "#0")?;
        println!(rt; "$dumpvars")?;
        line(rt, SCL, Levels::REST.scl)?;
        line(rt, SDA, Levels::REST.sda)?;
        println!(rt; "$end")?;
        Ok(Dump {
            time: 0,
            levels: Levels::REST,
        })
    }

    /// One pair of levels: the lines that changed, with their time; nothing where none did.
    fn pair(&mut self, rt: &impl Print, recorded: Recorded) -> io::Result<()> {
        let old = self.levels;
        let new = bus_levels(recorded);
        let time = self.time.saturating_add(1);
        self.time = time;
        self.levels = new;
        if old == new {
            return Ok(());
        }
        println!(rt; "#{time}")?;
        if old.scl != new.scl {
            line(rt, SCL, new.scl)?;
        }
        if old.sda != new.sda {
            line(rt, SDA, new.sda)?;
        }
        Ok(())
    }

    /// A call as it was recorded, behind a comment that says how it ended.
    pub(crate) fn call(
        &mut self,
        rt: &impl Print,
        call: Call,
        ending: Result<u8, NotAcknowledged>,
        record: &[Recorded],
    ) -> io::Result<()> {
        match ending {
            Ok(_) => println!(rt; "$comment {call}: acknowledged $end")?,
            Err(e) => println!(rt; "$comment {call}: {e} $end")?,
        }
        for recorded in record {
            self.pair(rt, *recorded)?;
        }
        Ok(())
    }

    /// The last pair stands for a unit too.
    pub(crate) fn end(&self, rt: &impl Print) -> io::Result<()> {
        let end = self.time.saturating_add(1);
        println!(rt; "#{end}")
    }
}

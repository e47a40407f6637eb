//! The bus of the payload bay's part while a script is played, printed as a value change dump.
#![tactic(auto)]

mod call;
mod player;
mod vcd;

use player::Player;
use registers::pins::Pins;
use script::first::hold_off;
use script::reader::command;
use session::LONGEST_SCRIPT;
use session::lines::{Lines, first_line};
use vcd::Dump;
use wire::receiver::Receiver;

/// Plays the lines after the first; a wrong line does nothing on the bus.
fn play(rt: &HostRuntime, mut player: Player, script: &[u8]) -> anyhow::Result<()> {
    for line in Lines::new(script) {
        if let Ok(command) = command(line) {
            player.obey(rt, command)?;
        }
    }
    player.dump.end(rt)?;
    Ok(())
}

fn run(rt: &HostRuntime) -> anyhow::Result<()> {
    let script = session::read(rt.stdin(), rt.alloc())?;
    let dump = Dump::begin(rt)?;
    let (line, rest) = first_line(&script);
    match hold_off(line) {
        Ok(silences) if script.len() <= LONGEST_SCRIPT => {
            let part = Receiver::new(Pins::payload_bay(), silences);
            play(rt, Player { part, dump }, rest)
        }
        _ => Ok(dump.end(rt)?),
    }
}

fn main(rt: HostRuntime) -> anyhow::Result<()> {
    run(&rt)
}

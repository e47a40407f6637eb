//! Scripts with the answers that they must print: each is run, and what it prints is compared.
#![tactic(auto)]

use std::alloc::Global;
use std::fs;

/// Each name stands for a script and its answers, side by side in the folder of the program's data.
const NAMES: [&str; 18] = [
    "boot-long",
    "boot-patience",
    "critical-undervoltage-latches",
    "deglitch",
    "empty",
    "extremes-hold-and-reset",
    "first-line-out-of-range",
    "full-scale",
    "majority-and-latch",
    "mixed-resolution",
    "power-good-at-500",
    "power-up-registers",
    "refusals",
    "rings-full",
    "rings-short",
    "script-forms",
    "stop-delay",
    "stop-delay-above-fifty",
];

/// Whether a script prints its answers, byte for byte.
fn agrees(rt: &HostRuntime, name: &str) -> anyhow::Result<bool> {
    let script = fs::read(rt, format!(in rt.alloc(); "{name}.script")?)?;
    let answers = fs::read(rt, format!(in rt.alloc(); "{name}.answers")?)?;
    let mut printed = Vec::new(rt.alloc());
    session::run(&mut printed, &script)?;
    Ok(printed.as_slice() == answers.as_slice())
}

fn run(rt: &HostRuntime) -> anyhow::Result<()> {
    // counted by hand, since each script may fail to be read: a `try_fold` would be no plainer
    let mut agreed = 0u32;
    for name in NAMES {
        if agrees(rt, name)? {
            agreed = agreed.saturating_add(1);
            println!(rt; "{name}: agrees")?;
        } else {
            println!(rt; "{name}: DIFFERS")?;
        }
    }
    let all = NAMES.len();
    println!(rt; "{agreed} of {all} agree")?;
    Ok(())
}

fn main(rt: HostRuntime) -> anyhow::Result<()> {
    run(&rt)
}

//! Registers, pins, samples and bytes as a person reads them.
use crate::names;
use part::Outputs;
use registers::register::COUNT;
use std::io;

pub(crate) fn outputs(rt: &impl Print, outputs: Outputs) -> io::Result<()> {
    let Outputs { fault, alert, pg } = outputs;
    println!(rt; "  FAULT {fault}, ALERT {alert}, PG {pg}")
}

/// A register by name, with what it is for; nothing of a number that has no use.
pub(crate) fn named(rt: &impl Print, number: u8, byte: u8) -> io::Result<()> {
    match names::of(number) {
        Some((name, meaning)) => {
            println!(rt; "    {number:02X} {name:<16} {byte:02X}  {meaning}")
        }
        None => Ok(()),
    }
}

pub(crate) fn unless_zero(rt: &impl Print, number: u8, byte: u8) -> io::Result<()> {
    if byte == 0 {
        return Ok(());
    }
    named(rt, number, byte)
}

/// The cells of a row, and its end.
fn row<T, F: Fn(&T) -> io::Result<()>>(rt: &impl Print, cells: &[T], cell: F) -> io::Result<()>
    requires { F.IsAlwaysCallable cell }
{
    for x in cells {
        cell(x)?;
    }
    println!(rt)
}

fn byte_row(rt: &impl Print, bytes: &[u8]) -> io::Result<()> {
    row(rt, bytes, |byte| print!(rt; " {byte:02X}"))
}

/// All registers, eight to a row, and then those that are not 0 by name.
pub(crate) fn registers(rt: &impl Print, bytes: &[u8; COUNT]) -> io::Result<()> {
    println!(rt; "  registers")?;
    for (number, eight) in (0..COUNT).step_by(8).zip(bytes.chunks(8)) {
        print!(rt; "    {number:02X}:")?;
        byte_row(rt, eight)?;
    }
    for (number, byte) in (0..COUNT as u8).zip(bytes.iter()) {
        unless_zero(rt, number, *byte)?;
    }
    Ok(())
}

/// Samples, ten to a row.
pub(crate) fn samples(rt: &impl Print, samples: &[u16]) -> io::Result<()> {
    for ten in samples.chunks(10) {
        print!(rt; "   ")?;
        row(rt, ten, |sample| print!(rt; " {sample:4}"))?;
    }
    Ok(())
}

/// Bytes, twenty to a row.
pub(crate) fn bytes(rt: &impl Print, title: &str, bytes: &[u8]) -> io::Result<()> {
    println!(rt; "  {title}")?;
    byte_rows(rt, bytes)
}

pub(crate) fn byte_rows(rt: &impl Print, bytes: &[u8]) -> io::Result<()> {
    for twenty in bytes.chunks(20) {
        print!(rt; "   ")?;
        byte_row(rt, twenty)?;
    }
    Ok(())
}

//! Two rigs of two kinds, compared by the reports on their parts.
use crate::flight::Flight;
use crate::page::Page;
use crate::stop::Stop;
use reading::compare;
use registers::pins::Pins;
use report::{REPORT_BYTES, View};
use rig::{Direct, Patience};
use wire::Wire;

#[derive(Drop)]
struct Reports {
    left: [u8; REPORT_BYTES],
    right: [u8; REPORT_BYTES],
}

/// The reports after a flight on a direct rig and one on patience over a wire rig, which dip to these voltages before
/// the breaker trips.
fn flights(
    rt: &impl Print,
    pins: Pins,
    address: u8,
    (left, right): (u16, u16),
) -> Result<Reports, Stop> {
    let mut direct = Flight::new(Direct::new(pins, 0), address);
    let mut patient = Flight::new(Patience::new(Wire::new(pins, 2), 2), address);
    direct.fly(left)?;
    patient.fly(right)?;
    let mut reports = Reports {
        left: [0; REPORT_BYTES],
        right: [0; REPORT_BYTES],
    };
    let same = compare(
        &mut direct.rig,
        address,
        &mut reports.left,
        &mut patient.rig,
        address,
        &mut reports.right,
    )?;
    let verdict = if same { "the same" } else { "not the same" };
    println!(rt; "  dips to {left} and {right}: the reports are {verdict}")?;
    Ok(reports)
}

pub(crate) fn tell(rt: &impl Print, pins: Pins, address: u8) -> Result<(), Stop> {
    println!(rt; "A direct rig compared with patience 2 on a wire rig")?;
    let reports = flights(rt, pins, address, (590, 590))?;
    println!(rt; "The report on both")?;
    Page::new(rt, View::new(&reports.left)).whole()?;
    let reports = flights(rt, pins, address, (590, 580))?;
    Page::new(rt, View::new(&reports.left)).differences(View::new(&reports.right))?;
    Ok(())
}

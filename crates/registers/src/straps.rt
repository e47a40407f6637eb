//! The seven-bit address that the straps A1 and A0 choose.
ghost use Rattle.std.specs.Prelude.{◌≡◌};
ghost use Rattle.registers.specs.Pins.{address_of};

use crate::pins::Strap;

#[derive(Clone, Copy)]
struct Row {
    a1: Strap,
    a0: Strap,
    address: u8,
}

// A search over rows and no `match`, a rule of the project: the order of the rows is the order of the search.
const STRAPS: [Row; 9] = [
    Row {
        a1: Strap::Low,
        a0: Strap::Low,
        address: 0x3A,
    },
    Row {
        a1: Strap::Low,
        a0: Strap::High,
        address: 0x39,
    },
    Row {
        a1: Strap::Low,
        a0: Strap::Open,
        address: 0x38,
    },
    Row {
        a1: Strap::High,
        a0: Strap::Low,
        address: 0x36,
    },
    Row {
        a1: Strap::High,
        a0: Strap::High,
        address: 0x35,
    },
    Row {
        a1: Strap::High,
        a0: Strap::Open,
        address: 0x34,
    },
    Row {
        a1: Strap::Open,
        a0: Strap::Low,
        address: 0x32,
    },
    Row {
        a1: Strap::Open,
        a0: Strap::High,
        address: 0x31,
    },
    Row {
        a1: Strap::Open,
        a0: Strap::Open,
        address: 0x30,
    },
];

/// The address of a part with these straps.
pub fn address(a1: Strap, a0: Strap) -> u8
    ensures { result ≡ address_of a1 a0 }
{
    for row in &STRAPS {
        if row.a1 == a1 && row.a0 == a0 {
            return row.address;
        }
    }
    unreachable()
}

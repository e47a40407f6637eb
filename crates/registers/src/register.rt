//! The registers by the names that firmware knows them by, each with its number.
//! Numbers and no enum: on the bus any byte may stand for a register, and 184 of them name neither a register nor a ring.

/// Latest current, high eight bits.
pub const ADC_CS_MSB: u8 = 0x00;
/// Latest current, low two bits.
pub const ADC_CS_LSB: u8 = 0x01;
/// Latest voltage, high eight bits.
pub const ADC_MON_MSB: u8 = 0x02;
/// Latest voltage, low two bits.
pub const ADC_MON_LSB: u8 = 0x03;
/// Smallest current, high eight bits.
pub const MIN_CS_MSB: u8 = 0x08;
/// Smallest current, low two bits.
pub const MIN_CS_LSB: u8 = 0x09;
/// Largest current, high eight bits.
pub const MAX_CS_MSB: u8 = 0x0A;
/// Largest current, low two bits.
pub const MAX_CS_LSB: u8 = 0x0B;
/// Smallest voltage, high eight bits.
pub const MIN_MON_MSB: u8 = 0x0C;
/// Smallest voltage, low two bits.
pub const MIN_MON_LSB: u8 = 0x0D;
/// Largest voltage, high eight bits.
pub const MAX_MON_MSB: u8 = 0x0E;
/// Largest voltage, low two bits.
pub const MAX_MON_LSB: u8 = 0x0F;
/// Range of the voltage input.
pub const MON_RANGE: u8 = 0x18;
/// Run bits of the rings.
pub const CBUF_CHX_STORE: u8 = 0x19;
/// Undervoltage warning threshold, high eight bits.
pub const UV1TH_MSB: u8 = 0x1A;
/// Undervoltage warning threshold, low two bits.
pub const UV1TH_LSB: u8 = 0x1B;
/// Undervoltage critical threshold, high eight bits.
pub const UV2TH_MSB: u8 = 0x1C;
/// Undervoltage critical threshold, low two bits.
pub const UV2TH_LSB: u8 = 0x1D;
/// Overvoltage warning threshold, high eight bits.
pub const OV1THR_MSB: u8 = 0x1E;
/// Overvoltage warning threshold, low two bits.
pub const OV1THR_LSB: u8 = 0x1F;
/// Overvoltage critical threshold, high eight bits.
pub const OV2THR_MSB: u8 = 0x20;
/// Overvoltage critical threshold, low two bits.
pub const OV2THR_LSB: u8 = 0x21;
/// Overcurrent warning threshold, high eight bits.
pub const OITHR_MSB: u8 = 0x22;
/// Overcurrent warning threshold, low two bits.
pub const OITHR_LSB: u8 = 0x23;
/// Fast-trip threshold.
pub const DAC_FAST: u8 = 0x2E;
/// Ratio of the fast-trip to the slow-trip threshold.
pub const IFAST2SLOW: u8 = 0x30;
/// Logged trips.
pub const STATUS0: u8 = 0x31;
/// The pins PROT and ON.
pub const STATUS1: u8 = 0x32;
/// Current-sense range, from IRNG.
pub const STATUS2: u8 = 0x33;
/// POL, ALERT and power-good.
pub const STATUS3: u8 = 0x34;
/// Logged undervoltage.
pub const FAULT0: u8 = 0x35;
/// Logged overvoltage.
pub const FAULT1: u8 = 0x36;
/// Logged overcurrent.
pub const FAULT2: u8 = 0x37;
/// Power-good delay.
pub const PGDLY: u8 = 0x38;
/// Key of force-on.
pub const FOKEY: u8 = 0x39;
/// Enable bits EN1 and EN2.
pub const CHXEN: u8 = 0x3B;
/// Deglitch bit of the overcurrent compare.
pub const DGL_I: u8 = 0x3C;
/// Deglitch bits of the undervoltage compares.
pub const DGL_UV: u8 = 0x3D;
/// Deglitch bits of the overvoltage compares.
pub const DGL_OV: u8 = 0x3E;
/// Resolution bits of the rings.
pub const CBUFRD_HIBYONLY: u8 = 0x3F;
/// Stop delay of the rings.
pub const CBUF_DLY_STOP: u8 = 0x40;
/// Reset bits of the extremes.
pub const PEAK_LOG_RST: u8 = 0x41;
/// Hold bits of the extremes.
pub const PEAK_LOG_HOLD: u8 = 0x42;
/// LED set and flash bits.
pub const LED_FLASH: u8 = 0x43;
/// LED phase and pullup bits.
pub const LED_PH_PU: u8 = 0x44;
/// LED pin levels.
pub const LED_STATE: u8 = 0x45;

/// How many registers there are: their numbers run from 0 to one below.
pub const COUNT: usize = 70;

/// Where the voltage ring is read out: a base past the last register.
pub const CBUF_BA_V: u8 = 0x46;
/// Where the current ring is read out.
pub const CBUF_BA_I: u8 = 0x47;

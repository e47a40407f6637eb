//! What a reader calls each register.
use registers::register;

/// The name of a register and what it is for; none of a number that has no use.
// A `match`, and no table: one by number would need its holes filled, and rows in a list would need a search.
pub(crate) fn of(number: u8) -> Option<(&'static str, &'static str)> {
    let names = match number {
        register::ADC_CS_MSB => ("adc_cs_msb", "latest current, high eight bits"),
        register::ADC_CS_LSB => ("adc_cs_lsb", "latest current, low two bits"),
        register::ADC_MON_MSB => ("adc_mon_msb", "latest voltage, high eight bits"),
        register::ADC_MON_LSB => ("adc_mon_lsb", "latest voltage, low two bits"),
        register::MIN_CS_MSB => ("min_cs_msb", "smallest current, high eight bits"),
        register::MIN_CS_LSB => ("min_cs_lsb", "smallest current, low two bits"),
        register::MAX_CS_MSB => ("max_cs_msb", "largest current, high eight bits"),
        register::MAX_CS_LSB => ("max_cs_lsb", "largest current, low two bits"),
        register::MIN_MON_MSB => ("min_mon_msb", "smallest voltage, high eight bits"),
        register::MIN_MON_LSB => ("min_mon_lsb", "smallest voltage, low two bits"),
        register::MAX_MON_MSB => ("max_mon_msb", "largest voltage, high eight bits"),
        register::MAX_MON_LSB => ("max_mon_lsb", "largest voltage, low two bits"),
        register::MON_RANGE => ("mon_range", "range of the voltage input"),
        register::CBUF_CHX_STORE => ("cbuf_chx_store", "run bits of the rings"),
        register::UV1TH_MSB => (
            "uv1th_msb",
            "undervoltage warning threshold, high eight bits",
        ),
        register::UV1TH_LSB => ("uv1th_lsb", "undervoltage warning threshold, low two bits"),
        register::UV2TH_MSB => (
            "uv2th_msb",
            "undervoltage critical threshold, high eight bits",
        ),
        register::UV2TH_LSB => ("uv2th_lsb", "undervoltage critical threshold, low two bits"),
        register::OV1THR_MSB => (
            "ov1thr_msb",
            "overvoltage warning threshold, high eight bits",
        ),
        register::OV1THR_LSB => ("ov1thr_lsb", "overvoltage warning threshold, low two bits"),
        register::OV2THR_MSB => (
            "ov2thr_msb",
            "overvoltage critical threshold, high eight bits",
        ),
        register::OV2THR_LSB => ("ov2thr_lsb", "overvoltage critical threshold, low two bits"),
        register::OITHR_MSB => (
            "oithr_msb",
            "overcurrent warning threshold, high eight bits",
        ),
        register::OITHR_LSB => ("oithr_lsb", "overcurrent warning threshold, low two bits"),
        register::DAC_FAST => ("dac_fast", "fast-trip threshold"),
        register::IFAST2SLOW => (
            "ifast2slow",
            "ratio of the fast-trip to the slow-trip threshold",
        ),
        register::STATUS0 => ("status0", "logged trips"),
        register::STATUS1 => ("status1", "the pins PROT and ON"),
        register::STATUS2 => ("status2", "current-sense range, from IRNG"),
        register::STATUS3 => ("status3", "POL, ALERT and power-good"),
        register::FAULT0 => ("fault0", "logged undervoltage"),
        register::FAULT1 => ("fault1", "logged overvoltage"),
        register::FAULT2 => ("fault2", "logged overcurrent"),
        register::PGDLY => ("pgdly", "power-good delay"),
        register::FOKEY => ("fokey", "key of force-on"),
        register::CHXEN => ("chxen", "enable bits EN1 and EN2"),
        register::DGL_I => ("dgl_i", "deglitch bit of the overcurrent compare"),
        register::DGL_UV => ("dgl_uv", "deglitch bits of the undervoltage compares"),
        register::DGL_OV => ("dgl_ov", "deglitch bits of the overvoltage compares"),
        register::CBUFRD_HIBYONLY => ("cbufrd_hibyonly", "resolution bits of the rings"),
        register::CBUF_DLY_STOP => ("cbuf_dly_stop", "stop delay of the rings"),
        register::PEAK_LOG_RST => ("peak_log_rst", "reset bits of the extremes"),
        register::PEAK_LOG_HOLD => ("peak_log_hold", "hold bits of the extremes"),
        register::LED_FLASH => ("led_flash", "LED set and flash bits"),
        register::LED_PH_PU => ("led_ph_pu", "LED phase and pullup bits"),
        register::LED_STATE => ("led_state", "LED pin levels"),
        _ => return None,
    };
    Some(names)
}

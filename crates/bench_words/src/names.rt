// The calls by their names in the Rust.

// 24 to 29 are 8 to 13 with ManualAck.
pub fn name(n: u32) -> &'static str {
    // By hand: an array of the names would need one for 0, and a test of its end.
    match benchfile::plain(n) {
        1 => "I2c::new",
        2 => "I2cTarget::new",
        3 => "configure_target_addresses",
        4 => "enable_target_event",
        5 => "disable_target_event",
        6 => "reset",
        7 => "transaction",
        8 => "wait_for_event",
        9 => "read",
        10 => "write",
        11 => "wait_for_target_read",
        12 => "wait_for_target_write",
        13 => "wait_for_stop",
        14 => "ack_transfer",
        15 => "nack_transfer",
        _ => "no such call",
    }
}

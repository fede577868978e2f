//! How soon the sites of these runs act although nothing came.

use udp_node::Timing;

/// So soon that no test waits for it; and none gives up, however busy the machine is.
pub const SOON: Timing = Timing {
    greeting_ms: 20,
    silence_ms: u64::MAX,
    again_ms: 2,
    latest_again_ms: 20,
    turn_ms: 1,
};

/// The same of sites that give up after a second.
pub const SOON_SILENT: Timing = Timing {
    silence_ms: 1_000,
    ..SOON
};

//! The timers of the protocol: keep-alive, failure detection by silence, retransmission. `Schedule` of udp_node reads
//! them; it says why repeats come ever later (exponential backoff). Silence redoes nothing: only news of a later
//! incarnation of its thief redoes a child.

/// When a site acts although nothing came, in milliseconds.
#[derive(Clone, Copy, Debug, PartialEq, Eq)]
pub struct Timing {
    /// A node greets the registry so often: while its workers search nothing else may be sent for long.
    pub greeting_ms: u64,
    /// A site gives up once so long no packet came that shows the run going on: at the registry any packet does, at a
    /// node one of the registry, as nodes ask one another for ever.
    pub silence_ms: u64,
    /// What may be lost is said again so long after it was said.
    pub again_ms: u64,
    /// While nothing new is said, each time is twice as late as the one before, and at most so late.
    pub latest_again_ms: u64,
    /// A site whose threads have so many turns lasts so many times this at most before a restart, and a thousand times
    /// longer else.
    pub turn_ms: u64,
}

impl Timing {
    /// That of the program.
    pub const USUAL: Timing = Timing {
        greeting_ms: 5_000,
        silence_ms: 30_000,
        again_ms: 160,
        latest_again_ms: 5_120,
        turn_ms: 4,
    };
}

//! When a site acts although nothing came: greetings, repeats, silence, the end.
//!
//! By a clock, not by counting receives, whose length depends on the system's tick and on traffic. What may be lost is
//! repeated 160 milliseconds after something was said, then after twice as long each time (exponential backoff, as in
//! TCP, RFC 6298), up to 5.12 seconds: what wasn't lost needs it no more.

use site_limits::Timing;

/// How many microseconds a millisecond has.
const MILLI: u64 = 1_000;

/// How many times longer a site lasts that no incarnation follows: four seconds for each turn in place of four
/// milliseconds. Chosen, not measured.
const LAST_FACTOR: u64 = 1_000;

/// How long after one another the registry announces the end, once the search is over, in microseconds.
const END_PAUSE: u64 = 100;

/// How often it announces it again before it ends: for two milliseconds in all, so that thieves that ask can't delay
/// the end. Chosen, not measured.
const END_AGAINS: u64 = 20;

/// For how long a site goes on that is to end while packets still come, in microseconds: the registry's announcement
/// may be among them. Chosen, not measured.
const GRACE: u64 = 1_000_000;

/// When the thread that receives at a site acts although nothing came. All times are in microseconds of the thread's
/// own [time](crate::own_time::OwnTime).
#[derive(Clone, Copy, Debug, PartialEq, Eq)]
pub struct Schedule {
    timing: Timing,
    /// When the site's time is over.
    end_of_time: u64,
    /// When the registry is greeted next.
    next_greeting: u64,
    /// When a packet came last that shows the run going on.
    last_heard: u64,
    /// When what may be lost is said again next.
    next_repeat: u64,
    /// How long after that the next time is.
    pause: u64,
    /// How much that may be lost was said by the last look.
    said: u64,
    /// How often the end is still to be announced, once the search is over.
    announcements_left: Option<u64>,
    /// When the site was seen to be about to end first.
    ending_since: Option<u64>,
}

impl Schedule {
    /// That of a thread which begins now, at a site whose threads have so many turns, and which another incarnation
    /// follows or not.
    pub fn new(timing: Timing, turns: u64, is_last: bool) -> Schedule {
        let lasts = turns.saturating_mul(timing.turn_ms.saturating_mul(MILLI));
        let pause = timing.again_ms.saturating_mul(MILLI);
        Schedule {
            timing,
            end_of_time: if is_last {
                lasts.saturating_mul(LAST_FACTOR)
            } else {
                lasts
            },
            next_greeting: 0,
            last_heard: 0,
            next_repeat: pause,
            pause,
            said: 0,
            announcements_left: None,
            ending_since: None,
        }
    }

    /// Whether the site's time is over.
    pub fn is_spent(&self, now: u64) -> bool {
        now >= self.end_of_time
    }

    /// Answers whether the registry is to be greeted now. It counts as greeted then.
    pub fn greet_if_due(&mut self, now: u64) -> bool {
        if now < self.next_greeting {
            return false;
        }
        self.next_greeting = now.saturating_add(self.timing.greeting_ms.saturating_mul(MILLI));
        true
    }

    /// A packet came that shows the run going on.
    pub fn hear(&mut self, now: u64) {
        self.last_heard = now;
    }

    /// Whether none came for long.
    pub fn is_silent(&self, now: u64) -> bool {
        now.saturating_sub(self.last_heard) >= self.timing.silence_ms.saturating_mul(MILLI)
    }

    /// Answers whether what may be lost is to be said again now, where so much was said in all. It counts as said again
    /// then.
    ///
    /// After something new was said it is said again soon, and then each time after twice as long, since what was not
    /// lost needs it no more. Once the search is over it is the end that is announced.
    pub fn repeat_if_due(&mut self, now: u64, said: u64) -> bool {
        if said != self.said {
            self.said = said;
            self.pause = self.timing.again_ms.saturating_mul(MILLI);
            self.next_repeat = self.next_repeat.min(now.saturating_add(self.pause));
        }
        if now < self.next_repeat {
            return false;
        }
        self.pause = self.next_pause();
        self.next_repeat = now.saturating_add(self.pause);
        self.announcements_left = self.announcements_left.map(|left| left.saturating_sub(1));
        true
    }

    /// How long after this time the next one is.
    fn next_pause(&self) -> u64 {
        if self.is_over() {
            return END_PAUSE;
        }
        let latest = self.timing.latest_again_ms.saturating_mul(MILLI);
        self.pause.saturating_mul(2).min(latest)
    }

    /// The search is over: from now on the end is announced.
    pub fn end(&mut self, now: u64) {
        self.announcements_left = Some(END_AGAINS);
        self.next_repeat = now.saturating_add(END_PAUSE);
    }

    /// Whether that is so.
    pub fn is_over(&self) -> bool {
        self.announcements_left.is_some()
    }

    /// Whether the end was announced often enough.
    pub fn has_announced(&self) -> bool {
        self.announcements_left == Some(0)
    }

    /// Answers whether a site that is to end ends now: where its receive was empty, or packets came for long since it
    /// was first asked.
    pub fn end_if_quiet(&mut self, now: u64, is_empty: bool) -> bool {
        let seen = *self.ending_since.get_or_insert(now);
        is_empty || now.saturating_sub(seen) >= GRACE
    }
}

//! What hears the results of the children of a frame.

ghost use Rattle.std.specs.Prelude.{◌≡◌, ◌+◌, ◌<◌, ℕ, Option, IsSome, None, true};
ghost use Rattle.spawn_frame.specs.Inlets.{is_cover, IsNextWinner};
ghost use Rattle.spawn_frame.specs.declared.heard.Heard.{Heard};

use crate::child_result::ChildResult;
use crate::heard::Heard;

/// What hears the results of a frame's children, each once, and says when they come to something.
pub trait Inlet {
    ghost left_in: { Self → ℕ };

    ghost winner_in: { Self → Option ℕ };

    ghost heard_in: { Self → Heard };

    /// Hears the result of a child that it hasn't taken before, and says whether it is settled now.
    fn take(&mut self, child: u32, child_result: &ChildResult) -> Heard
        requires { 0 < left_in self.old }
        ensures heard { result ≡ heard_in self.new }
        ensures left { left_in self.new + 1 ≡ left_in self.old }
        ensures stays { heard_in self.old ≡ Heard.Settled → heard_in self.new ≡ Heard.Settled }
        ensures covered { is_cover child_result.now ≡ true → IsSome (winner_in self.new) }
        ensures winner { IsNextWinner child child_result.now (winner_in self.old)
            (winner_in self.new) }
        ensures none_left { heard_in self.new ≡ Heard.Settled → winner_in self.new ≡ None →
            left_in self.new ≡ 0 };

    /// Whether it is settled.
    fn heard(&self) -> Heard
        ensures heard { result ≡ heard_in self.now }
        ensures none_left { heard_in self.now ≡ Heard.Settled → winner_in self.now ≡ None →
            left_in self.now ≡ 0 };

    /// The child whose cover it goes by, if there is one.
    fn winner(&self) -> Option<u32>
        ensures { result ≡ winner_in self.now };

    /// How many children it hasn't taken.
    fn left(&self) -> u32
        ensures { result ≡ left_in self.now };
}

//! What the definitions of aborts say of one another.

ghost use Rattle.std.specs.Prelude.{◌≡◌, ℕ, Bool, List, map};
ghost use Rattle.spawn_frame.specs.Aborts.{AbortsBelow};
ghost use Rattle.spawn_frame.specs.Units.{Entry};
ghost use Rattle.spawn_frame.specs.declared.unit.Unit.{Unit as WorkUnit};
ghost use Rattle.abort_tree.specs.Below.{MarksBelow};

// (a law is called where a proof needs its clause; nothing happens at run time, so its body is empty)
/// What is below some units depends on the parents alone: marks stay right where these stay the same.
pub fn parents_decide()
    ensures { (top : WorkUnit → Bool) (old new : List Entry) (marks : List Bool) →
        map (λ c. c.parent) old ≡ map (λ c. c.parent) new → MarksBelow top old marks →
        MarksBelow top new marks }
{}

/// Two tests that pass the same units find the same descendants.
pub fn same_tops_reach_the_same()
    ensures { (first second : WorkUnit → Bool) (old new : List Entry) →
        ((unit : WorkUnit) → first unit ≡ second unit) → AbortsBelow first old new →
        AbortsBelow second old new }
{}

//! A node that restarts shares its turns out evenly among its incarnations, so that all of them take no more turns than
//! one node that doesn't restart.

ghost use Rattle.std.specs.Prelude.{◌≡◌};
ghost use Rattle.udp_node.specs.Incarnations.{incarnation_plan};

use site_limits::{Plan, Timing};

/// Returns how each incarnation of a site works that restarts so many times in a run of this plan: whether the search
/// was over in an earlier one. Each begins with an empty table.
pub fn plan_of_incarnation(plan: Plan, restarts: u8, is_over: bool) -> Plan
    ensures { result ≡ incarnation_plan plan restarts is_over }
{
    // (the registry may be gone by then, so a later incarnation doesn't wait for packets that nobody sends)
    let silence_ms = if is_over { 1 } else { plan.timing.silence_ms };
    Plan {
        turns: plan.turns / (u64::from(restarts) + 1),
        timing: Timing {
            silence_ms,
            ..plan.timing
        },
        ..plan
    }
}

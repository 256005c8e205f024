// The entries of a plan, read from its words.
#![tactic(auto)]

ghost use Rattle.std.specs.Prelude.{◌≡◌, ◌+◌, ◌*◌, ◌≤◌, ◌<◌, length};
ghost use Rattle.plans.specs.PlanEntries.{words_at};

use easy::at;
use plans::{BYTES, PlanEntry, TYPES};

// Entry i of a plan.
pub fn entry(plan: &[u32], i: usize) -> PlanEntry
    requires { 2 * i + 2 ≤ length plan.now }
    ensures { (result ≡ words_at plan.now i) × (result.to < 4294967296) }
{
    let places = at(plan, 2 * i);
    let types = at(plan, 2 * i + 1);
    PlanEntry {
        to: places / BYTES,
        from: places % BYTES,
        source: types / TYPES,
        destination: types % TYPES,
    }
}

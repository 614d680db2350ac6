// A fault as one value, its number and its place, and the least of what was found so far and what a test finds: for a condition, for the
// number of conditions of a rule, and for whoever walks over more.
#![tactic(auto)]

ghost use Rattle.std.specs.Prelude.{◌≡◌};
ghost use Rattle.definitions.specs.Answer as answers;
ghost use Rattle.definitions.specs.Answer.{fits_width, unless, condition_faults, count_faults, least_of};

use definitions::{Condition, Fault, Width};

// What stands for a number that does not apply.
pub const NOWHERE: u32 = 0xffffffff;

pub fn fault(code: u32, entry: u32, rule: u32, condition: u32) -> Fault
    ensures { result ≡ answers.fault code entry rule condition }
{
    Fault {
        code,
        entry,
        rule,
        condition,
    }
}

// What was found so far, and what a test finds that should hold. Number by number, so that none of them has to stand in memory.
#[tactic(auto, using(theorems::proofs::Faults::least_unless), unfolding(definitions::specs::Answer::lesser))]
pub fn note(found: Fault, holds: bool, more: Fault) -> Fault
    ensures { result ≡ least_of found (unless holds more) }
{
    if holds {
        return found;
    }
    let taken = found.code == 0 || more.code < found.code;
    fault(
        if taken { more.code } else { found.code },
        if taken { more.entry } else { found.entry },
        if taken { more.rule } else { found.rule },
        if taken {
            more.condition
        } else {
            found.condition
        },
    )
}

// Whether a condition's value and mask have no more bits than it looks at.
fn fits_width(q: Condition) -> bool
    ensures { result ≡ fits_width q }
{
    let narrow = q.value <= 4294967295 && q.mask <= 4294967295;
    match q.width {
        Width::Dword => narrow,
        Width::Qword => true,
    }
}

// What is wrong with a condition: its number and place, noted behind what was found so far.
#[tactic(auto, using(theorems::proofs::Faults::least_append, theorems::proofs::Faults::least_unless), unfolding(definitions::specs::Answer::condition_faults))]
pub fn condition_fault(found: Fault, q: Condition, entry: u32, rule: u32, condition: u32) -> Fault
    ensures { result ≡ least_of found (condition_faults entry rule condition q) }
{
    let fits = fits_width(q);
    if q.index <= 5 && fits {
        return found;
    }
    let index = note(found, q.index <= 5, fault(5, entry, rule, condition));
    note(index, fits, fault(8, entry, rule, condition))
}

// The same of a rule with n conditions.
#[tactic(auto, unfolding(definitions::specs::Answer::count_faults))]
pub fn count_fault(found: Fault, n: u32, entry: u32, rule: u32) -> Fault
    ensures { result ≡ least_of found (count_faults entry rule n) }
{
    note(found, n != 0, fault(4, entry, rule, NOWHERE))
}

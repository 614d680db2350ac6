// Rules as instructions, from a rule set's bytes, which the caller has shown to be in the format. A rule is written backwards
// from its end: how far a condition jumps depends on what stands behind it.
#![tactic(auto)]

ghost use Rattle.std.specs.Prelude.{◌≡◌, ℕ, ◌+◌, ◌*◌, ◌≤◌, ltb, length};
ghost use Rattle.definitions.specs.Machine.{filter_bytes};
ghost use Rattle.definitions.specs.Emitted as emitted;
ghost use Rattle.definitions.specs.Emitted.{helpers, step_code, step_distance, distance, rule_body, rule_bodies};
ghost use Rattle.bpf.specs.Place.{place, place_before, PutBefore};
ghost use Rattle.rule.specs.Form.{rule_with, rules_with};
ghost use Rattle.set_view.specs.Parts.{Reach, conditions_here, rules_here, rules_past};

use bpf::jump_by;
use definitions::Condition;
use set_view::condition_here;

// How many bytes a condition has.
const CONDITION_SIZE: usize = 24;

// Whether helper jumps have to go in front: one condition more, and a jump may not fit its 8 bits.
fn is_far(d: u8) -> bool
    ensures { result ≡ ltb emitted.reach d }
{
    248 < d
}

#[tactic(auto, unfolding(definitions::specs::Emitted::near))]
fn near(d: u8) -> u8
    ensures { result ≡ emitted.near d }
{
    if is_far(d) { 1 } else { d }
}

// Writes the helper jumps so that they end at a place, and answers the place where they begin.
#[tactic(auto, using(crate::proofs::Rules::helpers_three))]
fn put_helpers(out: &mut [u8], end: usize, d: u8) -> usize
    requires { (8 * length (helpers d) ≤ end) × (end ≤ length out.old) }
    ensures { PutBefore out.old end (helpers d) out.new result }
{
    if is_far(d) {
        let far = jump_by(u32::from(d) + 1);
        let at = end - 24;
        bpf::put(out, at, jump_by(2));
        bpf::put(out, at + 8, far);
        bpf::put(out, at + 16, far);
        at
    } else {
        end
    }
}

// How many instructions a condition puts in front, and the distance then.
#[derive(Clone, Copy, Debug, PartialEq, Eq)]
pub struct Step {
    pub count: usize,
    pub distance: u8,
}

// The two numbers of a condition and its helpers, for a walk that sums them.
#[tactic(auto, using(crate::proofs::Rules::helpers_three, crate::proofs::Rules::helpers_none, crate::proofs::Rules::near_far, crate::proofs::Rules::near_same, crate::proofs::Rules::step_distance_lem, crate::proofs::Rules::step_length))]
pub fn step_length(q: Condition, d: u8) -> Step
    ensures { (result.count ≡ length (step_code q d)) × (result.distance ≡ step_distance q d) × (result.count ≤ 9) }
{
    let count = condition::condition_length(q);
    let more = count as u8;
    if is_far(d) {
        Step {
            count: count + 3,
            distance: 1 + more,
        }
    } else {
        Step {
            count,
            distance: d + more,
        }
    }
}

// Where a condition was put, and the distance in front of it.
#[derive(Clone, Copy, Debug, PartialEq, Eq)]
pub struct Put {
    pub at: usize,
    pub distance: u8,
}

// Writes a condition with its helpers so that they end at a place.
#[tactic(auto, using(crate::proofs::Rules::near_small, crate::proofs::Rules::step_length, crate::proofs::Rules::step_distance_lem, condition::proofs::Shapes::condition_short))]
fn put_step(out: &mut [u8], end: usize, q: Condition, d: u8) -> Put
    requires { (8 * length (step_code q d) ≤ end) × (end ≤ length out.old) }
    ensures { PutBefore out.old end (step_code q d) out.new result.at × (result.distance ≡ step_distance q d) }
{
    let behind = put_helpers(out, end, d);
    let f = near(d);
    let at = condition::put_condition(out, behind, q, f);
    let count = (behind - at) / 8;
    Put {
        at,
        distance: f + count as u8,
    }
}

// How many instructions the body of a rule of n conditions has.
#[tactic(auto, using(crate::proofs::Rules::code_length, crate::proofs::Rules::code_none, crate::proofs::Rules::body_is_long))]
fn rule_length(s: &[u8], n: u32, from: usize) -> usize
    requires { Reach s.now (from + 24 * n) }
    ensures { ((m : ℕ) → length (rule_body m (conditions_here s.now n from)) ≡ result) × (result ≤ 1 + 9 * n) }
{
    // the return
    let mut count = 1;
    let mut d = 1;
    let mut here = from;
    for _ in 0..n {
        let step = step_length(condition_here(s, here), d);
        count += step.count;
        d = step.distance;
        here += CONDITION_SIZE;
    }
    count
}

// Writes the body of a rule of n conditions so that it ends at a place, the return first, and answers the distance in front of it. Match action m.
#[tactic(auto, using(crate::proofs::Rules::body_is_long, crate::proofs::Rules::step_room))]
fn put_rule_body(out: &mut [u8], s: &[u8], n: u32, from: usize, end: usize, m: u32) -> u8
    requires reach { Reach s.now (from + 24 * n) }
    requires from_bound { (8 * length (rule_body m (conditions_here s.now n from)) ≤ end) × (end ≤ length out.old) }
    ensures { (out.new ≡ place_before out.old end (filter_bytes (rule_body m (conditions_here s.now n from))))
        × (result ≡ distance (conditions_here s.now n from) 1) }
{
    let mut at = end - 8;
    bpf::put(out, at, bpf::give(m));
    let mut d = 1;
    let mut here = from;
    for _ in 0..n {
        let step = put_step(out, at, condition_here(s, here), d);
        at = step.at;
        d = step.distance;
        here += CONDITION_SIZE;
    }
    d
}

// Writes a rule of n conditions at a place, behind its two jumps or without them, and answers the place behind it. Match action m.
#[tactic(auto, using(crate::proofs::Rules::rule_is_long, crate::proofs::Rules::rule_put, bpf::proofs::Buffer::before_is))]
fn put_rule(out: &mut [u8], s: &[u8], n: u32, from: usize, at: usize, m: u32, jumps: bool) -> usize
    requires reach { Reach s.now (from + 24 * n) }
    requires from_in_bounds { at + 8 * length (rule_with jumps m (conditions_here s.now n from)) ≤ length out.old }
    ensures { (out.new ≡ place out.old at (filter_bytes (rule_with jumps m (conditions_here s.now n from))))
        × (result ≡ at + 8 * length (rule_with jumps m (conditions_here s.now n from))) }
{
    let end = at + 8 * rule_length(s, n, from);
    if jumps {
        let d = put_rule_body(out, s, n, from, end + 16, m);
        bpf::put(out, at, jump_by(1));
        bpf::put(out, at + 8, jump_by(u32::from(d) + 1));
        end + 16
    } else {
        put_rule_body(out, s, n, from, end, m);
        end
    }
}

// How many instructions the bodies of rules have, and the place behind the rules in the rule set. Jumps are two more for each.
#[derive(Clone, Copy, Debug, PartialEq, Eq)]
pub struct Length {
    pub count: usize,
    pub past: usize,
}

#[tactic(auto, using(set_view::proofs::Walk::rules_room))]
pub fn rules_length(s: &[u8], n: u32, from: usize) -> Length
    requires { Reach s.now (rules_past s.now n from) }
    ensures { ((m : ℕ) → length (rule_bodies m (rules_here s.now n from)) ≡ result.count)
        × (result.past ≡ rules_past s.now n from) × (result.count + 3 * n + from ≤ result.past) }
{
    let mut count = 0;
    let mut past = from;
    for _ in 0..n {
        let conditions = bpf::u32_at(s, past);
        count += rule_length(s, conditions, past + 4);
        past = set_view::rule_past(past, conditions);
    }
    Length { count, past }
}

// The place behind what was written, and the place behind what it was written from.
#[derive(Clone, Copy, Debug, PartialEq, Eq)]
pub struct Written {
    pub end: usize,
    pub past: usize,
}

// Writes n rules at a place, behind their jumps or without them. Match action m.
#[tactic(auto, using(set_view::proofs::Walk::rules_room))]
pub fn put_rules(
    out: &mut [u8],
    s: &[u8],
    n: u32,
    from: usize,
    at: usize,
    m: u32,
    jumps: bool,
) -> Written
    requires reach { Reach s.now (rules_past s.now n from) }
    requires from_in_bounds { at + 8 * length (rules_with jumps m (rules_here s.now n from)) ≤ length out.old }
    ensures { (out.new ≡ place out.old at (filter_bytes (rules_with jumps m (rules_here s.now n from))))
        × (result.end ≡ at + 8 * length (rules_with jumps m (rules_here s.now n from)))
        × (result.past ≡ rules_past s.now n from) }
{
    let mut end = at;
    let mut past = from;
    for _ in 0..n {
        let conditions = bpf::u32_at(s, past);
        end = put_rule(out, s, conditions, past + 4, end, m, jumps);
        past = set_view::rule_past(past, conditions);
    }
    Written { end, past }
}

// What a rule set means for a call, straight from the bytes of both: no filter is made and none is run. A set is judged first, so that
// the walk over its entries may trust every count in it.
#![tactic(auto)]

ghost use Rattle.std.specs.Prelude.{◌≡◌, ◌&&◌};
ghost use Rattle.definitions.specs.Machine.{call_of};
ghost use Rattle.definitions.specs.RuleSet as defined;
ghost use Rattle.definitions.specs.Outcome as outcomes;
ghost use Rattle.set_view.specs.Names.{guards_by};
ghost use Rattle.set_view.specs.Parts.{Readable, set_here};

use definitions::{Condition, Decision, Fault, Operator, Width};
use faults::{NOWHERE, fault};
use set_view::{Actions, Conditions, Entries, Rules};

const KILL_PROCESS: u32 = 0x80000000;

// The bit that the numbers of the second table have, and the number of a call that was cancelled, which is of no table.
const SECOND_TABLE: u32 = 0x40000000;

const CANCELLED: u32 = 0xffffffff;

// What of a number is looked at.
fn cut(width: Width, x: u64) -> u64
    ensures { result ≡ defined.cut width x }
{
    match width {
        Width::Dword => x % 4294967296,
        Width::Qword => x,
    }
}

// An argument x against a value v, with a mask m.
fn test(operator: Operator, x: u64, v: u64, m: u64) -> bool
    ensures { result ≡ defined.test operator x v m }
{
    match operator {
        Operator::Eq => x == v,
        Operator::Ge => v <= x,
        Operator::Gt => v < x,
        Operator::Le => x <= v,
        Operator::Lt => x < v,
        Operator::MaskedEq => (x & m) == (v & m),
        Operator::Ne => x != v,
    }
}

// The argument with that index, and 0 where there is none.
fn argument(call: &[u8; 64], index: u8) -> u64
    ensures { result ≡ defined.argument index (call_of call.now) }
{
    if 5 < index {
        return 0;
    }
    bpf::u64_at(call, 16 + 8 * (index as usize))
}

fn holds(call: &[u8; 64], q: Condition) -> bool
    ensures { result ≡ defined.holds (call_of call.now) q }
{
    let x = cut(q.width, argument(call, q.index));
    let v = cut(q.width, q.value);
    let m = cut(q.width, q.mask);
    test(q.operator, x, v, m)
}

// Whether all conditions of a rule hold.
fn all_hold(call: &[u8; 64], mut conditions: Conditions<'_>) -> bool
    ensures { result ≡ defined.all_hold (call_of call.now) conditions.entry }
{
    conditions.all(|q| holds(call, q))
}

// Whether one of the rules matches.
fn any_holds(call: &[u8; 64], mut rules: Rules<'_>) -> bool
    ensures { result ≡ defined.any_holds (call_of call.now) rules.entry.rules }
{
    rules.any(|conditions| all_hold(call, conditions))
}

// Whether an entry with these rules matches; without rules it always does.
#[tactic(auto, using(crate::proofs::Meanings::matches_none, crate::proofs::Meanings::matches_some))]
fn matches(call: &[u8; 64], rules: Rules<'_>) -> bool
    ensures { result ≡ defined.matches (call_of call.now) rules.entry.rules }
{
    rules.is_empty() || any_holds(call, rules)
}

// What becomes of a call by the entries that list its number, or by none.
fn listed(call: &[u8; 64], mut entries: Entries<'_>, actions: Actions) -> u32
    ensures { result ≡ defined.listed (call_of call.now) actions.on_match actions.mismatch entries.entry }
{
    let number = bpf::u32_at(call, 0);
    while let Some((listed, rules)) = entries.split_first() {
        if listed == number {
            return if matches(call, rules) {
                actions.on_match
            } else {
                actions.mismatch
            };
        }
        entries = rules.entries_behind();
    }
    actions.mismatch
}

// Whether a call's number is of the second table.
fn in_second_table(n: u32) -> bool
    ensures { result ≡ defined.in_second_table n }
{
    n & SECOND_TABLE != 0 && n != CANCELLED
}

// Whether a number is of a second table that is not served.
fn kills(a: u32, number: u32) -> bool
    ensures { result ≡ (guards_by a && defined.in_second_table number) }
{
    set_view::guards(a) && in_second_table(number)
}

// What a set of the format means. A call of another architecture is killed.
fn meaning(s: &[u8], call: &[u8; 64]) -> u32
    requires { Readable s.now }
    ensures { result ≡ defined.meaning (set_here s.now) (call_of call.now) }
{
    let a = bpf::u32_at(s, 0);
    if bpf::u32_at(call, 4) != set_view::architecture_word(a) {
        return KILL_PROCESS;
    }
    if kills(a, bpf::u32_at(call, 0)) {
        return KILL_PROCESS;
    }
    listed(call, Entries::new(s), set_view::actions_here(s))
}

fn decided(found: Fault, action: u32) -> Decision
    ensures { result ≡ outcomes.decided found action }
{
    Decision {
        code: found.code,
        action,
        entry: found.entry,
        rule: found.rule,
        condition: found.condition,
    }
}

// What a rule set means for a call.
pub fn decide(set: &[u8], call: &[u8]) -> Decision
    ensures { result ≡ outcomes.decided_of set.now call.now }
{
    let Ok(call) = <&[u8; 64]>::try_from(call) else {
        return decided(fault(9, NOWHERE, NOWHERE, NOWHERE), 0);
    };
    let found = judge::judge(set).fault;
    if found.code != 0 {
        return decided(found, 0);
    }
    decided(found, meaning(set, call))
}

// What a rule set's bytes say, read at places that the caller has shown to be inside: names, and parts; and whether what stands there is of
// the format. Nothing is tested here twice.
#![tactic(auto)]

ghost use Rattle.std.specs.Prelude.{◌≡◌, ◌+◌, ◌*◌, ◌≤◌, length};
ghost use Rattle.definitions.specs.Word.{number_at};
ghost use Rattle.definitions.specs.RuleSet.{architecture_word, is_action};
ghost use Rattle.definitions.specs.Format as format;
ghost use Rattle.definitions.specs.Format.{architecture_of, width_of, is_there, condition_at};
ghost use Rattle.set_view.specs.Names.{named_architecture, guards_by, named_width, named_operator};
ghost use Rattle.set_view.specs.Parts.{most_bytes, condition_here, rules_past, entries_past, plain_here, Reach, head_taken};

use definitions::{Condition, Operator, Width};

mod views;

pub use views::{Conditions, Entries, Rules};

// What is added to an architecture's number where only native numbers are served.
const NATIVE_FLAG: u32 = 256;

// How many bytes a condition has.
const CONDITION_SIZE: usize = 24;

// A number without the flag.
#[tactic(auto, unfolding(definitions::specs::Format::unflagged, definitions::specs::Format::native_of))]
fn unflagged(a: u32) -> u32
    ensures { result ≡ format.unflagged a }
{
    if a < NATIVE_FLAG { a } else { a - NATIVE_FLAG }
}

// Whether a number stands for an architecture, with the flag or without.
#[tactic(auto, using(theorems::proofs::Names::architecture_there))]
pub fn architecture_known(a: u32) -> bool
    ensures { result ≡ is_there (architecture_of a) }
{
    matches!(unflagged(a), 1..=3)
}

#[tactic(auto, unfolding(definitions::specs::RuleSet::architecture_word, crate::specs::Names::named_architecture))]
pub fn architecture_word(a: u32) -> u32
    ensures { result ≡ architecture_word (named_architecture a) }
{
    match unflagged(a) {
        1 => 0xc000003e,
        2 => 0xc00000b7,
        _ => 0xc00000f3,
    }
}

// Whether there is a second table, and it is not served: x86_64 with the flag.
#[tactic(auto, unfolding(crate::specs::Names::guards_by, crate::specs::Names::named_architecture, definitions::specs::Format::unflagged, definitions::specs::Format::native_of, definitions::specs::RuleSet::has_second_table))]
pub fn guards(a: u32) -> bool
    ensures { result ≡ guards_by a }
{
    a >= NATIVE_FLAG && a - NATIVE_FLAG == 1
}

#[tactic(auto, unfolding(crate::specs::Names::named_width))]
fn named_width(b: u8) -> Width
    ensures { result ≡ named_width b }
{
    match b {
        4 => Width::Dword,
        _ => Width::Qword,
    }
}

#[tactic(auto, unfolding(crate::specs::Names::named_operator))]
fn named_operator(b: u8) -> Operator
    ensures { result ≡ named_operator b }
{
    match b {
        0 => Operator::Eq,
        1 => Operator::Ge,
        2 => Operator::Gt,
        3 => Operator::Le,
        4 => Operator::Lt,
        5 => Operator::MaskedEq,
        _ => Operator::Ne,
    }
}

// The condition that stands at a place.
#[tactic(auto, unfolding(crate::specs::Parts::condition_here))]
pub fn condition_here(s: &[u8], at: usize) -> Condition
    requires { at + 24 ≤ length s.now }
    ensures { result ≡ condition_here s.now at }
{
    Condition {
        index: s[at],
        width: named_width(s[at + 1]),
        operator: named_operator(s[at + 2]),
        value: bpf::u64_at(s, at + 8),
        mask: bpf::u64_at(s, at + 16),
    }
}

// What a filter returns: for a call that an entry matches, and for any other.
#[derive(Clone, Copy, Debug, PartialEq, Eq)]
pub struct Actions {
    pub on_match: u32,
    pub mismatch: u32,
}

// The actions in the head of a set.
pub fn actions_here(s: &[u8]) -> Actions
    requires { 16 ≤ length s.now }
    ensures { result ≡ record { on_match = number_at 4 s.now 8; mismatch = number_at 4 s.now 4 } }
{
    Actions {
        on_match: bpf::u32_at(s, 8),
        mismatch: bpf::u32_at(s, 4),
    }
}

// Where the conditions of a rule end, the rule standing at a place with its number of conditions.
pub fn rule_past(at: usize, n: u32) -> usize
    requires { at + 4 + 24 * n ≤ most_bytes }
    ensures { result ≡ at + 4 + 24 * n }
{
    at + 4 + CONDITION_SIZE * (n as usize)
}

// Where n rules end.
#[tactic(auto, using(crate::proofs::Walk::rules_next, crate::proofs::Walk::rules_room, crate::proofs::Walk::rules_end))]
pub fn rules_past(s: &[u8], n: u32, from: usize) -> usize
    requires { Reach s.now (rules_past s.now n from) }
    ensures { result ≡ rules_past s.now n from }
{
    let mut at = from;
    for _ in 0..n {
        at = rule_past(at, bpf::u32_at(s, at));
    }
    at
}

// Whether an entry is left, and it has no rules.
#[tactic(auto, using(crate::proofs::Walk::entry_room), unfolding(crate::specs::Parts::plain_here))]
pub fn plain_here(s: &[u8], left: u32, at: usize) -> bool
    requires { Reach s.now (entries_past s.now left at) }
    ensures { result ≡ plain_here s.now left at }
{
    left != 0 && bpf::u32_at(s, at + 4) == 0
}

// Whether a word is an action that is known.
#[tactic(auto, unfolding(definitions::specs::RuleSet::is_action, definitions::specs::RuleSet::one_of))]
pub fn is_action(w: u32) -> bool
    ensures { result ≡ is_action w }
{
    matches!(
        w,
        0x80000000 | 0x00000000 | 0x00030000 | 0x7fc00000 | 0x7ffc0000 | 0x7fff0000
    ) || matches!(w / 65536, 0x0005 | 0x7ff0)
}

// Whether the head's architecture and actions are known.
#[tactic(auto, unfolding(crate::specs::Parts::head_taken))]
pub fn head_there(s: &[u8]) -> bool
    requires { 16 ≤ length s.now }
    ensures { result ≡ head_taken s.now }
{
    architecture_known(bpf::u32_at(s, 0))
        && is_action(bpf::u32_at(s, 4))
        && is_action(bpf::u32_at(s, 8))
}

// Whether a number stands for a width.
#[tactic(auto, using(theorems::proofs::Names::width_there))]
pub fn width_known(width: u8) -> bool
    ensures { result ≡ is_there (width_of width) }
{
    matches!(width, 4 | 8)
}

// Whether a condition of the format stands at a place.
#[tactic(auto, using(crate::proofs::ConditionBytes::condition_there_lem), unfolding(crate::specs::Parts::condition_taken))]
pub fn condition_there(s: &[u8], at: usize) -> bool
    requires { (at ≤ length s.now) × (length s.now ≤ most_bytes) }
    ensures { result ≡ is_there (condition_at s.now at) }
{
    at + 24 <= s.len()
        // index, width and operator, and five bytes that are zero
        && bpf::u64_at(s, at) / 16777216 == 0
        && width_known(s[at + 1])
        && s[at + 2] <= 6
        // most masks are zero, whatever the operator
        && (bpf::u64_at(s, at + 16) == 0 || s[at + 2] == 5)
}

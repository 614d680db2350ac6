// Rule sets as bytes, judged in one walk: whether they are of the format, the least fault in them with its place, how many instructions
// their filter has, and with how many entries it is short enough. Nothing in the bytes is trusted: whatever a count says, the walk ends
// where the bytes do.
#![tactic(auto)]

ghost use Rattle.std.specs.Prelude.{◌≡◌, true, cond, not, ◌+◌, ◌-◌, ◌≤◌, ◌<◌, eqb, ltb, length, IfSome};
ghost use Rattle.std.proofs.Math.Option.{none};
ghost use Rattle.definitions.specs.Word.{number_at};
ghost use Rattle.definitions.specs.Format.{times, condition_at, rule_at, read};
ghost use Rattle.definitions.specs.Answer as answers;
ghost use Rattle.set_view.specs.Parts.{most_bytes};
ghost use Rattle.judge.specs.Walk.{sum, total, tells, told, tell_condition, tell_rule, conditions_start, Inside, Scanned, plain_there, run_fits, entries_told, Stepped, Turned, turn_of, judged};

use definitions::Fault;
use faults::{NOWHERE, condition_fault, count_fault, fault, note};
use set_view::condition_here;

// How many bytes a set has at most, and its head, an entry, a rule and a condition without the parts in them.
const MOST_BYTES: usize = 1048576;

const HEAD_SIZE: usize = 16;

const ENTRY_SIZE: usize = 8;

const RULE_SIZE: usize = 4;

const CONDITION_SIZE: usize = 24;

// A filter of so many instructions is too long.
const TOO_MANY: usize = 4097;

// How many instructions an entry without rules has.
const PLAIN_LENGTH: usize = 5;

// What a walk over a part found, with what was found before it: the place behind it, how many instructions there are, and the least fault.
#[derive(Clone, Copy, Debug, PartialEq, Eq)]
struct Scan {
    past: usize,
    count: usize,
    fault: Fault,
}

// n conditions of a rule.
#[tactic(auto, using(set_view::proofs::ConditionBytes::condition_room))]
fn scan_conditions(s: &[u8], n: u32, entry: u32, rule: u32, from: Scan) -> Option<Scan>
    requires { Inside s.now from.past from.count }
    ensures { Scanned (told (tells (tell_condition entry rule) 0) (times (condition_at s.now) n from.past) (conditions_start from.count from.fault)) (length s.now) result }
{
    let mut count = from.count;
    let mut fault = from.fault;
    let mut distance: u8 = 1;
    let mut at = from.past;
    for i in 0..n {
        if !set_view::condition_there(s, at) {
            return None;
        }
        let q = condition_here(s, at);
        fault = condition_fault(fault, q, entry, rule, i);
        let step = rule::step_length(q, distance);
        count += step.count;
        distance = step.distance;
        at += CONDITION_SIZE;
    }
    Some(Scan {
        past: at,
        count,
        fault,
    })
}

fn scan_rule(s: &[u8], entry: u32, rule: u32, from: Scan) -> Option<Scan>
    requires { Inside s.now from.past from.count }
    ensures { Scanned (told (tell_rule entry rule) (rule_at s.now from.past) (total from.count from.fault)) (length s.now) result }
{
    if s.len() < from.past + RULE_SIZE {
        return None;
    }
    let n = bpf::u32_at(s, from.past);
    let started = Scan {
        past: from.past + RULE_SIZE,
        // two jumps in front of the conditions, and the return behind them
        count: from.count + 3,
        fault: count_fault(from.fault, n, entry, rule),
    };
    scan_conditions(s, n, entry, rule, started)
}

fn scan_rules(s: &[u8], n: u32, entry: u32, from: Scan) -> Option<Scan>
    requires { Inside s.now from.past from.count }
    ensures { Scanned (told (tells (tell_rule entry) 0) (times (rule_at s.now) n from.past) (total from.count from.fault)) (length s.now) result }
{
    let mut scan = from;
    for i in 0..n {
        scan = scan_rule(s, entry, i, scan)?;
    }
    Some(scan)
}

// How many instructions an entry with n rules has beside them: a comparison and a return, and three for no rules.
fn around_rules(n: u32) -> usize
    ensures { (result ≡ cond (eqb n 0) 5 2) × (result ≤ 5) }
{
    if n == 0 { PLAIN_LENGTH } else { 2 }
}

// The call number as a number that has room for one more.
fn number_at(s: &[u8], at: usize) -> u64
    requires { at + 4 ≤ length s.now }
    ensures { (result ≡ number_at 4 s.now at) × (result < 4294967296) }
{
    u64::from(bpf::u32_at(s, at))
}

// What was found on the way over the entries, up to a turn: how many of them are left, the least number that may come next, the place of
// the next, how many instructions there are, how many entries are short enough, and the least fault.
#[derive(Clone, Copy, Debug, PartialEq, Eq)]
struct Turn {
    left: u32,
    least: u64,
    past: usize,
    count: usize,
    fits: u32,
    fault: Fault,
}

// How many of the entries are short enough, with this one, which is followed by `left`, and the instructions up to it.
fn fitting(all: u32, left: u32, fits: u32, count: usize) -> u32
    requires { left ≤ all }
    ensures { result ≡ cond (ltb count answers.too_many) (all - left) fits }
{
    if count < TOO_MANY { all - left } else { fits }
}

// Whether an entry is left that has no rules, and a number that may come next.
#[tactic(auto, unfolding(crate::specs::Walk::plain_there))]
fn plain_there(s: &[u8], left: u32, at: usize, least: u64) -> bool
    requires { (at ≤ length s.now) × (length s.now ≤ most_bytes) }
    ensures { result ≡ plain_there s.now left at least }
{
    left != 0
        && at + ENTRY_SIZE <= s.len()
        && bpf::u32_at(s, at + 4) == 0
        && least <= number_at(s, at)
}

// The same behind a run of entries without rules, of which there were n before it and `left` behind it, and so many instructions before it.
#[tactic(auto, unfolding(crate::specs::Walk::run_fits))]
fn fitting_run(all: u32, n: u32, left: u32, before: usize, fitted: u32) -> u32
    requires { (left ≤ n) × (n ≤ all) × (before ≤ most_bytes) }
    ensures { result ≡ run_fits all n left before fitted }
{
    if TOO_MANY <= before + PLAIN_LENGTH {
        return fitted;
    }
    let room = (TOO_MANY - 1 - before) / PLAIN_LENGTH;
    let run = (n - left) as usize;
    if run <= room {
        all - left
    } else {
        all - n + room as u32
    }
}

// Entries without rules, as many as stand one behind the other and ascend. They are most of most sets, so they have a loop of their own,
// which carries little and meets no fault.
#[tactic(auto, using(crate::proofs::Walk::plain_room))]
fn scan_plain(s: &[u8], all: u32, from: Turn) -> Turn
    requires { Inside s.now from.past from.count × (from.left ≤ all) × (plain_there s.now from.left from.past from.least ≡ true) }
    ensures { Stepped s.now all from result }
{
    let mut count = from.count;
    let mut least = from.least;
    let mut at = from.past;
    let mut left = from.left;
    while plain_there(s, left, at, least) {
        least = number_at(s, at) + 1;
        count += PLAIN_LENGTH;
        at += ENTRY_SIZE;
        left -= 1;
    }
    Turn {
        left,
        least,
        past: at,
        count,
        fits: fitting_run(all, from.left, left, from.count, from.fits),
        fault: from.fault,
    }
}

// The first of the entries that are left.
fn scan_entry(s: &[u8], all: u32, from: Turn) -> Option<Turn>
    requires { Inside s.now from.past from.count × (from.left ≤ all) × (from.left ≡ 0 → ⊥) }
    ensures { Turned s.now all from result }
{
    if s.len() < from.past + ENTRY_SIZE {
        return None;
    }
    let number = number_at(s, from.past);
    let rules = bpf::u32_at(s, from.past + 4);
    let entry = all - from.left;
    let started = Scan {
        past: from.past + ENTRY_SIZE,
        count: from.count + around_rules(rules),
        fault: note(
            from.fault,
            from.least <= number,
            fault(2, entry, NOWHERE, NOWHERE),
        ),
    };
    let scan = scan_rules(s, rules, entry, started)?;
    let left = from.left - 1;
    Some(Turn {
        left,
        least: number + 1,
        past: scan.past,
        count: scan.count,
        fits: fitting(all, left, from.fits, scan.count),
        fault: scan.fault,
    })
}

// The entries without rules that stand at a place; or the one that has some, or is out of order.
fn scan_turn(s: &[u8], all: u32, from: Turn) -> Option<Turn>
    requires { Inside s.now from.past from.count × (from.left ≤ all) × (from.left ≡ 0 → ⊥) }
    ensures { Turned s.now all from result }
{
    if plain_there(s, from.left, from.past, from.least) {
        Some(scan_plain(s, all, from))
    } else {
        scan_entry(s, all, from)
    }
}

// All n entries.
fn scan_entries(s: &[u8], n: u32, before: usize, found: Fault) -> Option<Turn>
    requires { (16 ≤ length s.now) × (length s.now ≤ most_bytes) × (before ≤ 16) }
    ensures { (result ≡ turn_of (entries_told s.now n n 16 (sum before 0 0 found))) × IfSome result (λ t. t.count ≤ most_bytes) }
{
    let mut turn = Turn {
        left: n,
        least: 0,
        past: HEAD_SIZE,
        count: before,
        fits: 0,
        fault: found,
    };
    while turn.left != 0 {
        turn = scan_turn(s, n, turn)?;
    }
    Some(turn)
}

// What is said of a set whatever it is for: its least fault, 1 where it is not of the format; how many instructions its filter has; and
// the first entry with which that is too long.
#[derive(Clone, Copy, Debug, PartialEq, Eq)]
pub struct Judged {
    pub fault: Fault,
    pub count: usize,
    pub long: u32,
}

#[tactic(auto, unfolding(crate::specs::Walk::judged))]
fn no_set() -> Judged
    ensures { result ≡ judged none }
{
    Judged {
        fault: fault(1, NOWHERE, NOWHERE, NOWHERE),
        count: 0,
        long: 0,
    }
}

// Whether a set's two actions are two.
fn actions_differ(s: &[u8]) -> bool
    requires { 16 ≤ length s.now }
    ensures { result ≡ not (eqb (number_at 4 s.now 4) (number_at 4 s.now 8)) }
{
    let actions = set_view::actions_here(s);
    actions.mismatch != actions.on_match
}

pub fn judge(s: &[u8]) -> Judged
    ensures { (result ≡ judged (read s.now)) × (result.count ≤ most_bytes) }
{
    let size = s.len();
    if MOST_BYTES < size || size < HEAD_SIZE || !set_view::head_there(s) {
        return no_set();
    }
    let n = bpf::u32_at(s, 12);
    // the head in front of the entries, and the return behind them
    let around = head::head_length(bpf::u32_at(s, 0), n) + 1;
    let none = fault(0, NOWHERE, NOWHERE, NOWHERE);
    let same = note(none, actions_differ(s), fault(3, NOWHERE, NOWHERE, NOWHERE));
    match scan_entries(s, n, around, same) {
        Some(entries) if entries.past == size => Judged {
            fault: entries.fault,
            count: entries.count,
            long: entries.fits,
        },
        _ => no_set(),
    }
}

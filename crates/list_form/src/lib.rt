// A whole filter from a rule set's bytes, which the caller has shown to be in the format. A part's length is known only once it is
// written, so each part answers the places behind it.
#![tactic(auto)]

ghost use Rattle.std.specs.Prelude.{◌≡◌, [], true, ◌+◌, ◌-◌, ◌*◌, ◌≤◌, ◌<◌, length};
ghost use Rattle.definitions.specs.Word.{number_at};
ghost use Rattle.definitions.specs.Machine.{filter_bytes};
ghost use Rattle.definitions.specs.Emitted as emitted;
ghost use Rattle.definitions.specs.Emitted.{body_code, entry_code, entries_code};
ghost use Rattle.bpf.specs.Place.{place, Writing};
ghost use Rattle.set_view.specs.Parts.{Reach, Readable, entries_here, entries_past, entry_here, entry_past, most_bytes, plain_here, rules_here, rules_past, set_here};

use bpf::{give, if_equal, jump_by};
use rule::Written;
use set_view::Actions;

// Writes what stands for no rules at all: the number matches whatever its arguments are. Match action m.
fn put_always(out: &mut [u8], at: usize, m: u32)
    requires { at + 24 ≤ length out.old }
    ensures { out.new ≡ place out.old at (filter_bytes (body_code m [])) }
{
    bpf::put(out, at, jump_by(1));
    bpf::put(out, at + 8, jump_by(2));
    bpf::put(out, at + 16, give(m));
}

// Writes the n rules of an entry at a place. Match action m.
fn put_body(out: &mut [u8], s: &[u8], n: u32, from: usize, at: usize, m: u32) -> Written
    requires reach { Reach s.now (rules_past s.now n from) }
    requires from_in_bounds { at + 8 * length (body_code m (rules_here s.now n from)) ≤ length out.old }
    ensures { (out.new ≡ place out.old at (filter_bytes (body_code m (rules_here s.now n from))))
        × (result.end ≡ at + 8 * length (body_code m (rules_here s.now n from)))
        × (result.past ≡ rules_past s.now n from) }
{
    if n == 0 {
        put_always(out, at, m);
        Written {
            end: at + 24,
            past: from,
        }
    } else {
        rule::put_rules(out, s, n, from, at, m, true)
    }
}

// Writes an entry at a place.
fn put_entry(out: &mut [u8], s: &[u8], from: usize, at: usize, actions: Actions) -> Written
    requires reach { Reach s.now (entry_past s.now from) }
    requires from_in_bounds { at + 8 * length (entry_code actions.on_match actions.mismatch (entry_here s.now from)) ≤ length out.old }
    ensures { (out.new ≡ place out.old at (filter_bytes (entry_code actions.on_match actions.mismatch (entry_here s.now from))))
        × (result.end ≡ at + 8 * length (entry_code actions.on_match actions.mismatch (entry_here s.now from)))
        × (result.past ≡ entry_past s.now from) }
{
    let number = bpf::u32_at(s, from);
    let rules = bpf::u32_at(s, from + 4);
    bpf::put(out, at, if_equal(number, 0, 1));
    let body = put_body(out, s, rules, from + 8, at + 8, actions.on_match);
    bpf::put(out, body.end, give(actions.mismatch));
    Written {
        end: body.end + 8,
        past: body.past,
    }
}

// Writes an entry without rules at a place.
fn put_listed(out: &mut [u8], s: &[u8], from: usize, at: usize, actions: Actions)
    requires { (from + 8 ≤ length s.now) × (length s.now ≤ most_bytes) × (number_at 4 s.now (from + 4) ≡ 0) × (at + 40 ≤ length out.old) }
    ensures { out.new ≡ place out.old at (filter_bytes (entry_code actions.on_match actions.mismatch (entry_here s.now from))) }
{
    let listed = bpf::u32_at(s, from);
    bpf::put(out, at, if_equal(listed, 0, 1));
    put_always(out, at + 8, actions.on_match);
    bpf::put(out, at + 32, give(actions.mismatch));
}

// Writes the first of n entries, as many as have no rules, and answers how many. They are most of most sets, so they have a loop of
// their own, which carries little.
fn put_plain(out: &mut [u8], s: &[u8], n: u32, from: usize, at: usize, actions: Actions) -> u32
    requires from_in_bounds { (entries_past s.now n from ≤ length s.now) × (length s.now ≤ most_bytes) × (plain_here s.now n from ≡ true) }
    requires from_in_bounds_2 { at + 8 * length (entries_code actions.on_match actions.mismatch (entries_here s.now n from)) ≤ length out.old }
    ensures { Writing out.old at (entries_code actions.on_match actions.mismatch (entries_here s.now n from))
        out.new (at + 40 * result) (entries_code actions.on_match actions.mismatch (entries_here s.now (n - result) (from + 8 * result)))
        × (entries_past s.now (n - result) (from + 8 * result) ≡ entries_past s.now n from) × (0 < result) × (result ≤ n) × (from + 8 * result ≤ most_bytes) }
{
    let mut run: u32 = 0;
    let mut past = from;
    let mut end = at;
    while set_view::plain_here(s, n - run, past) {
        put_listed(out, s, past, end, actions);
        past += 8;
        end += 40;
        run += 1;
    }
    run
}

// How many entries are left, and the places behind the others, where they were written and where they were read.
#[derive(Clone, Copy, Debug, PartialEq, Eq)]
pub struct Progress {
    pub left: u32,
    pub end: usize,
    pub past: usize,
}

// Writes the first of n entries: as many as have no rules, or one that has.
fn put_turn(out: &mut [u8], s: &[u8], n: u32, from: usize, at: usize, actions: Actions) -> Progress
    requires from_in_bounds { (entries_past s.now n from ≤ length s.now) × (length s.now ≤ most_bytes) × (n ≡ 0 → ⊥) }
    requires from_in_bounds_2 { at + 8 * length (entries_code actions.on_match actions.mismatch (entries_here s.now n from)) ≤ length out.old }
    ensures { Writing out.old at (entries_code actions.on_match actions.mismatch (entries_here s.now n from))
        out.new result.end (entries_code actions.on_match actions.mismatch (entries_here s.now result.left result.past))
        × (entries_past s.now result.left result.past ≡ entries_past s.now n from) × (result.left < n) }
{
    if set_view::plain_here(s, n, from) {
        let run = put_plain(out, s, n, from, at, actions);
        let many = run as usize;
        Progress {
            left: n - run,
            end: at + 40 * many,
            past: from + 8 * many,
        }
    } else {
        let entry = put_entry(out, s, from, at, actions);
        Progress {
            left: n - 1,
            end: entry.end,
            past: entry.past,
        }
    }
}

// Writes n entries at a place, and answers the place behind them.
fn put_entries(out: &mut [u8], s: &[u8], n: u32, from: usize, at: usize, actions: Actions) -> usize
    requires reach { Reach s.now (entries_past s.now n from) }
    requires from_in_bounds { at + 8 * length (entries_code actions.on_match actions.mismatch (entries_here s.now n from)) ≤ length out.old }
    ensures { (out.new ≡ place out.old at (filter_bytes (entries_code actions.on_match actions.mismatch (entries_here s.now n from))))
        × (result ≡ at + 8 * length (entries_code actions.on_match actions.mismatch (entries_here s.now n from))) }
{
    let mut end = at;
    let mut past = from;
    let mut left = n;
    while left != 0 {
        let turn = put_turn(out, s, left, past, end, actions);
        end = turn.end;
        past = turn.past;
        left = turn.left;
    }
    end
}

// Writes the filter of a rule set at the buffer's start.
pub fn put_filter(out: &mut [u8], s: &[u8])
    requires readable { Readable s.now }
    requires s_in_bounds { 8 * length (emitted.emitted (set_here s.now)) ≤ length out.old }
    ensures { out.new ≡ place out.old 0 (filter_bytes (emitted.emitted (set_here s.now))) }
{
    let actions = set_view::actions_here(s);
    let n = bpf::u32_at(s, 12);
    let at = head::put_head(out, bpf::u32_at(s, 0), n);
    let end = put_entries(out, s, n, 16, at, actions);
    // a number that no entry lists
    bpf::put(out, end, give(actions.mismatch));
}

// The code of rules as the search form has it, without jumps between them, counted and written from a rule set's bytes, which the caller
// has shown to be in the format.
#![tactic(auto)]

ghost use Rattle.std.specs.Prelude.{◌≡◌, ℕ, ◌+◌, ◌*◌, ◌≤◌, length};
ghost use Rattle.definitions.specs.Machine.{filter_bytes};
ghost use Rattle.bpf.specs.Place.{place};
ghost use Rattle.definitions.specs.SearchForm.{bodies};
ghost use Rattle.definitions.specs.Emitted.{entry_body};
ghost use Rattle.set_view.specs.Parts.{Reach, entries_here, entries_past, rules_here, rules_past};
ghost use Rattle.search_bodies.specs.Here.{bodies_here};

use rule::{Length, Written};
use set_view::Actions;

// How many instructions the n rules of an entry have here, and the place behind them in the rule set.
pub fn body_length(s: &[u8], n: u32, from: usize) -> Length
    requires { Reach s.now (rules_past s.now n from) }
    ensures { ((m d : ℕ) → length (entry_body m d (rules_here s.now n from)) ≡ result.count)
        × (result.past ≡ rules_past s.now n from) × (result.count + from ≤ result.past) }
{
    if n == 0 {
        Length {
            count: 0,
            past: from,
        }
    } else {
        let rules = rule::rules_length(s, n, from);
        // a return stands behind them
        Length {
            count: rules.count + 1,
            past: rules.past,
        }
    }
}

// How many instructions the code of the n entries' rules has, with the return behind it.
pub fn bodies_length(s: &[u8], n: u32, from: usize) -> usize
    requires { Reach s.now (entries_past s.now n from) }
    ensures { (result ≡ length (bodies_here s.now n from)) × (result ≤ 1048577) }
{
    let mut count: usize = 1;
    let mut past = from;
    for _ in 0..n {
        let rules = bpf::u32_at(s, past + 4);
        let body = body_length(s, rules, past + 8);
        count += body.count;
        past = body.past;
    }
    count
}

// Writes the n rules of an entry at a place, with a mismatch return behind them.
fn put_entry_body(
    out: &mut [u8],
    s: &[u8],
    n: u32,
    from: usize,
    at: usize,
    actions: Actions,
) -> Written
    requires reach { Reach s.now (rules_past s.now n from) }
    requires from_in_bounds { at + 8 * length (entry_body actions.on_match actions.mismatch (rules_here s.now n from)) ≤ length out.old }
    ensures { (out.new ≡ place out.old at (filter_bytes (entry_body actions.on_match actions.mismatch (rules_here s.now n from))))
        × (result.end ≡ at + 8 * length (entry_body actions.on_match actions.mismatch (rules_here s.now n from)))
        × (result.past ≡ rules_past s.now n from) }
{
    if n == 0 {
        Written {
            end: at,
            past: from,
        }
    } else {
        let rules = rule::put_rules(out, s, n, from, at, actions.on_match, false);
        bpf::put(out, rules.end, bpf::give(actions.mismatch));
        Written {
            end: rules.end + 8,
            past: rules.past,
        }
    }
}

// Writes the rules of n entries at a place, with a mismatch return behind them.
pub fn put_bodies(out: &mut [u8], s: &[u8], n: u32, from: usize, at: usize, actions: Actions)
    requires reach { Reach s.now (entries_past s.now n from) }
    requires from_in_bounds { at + 8 * length (bodies actions.on_match actions.mismatch (entries_here s.now n from)) ≤ length out.old }
    ensures { out.new ≡ place out.old at (filter_bytes (bodies actions.on_match actions.mismatch (entries_here s.now n from))) }
{
    let mut end = at;
    let mut past = from;
    for _ in 0..n {
        let rules = bpf::u32_at(s, past + 4);
        let entry = put_entry_body(out, s, rules, past + 8, end, actions);
        end = entry.end;
        past = entry.past;
    }
    bpf::put(out, end, bpf::give(actions.mismatch));
}

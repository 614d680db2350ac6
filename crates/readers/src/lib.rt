// Rule sets in their byte form, read part by part. What stands between two calls is a few numbers by value; nothing in them is trusted.
#![tactic(auto)]

ghost use Rattle.std.specs.Prelude.{◌≡◌, ◌+◌, ◌≤◌, eqb, length};
ghost use Rattle.definitions.specs.Word.{number_at};
ghost use Rattle.definitions.specs.Writers.{head_good};
ghost use Rattle.definitions.specs.Readers as readers;
ghost use Rattle.readers.specs.Tests.{condition_good};

use definitions::{Compared, Cursor, Head, Listed};

fn stopped(c: Cursor, code: u32) -> Cursor
    ensures { result ≡ readers.stopped c code }
{
    Cursor { code, ..c }
}

#[tactic(auto, unfolding(definitions::specs::Readers::reaches))]
fn reaches(size: usize, at: u32, more: usize) -> bool
    requires { more ≤ 24 }
    ensures { result ≡ readers.reaches size at more }
{
    size <= 1048576 && at as usize + more <= size
}

fn no_head() -> Head
    ensures { result ≡ readers.no_head }
{
    Head {
        next: Cursor {
            code: 1,
            at: 0,
            entries: 0,
            rules: 0,
            conditions: 0,
        },
        architecture: 0,
        mismatch: 0,
        on_match: 0,
    }
}

// Whether the format has a head of these numbers.
#[tactic(auto, unfolding(definitions::specs::Writers::head_good))]
pub fn head_good(architecture: u32, mismatch: u32, on_match: u32) -> bool
    ensures { result ≡ head_good architecture mismatch on_match }
{
    set_view::architecture_known(architecture)
        && set_view::is_action(mismatch)
        && set_view::is_action(on_match)
}

// Reads the head of a set.
#[tactic(auto, using(crate::proofs::Readers::reaches_true), unfolding(definitions::specs::Readers::head_of))]
pub fn read_head(set: &[u8]) -> Head
    ensures { result ≡ readers.head_of set.now }
{
    if !reaches(set.len(), 0, 16) {
        return no_head();
    }
    let architecture = bpf::u32_at(set, 0);
    let mismatch = bpf::u32_at(set, 4);
    let on_match = bpf::u32_at(set, 8);
    if !head_good(architecture, mismatch, on_match) {
        return no_head();
    }
    Head {
        next: Cursor {
            code: 0,
            at: 16,
            entries: bpf::u32_at(set, 12),
            rules: 0,
            conditions: 0,
        },
        architecture,
        mismatch,
        on_match,
    }
}

#[tactic(auto, unfolding(definitions::specs::Readers::at_entry))]
fn at_entry(c: Cursor) -> bool
    ensures { result ≡ readers.at_entry c }
{
    c.entries != 0 && c.rules == 0 && c.conditions == 0
}

#[tactic(auto, unfolding(definitions::specs::Readers::at_rule))]
fn at_rule(c: Cursor) -> bool
    ensures { result ≡ readers.at_rule c }
{
    c.rules != 0 && c.conditions == 0
}

fn no_entry(c: Cursor, code: u32) -> Listed
    ensures { result ≡ readers.no_entry c code }
{
    Listed {
        next: stopped(c, code),
        number: 0,
    }
}

// Reads the number that is listed next, once all rules of the last one are read.
#[tactic(auto, using(crate::proofs::Readers::reaches_true, crate::proofs::Readers::entry_left), unfolding(definitions::specs::Readers::entry_of))]
pub fn next_entry(set: &[u8], c: Cursor) -> Listed
    ensures { result ≡ readers.entry_of set.now c }
{
    if !at_entry(c) {
        return no_entry(c, 2);
    }
    if !reaches(set.len(), c.at, 8) {
        return no_entry(c, 1);
    }
    let at = c.at as usize;
    Listed {
        next: Cursor {
            code: 0,
            at: c.at + 8,
            entries: c.entries - 1,
            rules: bpf::u32_at(set, at + 4),
            conditions: 0,
        },
        number: bpf::u32_at(set, at),
    }
}

// Goes on to the next rule, once all conditions of the last one are read.
#[tactic(auto, using(crate::proofs::Readers::reaches_true, crate::proofs::Readers::rule_left), unfolding(definitions::specs::Readers::rule_of))]
pub fn next_rule(set: &[u8], c: Cursor) -> Cursor
    ensures { result ≡ readers.rule_of set.now c }
{
    if !at_rule(c) {
        return stopped(c, 2);
    }
    if !reaches(set.len(), c.at, 4) {
        return stopped(c, 1);
    }
    Cursor {
        code: 0,
        at: c.at + 4,
        rules: c.rules - 1,
        conditions: bpf::u32_at(set, c.at as usize),
        ..c
    }
}

fn no_condition(c: Cursor, code: u32) -> Compared
    ensures { result ≡ readers.no_condition c code }
{
    Compared {
        next: stopped(c, code),
        index: 0,
        width: 0,
        operator: 0,
        value: 0,
        mask: 0,
    }
}

// Whether the five bytes behind a condition's names are zero.
#[tactic(auto, using(crate::proofs::Readers::number_5))]
fn padded(set: &[u8], at: usize) -> bool
    requires { at + 24 ≤ length set.now }
    ensures { result ≡ eqb (number_at 5 set.now (at + 3)) 0 }
{
    set[at + 3] == 0 && bpf::u32_at(set, at + 4) == 0
}

// Whether the format has a condition of these numbers.
#[tactic(auto, unfolding(crate::specs::Tests::condition_good))]
pub fn condition_good(width: u8, operator: u8, mask: u64) -> bool
    ensures { result ≡ condition_good width operator mask }
{
    set_view::width_known(width) && operator <= 6 && (operator == 5 || mask == 0)
}

// Reads the next condition of the open rule.
#[tactic(auto, using(crate::proofs::Readers::compared_steps), unfolding(definitions::specs::Readers::compared_of))]
pub fn next_condition(set: &[u8], c: Cursor) -> Compared
    ensures { result ≡ readers.compared_of set.now c }
{
    if c.conditions == 0 {
        return no_condition(c, 2);
    }
    if !reaches(set.len(), c.at, 24) {
        return no_condition(c, 1);
    }
    let at = c.at as usize;
    if !padded(set, at) {
        return no_condition(c, 1);
    }
    let width = set[at + 1];
    let operator = set[at + 2];
    let mask = bpf::u64_at(set, at + 16);
    if !condition_good(width, operator, mask) {
        return no_condition(c, 1);
    }
    Compared {
        next: Cursor {
            code: 0,
            at: c.at + 24,
            conditions: c.conditions - 1,
            ..c
        },
        index: set[at],
        width,
        operator,
        value: bpf::u64_at(set, at + 8),
        mask,
    }
}

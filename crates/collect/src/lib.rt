// Lines of a filter, as they stand in the text, made one entry for a number, ascending: their keys are listed and sorted, and then each line
// is copied behind the one before it. All in one buffer that the caller lends (specs/Raw.antt says which part holds what).
#![tactic(auto)]

ghost use Rattle.std.specs.Prelude.{◌≡◌, map, ◌+◌, ◌-◌, ◌*◌, ◌%◌, ◌≤◌, ◌<◌, length, take, get_or, set};
ghost use Rattle.sort.specs.Sorted.{sorted};
ghost use Rattle.collect.specs.Raw.{Raw, Collects, keys_at, past_entry, Listed, Reaches, begun, extended, Added, Keyed, FirstWritten, Grouped};

use bpf::{u32_at, write_u32};

// The last entry that was written, which further rules may follow, and how many entries there are.
#[derive(Clone, Copy, Debug, PartialEq, Eq)]
pub struct Last {
    pub entry: usize,
    pub end: usize,
    pub count: usize,
}

#[derive(Clone, Copy, Debug, PartialEq, Eq)]
pub struct Collection {
    pub end: usize,
    pub count: usize,
}

// The place of the line whose key is the i-th.
fn place_at(s: &[u8], t: usize, n: usize, i: usize) -> usize
    requires { (i < n) × (2 * t + 8 * n ≤ length s.now) }
    ensures { result ≡ get_or (keys_at s.now t n) i 0 % 4294967296 }
{
    (sort::key_at(&s[2 * t..2 * t + 8 * n], i) % 4294967296) as usize
}

fn put_key(s: &mut [u8], t: usize, n: usize, i: usize, k: u64)
    requires { (i < n) × (2 * t + 8 * n ≤ length s.old) }
    ensures { (keys_at s.new t n ≡ set (keys_at s.old t n) i k) × (take (2 * t) s.new ≡ take (2 * t) s.old) }
{
    sort::put_key(&mut s[2 * t..2 * t + 8 * n], i, k);
}

fn sort_keys(s: &mut [u8], t: usize, n: usize)
    requires { 2 * t + 8 * n ≤ length s.old }
    ensures { (keys_at s.new t n ≡ sorted (keys_at s.old t n)) × (take (2 * t) s.new ≡ take (2 * t) s.old) }
{
    sort::sort(&mut s[2 * t..2 * t + 8 * n]);
}

// Where the entry of one line ends.
fn past_entry(s: &[u8], at: usize) -> usize
    requires { (at + 12 ≤ length s.now) × (at ≤ 4194304) }
    ensures { result ≡ past_entry s.now at }
{
    if u32_at(s, at + 4) == 0 {
        at + 8
    } else {
        at + 12 + 24 * u32_at(s, at + 8) as usize
    }
}

fn list_keys(s: &mut [u8], t: usize, n: usize)
    requires { Raw s.old t n 0 }
    ensures { (h : Raw s.old t n 0) → Listed h.entries s.old s.new t n }
{
    let mut p = t;
    for i in 0..n {
        let number = u64::from(u32_at(s, p));
        put_key(s, t, n, i, number * 4294967296 + p as u64);
        p = past_entry(s, p);
    }
}

// Writes the entry of a line as it stands, and gives its end.
fn begin(s: &mut [u8], from: usize, end: usize) -> usize
    requires { Reaches s.old from end }
    ensures { (s.new ≡ begun s.old from end) × (result ≡ end + (past_entry s.old from - from)) }
{
    let past = past_entry(s, from);
    s.copy_within(from..past, end);
    end + (past - from)
}

// Puts the rules of a line together with those of the last entry, which has the same number, and gives its end.
fn extend(s: &mut [u8], from: usize, entry: usize, end: usize) -> usize
    requires { Reaches s.old from end × (entry + 8 ≤ end) }
    ensures { (s.new ≡ extended s.old from entry end) × (result ≡ end + (past_entry s.old from - (from + 8))) }
{
    let past = past_entry(s, from);
    let count = u64::from(u32_at(s, entry + 4)) + u64::from(u32_at(s, from + 4));
    write_u32(s, entry + 4, count);
    s.copy_within(from + 8..past, end);
    end + (past - (from + 8))
}

// Adds a line behind the last entry: to it, or as an entry of its own.
fn add(s: &mut [u8], from: usize, w: Last) -> Last
    requires { Reaches s.old from w.end × (w.entry + 8 ≤ w.end) × (w.count ≤ 4194304) }
    ensures { Added s.old from w s.new result }
{
    if u32_at(s, from) == u32_at(s, w.entry) {
        let end = extend(s, from, w.entry, w.end);
        Last { end, ..w }
    } else {
        let end = begin(s, from, w.end);
        Last {
            entry: w.end,
            end,
            count: w.count + 1,
        }
    }
}

// Writes the lines in the order of their keys, behind that of the first.
fn write_others(s: &mut [u8], t: usize, n: usize, first: Last) -> Collection
    requires { FirstWritten s.old t n first }
    ensures { (h : FirstWritten s.old t n first) → Grouped (map h.keyed.line (keys_at h.before t n)) h.before s.new h.at result.end result.count }
{
    let mut w = first;
    for i in 1..n {
        let from = place_at(s, t, n, i);
        w = add(s, from, w);
    }
    Collection {
        end: w.end,
        count: w.count,
    }
}

// Writes the lines in the order of their keys, of which there is one at least.
fn write_groups(s: &mut [u8], t: usize, n: usize, at: usize) -> Collection
    requires { Keyed s.old t n at }
    ensures { (h : Keyed s.old t n at) → Grouped (map h.line (keys_at s.old t n)) s.old s.new at result.end result.count }
{
    let from = place_at(s, t, n, 0);
    let end = begin(s, from, at);
    let first = Last {
        entry: at,
        end,
        count: 1,
    };
    write_others(s, t, n, first)
}

// Makes one entry for a number of n lines, ascending, at a place.
pub fn collect(s: &mut [u8], t: usize, n: usize, at: usize) -> Collection
    requires { Raw s.old t n at }
    ensures { (h : Raw s.old t n at) → Collects h.entries s.old s.new at result.end result.count }
{
    if n == 0 {
        return Collection { end: at, count: 0 };
    }
    list_keys(s, t, n);
    sort_keys(s, t, n);
    write_groups(s, t, n, at)
}

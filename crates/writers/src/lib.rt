// Rule sets in their byte form, written part by part into bytes that the caller lends. What stands between two calls is a few numbers by
// value; nothing in them is trusted, and a call that is refused writes nothing. What a part may be is tested by the readers' own tests.
#![tactic(auto)]

ghost use Rattle.std.specs.Prelude.{◌≡◌, true, not, ◌++◌, ◌+◌, ◌≤◌, eqb, length};
ghost use Rattle.std.proofs.Math.Option.{some};
ghost use Rattle.definitions.specs.Word.{bytes_of, number_at};
ghost use Rattle.definitions.specs.Parts.{with_entry, with_rule, condition_part};
ghost use Rattle.definitions.specs.Writers.{state_fits, code_for, Started, Added};
ghost use Rattle.bpf.specs.Place.{place};
ghost use Rattle.writers.specs.Bytes.{head_bytes, names_bytes, condition_bytes};

use bpf::{write_u32, write_u64};
use definitions::Writer;

// Raises the count at a place.
fn raise(out: &mut [u8], at: usize)
    requires { at + 4 ≤ length out.old }
    ensures { out.new ≡ place out.old at (bytes_of 4 (number_at 4 out.old at + 1)) }
{
    let count = bpf::u32_at(out, at);
    write_u32(out, at, u64::from(count) + 1);
}

fn told(w: Writer, code: u32) -> Writer
    ensures { result ≡ record { code = code; end = w.end; entry = w.entry; rule = w.rule } }
{
    Writer { code, ..w }
}

// Whether the places of a state are where a set can have them.
#[tactic(auto, unfolding(definitions::specs::Writers::state_fits))]
fn state_fits(w: Writer) -> bool
    ensures { result ≡ state_fits w }
{
    let end = w.end as usize;
    16 <= end && w.entry as usize + 8 <= end && w.rule as usize + 4 <= end
}

// Whether a part of so many bytes is taken, and else why not.
#[tactic(auto, unfolding(definitions::specs::Writers::code_for))]
fn verdict(size: usize, w: Writer, good: bool, ordered: bool, more: usize) -> u32
    requires { more ≤ 24 }
    ensures { result ≡ code_for good ordered more size w }
{
    let end = w.end as usize + more;
    if !good {
        1
    } else if !ordered {
        2
    } else if size < end {
        3
    } else if 1048576 < end {
        4
    } else if !state_fits(w) {
        5
    } else {
        0
    }
}

// Writes the head of a set with no entries.
#[tactic(auto, using(crate::proofs::Stores::put_four), unfolding(crate::specs::Bytes::head_bytes))]
fn write_head(out: &mut [u8], architecture: u32, mismatch: u32, on_match: u32)
    requires { 16 ≤ length out.old }
    ensures { out.new ≡ place out.old 0 (head_bytes architecture mismatch on_match) }
{
    write_u32(out, 0, u64::from(architecture));
    write_u32(out, 4, u64::from(mismatch));
    write_u32(out, 8, u64::from(on_match));
    write_u32(out, 12, 0);
}

// What a refused start leaves: a state that no writer takes.
fn not_started(code: u32) -> Writer
    ensures { result ≡ record { code = code; end = 0; entry = 0; rule = 0 } }
{
    Writer {
        code,
        end: 0,
        entry: 0,
        rule: 0,
    }
}

// Starts a set: nothing is listed in it yet.
#[tactic(auto, using(crate::proofs::Writers::begin_refused, crate::proofs::Writers::begun_set), unfolding(definitions::specs::Writers::start_code))]
pub fn start(out: &mut [u8], architecture: u32, mismatch: u32, on_match: u32) -> Writer
    ensures { Started architecture mismatch on_match out.old out.new result }
{
    if !readers::head_good(architecture, mismatch, on_match) {
        return not_started(1);
    }
    if out.len() < 16 {
        return not_started(3);
    }
    write_head(out, architecture, mismatch, on_match);
    Writer {
        code: 0,
        end: 16,
        entry: 0,
        rule: 0,
    }
}

// Writes an entry with no rules.
#[tactic(auto, using(bpf::proofs::Buffer::put_two))]
fn write_entry(out: &mut [u8], at: usize, number: u32)
    requires { at + 8 ≤ length out.old }
    ensures { out.new ≡ place out.old at (bytes_of 4 number ++ bytes_of 4 0) }
{
    write_u32(out, at, u64::from(number));
    write_u32(out, at + 4, 0);
}

// Lists a number, which matches whatever its arguments are until a rule is begun for it.
#[tactic(auto, using(crate::proofs::Codes::code_zero, crate::proofs::Writers::refused, crate::proofs::Writers::listed))]
pub fn list(out: &mut [u8], w: Writer, number: u32) -> Writer
    ensures { Added (some (with_entry number)) true 8 out.old out.new w result }
{
    let code = verdict(out.len(), w, true, true, 8);
    if code != 0 {
        return told(w, code);
    }
    write_entry(out, w.end as usize, number);
    raise(out, 12);
    Writer {
        code: 0,
        end: w.end + 8,
        entry: w.end,
        rule: 0,
    }
}

// Begins a rule for the number that was listed last.
#[tactic(auto, using(crate::proofs::Codes::code_zero, crate::proofs::Writers::refused, crate::proofs::Writers::begun))]
pub fn begin_rule(out: &mut [u8], w: Writer) -> Writer
    ensures { Added (some with_rule) (not (eqb w.entry 0)) 4 out.old out.new w result }
{
    let code = verdict(out.len(), w, true, w.entry != 0, 4);
    if code != 0 {
        return told(w, code);
    }
    write_u32(out, w.end as usize, 0);
    raise(out, w.entry as usize + 4);
    Writer {
        code: 0,
        end: w.end + 4,
        rule: w.end,
        ..w
    }
}

// Writes the first eight bytes of a condition.
fn write_names(out: &mut [u8], at: usize, index: u8, width: u8, operator: u8)
    requires { at + 8 ≤ length out.old }
    ensures { out.new ≡ place out.old at (names_bytes index width operator) }
{
    // as numbers: a row of bytes would be put together in memory first
    let names = u64::from(index) + 256 * u64::from(width) + 65536 * u64::from(operator);
    let padding = 0;
    write_u32(out, at, names);
    write_u32(out, at + 4, padding);
}

#[tactic(auto, using(crate::proofs::Stores::put_long), unfolding(crate::specs::Bytes::condition_bytes))]
pub fn write_condition(
    out: &mut [u8],
    at: usize,
    index: u8,
    width: u8,
    operator: u8,
    value: u64,
    mask: u64,
)
    requires { at + 24 ≤ length out.old }
    ensures { out.new ≡ place out.old at (condition_bytes index width operator value mask) }
{
    write_names(out, at, index, width, operator);
    write_u64(out, at + 8, value);
    write_u64(out, at + 16, mask);
}

// Adds a condition to the rule that was begun last. Every index that a byte holds is taken, as in the format: which ones a call has is
// for compiling to say.
#[tactic(auto, using(crate::proofs::Codes::code_zero, crate::proofs::Writers::refused, crate::proofs::Writers::coded, crate::proofs::Writers::added))]
pub fn add_condition(
    out: &mut [u8],
    w: Writer,
    index: u8,
    width: u8,
    operator: u8,
    value: u64,
    mask: u64,
) -> Writer
    ensures { Added (condition_part index width operator value mask) (not (eqb w.rule 0)) 24 out.old out.new w result }
{
    let good = readers::condition_good(width, operator, mask);
    let why = verdict(out.len(), w, good, w.rule != 0, 24);
    if why != 0 {
        return told(w, why);
    }
    write_condition(out, w.end as usize, index, width, operator, value, mask);
    raise(out, w.rule as usize);
    Writer {
        code: 0,
        end: w.end + 24,
        ..w
    }
}

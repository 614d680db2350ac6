// Builds the worked rule set by the exported writers, compiles it, compares both with stored bytes, and reads the set back. What it
// says is compared with the file `stdout`, so that the proved functions are also seen to run.
#![tactic(auto)]

ghost use Rattle.std.specs.Prelude.{◌≡◌, true, length};
ghost use Rattle.definitions.specs.Machine.{filter_bytes};
ghost use Rattle.definitions.specs.RuleSet.{RuleSet};
ghost use Rattle.definitions.specs.Emitted as filters;
ghost use Rattle.definitions.specs.Compiled.{FormOf};
ghost use Rattle.definitions.specs.Parts.{with_entry};
ghost use Rattle.example.specs.Worked.{worked, begun, Wrote, Adds, AddsRule, Ahead, Walked, Stored};

use definitions::{Compared, Cursor, Head, Listed, Writer};
use std::fmt::Display;
use std::io;

// Says a line. One that cannot be written is let go, so that no promise below depends on who listens; the last line is `main`'s, and its
// status tells whether that was written.
fn say(rt: &impl Print, line: impl Display + Drop) {
    let _ = rt.println(line);
}

// ---- the set, written part by part. Once a call was refused, nothing more is written.

fn begin(out: &mut [u8]) -> Writer
    ensures { Wrote begun out.new result }
{
    callfilter::callfilter_start(out, 1, 0x00050001, 0x7fff0000)
}

fn add_call(out: &mut [u8], writer: Writer, number: u32) -> Writer
    ensures { Adds (with_entry number) out.old out.new writer result }
{
    if writer.code != 0 {
        return writer;
    }
    callfilter::callfilter_list(out, writer, number)
}

fn add_rule(
    out: &mut [u8],
    writer: Writer,
    index: u8,
    width: u8,
    operator: u8,
    value: u64,
    mask: u64,
) -> Writer
    ensures { AddsRule index width operator value mask out.old out.new writer result }
{
    if writer.code != 0 {
        return writer;
    }
    let rule = callfilter::callfilter_begin_rule(out, writer);
    if rule.code != 0 {
        return rule;
    }
    callfilter::callfilter_add_condition(out, rule, index, width, operator, value, mask)
}

fn build(out: &mut [u8]) -> Writer
    ensures { Wrote worked out.new result }
{
    let begun = begin(out);
    let call_0 = add_call(out, begun, 0);
    let call_1 = add_call(out, call_0, 1);
    let rule_1 = add_rule(out, call_1, 0, 4, 0, 1, 0);
    let call_257 = add_call(out, rule_1, 257);
    let rule_257 = add_rule(out, call_257, 2, 8, 5, 0, 3);
    add_rule(out, rule_257, 1, 8, 1, 4294967296, 0)
}

// ---- the set, read part by part

fn say_head(rt: &impl Print, head: Head) {
    if head.next.code != 0 {
        return;
    }
    say(
        rt,
        format_args!(
            "architecture {}, mismatch {}, match {}, calls {}",
            head.architecture, head.mismatch, head.on_match, head.next.entries
        ),
    );
}

fn say_call(rt: &impl Print, listed: Listed) {
    if listed.next.code != 0 {
        return;
    }
    say(
        rt,
        format_args!("call {}, rules {}", listed.number, listed.next.rules),
    );
}

fn say_rule(rt: &impl Print, rule: Cursor) {
    if rule.code != 0 {
        return;
    }
    say(rt, format_args!("  rule, conditions {}", rule.conditions));
}

fn say_condition(rt: &impl Print, compared: Compared) {
    if compared.next.code != 0 {
        return;
    }
    say(
        rt,
        format_args!(
            "    argument {}, width {}, operator {}, value {}, mask {}",
            compared.index, compared.width, compared.operator, compared.value, compared.mask
        ),
    );
}

// Reads the part that is next, whichever it is.
#[tactic(auto, using(crate::proofs::Calls::condition_walked, crate::proofs::Calls::rule_walked, crate::proofs::Calls::entry_walked))]
fn next_part(rt: &impl Print, set: &[u8], cursor: Cursor) -> Cursor
    ensures { Ahead set.now cursor → Walked set.now cursor result }
{
    if cursor.conditions != 0 {
        let compared = callfilter::callfilter_next_condition(set, cursor);
        say_condition(rt, compared);
        let next = compared.next;
        return next;
    }
    if cursor.rules != 0 {
        let next = callfilter::callfilter_next_rule(set, cursor);
        say_rule(rt, next);
        return next;
    }
    let listed = callfilter::callfilter_next_entry(set, cursor);
    say_call(rt, listed);
    let next = listed.next;
    next
}

// Reads a set to its end. A part has at least a byte, so that there are no more parts than bytes.
fn walk(rt: &impl Print, set: &[u8]) -> Cursor
    ensures { (rs : RuleSet) → FormOf rs set.now → result.at ≡ length set.now }
{
    let head = callfilter::callfilter_read_head(set);
    say_head(rt, head);
    let mut cursor = head.next;
    for _ in 0..set.len() {
        cursor = next_part(rt, set, cursor);
        if cursor.code != 0 {
            return cursor;
        }
    }
    cursor
}

// ---- compiled, and compared

// Whether a set compiles into the stored filter.
fn compiles(rt: &impl Print, set: &[u8], out: &mut [u8], stored: &[u8]) -> bool
    ensures { result ≡ true → (rs : RuleSet) → FormOf rs set.now → filter_bytes (filters.emitted rs) ≡ stored.now }
{
    let answer = callfilter::callfilter_compile(set, out);
    if answer.code != 0 {
        say(rt, format_args!("not compiled, answer {}", answer.code));
        return false;
    }
    say(rt, format_args!("compiled, instructions {}", answer.count));
    let size = 8 * answer.count as usize;
    check::same(&out[..size], stored)
}

// Whether a set and its filter are the stored ones.
fn as_stored(rt: &impl Print, set: &[u8], out: &mut [u8], form: &[u8], emitted: &[u8]) -> bool
    ensures { result ≡ true → (rs : RuleSet) → FormOf rs set.now → Stored rs form.now emitted.now }
{
    if !check::same(set, form) {
        say(rt, "the writers gave another set than the stored one");
        return false;
    }
    say(
        rt,
        format_args!("the writers gave the stored set, bytes {}", set.len()),
    );
    let end = walk(rt, set);
    say(rt, format_args!("read back, bytes {}", end.at));
    compiles(rt, set, out, emitted)
}

// Builds and compiles the worked set; a yes says that the stored bytes are those of the definitions.
fn tried(rt: &impl Print, space: &mut [u8], out: &mut [u8], form: &[u8], emitted: &[u8]) -> bool
    ensures { result ≡ true → Stored worked form.now emitted.now }
{
    let writer = build(space);
    if writer.code != 0 {
        say(rt, format_args!("a writer refused, code {}", writer.code));
        return false;
    }
    let size = writer.end as usize;
    as_stored(rt, &space[..size], out, form, emitted)
}

fn main(rt: HostRuntime) -> io::Result<()> {
    let mut space = [0u8; 256];
    let mut out = [0u8; 512];
    let form = b"\x01\x00\x00\x00\x01\x00\x05\x00\x00\x00\xff\x7f\x03\x00\x00\x00\
          \x00\x00\x00\x00\x00\x00\x00\x00\
          \x01\x00\x00\x00\x01\x00\x00\x00\x01\x00\x00\x00\
          \x00\x04\x00\x00\x00\x00\x00\x00\x01\x00\x00\x00\x00\x00\x00\x00\x00\x00\x00\x00\x00\x00\x00\x00\
          \x01\x01\x00\x00\x02\x00\x00\x00\x01\x00\x00\x00\
          \x02\x08\x05\x00\x00\x00\x00\x00\x00\x00\x00\x00\x00\x00\x00\x00\x03\x00\x00\x00\x00\x00\x00\x00\
          \x01\x00\x00\x00\
          \x01\x08\x01\x00\x00\x00\x00\x00\x00\x00\x00\x00\x01\x00\x00\x00\x00\x00\x00\x00\x00\x00\x00\x00";
    let emitted =
        b"\x20\x00\x00\x00\x04\x00\x00\x00\x15\x00\x01\x00\x3e\x00\x00\xc0\x06\x00\x00\x00\x00\x00\x00\x80\
          \x20\x00\x00\x00\x00\x00\x00\x00\x15\x00\x00\x01\x00\x00\x00\x00\x05\x00\x00\x00\x01\x00\x00\x00\
          \x05\x00\x00\x00\x02\x00\x00\x00\x06\x00\x00\x00\x00\x00\xff\x7f\x06\x00\x00\x00\x01\x00\x05\x00\
          \x15\x00\x00\x01\x01\x00\x00\x00\x05\x00\x00\x00\x01\x00\x00\x00\x05\x00\x00\x00\x04\x00\x00\x00\
          \x20\x00\x00\x00\x10\x00\x00\x00\x15\x00\x00\x01\x01\x00\x00\x00\x06\x00\x00\x00\x00\x00\xff\x7f\
          \x06\x00\x00\x00\x01\x00\x05\x00\x15\x00\x00\x01\x01\x01\x00\x00\x05\x00\x00\x00\x01\x00\x00\x00\
          \x05\x00\x00\x00\x08\x00\x00\x00\x20\x00\x00\x00\x24\x00\x00\x00\x54\x00\x00\x00\x00\x00\x00\x00\
          \x15\x00\x00\x04\x00\x00\x00\x00\x20\x00\x00\x00\x20\x00\x00\x00\x54\x00\x00\x00\x03\x00\x00\x00\
          \x15\x00\x00\x01\x00\x00\x00\x00\x06\x00\x00\x00\x00\x00\xff\x7f\x05\x00\x00\x00\x01\x00\x00\x00\
          \x05\x00\x00\x00\x07\x00\x00\x00\x20\x00\x00\x00\x1c\x00\x00\x00\x25\x00\x03\x00\x01\x00\x00\x00\
          \x15\x00\x00\x03\x01\x00\x00\x00\x20\x00\x00\x00\x18\x00\x00\x00\x35\x00\x00\x01\x00\x00\x00\x00\
          \x06\x00\x00\x00\x00\x00\xff\x7f\x06\x00\x00\x00\x01\x00\x05\x00\x06\x00\x00\x00\x01\x00\x05\x00";
    if tried(&rt, &mut space, &mut out, form, emitted) {
        println!(rt; "the filter is the stored one")
    } else {
        println!(rt; "not as stored")
    }
}

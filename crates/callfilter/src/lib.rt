// The entry points that a host calls; `callfilter_c` exports them under the same names. None asks anything of its caller: bad input gets its
// answer, and a refusal writes nothing.
#![tactic(auto)]

ghost use Rattle.std.specs.Prelude.{◌≡◌, true, false, not, eqb, ltb, ◌+◌, ◌*◌, ◌^◌, ◌≤◌};
ghost use Rattle.std.proofs.Math.Option.{some};
ghost use Rattle.definitions.specs.Answer as answers;
ghost use Rattle.definitions.specs.Answer.{filter_faults, least_of, too_many, turns_long, search_size};
ghost use Rattle.definitions.specs.Compiled.{Compiled, Searched};
ghost use Rattle.definitions.specs.Kernel.{accepts_bytes};
ghost use Rattle.definitions.specs.Outcome.{outcome_of, decided_of, RanAll};
ghost use Rattle.definitions.specs.Parts.{with_entry, with_rule, condition_part};
ghost use Rattle.definitions.specs.Writers.{Started, Added};
ghost use Rattle.definitions.specs.Readers as readers;
ghost use Rattle.set_view.specs.Parts.{most_bytes, Readable, set_here};

use definitions::{Answer, Compared, Cursor, Decision, Fault, Head, Listed, Outcome, Writer};
use faults::{NOWHERE, fault, note};

// A filter of so many instructions is too long.
const TOO_MANY: usize = 4097;

// The version, as major, minor and patch, a byte each. The name has the number of the binary interface, which is raised whenever a struct,
// a signature or what a number means changes: the header and the crate ask for it by name, so that neither links with an archive that it
// was not made for.
pub fn callfilter_abi_1() -> u32
    ensures { result ≡ 0 * 2 ^ 16 + 1 * 2 ^ 8 + 0 }
{
    0x000100
}

// How many instructions are told with a code.
fn count_with(code: u32, count: u32) -> u32
    ensures { result ≡ answers.count_with code count }
{
    match code {
        0 | 6 | 7 => count,
        _ => 0,
    }
}

// The answer for a set in which this was found, and whose filter has `size` instructions; `long` is the entry that is told where they are
// too many.
fn answer_for(found: Fault, size: usize, long: u32, room: usize) -> Answer
    requires { size ≤ most_bytes }
    ensures { result ≡ answers.answer size (least_of found (filter_faults size long room)) }
{
    let short = note(found, size < TOO_MANY, fault(6, long, NOWHERE, NOWHERE));
    let least = note(short, 8 * size <= room, fault(7, NOWHERE, NOWHERE, NOWHERE));
    Answer {
        code: least.code,
        count: count_with(least.code, size as u32),
        entry: least.entry,
        rule: least.rule,
        condition: least.condition,
    }
}

// The answer for a set and a room.
fn verdict(set: &[u8], room: usize) -> Answer
    ensures { result ≡ answers.answer_of set.now room }
{
    let found = judge::judge(set);
    answer_for(found.fault, found.count, found.long, room)
}

// Compiles a rule set into a lent buffer.
pub fn callfilter_compile(set: &[u8], out: &mut [u8]) -> Answer
    ensures { Compiled set.now out.old out.new result }
{
    let r = verdict(set, out.len());
    if r.code != 0 {
        return r;
    }
    list_form::put_filter(out, set);
    r
}

// The entry that is told of a search of `size` instructions. Only where they are too many is it looked for.
fn search_long(set: &[u8], size: usize) -> u32
    requires { Readable set.now × (size ≡ search_size (set_here set.now)) }
    ensures { ltb size too_many ≡ false → result ≡ turns_long search_size (set_here set.now) }
{
    if size < TOO_MANY {
        NOWHERE
    } else {
        search_writer::long_entry(set)
    }
}

// The answer for a set and a room, where the filter is a search.
fn search_verdict(set: &[u8], room: usize) -> Answer
    ensures { result ≡ answers.search_answer_of set.now room }
{
    let fault = judge::judge(set).fault;
    // what is not of the format has no filter
    if fault.code == 1 {
        return answer_for(fault, 0, NOWHERE, room);
    }
    let size = search_writer::search_length(set, bpf::u32_at(set, 12));
    answer_for(fault, size, search_long(set, size), room)
}

// Compiles a rule set into a lent buffer, as a search.
pub fn callfilter_compile_search(set: &[u8], out: &mut [u8]) -> Answer
    ensures { Searched set.now out.old out.new result }
{
    let answer = search_verdict(set, out.len());
    if answer.code != 0 {
        return answer;
    }
    search_writer::put_search(out, set, answer.count as usize);
    answer
}

// Whether the kernel would take a filter.
pub fn callfilter_accepts(filter: &[u8]) -> bool
    ensures { result ≡ accepts_bytes filter.now }
{
    checks::accepts(filter)
}

// What a filter does with a call.
pub fn callfilter_run(filter: &[u8], call: &[u8]) -> Outcome
    ensures { result ≡ outcome_of filter.now call.now }
{
    machine::run(filter, call)
}

// What a filter does with each of many calls.
pub fn callfilter_run_all(filter: &[u8], calls: &[u8], out: &mut [u8]) -> u32
    ensures { RanAll filter.now calls.now out.old out.new result }
{
    machine::run_all(filter, calls, out)
}

// What a rule set means for a call.
pub fn callfilter_decide(set: &[u8], call: &[u8]) -> Decision
    ensures { result ≡ decided_of set.now call.now }
{
    decision::decide(set, call)
}

// Starts a set in a lent buffer: nothing is listed in it yet.
pub fn callfilter_start(out: &mut [u8], architecture: u32, mismatch: u32, on_match: u32) -> Writer
    ensures { Started architecture mismatch on_match out.old out.new result }
{
    writers::start(out, architecture, mismatch, on_match)
}

// Lists a number, which matches whatever its arguments are until a rule is begun for it.
pub fn callfilter_list(out: &mut [u8], writer: Writer, number: u32) -> Writer
    ensures { Added (some (with_entry number)) true 8 out.old out.new writer result }
{
    writers::list(out, writer, number)
}

// Begins a rule for the number that was listed last.
pub fn callfilter_begin_rule(out: &mut [u8], writer: Writer) -> Writer
    ensures { Added (some with_rule) (not (eqb writer.entry 0)) 4 out.old out.new writer result }
{
    writers::begin_rule(out, writer)
}

// Adds a condition to the rule that was begun last.
pub fn callfilter_add_condition(
    out: &mut [u8],
    writer: Writer,
    index: u8,
    width: u8,
    operator: u8,
    value: u64,
    mask: u64,
) -> Writer
    ensures { Added (condition_part index width operator value mask) (not (eqb writer.rule 0)) 24 out.old out.new writer result }
{
    writers::add_condition(out, writer, index, width, operator, value, mask)
}

// Reads the head of a set.
pub fn callfilter_read_head(set: &[u8]) -> Head
    ensures { result ≡ readers.head_of set.now }
{
    readers::read_head(set)
}

// Reads the number that is listed next, once all rules of the last one are read.
pub fn callfilter_next_entry(set: &[u8], cursor: Cursor) -> Listed
    ensures { result ≡ readers.entry_of set.now cursor }
{
    readers::next_entry(set, cursor)
}

// Goes on to the next rule, once all conditions of the last one are read.
pub fn callfilter_next_rule(set: &[u8], cursor: Cursor) -> Cursor
    ensures { result ≡ readers.rule_of set.now cursor }
{
    readers::next_rule(set, cursor)
}

// Reads the next condition of the open rule.
pub fn callfilter_next_condition(set: &[u8], cursor: Cursor) -> Compared
    ensures { result ≡ readers.compared_of set.now cursor }
{
    readers::next_condition(set, cursor)
}

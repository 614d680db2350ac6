// The functions of `callfilter` for C: each is exported under its own name, calls the one of that name, and promises what it promises.
#![tactic(auto)]

ghost use Rattle.std.specs.Prelude.{◌≡◌, true, not, eqb, ◌+◌, ◌*◌, ◌^◌};
ghost use Rattle.std.proofs.Math.Option.{some};
ghost use Rattle.definitions.specs.Compiled.{Compiled, Searched};
ghost use Rattle.definitions.specs.Kernel.{accepts_bytes};
ghost use Rattle.definitions.specs.Outcome.{outcome_of, decided_of, RanAll};
ghost use Rattle.definitions.specs.Parts.{with_entry, with_rule, condition_part};
ghost use Rattle.definitions.specs.Writers.{Started, Added};
ghost use Rattle.definitions.specs.Readers as readers;

use definitions::{Answer, Compared, Cursor, Decision, Head, Listed, Outcome, Writer};

// The version, as major, minor and patch, a byte each. The name has the number of the binary interface, which is raised whenever a struct,
// a signature or what a number means changes: the header and the crate ask for it by name, so that neither links with an archive that it
// was not made for.
#[unsafe(no_mangle)]
pub extern "C" fn callfilter_abi_1() -> u32
    ensures { result ≡ 0 * 2 ^ 16 + 1 * 2 ^ 8 + 0 }
{
    callfilter::callfilter_abi_1()
}

// Compiles a rule set into a lent buffer.
#[unsafe(no_mangle)]
pub extern "C" fn callfilter_compile(set: &[u8], out: &mut [u8]) -> Answer
    ensures { Compiled set.now out.old out.new result }
{
    callfilter::callfilter_compile(set, out)
}

// Compiles a rule set into a lent buffer, as a search.
#[unsafe(no_mangle)]
pub extern "C" fn callfilter_compile_search(set: &[u8], out: &mut [u8]) -> Answer
    ensures { Searched set.now out.old out.new result }
{
    callfilter::callfilter_compile_search(set, out)
}

// Whether the kernel would take a filter.
#[unsafe(no_mangle)]
pub extern "C" fn callfilter_accepts(filter: &[u8]) -> bool
    ensures { result ≡ accepts_bytes filter.now }
{
    callfilter::callfilter_accepts(filter)
}

// What a filter does with a call.
#[unsafe(no_mangle)]
pub extern "C" fn callfilter_run(filter: &[u8], call: &[u8]) -> Outcome
    ensures { result ≡ outcome_of filter.now call.now }
{
    callfilter::callfilter_run(filter, call)
}

// What a filter does with each of many calls.
#[unsafe(no_mangle)]
pub extern "C" fn callfilter_run_all(filter: &[u8], calls: &[u8], out: &mut [u8]) -> u32
    ensures { RanAll filter.now calls.now out.old out.new result }
{
    callfilter::callfilter_run_all(filter, calls, out)
}

// What a rule set means for a call.
#[unsafe(no_mangle)]
pub extern "C" fn callfilter_decide(set: &[u8], call: &[u8]) -> Decision
    ensures { result ≡ decided_of set.now call.now }
{
    callfilter::callfilter_decide(set, call)
}

// Starts a set in a lent buffer: nothing is listed in it yet.
#[unsafe(no_mangle)]
pub extern "C" fn callfilter_start(
    out: &mut [u8],
    architecture: u32,
    mismatch: u32,
    on_match: u32,
) -> Writer
    ensures { Started architecture mismatch on_match out.old out.new result }
{
    callfilter::callfilter_start(out, architecture, mismatch, on_match)
}

// Lists a number, which matches whatever its arguments are until a rule is begun for it.
#[unsafe(no_mangle)]
pub extern "C" fn callfilter_list(out: &mut [u8], writer: Writer, number: u32) -> Writer
    ensures { Added (some (with_entry number)) true 8 out.old out.new writer result }
{
    callfilter::callfilter_list(out, writer, number)
}

// Begins a rule for the number that was listed last.
#[unsafe(no_mangle)]
pub extern "C" fn callfilter_begin_rule(out: &mut [u8], writer: Writer) -> Writer
    ensures { Added (some with_rule) (not (eqb writer.entry 0)) 4 out.old out.new writer result }
{
    callfilter::callfilter_begin_rule(out, writer)
}

// Adds a condition to the rule that was begun last.
#[unsafe(no_mangle)]
pub extern "C" fn callfilter_add_condition(
    out: &mut [u8],
    writer: Writer,
    index: u8,
    width: u8,
    operator: u8,
    value: u64,
    mask: u64,
) -> Writer
    ensures { Added (condition_part index width operator value mask) (not (eqb writer.rule 0)) 24 out.old out.new writer result }
{
    callfilter::callfilter_add_condition(out, writer, index, width, operator, value, mask)
}

// Reads the head of a set.
#[unsafe(no_mangle)]
pub extern "C" fn callfilter_read_head(set: &[u8]) -> Head
    ensures { result ≡ readers.head_of set.now }
{
    callfilter::callfilter_read_head(set)
}

// Reads the number that is listed next, once all rules of the last one are read.
#[unsafe(no_mangle)]
pub extern "C" fn callfilter_next_entry(set: &[u8], cursor: Cursor) -> Listed
    ensures { result ≡ readers.entry_of set.now cursor }
{
    callfilter::callfilter_next_entry(set, cursor)
}

// Goes on to the next rule, once all conditions of the last one are read.
#[unsafe(no_mangle)]
pub extern "C" fn callfilter_next_rule(set: &[u8], cursor: Cursor) -> Cursor
    ensures { result ≡ readers.rule_of set.now cursor }
{
    callfilter::callfilter_next_rule(set, cursor)
}

// Reads the next condition of the open rule.
#[unsafe(no_mangle)]
pub extern "C" fn callfilter_next_condition(set: &[u8], cursor: Cursor) -> Compared
    ensures { result ≡ readers.compared_of set.now cursor }
{
    callfilter::callfilter_next_condition(set, cursor)
}

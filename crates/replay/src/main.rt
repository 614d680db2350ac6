// Replays stored vectors: compiles each set into a buffer of its room and compares the answer, the filter and the bytes behind it.
// It needs nothing but itself and its input, so that vectors can be tried where neither Rust nor Python is at hand.
#![tactic(auto)]

ghost use Rattle.std.specs.Prelude.{◌≡◌, true, ◌≤◌, length, OnOk};
ghost use Rattle.replay.specs.Pattern as patterns;

use definitions::Answer;
use std::io;
use std::io::Read;

// No vector has a larger set, filter or room: one that does is taken as cut short.
const LARGEST_SET: usize = 65536;

const LARGEST_FILTER: usize = 32768;

const LARGEST_ROOM: usize = 40000;

// What came next on the input: a vector that passed or failed, or another record.
#[derive(Clone, Copy)]
enum Record {
    Passed,
    Failed,
    // The name of the kind that follows, in so many bytes at the start of the set's space.
    Kind(usize),
    End,
}

// The input ends, or has a vector that is too large, where a record should stand.
#[derive(Clone, Copy)]
struct Cut;

// The byte at a place of a buffer before a set is compiled into it.
fn pattern(at: usize) -> u8
    ensures { result ≡ patterns.pattern_at at }
{
    (255 - at % 251) as u8
}

fn fill(out: &mut [u8])
    ensures { patterns.Untouched 0 out.new }
{
    for i in 0..out.len() {
        out[i] = pattern(i);
    }
}

// Whether the bytes from a place on are as `fill` left them.
fn untouched(out: &[u8], from: usize) -> bool
    ensures { result ≡ true → patterns.Untouched from out.now }
{
    for i in from..out.len() {
        if out[i] != pattern(i) {
            return false;
        }
    }
    true
}

// Whether a set compiles into a buffer as its vector says. The promise is that no vector passes unless all of it holds; one that
// fails without a reason is seen in what is printed.
fn holds(set: &[u8], filter: &[u8], wanted: Answer, out: &mut [u8]) -> bool
    ensures { result ≡ true → patterns.Passed set.now filter.now wanted out.new }
{
    fill(out);
    let answer = callfilter::callfilter_compile(set, out);
    let size = filter.len();
    answer == wanted
        && size <= out.len()
        && check::same(&out[..size], filter)
        && untouched(out, size)
}

// Reads so many bytes to the start of a space, if it has room for them.
fn fetch(input: &mut impl Read, space: &mut [u8], count: usize) -> Result<(), Cut>
    ensures { OnOk result (count ≤ length space.new) }
{
    if space.len() < count {
        return Err(Cut);
    }
    match input.read_exact(&mut space[..count]) {
        Ok(()) => Ok(()),
        Err(_) => Err(Cut),
    }
}

// The answer that a vector's first numbers tell.
fn told(head: &[u8; 36]) -> Answer {
    Answer {
        code: bpf::u32_at(head, 12),
        count: bpf::u32_at(head, 16),
        entry: bpf::u32_at(head, 20),
        rule: bpf::u32_at(head, 24),
        condition: bpf::u32_at(head, 28),
    }
}

// Reads a vector behind its first numbers, and tries it.
fn vector(
    input: &mut impl Read,
    head: &[u8; 36],
    sets: &mut [u8],
    filters: &mut [u8],
    outs: &mut [u8],
) -> Result<Record, Cut> {
    let set_size = bpf::u32_at(head, 4) as usize;
    let room = bpf::u32_at(head, 8) as usize;
    let filter_size = bpf::u32_at(head, 32) as usize;
    fetch(input, sets, set_size)?;
    fetch(input, filters, filter_size)?;
    if outs.len() < room {
        return Err(Cut);
    }
    let set = &sets[..set_size];
    let filter = &filters[..filter_size];
    if holds(set, filter, told(head), &mut outs[..room]) {
        Ok(Record::Passed)
    } else {
        Ok(Record::Failed)
    }
}

// Reads the next record. The spaces are arrays here, so that their lengths need no proof in the loop that lends them.
fn next(
    input: &mut impl Read,
    sets: &mut [u8; LARGEST_SET],
    filters: &mut [u8; LARGEST_FILTER],
    outs: &mut [u8; LARGEST_ROOM],
) -> Result<Record, Cut> {
    let mut head = [0u8; 36];
    fetch(input, &mut head, 36)?;
    match bpf::u32_at(&head, 0) {
        0 => vector(input, &head, sets, filters, outs),
        1 => {
            let size = bpf::u32_at(&head, 4) as usize;
            fetch(input, sets, size)?;
            Ok(Record::Kind(size))
        }
        2 => Ok(Record::End),
        _ => Err(Cut),
    }
}

fn write_name(rt: &impl Print, sets: &[u8; LARGEST_SET], size: usize) -> io::Result<()> {
    let name: &[u8] = sets;
    if size <= name.len() {
        rt.write_all(&name[..size])?;
        rt.print(": ")?;
    }
    Ok(())
}

fn write_counts(rt: &impl Print, passed: u64, failed: u64) -> io::Result<()> {
    println!(rt; "{passed} passed, {failed} failed")
}

fn write_cut(rt: &impl Print) -> io::Result<()> {
    println!(rt; "the vectors are cut short")
}

fn main(rt: HostRuntime) -> io::Result<()> {
    let mut input = rt.stdin();
    let mut sets = [0u8; LARGEST_SET];
    let mut filters = [0u8; LARGEST_FILTER];
    let mut outs = [0u8; LARGEST_ROOM];
    let mut started = false;
    let mut passed: u64 = 0;
    let mut failed: u64 = 0;
    let mut all_passed: u64 = 0;
    let mut all_failed: u64 = 0;
    // Nothing says that an input ends and the loop has to, so it has more turns than there are records.
    for _ in 0u64..1000000 {
        match next(&mut input, &mut sets, &mut filters, &mut outs) {
            Ok(Record::Passed) => {
                passed += 1;
                all_passed += 1;
            }
            Ok(Record::Failed) => {
                failed += 1;
                all_failed += 1;
            }
            Ok(Record::Kind(size)) => {
                if started {
                    write_counts(&rt, passed, failed)?;
                }
                started = true;
                passed = 0;
                failed = 0;
                write_name(&rt, &sets, size)?;
            }
            Ok(Record::End) => {
                write_counts(&rt, passed, failed)?;
                return write_counts(&rt, all_passed, all_failed);
            }
            Err(Cut) => {
                break;
            }
        }
    }
    write_cut(&rt)
}

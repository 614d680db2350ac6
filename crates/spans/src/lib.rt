// The runs of listed numbers that a search compares with, read one by one from a rule set's bytes, which the caller has shown to be in
// the format.
#![tactic(auto)]

ghost use Rattle.std.specs.Prelude.{◌≡◌, ◌&&◌, ◌+◌, ◌≤◌, eqb, length, take, drop};
ghost use Rattle.definitions.specs.Word.{number_at};
ghost use Rattle.definitions.specs.SearchForm.{singles, few};
ghost use Rattle.set_view.specs.Parts.{Reach, entries_past, plain_here};
ghost use Rattle.spans.specs.Spans.{spans_from, Stands, Passes, Gathers, IsNext};

// How many single numbers are compared one after the other at most.
const CHAIN_SPANS: usize = 3;

// Where entries are read: the place, how many are left, and where the code of their rules begins, counted from the filter's end.
#[derive(Clone, Copy, Debug, PartialEq, Eq)]
pub struct Standing {
    pub at: usize,
    pub left: u32,
    pub place: usize,
}

// A span as it is read: its numbers, the place of its rules, if it has any, and the cursor behind it.
#[derive(Clone, Copy, Debug, PartialEq, Eq)]
pub struct Run {
    pub first: u32,
    pub last: u32,
    pub place: Option<usize>,
    pub next: Standing,
}

// Passes the first entry.
fn pass(s: &[u8], c: Standing) -> Standing
    requires { Stands s.now c × (c.left ≡ 0 → ⊥) }
    ensures { Passes s.now c result }
{
    let rules = bpf::u32_at(s, c.at + 4);
    let body = search_bodies::body_length(s, rules, c.at + 8);
    Standing {
        at: body.past,
        left: c.left - 1,
        place: c.place - body.count,
    }
}

// Whether an entry is left, has no rules, and is listed right behind the number `last`.
fn follows(s: &[u8], left: u32, at: usize, last: u32) -> bool
    requires { Reach s.now (entries_past s.now left at) }
    ensures { result ≡ (plain_here s.now left at && eqb (number_at 4 s.now at) (last + 1)) }
{
    set_view::plain_here(s, left, at) && u64::from(bpf::u32_at(s, at)) == u64::from(last) + 1
}

// The run of a number without rules, the cursor standing behind its entry.
fn gather(s: &[u8], c: Standing, first: u32) -> Run
    requires { Stands s.now c }
    ensures { Gathers s.now c first result }
{
    let mut last = first;
    let mut at = c.at;
    let mut left = c.left;
    while follows(s, left, at, last) {
        last = bpf::u32_at(s, at);
        at += 8;
        left -= 1;
    }
    Run {
        first,
        last,
        place: None,
        next: Standing { at, left, ..c },
    }
}

// The first run.
pub fn next_run(s: &[u8], c: Standing) -> Run
    requires { Stands s.now c × (c.left ≡ 0 → ⊥) }
    ensures { IsNext s.now c result }
{
    let number = bpf::u32_at(s, c.at);
    let rules = bpf::u32_at(s, c.at + 4);
    if rules == 0 {
        // an entry without rules is eight bytes, and has no code here
        let next = Standing {
            at: c.at + 8,
            left: c.left - 1,
            ..c
        };
        gather(s, next, number)
    } else {
        Run {
            first: number,
            last: number,
            place: Some(c.place),
            next: pass(s, c),
        }
    }
}

// How many runs there are.
pub fn count_runs(s: &[u8], c: Standing) -> usize
    requires { Stands s.now c }
    ensures { (result ≡ length (spans_from s.now c)) × (result ≤ c.left) }
{
    let mut count: usize = 0;
    let mut here = c;
    while here.left != 0 {
        here = next_run(s, here).next;
        count += 1;
    }
    count
}

// Passes n runs.
pub fn skip(s: &[u8], c: Standing, n: usize) -> Standing
    requires { Stands s.now c × (n ≤ length (spans_from s.now c)) }
    ensures { Stands s.now result × (spans_from s.now result ≡ drop n (spans_from s.now c)) × (result.place ≤ c.place) }
{
    let mut here = c;
    for _ in 0..n {
        here = next_run(s, here).next;
    }
    here
}

// Whether the first n runs are one number each.
fn all_single(s: &[u8], c: Standing, n: usize) -> bool
    requires { Stands s.now c × (n ≤ length (spans_from s.now c)) }
    ensures { result ≡ singles (take n (spans_from s.now c)) }
{
    let mut here = c;
    for _ in 0..n {
        let run = next_run(s, here);
        if run.first != run.last {
            return false;
        }
        here = run.next;
    }
    true
}

// Whether the first n runs are compared one after the other.
pub fn is_few(s: &[u8], c: Standing, n: usize) -> bool
    requires { Stands s.now c × (n ≤ length (spans_from s.now c)) }
    ensures { result ≡ few (take n (spans_from s.now c)) }
{
    n <= 1 || (n <= CHAIN_SPANS && all_single(s, c, n))
}

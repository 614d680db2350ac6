// The search form of a filter from a rule set's bytes, which the caller has shown to be in the format. The code of the rules stands at
// the filter's end, and the tree of comparisons is written in front of it from the back. Nothing is written where there is no room, so
// that counting is writing into no room at all.
#![tactic(auto)]

ghost use Rattle.std.specs.Prelude.{◌≡◌, List, true, false, not, ◌&&◌, ℕ, ◌+◌, ◌-◌, ◌*◌, ◌≤◌, ◌<◌, length, take};
ghost use Rattle.definitions.specs.Word.{number_at};
ghost use Rattle.definitions.specs.Machine.{filter_bytes};
ghost use Rattle.definitions.specs.Answer.{short_with, turns_long, search_size};
ghost use Rattle.bpf.specs.Place.{place, place_before};
ghost use Rattle.definitions.specs.SearchForm.{singles, in_front, near_place, near_return, leaf, to_mismatch, plant, compare_first, ends_by, up_to, link, chain, grow, search_form};
ghost use Rattle.search_bodies.specs.Here.{bodies_here};
ghost use Rattle.spans.specs.Spans.{spans_from, span_of, destination, Stands, Within};
ghost use Rattle.set_view.specs.Parts.{Readable, entries_past, most_bytes, set_here};
ghost use Rattle.search_writer.specs.Forms.{Inside, place_of, Ends, Reaches, Ready, Grew, Makes, to_return, open_if, planted_here, first_here};
ghost use Rattle.search_writer.specs.Compared.{code_of, kind_of};

use definitions::Instruction;
use set_view::Actions;
use spans::{Run, Standing};

// A filter of so many instructions is too long.
const TOO_MANY: usize = 4097;

// How far a comparison may have to jump.
const JUMP_REACH: usize = 250;

// How far it is at most from where a block begins to its mismatch return.
const BLOCK_REACH: usize = 200;

// How many runs a block has at most.
const BLOCK_SPANS: usize = 5;

// How often the number of entries is halved at most: a set has fewer than 2^17.
const HALVINGS: u32 = 17;

// How many instructions there are, and, counted from the filter's end, the places of the nearest returns, if there are any, and the place
// where they are entered.
#[derive(Clone, Copy, Debug, PartialEq, Eq)]
pub struct Marks {
    pub count: usize,
    pub hit: Option<usize>,
    pub miss: Option<usize>,
    pub at: usize,
}

// How many instructions there are once a place can be jumped to, and where that is.
#[derive(Clone, Copy, Debug, PartialEq, Eq)]
pub struct Reached {
    pub count: usize,
    pub at: usize,
}

// Writes an instruction in front of `count` others that end at a place, if there is room for it. It can be jumped to.
fn put_front(out: &mut [u8], end: usize, count: usize, i: Instruction) -> Reached
    requires { (end ≤ length out.old) × (count < 16777216) }
    ensures { Reaches end count out.old out.new result (in_front i) × (0 < result.at) }
{
    let before = 8 * count + 8;
    if before <= end {
        bpf::put(out, end - before, i);
    }
    Reached {
        count: count + 1,
        at: count + 1,
    }
}

// A place is made one that a comparison can jump to.
fn near_place(out: &mut [u8], end: usize, count: usize, at: usize) -> Reached
    requires { (end ≤ length out.old) × (count < 16777216) × (at ≤ count) }
    ensures { Reaches end count out.old out.new result (near_place at) }
{
    let far = count - at;
    if far <= JUMP_REACH {
        Reached { count, at }
    } else {
        put_front(out, end, count, bpf::jump_by(far as u32))
    }
}

// A return of an action is made one that a comparison can jump to, the last one, if there is one, being at a place.
fn near_return(
    out: &mut [u8],
    end: usize,
    count: usize,
    at: Option<usize>,
    z: usize,
    action: u32,
) -> Reached
    requires { (end ≤ length out.old) × (count < 16777216) × Inside count at × (z ≤ 250) }
    ensures { Reaches end count out.old out.new result (near_return z action (place_of at)) × (0 < result.at) }
{
    match at {
        Some(at) if count - at <= z => Reached { count, at },
        _ => put_front(out, end, count, bpf::give(action)),
    }
}

// Where the filter ends in the buffer, and its actions.
#[derive(Clone, Copy, Debug, PartialEq, Eq)]
pub struct Plan {
    pub end: usize,
    pub actions: Actions,
}

// A mismatch return within z.
fn put_mismatch(out: &mut [u8], plan: Plan, k: Marks, z: usize) -> Marks
    requires { Ready plan.end 1 k out.old × (z ≤ 250) }
    ensures { Grew 1 k result × Makes plan.end k result out.old out.new (to_return z plan.actions.mismatch) }
{
    let spot = near_return(out, plan.end, k.count, k.miss, z, plan.actions.mismatch);
    Marks {
        count: spot.count,
        miss: Some(spot.at),
        at: spot.at,
        ..k
    }
}

// Where a run's numbers go: to the place of its rules, or, if it has none, to a match return.
fn put_leaf(out: &mut [u8], plan: Plan, k: Marks, place: Option<usize>) -> Marks
    requires { Ready plan.end 1 k out.old × Within k.count place }
    ensures { Grew 1 k result × Makes plan.end k result out.old out.new (plant plan.actions.on_match plan.actions.mismatch (leaf (destination place))) }
{
    match place {
        None => {
            let spot = near_return(
                out,
                plan.end,
                k.count,
                k.hit,
                JUMP_REACH,
                plan.actions.on_match,
            );
            Marks {
                count: spot.count,
                hit: Some(spot.at),
                at: spot.at,
                ..k
            }
        }
        Some(place) => {
            let spot = near_place(out, plan.end, k.count, place);
            Marks {
                count: spot.count,
                at: spot.at,
                ..k
            }
        }
    }
}

// How a call's number is compared.
#[derive(Clone, Copy, Debug, PartialEq, Eq)]
enum Comparison {
    Equal,
    AtLeast,
    Above,
}

impl Comparison {
    // The code of the instruction that compares so.
    fn code(self) -> u16
        ensures { result ≡ code_of self }
    {
        match self {
            Comparison::Equal => 0x15,
            Comparison::AtLeast => 0x35,
            Comparison::Above => 0x25,
        }
    }
}

// A comparison with n in front, which goes to a place or else to where the form is entered.
fn compare(
    out: &mut [u8],
    plan: Plan,
    k: Marks,
    comparison: Comparison,
    n: u32,
    hit: usize,
) -> Marks
    requires { Ready plan.end 2 k out.old × (hit ≤ k.count) × (k.at ≤ k.count) × (k.count ≤ k.at + 250) }
    ensures { Grew 2 k result × Makes plan.end k result out.old out.new (compare_first (kind_of comparison) n hit) }
{
    let spot = near_place(out, plan.end, k.count, hit);
    let i = Instruction {
        code: comparison.code(),
        jt: (spot.count - spot.at) as u8,
        jf: (spot.count - k.at) as u8,
        k: n,
    };
    let front = put_front(out, plan.end, spot.count, i);
    Marks {
        count: front.count,
        at: front.at,
        ..k
    }
}

// Whether no number above n comes here: those that do are below `below`, if that is not 0.
fn ends_by(below: u32, n: u32) -> bool
    ensures { result ≡ ends_by below n }
{
    below != 0 && below - 1 <= n
}

// A run for numbers from its first on.
fn put_up_to(out: &mut [u8], plan: Plan, k: Marks, run: Run, below: u32) -> Marks
    requires { Ready plan.end 4 k out.old × Within k.count run.place }
    ensures { Grew 4 k result × Makes plan.end k result out.old out.new
        (plant plan.actions.on_match plan.actions.mismatch (up_to below (span_of run) (leaf to_mismatch))) }
{
    if ends_by(below, run.last) {
        put_leaf(out, plan, k, run.place)
    } else {
        let miss = put_mismatch(out, plan, k, JUMP_REACH);
        let hit = put_leaf(out, plan, miss, run.place);
        compare(out, plan, hit, Comparison::Above, run.last, miss.at)
    }
}

// A run of several numbers. Those that come here are `from` or above.
fn put_interval(out: &mut [u8], plan: Plan, k: Marks, run: Run, from: u32, below: u32) -> Marks
    requires { Ready plan.end 7 k out.old × Within k.count run.place × (run.first ≡ run.last → ⊥) }
    ensures { Grew 7 k result × Makes plan.end k result out.old out.new
        (plant plan.actions.on_match plan.actions.mismatch (link from below (span_of run) (leaf to_mismatch))) }
{
    let inner = put_up_to(out, plan, k, run, below);
    if run.first <= from {
        inner
    } else {
        let miss = put_mismatch(out, plan, inner, JUMP_REACH);
        compare(out, plan, miss, Comparison::AtLeast, run.first, inner.at)
    }
}

// The first n runs, one after the other: one run, or several of one number each.
fn put_chain(
    out: &mut [u8],
    plan: Plan,
    s: &[u8],
    c: Standing,
    n: usize,
    from: u32,
    below: u32,
    k: Marks,
) -> Marks
    requires stands { Stands s.now c × (n ≤ length (spans_from s.now c)) × (c.place ≤ k.count)
        × (1 < n → singles (take n (spans_from s.now c)) ≡ true) }
    requires ready { Ready plan.end (3 * n + 4) k out.old }
    ensures { Grew (3 * n + 4) k result × Makes plan.end k result out.old out.new
        (plant plan.actions.on_match plan.actions.mismatch (chain from below (take n (spans_from s.now c)))) }
{
    if n == 0 {
        return put_mismatch(out, plan, k, JUMP_REACH);
    }
    let run = spans::next_run(s, c);
    if run.first != run.last {
        return put_interval(out, plan, k, run, from, below);
    }
    let hit = put_leaf(out, plan, k, run.place);
    let miss = put_chain(out, plan, s, run.next, n - 1, from, below, hit);
    compare(out, plan, miss, Comparison::Equal, run.first, hit.at)
}

// Begins a block around few enough runs that no block stands around yet.
fn open_block(out: &mut [u8], plan: Plan, k: Marks, inside: bool, fits: bool) -> Marks
    requires { Ready plan.end 1 k out.old }
    ensures { Inside result.count result.hit × Inside result.count result.miss × (k.count ≤ result.count) × (result.count ≤ k.count + 1)
        × Makes plan.end k result out.old out.new (open_if (fits && not inside) plan.actions.mismatch) }
{
    if fits && !inside {
        put_mismatch(out, plan, k, BLOCK_REACH)
    } else {
        k
    }
}

// The tree of the first n runs, which are halved until few are left. Those that come here are `from` or above, and below `below`, if
// that is not 0.
fn put_tree(
    out: &mut [u8],
    plan: Plan,
    s: &[u8],
    c: Standing,
    n: usize,
    inside: bool,
    from: u32,
    below: u32,
    k: Marks,
) -> Marks
    requires stands { Stands s.now c × (n ≤ length (spans_from s.now c)) × (c.place ≤ k.count) × (n ≡ 0 → ⊥) }
    requires ready { Ready plan.end (11 * n) k out.old }
    ensures { Grew (11 * n - 3) k result × ((fuel : ℕ) → n ≤ fuel → Makes plan.end k result out.old out.new
        (plant plan.actions.on_match plan.actions.mismatch (grow fuel inside from below (take n (spans_from s.now c))))) }
{
    if spans::is_few(s, c, n) {
        let start = open_block(out, plan, k, inside, true);
        return put_chain(out, plan, s, c, n, from, below, start);
    }
    let half = n / 2;
    let upper = spans::skip(s, c, half);
    let middle = bpf::u32_at(s, upper.at);
    let fits = n <= BLOCK_SPANS;
    let start = open_block(out, plan, k, inside, fits);
    let within = inside || fits;
    let hit = put_tree(out, plan, s, upper, n - half, within, middle, below, start);
    let miss = put_tree(out, plan, s, c, half, within, from, middle, hit);
    compare(out, plan, miss, Comparison::AtLeast, middle, hit.at)
}

// Writes the tree of the n entries in front of the code of their rules, which has `total` instructions and ends at a place, and answers
// how many there are then. With nothing listed there is no tree.
fn put_planted(out: &mut [u8], end: usize, s: &[u8], n: u32, total: usize) -> usize
    requires end_in_bounds { (end ≤ length out.old) × (16 ≤ length s.now) × (length s.now ≤ most_bytes) × (entries_past s.now n 16 ≤ length s.now) }
    requires total_value { (total ≡ length (bodies_here s.now n 16)) × (total ≤ 1048577) }
    ensures { (result ≤ 16777216) × ((z : List ℕ) → Ends z end (bodies_here s.now n 16) out.old
        → (result ≡ length (planted_here s.now n)) × Ends z end (planted_here s.now n) out.new) }
{
    if n == 0 {
        return total;
    }
    let plan = Plan {
        end,
        actions: set_view::actions_here(s),
    };
    let c = Standing {
        at: 16,
        left: n,
        place: total,
    };
    // the code of the rules ends in a mismatch return
    let ground = Marks {
        count: total,
        hit: None,
        miss: Some(1),
        at: 1,
    };
    let runs = spans::count_runs(s, c);
    let tree = put_tree(out, plan, s, c, runs, false, 0, 0, ground);
    tree.count
}

// Writes the tree of the n entries and the code of their rules, so that they end where a filter of `count` instructions does.
fn put_searched(out: &mut [u8], s: &[u8], n: u32, count: usize)
    requires in_bounds { (16 ≤ length s.now) × (length s.now ≤ most_bytes) × (entries_past s.now n 16 ≤ length s.now) }
    requires n_len_bound { (length (planted_here s.now n) ≤ count) × (8 * count ≤ length out.old) }
    ensures { out.new ≡ place_before out.old (8 * count) (filter_bytes (planted_here s.now n)) }
{
    let actions = set_view::actions_here(s);
    let total = search_bodies::bodies_length(s, n, 16);
    let end = 8 * count;
    search_bodies::put_bodies(out, s, n, 16, end - 8 * total, actions);
    put_planted(out, end, s, n, total);
}

// How many instructions the search form of a rule set's first n entries has, the code of their rules having `total`.
fn length_with(s: &[u8], n: u32, total: usize) -> usize
    requires readable { Readable s.now × (n ≤ number_at 4 s.now 12) }
    requires total_value { (total ≡ length (bodies_here s.now n 16)) × (total ≤ 1048577) }
    ensures { result ≡ search_size (first_here s.now n) }
{
    let behind = put_planted(&mut [], 0, s, n, total);
    head::head_length(bpf::u32_at(s, 0), n) + behind
}

// The same, the code of the rules being counted first.
pub fn search_length(s: &[u8], n: u32) -> usize
    requires { Readable s.now × (n ≤ number_at 4 s.now 12) }
    ensures { result ≡ search_size (first_here s.now n) }
{
    let total = search_bodies::bodies_length(s, n, 16);
    length_with(s, n, total)
}

// Whether the search form of a set's first n entries is short enough, where that of all entries is not.
fn is_short(s: &[u8], n: u32) -> bool
    requires { Readable s.now × (short_with search_size (set_here s.now) (set_here s.now).entries ≡ false) }
    ensures { result ≡ short_with search_size (set_here s.now) (take n (set_here s.now).entries) }
{
    // where there are not so many, all are asked about
    if bpf::u32_at(s, 12) < n {
        return false;
    }
    let total = search_bodies::bodies_length(s, n, 16);
    // the tree only adds to the code of the rules, and making it takes longer
    total < TOO_MANY && length_with(s, n, total) < TOO_MANY
}

// An entry with which the search form gets too long, where that of all of them is: found by halves.
pub fn long_entry(s: &[u8]) -> u32
    requires { Readable s.now × (short_with search_size (set_here s.now) (set_here s.now).entries ≡ false) }
    ensures { result ≡ turns_long search_size (set_here s.now) }
{
    let mut short: u32 = 0;
    let mut width: u32 = 131072;
    for _ in 0..HALVINGS {
        width /= 2;
        if is_short(s, short + width) {
            short += width;
        }
    }
    short
}

// Writes the search form of a rule set at the buffer's start. It has `count` instructions.
pub fn put_search(out: &mut [u8], s: &[u8], count: usize)
    requires readable { Readable s.now }
    requires count_value { (count ≡ length (search_form (set_here s.now))) × (8 * count ≤ length out.old) }
    ensures { out.new ≡ place out.old 0 (filter_bytes (search_form (set_here s.now))) }
{
    let n = bpf::u32_at(s, 12);
    put_searched(out, s, n, count);
    head::put_head(out, bpf::u32_at(s, 0), n);
}

// What the first number of a rule set says, architecture and flag, and the head of its filter, which stands in front of the numbers in
// both forms of output.
#![tactic(auto)]

ghost use Rattle.std.specs.Prelude.{◌≡◌, [], ◌∷◌, ◌*◌, ◌≤◌, length};
ghost use Rattle.definitions.specs.Machine.{filter_bytes};
ghost use Rattle.definitions.specs.RuleSet.{architecture_word, kill_process};
ghost use Rattle.definitions.specs.Emitted as emitted;
ghost use Rattle.definitions.specs.Emitted.{guard, head_code};
ghost use Rattle.bpf.specs.Place.{place};
ghost use Rattle.set_view.specs.Names.{guards_by, named_architecture};

use bpf::{give, if_any_bit, if_equal, load};

// The bit that the numbers of the second table have, and the number of a call that was cancelled, which is of no table.
const SECOND_TABLE: u32 = 0x40000000;

const CANCELLED: u32 = 0xffffffff;

const KILL_PROCESS: u32 = 0x80000000;

// How many instructions stand in front of n entries.
#[tactic(auto, using(crate::proofs::Heads::head_guarded, crate::proofs::Heads::head_none, crate::proofs::Heads::head_some))]
pub fn head_length(a: u32, n: u32) -> usize
    ensures { (result ≡ length (head_code (named_architecture a) (guards_by a) n)) × (result ≤ 7) }
{
    if set_view::guards(a) {
        7
    } else if n == 0 {
        3
    } else {
        4
    }
}

// Writes the test of the architecture, which stands at 4 in the call data.
#[tactic(auto, using(bpf::proofs::Buffer::put_3))]
fn put_architecture(out: &mut [u8], a: u32)
    requires { 24 ≤ length out.old }
    ensures { out.new ≡ place out.old 0
        (filter_bytes (emitted.load 4 ∷ emitted.if_equal (architecture_word (named_architecture a)) 1 0 ∷ emitted.return kill_process ∷ [])) }
{
    bpf::put(out, 0, load(4));
    bpf::put(out, 8, if_equal(set_view::architecture_word(a), 1, 0));
    bpf::put(out, 16, give(KILL_PROCESS));
}

// Writes the guard against numbers of the second table, behind the load of the number.
#[tactic(auto, using(bpf::proofs::Buffer::put_3))]
fn put_guard(out: &mut [u8])
    requires { 56 ≤ length out.old }
    ensures { out.new ≡ place out.old 32 (filter_bytes guard) }
{
    bpf::put(out, 32, if_any_bit(SECOND_TABLE, 0, 2));
    bpf::put(out, 40, if_equal(CANCELLED, 1, 0));
    bpf::put(out, 48, give(KILL_PROCESS));
}

// Writes what stands in front of n entries, and answers the place behind it. The number, which stands at 0 in the call data, is loaded
// where it is looked at.
#[tactic(auto, using(crate::proofs::Heads::head_guarded, crate::proofs::Heads::head_none, crate::proofs::Heads::head_some, crate::proofs::Heads::head_least, crate::proofs::Heads::put_load, crate::proofs::Heads::put_guarded))]
pub fn put_head(out: &mut [u8], a: u32, n: u32) -> usize
    requires { 8 * length (head_code (named_architecture a) (guards_by a) n) ≤ length out.old }
    ensures { (out.new ≡ place out.old 0 (filter_bytes (head_code (named_architecture a) (guards_by a) n)))
        × (result ≡ 8 * length (head_code (named_architecture a) (guards_by a) n)) }
{
    put_architecture(out, a);
    if set_view::guards(a) {
        bpf::put(out, 24, load(0));
        put_guard(out);
        56
    } else if n == 0 {
        24
    } else {
        bpf::put(out, 24, load(0));
        32
    }
}

// One comparison of an argument: read from its bytes, and as instructions, which are written backwards from their end: how far a
// condition jumps depends on what stands behind it. Each half of the argument takes two or three of them.
#![tactic(auto)]

ghost use Rattle.std.specs.Prelude.{◌≡◌, true, false, [], ◌∷◌, ℕ, ◌+◌, ◌*◌, ◌≤◌, ◌<◌, length};
ghost use Rattle.definitions.specs.Word as word;
ghost use Rattle.definitions.specs.Emitted as emitted;
ghost use Rattle.definitions.specs.Emitted.{if_equal, mask_by, condition_code};
ghost use Rattle.bpf.specs.Place.{PutBefore};
ghost use Rattle.condition.specs.Shape as shapes;
ghost use Rattle.condition.specs.Shape.{masked, high_code};

use bpf::{if_equal, if_greater, mask_by};
use definitions::{Condition, Instruction, Operator, Width};

fn high(x: u64) -> u32
    ensures { result ≡ word.high x }
{
    (x / 4294967296) as u32
}

fn low(x: u64) -> u32
    ensures { result ≡ word.low x }
{
    (x % 4294967296) as u32
}

// Loads a word of the argument at index; that of argument 0 stands at `first`.
fn load_word(index: u8, first: u32) -> Instruction
    requires { first < 256 }
    ensures { result ≡ emitted.load (first + 8 * index) }
{
    bpf::load(first + 8 * u32::from(index))
}

// Writes instructions so that they end at a place, and answers the place where they begin.
#[tactic(auto, using(bpf::proofs::Buffer::put_next, bpf::proofs::Buffer::put_at))]
fn put_all<const N: usize>(out: &mut [u8], end: usize, instructions: [Instruction; N]) -> usize
    requires { (8 * N ≤ end) × (end ≤ length out.old) }
    ensures { PutBefore out.old end instructions.entry out.new result }
{
    let at = end - 8 * N;
    let mut next = at;
    for instruction in instructions {
        bpf::put(out, next, instruction);
        next += 8;
    }
    at
}

// What is asked of an operator. Each is a function by itself, and a condition is written by these and not operator by operator: that makes
// code with few jumps, which matters where operators change from condition to condition.

// Whether both words are masked first.
#[tactic(auto, unfolding(crate::specs::Shape::masked))]
fn is_masked(operator: Operator) -> bool
    ensures { result ≡ shapes.masked operator }
{
    matches!(operator, Operator::MaskedEq)
}

// Whether the order of the high words can decide.
#[tactic(auto, unfolding(crate::specs::Shape::ordered))]
fn is_ordered(operator: Operator) -> bool
    ensures { result ≡ shapes.ordered operator }
{
    matches!(
        operator,
        Operator::Ge | Operator::Gt | Operator::Le | Operator::Lt
    )
}

// Whether the comparison fails where the jump on the low words is taken.
#[tactic(auto, unfolding(crate::specs::Shape::turned))]
fn is_turned(operator: Operator) -> bool
    ensures { result ≡ shapes.turned operator }
{
    matches!(operator, Operator::Le | Operator::Lt | Operator::Ne)
}

// The code of that jump.
#[tactic(auto, unfolding(crate::specs::Shape::jump_code))]
fn jump_code(operator: Operator) -> u16
    ensures { result ≡ shapes.jump_code operator }
{
    match operator {
        Operator::Eq | Operator::MaskedEq | Operator::Ne => 0x15,
        Operator::Gt | Operator::Le => 0x25,
        Operator::Ge | Operator::Lt => 0x35,
    }
}

// Writes a masked comparison of one half. The failing side is `f` away.
fn put_masked_half(
    out: &mut [u8],
    end: usize,
    load: Instruction,
    value: u32,
    mask: u32,
    f: u8,
) -> usize
    requires { (24 ≤ end) × (end ≤ length out.old) }
    ensures { PutBefore out.old end (load ∷ mask_by mask ∷ if_equal value 0 f ∷ []) out.new result }
{
    put_all(out, end, [load, mask_by(mask), if_equal(value, 0, f)])
}

// Writes a masked comparison.
#[tactic(auto, using(crate::proofs::Shapes::masked_dword, crate::proofs::Shapes::masked_qword, crate::proofs::Shapes::masked_fits, bpf::proofs::Buffer::put_both))]
fn put_masked(out: &mut [u8], end: usize, q: Condition, f: u8) -> usize
    requires { (f ≤ 252) × (8 * length (condition_code q f) ≤ end) × (end ≤ length out.old) × (masked q.operator ≡ true) }
    ensures { PutBefore out.old end (condition_code q f) out.new result }
{
    let value = q.value & q.mask;
    let next = put_masked_half(out, end, load_word(q.index, 16), low(value), low(q.mask), f);
    match q.width {
        Width::Dword => next,
        Width::Qword => put_masked_half(
            out,
            next,
            load_word(q.index, 20),
            high(value),
            high(q.mask),
            f + 3,
        ),
    }
}

// Writes the high words compared, for which the low words' jump goes `t` or `f` on: their order decides, where it may; else they have to
// be equal. The instruction that compares their order is overwritten where there is none, which is faster than asking first.
#[tactic(auto, using(crate::proofs::Shapes::high_two, bpf::proofs::Buffer::put_over, bpf::proofs::Buffer::put_in_front, bpf::proofs::Buffer::put_at), unfolding(crate::specs::Shape::high_code))]
fn put_high(
    out: &mut [u8],
    end: usize,
    load: Instruction,
    v: u32,
    ordered: bool,
    t: u8,
    f: u8,
) -> usize
    requires { (t ≤ 252) × (f ≤ 252) × (8 * length (high_code load v ordered t f) ≤ end) × (end ≤ length out.old) }
    ensures { PutBefore out.old end (high_code load v ordered t f) out.new result }
{
    let at = end - 16;
    bpf::put(out, at, if_greater(v, t + 3, 0));
    bpf::put(out, at + 8, if_equal(v, 0, f + 2));
    let front = if ordered { at - 8 } else { at };
    bpf::put(out, front, load);
    front
}

// Writes a comparison that is not masked.
#[tactic(auto, using(crate::proofs::Shapes::compared_dword, crate::proofs::Shapes::compared_qword, crate::proofs::Shapes::compared_fits, bpf::proofs::Buffer::put_both))]
fn put_compared(out: &mut [u8], end: usize, q: Condition, f: u8) -> usize
    requires { (f ≤ 252) × (8 * length (condition_code q f) ≤ end) × (end ≤ length out.old) × (masked q.operator ≡ false) }
    ensures { PutBefore out.old end (condition_code q f) out.new result }
{
    let (jt, jf) = if is_turned(q.operator) {
        (f, 0)
    } else {
        (0, f)
    };
    let jump = Instruction {
        code: jump_code(q.operator),
        jt,
        jf,
        k: low(q.value),
    };
    let next = put_all(out, end, [load_word(q.index, 16), jump]);
    match q.width {
        Width::Dword => next,
        Width::Qword => put_high(
            out,
            next,
            load_word(q.index, 20),
            high(q.value),
            is_ordered(q.operator),
            jt,
            jf,
        ),
    }
}

// Writes a condition's instructions so that they end at a place, and answers the place where they begin.
pub fn put_condition(out: &mut [u8], end: usize, q: Condition, f: u8) -> usize
    requires { (f ≤ 252) × (8 * length (condition_code q f) ≤ end) × (end ≤ length out.old) }
    ensures { PutBefore out.old end (condition_code q f) out.new result }
{
    if is_masked(q.operator) {
        put_masked(out, end, q, f)
    } else {
        put_compared(out, end, q, f)
    }
}

// How many instructions a condition has: two for each half, and one more where it is masked, or the order of high words decides. Both are
// counted for either width, so that nothing waits for the width.
#[tactic(auto, using(crate::proofs::Shapes::condition_long_lem, crate::proofs::Shapes::length_shaped, crate::proofs::Shapes::ordered_unmasked))]
pub fn condition_length(q: Condition) -> usize
    ensures { ((f : ℕ) → length (condition_code q f) ≡ result) × (2 ≤ result) × (result ≤ 6) }
{
    let masked = usize::from(is_masked(q.operator));
    let ordered = usize::from(is_ordered(q.operator));
    let dword = 2 + masked;
    let qword = 4 + ordered + 2 * masked;
    match q.width {
        Width::Dword => dword,
        Width::Qword => qword,
    }
}

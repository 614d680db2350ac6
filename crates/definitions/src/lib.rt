// The types that definitions, proofs and code share, each declared once. There is no code here:
// what these values mean is said in specs/.
#![tactic(auto)]

// An instruction of classic BPF: struct sock_filter of linux/filter.h.
#[derive(Clone, Copy, Debug, PartialEq, Eq)]
pub struct Instruction {
    pub code: u16,
    pub jt: u8,
    pub jf: u8,
    pub k: u32,
}

// How an argument of a call is compared with a value.
#[derive(Clone, Copy, Debug, PartialEq, Eq)]
pub enum Operator {
    Eq,
    Ge,
    Gt,
    Le,
    Lt,
    MaskedEq,
    Ne,
}

// How much of an argument is compared: its low 32 bits, or all 64.
#[derive(Clone, Copy, Debug, PartialEq, Eq)]
pub enum Width {
    Dword,
    Qword,
}

// One comparison of an argument. The mask is 0 unless the operator is masked eq.
#[derive(Clone, Copy, Debug, PartialEq, Eq)]
pub struct Condition {
    pub index: u8,
    pub width: Width,
    pub operator: Operator,
    pub value: u64,
    pub mask: u64,
}

// What is wrong, and where: the number of the answer, 0 for nothing; the entry, the rule of the entry and the condition of the rule,
// counted from 0, ffffffff where a number does not apply.
#[derive(Clone, Copy, Debug, PartialEq, Eq)]
pub struct Fault {
    pub code: u32,
    pub entry: u32,
    pub rule: u32,
    pub condition: u32,
}

// What compiling answers: a number that says what became of it, how many instructions the filter has, and where the fault is.
#[repr(C)]
#[derive(Clone, Copy, Debug, PartialEq, Eq)]
pub struct Answer {
    pub code: u32,
    pub count: u32,
    pub entry: u32,
    pub rule: u32,
    pub condition: u32,
}

// What asking a filter about a call answers: 0 with the action and the number of instructions executed, 1 for a filter that the kernel
// would not take, 9 for a call that is not 64 bytes.
#[repr(C)]
#[derive(Clone, Copy, Debug, PartialEq, Eq)]
pub struct Outcome {
    pub code: u32,
    pub action: u32,
    pub steps: u32,
}

// What asking a rule set about a call answers: 0 with the action, the answer 1 to 5 or 8 that compiling gives, with the place of its
// fault, or 9 for a call that is not 64 bytes.
#[repr(C)]
#[derive(Clone, Copy, Debug, PartialEq, Eq)]
pub struct Decision {
    pub code: u32,
    pub action: u32,
    pub entry: u32,
    pub rule: u32,
    pub condition: u32,
}

// What stands between two calls that write a set: what became of the last one (0: it was taken), how many bytes are written, and the
// places of the open entry and of the open rule (0: there is none).
#[repr(C)]
#[derive(Clone, Copy, Debug, PartialEq, Eq)]
pub struct Writer {
    pub code: u32,
    pub end: u32,
    pub entry: u32,
    pub rule: u32,
}

// What stands between two calls that read a set: what became of the last one (0: it gave a part), the place of the next part, and how
// many entries, rules of the open entry and conditions of the open rule are left.
#[repr(C)]
#[derive(Clone, Copy, Debug, PartialEq, Eq)]
pub struct Cursor {
    pub code: u32,
    pub at: u32,
    pub entries: u32,
    pub rules: u32,
    pub conditions: u32,
}

// What reading the head of a set gives.
#[repr(C)]
#[derive(Clone, Copy, Debug, PartialEq, Eq)]
pub struct Head {
    pub next: Cursor,
    pub architecture: u32,
    pub mismatch: u32,
    pub on_match: u32,
}

// What reading an entry gives: the number that is listed.
#[repr(C)]
#[derive(Clone, Copy, Debug, PartialEq, Eq)]
pub struct Listed {
    pub next: Cursor,
    pub number: u32,
}

// What reading a condition gives: its numbers, as the format has them.
#[repr(C)]
#[derive(Clone, Copy, Debug, PartialEq, Eq)]
pub struct Compared {
    pub next: Cursor,
    pub index: u8,
    pub width: u8,
    pub operator: u8,
    pub value: u64,
    pub mask: u64,
}

// What reading a JSON text answers: a number that says what became of it, and where in the text the fault is (with 14 in the table). With 0
// how many sets were written, and bytes; with 7 which buffer is too short (1: scratch, 2: the one for the sets), and what it needs.
#[repr(C)]
#[derive(Clone, Copy, Debug, PartialEq, Eq)]
pub struct JsonAnswer {
    pub code: u32,
    pub at: u32,
    pub count: u32,
    pub end: u32,
}

// What walking through named sets gives: 0 with a named set's places and lengths and the place behind it, 1 for bytes that are not of the
// form, 2 for no set. All places are offsets, and all numbers but the code are 0 where there is no set.
#[repr(C)]
#[derive(Clone, Copy, Debug, PartialEq, Eq)]
pub struct NamedPlace {
    pub code: u32,
    pub name: u32,
    pub name_len: u32,
    pub set: u32,
    pub set_len: u32,
    pub next: u32,
}

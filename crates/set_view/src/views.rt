// A set that was judged: its entries one by one, the rules of an entry and the conditions of a rule as iterators. What is left of each is inside the
// bytes, which the types show once for all who walk.

ghost use Rattle.std.specs.Iterator.{YieldsFirst, item_count};
ghost use Rattle.std.specs.Prelude.{◌≡◌, ◌+◌, ◌*◌, [], ◌∷◌, IsTrue, ◌↔◌, MatchOption};
ghost use Rattle.set_view.specs.Parts.{conditions_here, set_here, Reach, Readable};

use crate::{condition_here, rule_past, rules_past};
use definitions::Condition;
use std::marker::Model;

// The conditions of a rule that are left.
#[derive(Clone, Drop)]
pub struct Conditions<'a> {
    set: &'a [u8],
    from: usize,
    left: u32,
}

impl<'a> Model for Conditions<'a> {
    ghost use Rattle.std.specs.Prelude.{List, ◌+◌, ◌*◌};
    ghost use Rattle.definitions.specs.declared.Condition.{Condition};
    ghost use Rattle.set_view.specs.Parts.{conditions_here, Reach};

    ghost Value = { List Condition };

    ghost view = { λ c. conditions_here c.set.now c.left c.from };

    ghost invariant = { λ c. Reach c.set.now (c.from + 24 * c.left) };
}

impl<'a> Conditions<'a> {
    // The n conditions that stand at a place.
    fn new(set: &'a [u8], n: u32, from: usize) -> Conditions<'a>
        requires { Reach set.now (from + 24 * n) }
        ensures { result ≡ conditions_here set.now n from }
    {
        Conditions { set, from, left: n }
    }
}

impl<'a> Iterator for Conditions<'a> {
    type Item = Condition;

    ghost next_gives = { YieldsFirst (λ s. s) };

    ghost remaining = { item_count (λ s. s) };

    fn next(&mut self) -> Option<Condition> {
        if self.left == 0 {
            return None;
        }
        let condition = condition_here(self.set, self.from);
        self.from += 24;
        self.left -= 1;
        Some(condition)
    }
}

// The rules of an entry that are left, and behind them the entries that are.
#[derive(Clone, Drop)]
pub struct Rules<'a> {
    set: &'a [u8],
    from: usize,
    left: u32,
    behind: u32,
}

impl<'a> Model for Rules<'a> {
    ghost use Rattle.set_view.specs.Parts.{rules_here, rules_past, entries_here, entries_past, Reach};
    ghost use Rattle.set_view.specs.Views.{Rest};

    ghost Value = { Rest };

    ghost view = { λ r. record { rules = rules_here r.set.now r.left r.from; entries = entries_here r.set.now r.behind (rules_past r.set.now r.left r.from) } };

    ghost invariant = { λ r. Reach r.set.now (entries_past r.set.now r.behind (rules_past r.set.now r.left r.from)) };
}

impl<'a> Rules<'a> {
    pub fn is_empty(&self) -> bool
        ensures { IsTrue result ↔ (self.now.rules ≡ []) }
    {
        self.left == 0
    }

    // The entries behind the rules, those that are left being passed.
    pub fn entries_behind(self) -> Entries<'a>
        ensures { result ≡ self.entry.entries }
    {
        Entries {
            set: self.set,
            from: rules_past(self.set, self.left, self.from),
            left: self.behind,
        }
    }
}

impl<'a> Iterator for Rules<'a> {
    type Item = Conditions<'a>;

    ghost next_gives = { λ s r t. YieldsFirst (λ x. x.rules) s r t × (t.entries ≡ s.entries) };

    ghost remaining = { item_count (λ s. s.rules) };

    fn next(&mut self) -> Option<Conditions<'a>> {
        if self.left == 0 {
            return None;
        }
        let n = bpf::u32_at(self.set, self.from);
        let conditions = Conditions::new(self.set, n, self.from + 4);
        self.from = rule_past(self.from, n);
        self.left -= 1;
        Some(conditions)
    }
}

// The entries of a set that are left.
#[derive(Clone, Drop)]
pub struct Entries<'a> {
    set: &'a [u8],
    from: usize,
    left: u32,
}

impl<'a> Model for Entries<'a> {
    ghost use Rattle.std.specs.Prelude.{List};
    ghost use Rattle.definitions.specs.RuleSet.{Entry};
    ghost use Rattle.set_view.specs.Parts.{entries_here, entries_past, Reach};

    ghost Value = { List Entry };

    ghost view = { λ e. entries_here e.set.now e.left e.from };

    ghost invariant = { λ e. Reach e.set.now (entries_past e.set.now e.left e.from) };
}

impl<'a> Entries<'a> {
    // The entries of a set of the format.
    pub fn new(set: &'a [u8]) -> Entries<'a>
        requires { Readable set.now }
        ensures { result ≡ (set_here set.now).entries }
    {
        Entries {
            set,
            from: 16,
            left: bpf::u32_at(set, 12),
        }
    }

    // The number that is listed first, and its rules with the entries behind them.
    pub fn split_first(self) -> Option<(u32, Rules<'a>)>
        ensures { MatchOption result (self.entry ≡ []) (λ r. self.entry ≡ record { number = r.0; rules = r.1.rules } ∷ r.1.entries) }
    {
        if self.left == 0 {
            return None;
        }
        let number = bpf::u32_at(self.set, self.from);
        let rules = Rules {
            set: self.set,
            from: self.from + 8,
            left: bpf::u32_at(self.set, self.from + 4),
            behind: self.left - 1,
        };
        Some((number, rules))
    }
}

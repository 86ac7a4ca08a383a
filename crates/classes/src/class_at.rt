// A class of an action at a moment, by the rows of the action's literals: which of its literals are adds or deletes, and which components
// it covers.
ghost use Rattle.std.specs.Prelude.{◌*◌, ◌≤◌, length};
ghost use Rattle.literals.specs.Decode.{max_literals};

use super::labels::{clears, has_counted};
use super::names::rows_agree;
use super::{Marks, usage_mark};
use literals::Usage;
use literals::head::{Head, arity_of, clears_in, component_byte, components_in};
use literals::row::rows_meet;

// The class with this number: the rows of the action's literals, the class number of each, and its usage at the moment.
#[derive(Clone, Copy)]
pub(crate) struct ClassAt<'a> {
    pub(crate) rows: &'a [u8],
    pub(crate) numbers: &'a [u8],
    pub(crate) usages: &'a Marks,
    pub(crate) class: u8,
    ghost rowed: { 8 * length numbers.now ≤ length rows.now },
    ghost few: { length numbers.now ≤ max_literals },
}

impl ClassAt<'_> {
    ghost use Rattle.std.specs.Prelude.{◌≡◌, Some, not, ◌<◌, position};
    ghost use Rattle.records.specs.Lists.{below};
    ghost use Rattle.literals.specs.Decode.{max_components};
    ghost use Rattle.literals.specs.Held.{components_in};
    ghost use Rattle.classes.specs.Held.{usage_mark, is_at, is_same_at, same_in, is_delete_at, deleted_in, changed_at, excludes_at};
    ghost use Rattle.classes.specs.Held.{covers_at, covered_at, looked_covered};

    // Whether the literal `j` is in the class, with this usage.
    #[tactic(auto, unfolding(crate::specs::Held::is_at))]
    fn has(&self, usage: Usage, j: usize) -> bool
        requires { j < length self.now.numbers.now }
        ensures { result ≡ is_at self.now.numbers.now self.now.usages.now self.now.class (usage_mark (Some usage)) j }
    {
        self.numbers[j] == self.class && self.usages[j] == usage_mark(Some(usage))
    }

    // Whether the literal `j` is in the class with this usage, and has the atom of the row `i`.
    #[tactic(auto, unfolding(crate::specs::Held::is_same_at))]
    fn has_same(&self, usage: Usage, i: usize, j: usize) -> bool
        requires one { i < length self.now.numbers.now }
        requires other { j < length self.now.numbers.now }
        ensures { result
            ≡ is_same_at self.now.rows.now self.now.numbers.now self.now.usages.now self.now.class (usage_mark (Some usage)) i j }
    {
        self.has(usage, j) && rows_agree(self.rows, i, j)
    }

    // Whether a literal of the class with this usage has the atom of the row `i`.
    #[tactic(auto, unfolding(crate::specs::Held::same_in))]
    fn any_same(&self, usage: Usage, i: usize) -> bool
        requires { i < length self.now.numbers.now }
        ensures { result
            ≡ same_in self.now.rows.now self.now.numbers.now self.now.usages.now self.now.class (usage_mark (Some usage)) i }
    {
        (0..self.numbers.len()).any(|j| self.has_same(usage, i, j))
    }

    // Whether the literal `j` is a delete of the class, and meets the row `i`.
    #[tactic(auto, unfolding(crate::specs::Held::is_delete_at, crate::specs::Held::meet_at))]
    fn deletes_by(&self, i: usize, j: usize) -> bool
        requires one { i < length self.now.numbers.now }
        requires other { j < length self.now.numbers.now }
        ensures { result ≡ is_delete_at self.now.rows.now self.now.numbers.now self.now.usages.now self.now.class i j }
    {
        self.has(Usage::Delete, j) && rows_meet(self.rows, 8 * j, self.rows, 8 * i)
    }

    // Whether the class deletes the literal of the row `i`, a true condition: by one with the same arguments, or with FF.
    #[tactic(auto, unfolding(crate::specs::Held::deleted_in))]
    pub(crate) fn deletes(&self, i: usize) -> bool
        requires { i < length self.now.numbers.now }
        ensures { result ≡ deleted_in self.now.rows.now self.now.numbers.now self.now.usages.now self.now.class i }
    {
        (0..self.numbers.len()).any(|j| self.deletes_by(i, j))
    }

    // Whether a literal with the atom of the row `i` is an add of the class, or the class deletes it.
    #[tactic(auto, unfolding(crate::specs::Held::changed_at))]
    pub(crate) fn changes(&self, i: usize) -> bool
        requires { i < length self.now.numbers.now }
        ensures { result ≡ changed_at self.now.rows.now self.now.numbers.now self.now.usages.now self.now.class i }
    {
        self.any_same(Usage::Add, i) || self.deletes(i)
    }

    // Whether the literal `j` is a false condition, add or delete of the class (its byte is 2 or more), with this relation.
    #[tactic(auto, unfolding(crate::specs::Held::excludes_at))]
    fn excludes(&self, relation: u8, j: usize) -> bool
        requires { j < length self.now.numbers.now }
        ensures { result ≡ excludes_at self.now.rows.now self.now.numbers.now self.now.usages.now self.now.class relation j }
    {
        self.numbers[j] == self.class && (2 <= self.usages[j] && relation == self.rows[8 * j + 1])
    }

    // Whether the literal `j` is one by which the class covers the component `c`.
    #[tactic(auto, unfolding(crate::specs::Held::covers_at, crate::specs::Held::clears_at))]
    fn covers_by(&self, head: &Head, c: usize, j: usize) -> bool
        requires component { c < max_components }
        requires literal { j < length self.now.numbers.now }
        ensures { result ≡ covers_at head.now self.now.rows.now self.now.numbers.now self.now.usages.now self.now.class c j }
    {
        let relation = component_byte(head, c, 0);
        self.excludes(relation, j)
            && clears(head, self.rows, c, j, usize::from(arity_of(head, relation)))
    }

    // Whether a literal is one by which the class covers the component `c`.
    #[tactic(auto, unfolding(crate::specs::Held::covered_at))]
    fn any_covers(&self, head: &Head, c: usize) -> bool
        requires { c < max_components }
        ensures { result ≡ covered_at head.now self.now.rows.now self.now.numbers.now self.now.usages.now self.now.class c }
    {
        (0..self.numbers.len()).any(|j| self.covers_by(head, c, j))
    }

    // Whether the class covers the component `c`. Literals with FF alone cover one with a counted place: where there is none, the rows need
    // not be looked through.
    #[tactic(auto, unfolding(crate::specs::Held::looked_covered))]
    fn covers(&self, head: &Head, c: usize) -> bool
        requires { c < max_components }
        ensures { result ≡ looked_covered head.now self.now.rows.now self.now.numbers.now self.now.usages.now self.now.class c }
    {
        (clears_in(head) || !has_counted(head, c)) && self.any_covers(head, c)
    }

    // The first component that the class does not cover, if there is one.
    pub(crate) fn first_lacking(&self, head: &Head) -> Option<usize>
        ensures { result
            ≡ position (λ c. not (looked_covered head.now self.now.rows.now self.now.numbers.now self.now.usages.now self.now.class c))
            (below (components_in head.now)) }
    {
        (0..components_in(head)).position(|c| !self.covers(head, c))
    }
}

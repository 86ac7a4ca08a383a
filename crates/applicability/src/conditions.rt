// Conditions: whether the facts meet what a step asks, by its ground literals.
ghost use Rattle.std.specs.Prelude.{◌≡◌, List, [], ◌∷◌, map, ℕ, ◌+◌, ◌*◌, ◌<◌, ◌≤◌, length, take, drop};
ghost use Rattle.records.specs.Lists.{all, any};
ghost use Rattle.literals.specs.declared.Object.{Object};
ghost use Rattle.literals.specs.Domain.{Fact, Domain};
ghost use Rattle.literals.specs.Decode.{byte};
ghost use Rattle.literals.specs.Held.{rows_in, arity_in, Held};
ghost use Rattle.run_semantics.specs.RunFile.{max_facts, max_running};
ghost use Rattle.verdict.specs.Machine.{GroundAction, Event, own_hold, over_all_hold};
ghost use Rattle.verdict.specs.Held.{fact_row};
ghost use Rattle.store.specs.Held.{Indexed};
ghost use Rattle.events.specs.Held.{ground_bytes, open_bytes, ground_row, open_of, GroundFits, GroundsFit, OverObjects, max_ground};
ghost use Rattle.events.specs.Held.{grounded_bytes, ground_at, ground_in, EachSized, Grounded};
ghost use Rattle.applicability.specs.Held.{condition_met, plainly_met, asks_pattern, forbids, MeetSame};

use events::facts::{ground_at, is_pattern, patterns_meet};
use events::grounding::{FALSE_CONDITION, TRUE_CONDITION, USAGES, ground_action};
use literals::Time;
use literals::head::Head;
use literals::limits::MAX_RUNNING;
use store::index::{FactIndex, is_held};
use store::rows::row_at;

// The first `count` ground literals of a memory.
#[derive(Clone, Copy)]
struct GroundLiterals<'a> {
    memory: &'a [u8],
    count: usize,
    ghost sized: { length memory.now ≡ grounded_bytes },
    ghost few: { count ≤ max_ground },
}

// The facts, the first `count` rows of the work memory, with their index.
#[derive(Clone, Copy)]
struct Facts<'a> {
    index: &'a FactIndex,
    work: &'a [u8],
    count: usize,
    ghost few: { count ≤ max_facts },
    ghost room: { 8 * count ≤ length work.now },
}

// Whether the ground literal i is a false condition and a pattern.
#[tactic(auto, unfolding(crate::specs::Held::asks_pattern))]
fn asks_pattern(memory: &[u8], i: usize) -> bool
    requires memory { length memory.now ≡ grounded_bytes }
    requires literal { i < max_ground }
    ensures { result ≡ asks_pattern (ground_at memory.now i) }
{
    memory[USAGES + i] == FALSE_CONDITION && is_pattern(memory, 8 * i)
}

// Whether the ground literal i is a false condition that the row at an offset of the work memory meets.
#[tactic(auto, unfolding(crate::specs::Held::forbids))]
fn forbids(memory: &[u8], i: usize, work: &[u8], at: usize) -> bool
    requires memory { length memory.now ≡ grounded_bytes }
    requires literal { i < max_ground }
    requires fact { at + 8 ≤ length work.now }
    ensures { result ≡ forbids (take 8 (drop at work.now)) (ground_at memory.now i) }
{
    memory[USAGES + i] == FALSE_CONDITION && patterns_meet(memory, 8 * i, work, at)
}

impl GroundLiterals<'_> {
    // Whether one is a false condition and a pattern.
    fn any_asks_pattern(&self) -> bool
        ensures { result ≡ any asks_pattern (ground_in self.now.count self.now.memory.now) }
    {
        (0..self.count).any(|i| asks_pattern(self.memory, i))
    }

    // Whether one is a false condition that the row at an offset of the work memory meets.
    fn any_forbids(&self, work: &[u8], at: usize) -> bool
        requires fact { at + 8 ≤ length work.now }
        ensures { result ≡ any (forbids (take 8 (drop at work.now))) (ground_in self.now.count self.now.memory.now) }
    {
        (0..self.count).any(|i| forbids(self.memory, i, work, at))
    }
}

impl Facts<'_> {
    // Whether they meet the ground literal i, by equal rows: a true condition asks for its fact, a false one for its absence, an effect for
    // nothing.
    #[tactic(auto, unfolding(crate::specs::Held::plainly_met))]
    fn plainly_met(&self, memory: &[u8], i: usize) -> bool
        requires memory { length memory.now ≡ grounded_bytes }
        requires literal { i < max_ground }
        ensures { (head : List ℕ) → Indexed head self.now.index.now (rows_in self.now.count self.now.work.now)
            → byte (ground_at memory.now i).row 1 ≡ arity_in head (byte (ground_at memory.now i).row 0)
            → result ≡ plainly_met (rows_in self.now.count self.now.work.now) (ground_at memory.now i) }
    {
        match memory[USAGES + i] {
            TRUE_CONDITION => is_held(self.index, self.work, self.count, row_at(memory, 8 * i)),
            FALSE_CONDITION => !is_held(self.index, self.work, self.count, row_at(memory, 8 * i)),
            _ => true,
        }
    }

    // Whether they so meet all.
    fn all_plainly_met(&self, literals: &GroundLiterals) -> bool
        ensures { (head : List ℕ) → Indexed head self.now.index.now (rows_in self.now.count self.now.work.now)
            → EachSized head (ground_in literals.now.count literals.now.memory.now)
            → result ≡ all (plainly_met (rows_in self.now.count self.now.work.now)) (ground_in literals.now.count literals.now.memory.now) }
    {
        (0..literals.count).all(|i| self.plainly_met(literals.memory, i))
    }

    // Whether one of them meets a false condition: the facts are walked once, for all patterns together.
    fn any_forbidden(&self, literals: &GroundLiterals) -> bool
        ensures { result ≡ any (λ fact. any (forbids fact) (ground_in literals.now.count literals.now.memory.now))
            (rows_in self.now.count self.now.work.now) }
    {
        (0..self.count).any(|i| literals.any_forbids(self.work, 8 * i))
    }

    // Whether they meet all: those without FF by the index, and only where there are patterns by a walk.
    fn conditions_met(&self, literals: &GroundLiterals) -> bool
        ensures { (head : List ℕ) → Indexed head self.now.index.now (rows_in self.now.count self.now.work.now)
            → EachSized head (ground_in literals.now.count literals.now.memory.now)
            → MeetSame (ground_in literals.now.count literals.now.memory.now) (rows_in self.now.count self.now.work.now)
            → result ≡ all (condition_met (rows_in self.now.count self.now.work.now))
            (ground_in literals.now.count literals.now.memory.now) }
    {
        self.all_plainly_met(literals)
            && (!literals.any_asks_pattern() || !self.any_forbidden(literals))
    }
}

// Whether they meet the conditions of every event of a step at its own moment, whose ground literals are in the memory. (Over-all
// conditions are tested apart, for every open entry.)
pub fn events_met(memory: &[u8], total: usize, index: &FactIndex, work: &[u8], n: usize) -> bool
    requires memory { length memory.now ≡ grounded_bytes }
    requires total { total ≤ max_ground }
    requires few { n ≤ max_facts }
    requires facts { 8 * n ≤ length work.now }
    ensures { (D : Domain) (head : List ℕ) (es : List Event) (fs : List Fact)
        → Grounded D head es memory.now total → rows_in n work.now ≡ map fact_row fs
        → Indexed head index.now (map fact_row fs) → (objs : List Object)
        → OverObjects D objs fs (map (λ (e : Event). e.act) es) → result ≡ all (own_hold D objs fs) es }
{
    let facts = Facts {
        index,
        work,
        count: n,
    };
    facts.conditions_met(&GroundLiterals {
        memory,
        count: total,
    })
}

// Whether the facts meet the over-all conditions of the open entry i, whose ground literals are written to the front of the memory.
fn entry_met(
    head: &Head,
    table: &[u8],
    rows: &[u8],
    i: usize,
    memory: &mut [u8],
    facts: &Facts,
) -> bool
    requires entries { length rows.now ≡ open_bytes }
    requires entry { i < max_running }
    requires memory { length memory.old ≡ grounded_bytes }
    ensures { (D : Domain) (g : GroundAction) (fs : List Fact)
        → Held D head.now table.now → GroundFits D g
        → take ground_bytes (drop (ground_bytes * i) rows.now) ≡ ground_row g
        → rows_in facts.now.count facts.now.work.now ≡ map fact_row fs
        → Indexed head.now facts.now.index.now (map fact_row fs) → (objs : List Object)
        → OverObjects D objs fs (g ∷ []) → result ≡ over_all_hold D objs fs g }
{
    let count = ground_action(head, table, Time::OverAll, ground_at(rows, i), memory, 0);
    facts.conditions_met(&GroundLiterals { memory, count })
}

// Whether they meet the over-all conditions of every open entry. The ground literals that were in the memory are overwritten.
pub fn open_met(
    head: &Head,
    table: &[u8],
    rows: &[u8],
    count: usize,
    memory: &mut [u8],
    index: &FactIndex,
    work: &[u8],
    n: usize,
) -> bool
    requires entries { length rows.now ≡ open_bytes }
    requires memory { length memory.old ≡ grounded_bytes }
    requires few { n ≤ max_facts }
    requires facts { 8 * n ≤ length work.now }
    ensures { (D : Domain) (gs : List GroundAction) (fs : List Fact)
        → Held D head.now table.now
        → record { count = count; rows = rows.now } ≡ open_of gs → GroundsFit D gs
        → length gs ≤ max_running → rows_in n work.now ≡ map fact_row fs
        → Indexed head.now index.now (map fact_row fs) → (objs : List Object)
        → OverObjects D objs fs gs → result ≡ all (over_all_hold D objs fs) gs }
{
    if MAX_RUNNING < count {
        return false;
    }
    let facts = Facts {
        index,
        work,
        count: n,
    };
    // No chain: a closure would change the memory that it captures, and a proof knows nothing of that afterwards.
    for i in 0..count {
        if !entry_met(head, table, rows, i, memory, &facts) {
            return false;
        }
    }
    true
}

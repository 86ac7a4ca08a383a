// Interference: whether two events of a step have literals about a fact in common that may not stand together.
ghost use Rattle.std.specs.Prelude.{◌≡◌, not, List, [], map, ℕ, ◌<◌, ◌≤◌, length, get_or, drop};
ghost use Rattle.records.specs.Lists.{In, any, pairwise};
ghost use Rattle.literals.specs.declared.Object.{Object};
ghost use Rattle.literals.specs.Domain.{Domain};
ghost use Rattle.run_semantics.specs.RunFile.{max_events};
ghost use Rattle.verdict.specs.Machine.{Event, independent};
ghost use Rattle.verdict.specs.Held.{patterns_meet};
ghost use Rattle.store.specs.Held.{word_of};
ghost use Rattle.events.specs.Held.{OverObjects, GroundLiteral, max_ground, grounded_bytes, ground_at, ground_in, Laid, Grounded};
ghost use Rattle.applicability.specs.Held.{clashing, clashes, literals_clash, WordsOf, ToldByWords, AllTold};

use events::facts::{has_pattern, patterns_meet};
use events::grounding::{ADD, COUNTS, FALSE_CONDITION, MAX_GROUND, TRUE_CONDITION, USAGES};
use literals::limits::MAX_EVENTS;
use store::index::word_of;
use store::rows::row_at;

// The word of each ground literal's fact.
type Words = [u64; MAX_GROUND];

// Whether two usages of one fact may not stand in two events: a condition with an add or delete, an add with a delete.
#[tactic(auto, unfolding(crate::specs::Held::clashing))]
fn clashing(c: u8, d: u8) -> bool
    ensures { result ≡ clashing c d }
{
    match (c, d) {
        (TRUE_CONDITION | FALSE_CONDITION, ADD..) => true,
        (ADD.., TRUE_CONDITION | FALSE_CONDITION) => true,
        (ADD.., ADD..) => c != d,
        _ => false,
    }
}

// The words of the first n ground literals' facts.
fn put_words(words: &mut [u64], memory: &[u8], n: usize)
    requires memory { length memory.now ≡ grounded_bytes }
    requires words { length words.old ≡ max_ground }
    requires few { n ≤ max_ground }
    ensures { WordsOf n memory.now words.new }
{
    for i in 0..n {
        words[i] = word_of(row_at(memory, 8 * i));
    }
}

// Ground literals, the words of their facts, and whether there are patterns among them.
#[derive(Clone, Copy)]
struct Compared<'a> {
    memory: &'a [u8],
    words: &'a Words,
    patterns: bool,
    ghost sized: { length memory.now ≡ grounded_bytes },
}

impl Compared<'_> {
    // Whether the rows of the ground literals i and j meet. Most are told by their words; bytes are looked at where there are patterns.
    fn literals_meet(&self, i: usize, j: usize) -> bool
        requires first { i < max_ground }
        requires second { j < max_ground }
        requires first_word { get_or self.now.words.now i 0 ≡ word_of (ground_at self.now.memory.now i).row }
        requires second_word { get_or self.now.words.now j 0 ≡ word_of (ground_at self.now.memory.now j).row }
        ensures { ToldByWords self.now.patterns (ground_at self.now.memory.now i).row (ground_at self.now.memory.now j).row
            → result ≡ patterns_meet (ground_at self.now.memory.now i).row (ground_at self.now.memory.now j).row }
    {
        self.words[i] == self.words[j]
            || self.patterns && patterns_meet(self.memory, 8 * i, self.memory, 8 * j)
    }

    // Whether the ground literals i and j clash.
    #[tactic(auto, unfolding(crate::specs::Held::clashes))]
    fn clashes_at(&self, i: usize, j: usize) -> bool
        requires first { i < max_ground }
        requires second { j < max_ground }
        requires first_word { get_or self.now.words.now i 0 ≡ word_of (ground_at self.now.memory.now i).row }
        requires second_word { get_or self.now.words.now j 0 ≡ word_of (ground_at self.now.memory.now j).row }
        ensures { ToldByWords self.now.patterns (ground_at self.now.memory.now i).row (ground_at self.now.memory.now j).row
            → result ≡ clashes (ground_at self.now.memory.now i) (ground_at self.now.memory.now j) }
    {
        self.literals_meet(i, j) && clashing(self.memory[USAGES + i], self.memory[USAGES + j])
    }

    // Whether the ground literal i clashes with one of those from `from` up to `to`.
    fn clashes_from(&self, i: usize, from: usize, to: usize) -> bool
        requires few { to ≤ max_ground }
        requires literal { i < to }
        requires worded { WordsOf to self.now.memory.now self.now.words.now }
        ensures { AllTold self.now.patterns to self.now.memory.now
            → result ≡ any (clashes (ground_at self.now.memory.now i)) (drop from (ground_in to self.now.memory.now)) }
    {
        (from..to).any(|j| self.clashes_at(i, j))
    }

    // Whether one of the ground literals from `from` up to `to` clashes with one of those behind, up to `total`.
    fn literals_clash(&self, from: usize, to: usize, total: usize) -> bool
        requires few { total ≤ max_ground }
        requires order { to ≤ total }
        requires worded { WordsOf total self.now.memory.now self.now.words.now }
        ensures { AllTold self.now.patterns total self.now.memory.now
            → result ≡ literals_clash (drop from (ground_in to self.now.memory.now)) (drop to (ground_in total self.now.memory.now)) }
    {
        (from..to).any(|i| self.clashes_from(i, to, total))
    }

    // Whether no ground literal clashes with one of a later event. (The memory also has how many ground literals each event has.)
    fn all_apart(&self, count: usize, total: usize) -> bool
        requires count { count ≤ max_events }
        requires few { total ≤ max_ground }
        requires worded { WordsOf total self.now.memory.now self.now.words.now }
        ensures { (parts : List (List GroundLiteral)) → length parts ≡ count → Laid parts self.now.memory.now total
            → AllTold self.now.patterns total self.now.memory.now
            → result ≡ pairwise (λ first later. not (literals_clash first later)) parts }
    {
        let mut from = 0;
        for i in 0..count {
            let to = from + usize::from(self.memory[COUNTS + i]);
            if total < to {
                return false;
            }
            if self.literals_clash(from, to, total) {
                return false;
            }
            from = to;
        }
        true
    }
}

// Whether no two of the events of a step interfere, whose ground literals stand in the memory; they are compared by their words, and by
// their bytes too where there are patterns.
pub fn independent(memory: &[u8], count: usize, total: usize) -> bool
    requires memory { length memory.now ≡ grounded_bytes }
    requires few { total ≤ max_ground }
    ensures { (D : Domain) (head : List ℕ) (es : List Event) → Grounded D head es memory.now total
        → length es ≡ count → length es ≤ max_events → (objs : List Object) → (o : Object) × In o objs
        → OverObjects D objs [] (map (λ (e : Event). e.act) es)
        → result ≡ independent D objs es }
{
    if MAX_EVENTS < count {
        return false;
    }
    if count < 2 {
        return true;
    }
    let mut words = [0u64; MAX_GROUND];
    put_words(&mut words, memory, total);
    let compared = Compared {
        memory,
        words: &words,
        patterns: has_pattern(memory, total),
    };
    compared.all_apart(count, total)
}

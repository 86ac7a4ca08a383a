// The answers for the classes of an action at once, a byte each.
ghost use Rattle.std.specs.Prelude.{◌≡◌, true, cond, ℕ, ◌*◌, ◌≤◌, ◌<◌, length};
ghost use Rattle.records.specs.Memory.{over};
ghost use Rattle.literals.specs.Domain.{Domain, action};
ghost use Rattle.literals.specs.Decode.{max_literals};
ghost use Rattle.classes.specs.Classes.{classes};
ghost use Rattle.classes.specs.Held.{ActionOf, Sides, class_numbers};
ghost use Rattle.verdict.specs.Claims.{well_formed};
ghost use Rattle.effects.specs.Held.{scratch_bytes};
ghost use Rattle.trying.specs.Held.{FewOf, AloneOf, tries_by_rows, ClassesOf, answers_of};

use super::alone::Alone;
use super::free::any_free;
use classes::number::{class_tuple, number_classes};
use effects::SCRATCH;
use events::grounding::GROUNDED;
use literals::head::Head;
use literals::key_places::Places;
use literals::limits::MAX_LITERALS;
use store::weighing::weigh;

// The answer for the class whose key tuple is the instance. Where the instance weighs one already, a further fact makes it two, and where
// the step leaves it none, a further fact makes it one; so only between the two is one looked for.
fn try_class(head: &Head, alone: Alone, base: &[u8], after: &[u8], instance: [u8; 8]) -> bool
    requires few { FewOf alone }
    requires base { length base.now ≡ scratch_bytes }
    requires after { length after.now ≡ scratch_bytes }
    ensures { result ≡ tries_by_rows head.now alone base.now after.now instance }
{
    let before = weigh(head, &base[GROUNDED..SCRATCH], alone.counts.held, instance);
    if 1 < before || !alone.allowed {
        return false;
    }
    match weigh(head, after, alone.left, instance) {
        0 => false,
        1 => {
            before == 0
                && any_free(
                    head,
                    &instance,
                    alone.counts.variables + 1,
                    &base[0..GROUNDED],
                    alone.counts.literals,
                )
        }
        _ => true,
    }
}

// The answers for all classes of an action, whose literals are these rows with these class numbers.
fn put_answers(
    head: &Head,
    alone: Alone,
    base: &[u8],
    after: &[u8],
    rows: &[u8],
    numbers: &[u8],
    made: &mut [u8],
)
    requires few { FewOf alone }
    requires base { length base.now ≡ scratch_bytes }
    requires after { length after.now ≡ scratch_bytes }
    requires sides { Sides rows.now numbers.now }
    requires made { length made.old ≤ max_literals }
    ensures { (D : Domain) (i : ℕ) → ClassesOf D i head.now alone base.now after.now
        rows.now numbers.now → length made.old ≡ length (classes D (action D i))
        → made.new ≡ answers_of D i }
{
    // An index: what a memory holds after a loop over `iter_mut` is not known to a proof.
    for j in 0..made.len() {
        let instance = class_tuple(head, rows, numbers, j as u8);
        made[j] = u8::from(try_class(head, alone, base, after, instance)); // 1 yes, 0 no
    }
}

// The same where the classes are not numbered yet, at the front of a memory: how many they are. `numbers` gets the class number of each
// literal.
pub fn answer_rows(
    places: &Places,
    alone: Alone,
    base: &[u8],
    after: &[u8],
    rows: &[u8],
    numbers: &mut [u8],
    made: &mut [u8],
) -> usize
    requires few { FewOf alone }
    requires base { length base.now ≡ scratch_bytes }
    requires after { length after.now ≡ scratch_bytes }
    requires rowed { length rows.now ≡ 8 * length numbers.old }
    requires literals { length numbers.old ≤ max_literals }
    requires room { length made.old ≡ max_literals }
    ensures few { result ≤ max_literals }
    ensures answers { (D : Domain) (i : ℕ) → ActionOf D (action D i) places.now.head.now rows.now
        → well_formed D ≡ true → i < length D.actions
        → AloneOf D i places.now.head.now alone base.now after.now
        → (result ≡ length (answers_of D i)) × (numbers.new ≡ class_numbers D (action D i))
        × (made.new ≡ over (answers_of D i) made.old) }
{
    let mut words = [0u64; MAX_LITERALS];
    let count = number_classes(places, rows, numbers, &mut words);
    put_answers(
        places.head,
        alone,
        base,
        after,
        rows,
        numbers,
        &mut made[0..count],
    );
    count
}

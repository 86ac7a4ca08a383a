// The index of the facts held: for each of 4,096 slots how many facts it has, then the sums of their words, and then how many facts have
// an instance there. Sums wrap at 2 ^ 56. The last number is a note: the index makes no use of it, its user may.
ghost use Rattle.std.specs.Prelude.{◌≡◌, List, [], ◌∷◌, ◌++◌, ℕ, ◌+◌, ◌-◌, ◌*◌, ◌≤◌, ◌<◌, ◌%◌, length, get_or, set, take, drop};
ghost use Rattle.literals.specs.Decode.{byte};
ghost use Rattle.literals.specs.Held.{rows_in, arity_in, keys_in, component_rows_in};
ghost use Rattle.store.specs.Held.{has_row, slots, note_at, fact_index, wrap, plus, word_of, slot_of, key_slot, with_fact, Indexed};

use super::keys::key_of;
use super::rows::{has_row, row_at};
use literals::head::Head;
use literals::limits::MAX_OBJECTS;

// One for each two objects, so that every instance of one or two keys has its own.
const SLOTS: usize = MAX_OBJECTS * MAX_OBJECTS;

// Where the sums of the slots' words start, and the counts of instances.
const WORDS: usize = SLOTS;

pub const INSTANCES: usize = WORDS + SLOTS;

// The place of the note.
pub const NOTE: usize = INSTANCES + SLOTS;

pub const FACT_INDEX: usize = NOTE + 1;

pub type FactIndex = [u64; FACT_INDEX];

// Sums are taken modulo this number, so that none is too large; a word is below it.
const WRAP: u64 = 1 << 56;

// A fact as one number: its relation and arguments.
#[tactic(auto, unfolding(crate::specs::Held::word_of))]
pub fn word_of(row: [u8; 8]) -> u64
    ensures number { result ≡ word_of row }
    ensures low { result < wrap }
{
    u64::from_be_bytes([0, row[0], row[2], row[3], row[4], row[5], row[6], row[7]])
}

// The slot of a fact.
#[tactic(auto, unfolding(crate::specs::Held::slot_of))]
fn slot_of(row: [u8; 8]) -> usize
    ensures number { result ≡ slot_of row }
    ensures low { result < slots }
{
    let mixed = 11 * usize::from(row[0])
        + usize::from(row[3])
        + 3 * usize::from(row[4])
        + 5 * usize::from(row[5])
        + 7 * usize::from(row[6])
        + 9 * usize::from(row[7]);
    MAX_OBJECTS * (mixed % MAX_OBJECTS) + usize::from(row[2]) % MAX_OBJECTS
}

// The slot of an instance.
#[tactic(auto, unfolding(crate::specs::Held::key_slot))]
pub fn key_slot(t: [u8; 8]) -> usize
    ensures number { result ≡ key_slot t }
    ensures low { result < slots }
{
    let mixed = usize::from(t[1])
        + 3 * usize::from(t[2])
        + 5 * usize::from(t[3])
        + 7 * usize::from(t[4])
        + 9 * usize::from(t[5]);
    MAX_OBJECTS * (mixed % MAX_OBJECTS) + usize::from(t[0]) % MAX_OBJECTS
}

// Whether one of the first n rows is this one, of a fact with the arity of its relation: by the index, or, where a slot has several
// facts, by the rows.
pub fn is_held(index: &FactIndex, memory: &[u8], n: usize, row: [u8; 8]) -> bool
    requires few { n < wrap }
    requires rows { 8 * n ≤ length memory.now }
    ensures { (head : List ℕ) → Indexed head index.now (rows_in n memory.now)
        → byte row 1 ≡ arity_in head (byte row 0) → result ≡ has_row row (rows_in n memory.now) }
{
    let slot = slot_of(row);
    match index[slot] {
        0 => false,
        1 => index[WORDS + slot] == word_of(row),
        _ => has_row(memory, n, row),
    }
}

// Adds to the number at a place. What an amount leaves of `WRAP` takes the amount away.
fn add_at(index: &mut FactIndex, place: usize, amount: u64)
    requires place { place < fact_index }
    requires amount { amount ≤ wrap }
    ensures { index.new ≡ set index.old place (plus (get_or index.old place 0) amount) }
{
    index[place] = (index[place] % WRAP + amount) % WRAP;
}

// Adds to the numbers of the fact whose row is at an offset: an amount where facts are counted, and one to the words of its slot.
fn add_fact(index: &mut FactIndex, head: &Head, memory: &[u8], at: usize, count: u64, word: u64)
    requires row { at + 8 ≤ length memory.now }
    requires count { count ≤ wrap }
    requires word { word ≤ wrap }
    ensures fact { index.new ≡ with_fact (keys_in head.now) (component_rows_in head.now)
        (take 8 (drop at memory.now)) count word index.old }
    ensures beside { get_or index.new note_at 0 ≡ get_or index.old note_at 0 }
{
    let slot = slot_of(row_at(memory, at));
    add_at(index, slot, count);
    add_at(index, WORDS + slot, word);
    if let Some(t) = key_of(head, memory, at) {
        add_at(index, INSTANCES + key_slot(t), count);
    }
}

// The index with one fact more, the row at an offset.
pub fn enter(index: &mut FactIndex, head: &Head, memory: &[u8], at: usize)
    requires { at + 8 ≤ length memory.now }
    ensures indexed { (rows : List (List ℕ)) → Indexed head.now index.old rows
        → byte (take 8 (drop at memory.now)) 1
        ≡ arity_in head.now (byte (take 8 (drop at memory.now)) 0)
        → Indexed head.now index.new (rows ++ (take 8 (drop at memory.now) ∷ [])) }
    ensures beside { get_or index.new note_at 0 ≡ get_or index.old note_at 0 }
{
    let word = word_of(row_at(memory, at));
    add_fact(index, head, memory, at, 1, word);
}

// The index with one fact less, the row at an offset.
pub fn leave(index: &mut FactIndex, head: &Head, memory: &[u8], at: usize)
    requires { at + 8 ≤ length memory.now }
    ensures indexed { (before after : List (List ℕ))
        → Indexed head.now index.old (before ++ (take 8 (drop at memory.now) ∷ after))
        → Indexed head.now index.new (before ++ after) }
    ensures beside { get_or index.new note_at 0 ≡ get_or index.old note_at 0 }
{
    let word = word_of(row_at(memory, at));
    add_fact(index, head, memory, at, WRAP - 1, WRAP - word);
}

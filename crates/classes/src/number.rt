// The classes of an action: each of its literals gets the number of its class, FF where it does not match. What is known of a class
// elsewhere is known by this number; its key tuple is that of the first literal with it.
ghost use Rattle.std.specs.Prelude.{◌≡◌, [], ◌+◌, ◌*◌, ◌<◌, ◌≤◌, eqb, length, get_or, take, drop, position};
ghost use Rattle.records.specs.Lists.{any};
ghost use Rattle.literals.specs.Domain.{Domain, Action};
ghost use Rattle.literals.specs.Decode.{max_literals};
ghost use Rattle.classes.specs.Classes.{classes};
ghost use Rattle.literals.specs.Held.{key_rows_in, key_words_in};
ghost use Rattle.classes.specs.Held.{ActionOf, Sides, class_byte, numbered_by, words_after, class_numbers, tuple_row, only_row};

use literals::head::Head;
use literals::key_places::Places;
use literals::keys::{component_of, key_tuple};
use records::bytes::found_or_equal;

// The number of a literal's class, none where it does not match, and the number of classes with it.
#[derive(Clone, Copy, PartialEq, Eq, Debug)]
struct NumberedLiteral {
    class: Option<u8>,
    count: usize,
}

// The byte of a class number in a memory, FF for none.
fn class_byte(class: Option<u8>) -> u8
    ensures { result ≡ class_byte class }
{
    class.unwrap_or(255)
}

// Whether a class has a key tuple with this word. (The loop goes on where the word is found: it is compiled to look at several at once,
// which `any` is not, and a `fold` of the same takes a seventh longer.)
fn any_word(words: &[u64], word: u64) -> bool
    ensures { result ≡ any (eqb word) words.now }
{
    let mut found = false;
    for other in words {
        found = found_or_equal(found, word, *other);
    }
    found
}

// The number of the first class whose key tuple has this word. Of more than four classes all are looked at first, several at once: most
// literals of a new class are told by that, and of few classes it costs more than it saves.
fn class_of(words: &[u64], word: u64) -> Option<usize>
    ensures { result ≡ position (eqb word) words.now }
{
    if 4 < words.len() && !any_word(words, word) {
        return None;
    }
    words.iter().position(|other| word == *other)
}

// The class of the literal whose row is at `at`; `words` has the key tuples of the `count` classes so far, and gets that of a new one.
fn number_literal(
    places: &Places,
    rows: &[u8],
    at: usize,
    words: &mut [u64],
    count: usize,
) -> NumberedLiteral
    requires row { at + 8 ≤ length rows.now }
    requires room { count < length words.old }
    requires words { length words.old ≡ max_literals }
    ensures number { result
        ≡ numbered_by (key_words_in places.now.head.now (take 8 (drop at rows.now))) count words.old }
    ensures words { words.new
        ≡ words_after (key_words_in places.now.head.now (take 8 (drop at rows.now))) count words.old }
{
    let Some(c) = places.marked_by(rows[at + 1]) else {
        return NumberedLiteral { class: None, count };
    };
    let word = places.key_word(c, rows, at);
    if let Some(class) = class_of(&words[..count], word) {
        return NumberedLiteral {
            class: Some(class as u8),
            count,
        };
    }
    words[count] = word;
    NumberedLiteral {
        class: Some(count as u8),
        count: count + 1,
    }
}

// How many classes an action has whose literals are these rows; `numbers` gets the class number of each literal. In `words` the key
// tuples of the classes stand as numbers meanwhile: one comparison tells two of them apart.
pub fn number_classes(places: &Places, rows: &[u8], numbers: &mut [u8], words: &mut [u64]) -> usize
    requires rowed { length rows.now ≡ 8 * length numbers.old }
    requires literals { length numbers.old ≤ max_literals }
    requires words { length words.old ≡ max_literals }
    ensures few { result ≤ length numbers.old }
    ensures classes { (D : Domain) (a : Action) → ActionOf D a places.now.head.now rows.now
        → (result ≡ length (classes D a)) × (numbers.new ≡ class_numbers D a) }
{
    let mut count: usize = 0;
    // By number, not by element: a literal's row and its class number have the same one.
    for j in 0..numbers.len() {
        let o = number_literal(places, rows, 8 * j, words, count);
        numbers[j] = class_byte(o.class);
        count = o.count;
    }
    count
}

// The key tuple of the literal whose row is at `at`, FF where it does not match.
fn literal_tuple(head: &Head, rows: &[u8], at: usize) -> [u8; 8]
    requires { at + 8 ≤ length rows.now }
    ensures { result ≡ only_row (key_rows_in head.now (take 8 (drop at rows.now))) }
{
    match component_of(head, rows[at + 1]) {
        Some(c) => key_tuple(head, c, rows, at),
        None => [255; 8],
    }
}

// The first literal with a class number.
fn first_of(numbers: &[u8], class: u8) -> Option<usize>
    ensures { result ≡ position (eqb class) numbers.now }
{
    numbers.iter().position(|number| class == *number)
}

// The key tuple of a class, of which `numbers` tells the literals: variables in the order of the keys, FF to fill. (Every class has a
// literal; what is answered where none is found is never asked for.)
pub fn class_tuple(head: &Head, rows: &[u8], numbers: &[u8], class: u8) -> [u8; 8]
    requires { Sides rows.now numbers.now }
    ensures { (D : Domain) (a : Action) → ActionOf D a head.now rows.now
        → numbers.now ≡ class_numbers D a → class < length (classes D a) → result ≡ tuple_row (get_or (classes D a) class []) }
{
    match first_of(numbers, class) {
        Some(j) => literal_tuple(head, rows, 8 * j),
        None => [255u8; 8],
    }
}

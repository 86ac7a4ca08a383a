// The fields of a record: each check tells what stops it.
ghost use Rattle.std.specs.Prelude.{◌≡◌, false, ◌&&◌, ◌||◌, not, [], map, ◌+◌, ◌*◌, ◌<◌, ◌≤◌, eqb, ltb, length, take, drop};
ghost use Rattle.std.specs.List.{position, zip};
ghost use Rattle.records.specs.Lists.{all, any, count_by};
ghost use Rattle.literals.specs.Domain.{variable_below, clears_once, is_counted, is_every, labels_fit};
ghost use Rattle.literals.specs.Decode.{max_actions, max_arguments, relation_stop, action_stop, literal_of, no_variable, label_of};
ghost use Rattle.literals.specs.Decode.{label_fault};
ghost use Rattle.literals.specs.Faults.{stop_number, told_stop, record_stop};
ghost use Rattle.literals.specs.Held.{arguments_stop, literal_shape, literal_arguments, component_fields, again, again_at};
ghost use Rattle.literals.specs.Held.{label_places, high_key, each_once, may_stand, key_cleared_in, rows_in};

use super::fault::{Fault, RecordFault};
use super::head::{Head, arity_of, is_lasting, relations_in};
use super::limits::{MAX_ARGUMENTS, MAX_VARIABLES};
use super::{Argument, Label, Role};
use records::bytes::count_from;

// A relation: its arity.
#[tactic(auto, unfolding(crate::specs::Decode::relation_stop))]
pub fn relation_fields(p: &[u8]) -> Result<(), Fault>
    ensures { stop_number result ≡ relation_stop p.now }
{
    if p.len() != 1 {
        return Err(Fault::WrongLength);
    }
    if MAX_ARGUMENTS < usize::from(p[0]) {
        return Err(Fault::OutOfRange);
    }
    Ok(())
}

// An action: variable count, sort.
#[tactic(auto, unfolding(crate::specs::Decode::action_stop))]
pub fn action_fields(p: &[u8]) -> Result<(), Fault>
    ensures { stop_number result ≡ action_stop p.now }
{
    if p.len() != 2 {
        return Err(Fault::WrongLength);
    }
    if MAX_VARIABLES < usize::from(p[0]) || 1 < p[1] {
        return Err(Fault::OutOfRange);
    }
    Ok(())
}

// Whether an action, a lasting one or one at once, has no such role.
fn no_role(lasting: bool, role: u8) -> bool
    ensures { result ≡ (ltb 9 role || (ltb 3 role && not lasting)) }
{
    9 < role || (3 < role && !lasting)
}

// The relation of a literal or component whose arguments start at `first` of its `given` bytes.
#[tactic(auto, unfolding(crate::specs::Held::arguments_stop))]
fn arguments_stop(head: &Head, relation: u8, first: usize, given: usize) -> Result<(), Fault>
    requires { first ≤ 2 }
    ensures { stop_number result ≡ arguments_stop head.now relation first given }
{
    if relations_in(head) <= usize::from(relation) {
        return Err(Fault::NoSuchRelation);
    }
    if given != first + usize::from(arity_of(head, relation)) {
        return Err(Fault::WrongLength);
    }
    Ok(())
}

// Whether a literal has FF only where it may: in a false condition or a delete, once.
fn clears_once(p: &[u8]) -> bool
    requires { 2 ≤ length p.now }
    ensures { result ≡ clears_once (literal_of p.now) }
{
    let most = if Role::from(p[0]).usage.may_clear() {
        1
    } else {
        0
    };
    count_from(p, 2, 255) <= most
}

// Whether an argument is FF or a variable below n.
fn variable_below(argument: Argument, n: u8) -> bool
    ensures { result ≡ variable_below n argument }
{
    match argument {
        Argument::Variable(v) => v.0 < n,
        Argument::Every => true,
    }
}

// Whether one of a literal's arguments is neither FF nor one of its action's n variables.
fn any_unknown(p: &[u8], n: u8) -> bool
    ensures { result ≡ any (no_variable n) (drop 2 p.now) }
{
    p.iter()
        .skip(2)
        .any(|b| !variable_below(Argument::from(*b), n))
}

// A literal of the action i: its role, its relation, and how many arguments it has.
#[tactic(auto, unfolding(crate::specs::Held::literal_shape))]
pub fn literal_shape(head: &Head, i: usize, p: &[u8]) -> Result<(), Fault>
    requires { i < max_actions }
    ensures { stop_number result ≡ literal_shape head.now i p.now }
{
    if p.len() < 2 {
        return Err(Fault::WrongLength);
    }
    if no_role(is_lasting(head, i), p[0]) {
        return Err(Fault::WrongRole);
    }
    arguments_stop(head, p[1], 2, p.len())
}

// The arguments of a literal: FF only where it may be, then one of its action's n variables each.
#[tactic(auto, unfolding(crate::specs::Held::literal_arguments))]
pub fn literal_arguments(p: &[u8], n: u8) -> Result<(), Fault>
    requires { 2 ≤ length p.now }
    ensures { stop_number result ≡ literal_arguments n p.now }
{
    if !clears_once(p) {
        return Err(Fault::WrongEvery);
    }
    if any_unknown(p, n) {
        return Err(Fault::NoSuchVariable);
    }
    Ok(())
}

// A component: relation, one label per argument.
#[tactic(auto, unfolding(crate::specs::Held::component_fields, crate::specs::Held::arguments_stop))]
pub fn component_fields(head: &Head, p: &[u8]) -> Result<(), Fault>
    ensures { stop_number result ≡ component_fields head.now p.now }
{
    if p.len() < 1 {
        return Err(Fault::WrongLength);
    }
    arguments_stop(head, p[0], 1, p.len())
}

// Whether a label is FF or a key below n.
fn label_below(b: u8, n: usize) -> bool
    ensures { result ≡ (eqb b 255 || ltb b n) }
{
    b == 255 || usize::from(b) < n
}

// The first label that is a key not below n, counted among the labels.
fn first_high(p: &[u8], n: usize) -> Option<usize>
    ensures { result ≡ position (high_key n []) (drop 1 p.now) }
{
    p.iter().skip(1).position(|b| !label_below(*b, n))
}

// Whether a byte from `from` on equals b.
fn any_equal(s: &[u8], from: usize, b: u8) -> bool
    ensures { result ≡ any (eqb b) (drop from s.now) }
{
    s.iter().skip(from).any(|x| b == *x)
}

// Whether a label equals one of the labels of the payload that ends before it: of those that are FF, or of the keys.
fn is_again(earlier: &[u8], label: u8, counted: bool) -> bool
    ensures { result ≡ again counted (drop 1 earlier.now) label }
{
    (label == 255) == counted && any_equal(earlier, 1, label)
}

// The first label that equals an earlier one, of those that are FF, or of the keys, counted among the labels.
fn first_again(p: &[u8], counted: bool) -> Option<usize>
    ensures { result ≡ position (again_at counted p.now) (label_places p.now) }
{
    (1..p.len()).position(|i| is_again(&p[..i], p[i], counted))
}

// Whether each key below n stands once.
pub fn each_once(p: &[u8], n: usize) -> bool
    requires { n ≤ max_arguments }
    ensures { result ≡ each_once n (drop 1 p.now) }
{
    (0..n).all(|k| count_from(p, 1, k as u8) == 1)
}

// Whether the labels of a component fit a template that has n keys: each key below n once, at most one FF, and nothing else. That there is
// nothing else shows in how many they are.
fn labels_fit(p: &[u8], n: usize) -> bool
    requires { n ≤ max_arguments }
    ensures { result ≡ labels_fit n (map label_of (drop 1 p.now)) }
{
    let counted = count_from(p, 1, 255);
    counted <= 1 && p.len() <= n + counted + 1 && each_once(p, n)
}

// What is wrong with labels that do not fit a template that has n keys: the second FF, then a key that stands twice, then a key not below
// n, each at its label, else a key that is missing. The labels stand behind the 4 bytes of the head and the relation.
fn label_fault(p: &[u8], n: usize) -> RecordFault
    requires wrong { labels_fit n (map label_of (drop 1 p.now)) ≡ false }
    requires short { length p.now ≤ 1 + max_arguments }
    ensures { told_stop result ≡ label_fault n (map label_of (drop 1 p.now)) }
{
    if let Some(second) = first_again(p, true) {
        return RecordFault {
            fault: Fault::CountedTwice,
            within: 5 + second as u8,
        };
    }
    if let Some(repeated) = first_again(p, false) {
        return RecordFault {
            fault: Fault::KeyTwice,
            within: 5 + repeated as u8,
        };
    }
    if let Some(high) = first_high(p, n) {
        return RecordFault {
            fault: Fault::WrongKey,
            within: 5 + high as u8,
        };
    }
    RecordFault::from(Fault::WrongKey)
}

// The labels of a component of a template that has n keys. Most often they fit, which is told at once; which one is wrong is looked for
// only where they do not.
pub fn label_fields(p: &[u8], n: usize) -> Result<(), RecordFault>
    requires arguments { n ≤ max_arguments }
    requires short { length p.now ≤ 1 + max_arguments }
    ensures { record_stop result ≡ label_fault n (map label_of (drop 1 p.now)) }
{
    if labels_fit(p, n) {
        return Ok(());
    }
    Err(label_fault(p, n))
}

// Whether a label may stand beside an argument of a literal: a key may not beside FF.
fn may_stand(label: Label, argument: Argument) -> bool
    ensures { result ≡ (is_counted label || not (is_every argument)) }
{
    label == Label::Counted || argument != Argument::Every
}

// Whether none of some labels is a key that stands beside FF.
fn keys_beside(labels: &[u8], arguments: &[u8]) -> bool
    ensures { result ≡ all may_stand (zip labels.now arguments.now) }
{
    labels.iter().zip(arguments.iter()).all(|(label, argument)| may_stand(
        Label::from(*label),
        Argument::from(*argument),
    ))
}

// Whether the literal's row at an offset has the relation of a component, and FF where that has a key.
fn clears_key(p: &[u8], table: &[u8], at: usize) -> bool
    requires table { at + 8 ≤ length table.now }
    requires long { 0 < length p.now }
    requires short { length p.now ≤ 1 + max_arguments }
    ensures { result ≡ key_cleared_in p.now (take 8 (drop at table.now)) }
{
    p[0] == table[at + 1] && !keys_beside(&p[1..], &table[at + 2..at + 8])
}

// Whether one of the first n rows has.
pub fn any_clears_key(p: &[u8], table: &[u8], n: usize) -> bool
    requires table { 8 * n ≤ length table.now }
    requires long { 0 < length p.now }
    requires short { length p.now ≤ 1 + max_arguments }
    ensures { result ≡ any (key_cleared_in p.now) (rows_in n table.now) }
{
    (0..n).any(|i| clears_key(p, table, 8 * i))
}

// The number of labels other than FF.
pub fn count_keys(p: &[u8]) -> usize
    ensures { result ≡ count_by (λ l. not (is_counted l)) (map label_of (drop 1 p.now)) }
{
    if p.len() == 0 {
        return 0;
    }
    p.len() - 1 - count_from(p, 1, 255)
}

// A domain that was read: a head of numbers and rows, in sections, and the table of its literals (8 bytes a row: role, relation,
// arguments, FF to fill). Every function that reads a head answers within the limits of the format, whatever its bytes are, so that none
// has a condition on them. A head is filled record by record, from one that is all 0.
ghost use Rattle.std.specs.Prelude.{◌≡◌, cond, List, [], ◌∷◌, ◌++◌, ℕ, ◌+◌, ◌*◌, ◌<◌, ◌≤◌, eqb, length, get_or};
ghost use Rattle.records.specs.Lists.{any};
ghost use Rattle.literals.specs.Domain.{Domain, keys_of, bare};
ghost use Rattle.literals.specs.Decode.{max_relations, max_actions, max_variables, max_arguments, max_literals, max_components};
ghost use Rattle.literals.specs.Decode.{relation_record, action_record, literal_record, component_record, component_of, literal_of, byte};
ghost use Rattle.literals.specs.Held.{all_literals, has_every, within, relations_in, actions_in, components_in, keys_in, arity_in};
ghost use Rattle.literals.specs.Held.{component_row_in, component_rows_in, variables_in, at_clears};
ghost use Rattle.literals.specs.Held.{clears_in, lasting_in, size_in, first_in};
ghost use Rattle.literals.specs.Held.{Held, SpanFits, SpanOf, HeadOf, head_bytes, Filled, Adds};

use super::fields::count_keys;
use super::limits::{
    MAX_ACTIONS, MAX_ARGUMENTS, MAX_COMPONENTS, MAX_LITERALS, MAX_RELATIONS, MAX_VARIABLES,
};
use super::row::{put_word, row_word};
use super::span::Span;

pub const HEAD: usize = CLEARS + 1;

pub type Head = [u8; HEAD];

// How many there are of each: relations, actions, components, keys.
const RELATIONS: usize = 0;

const ACTIONS: usize = 1;

const COMPONENTS: usize = 2;

const KEYS: usize = 3;
// A byte for each relation.
const ARITIES: usize = 4;
// 8 bytes for each component: relation, labels, FF to fill.
const COMPONENT_ROWS: usize = ARITIES + MAX_RELATIONS;
// A byte for each action: variables, 1 for a lasting one, how many literals, and the row of the first, low byte and high byte.
const VARIABLES: usize = COMPONENT_ROWS + 8 * MAX_COMPONENTS;

const SORTS: usize = VARIABLES + MAX_ACTIONS;

const SIZES: usize = SORTS + MAX_ACTIONS;

const LOWS: usize = SIZES + MAX_ACTIONS;

const HIGHS: usize = LOWS + MAX_ACTIONS;
// 1 where some literal has FF: most files have none, and need not be looked through for what FF leads to.
const CLEARS: usize = HIGHS + MAX_ACTIONS;

// The number in a byte, 0 above the limit.
fn limited(n: u8, limit: u8) -> u8
    ensures number { result ≡ within limit n }
    ensures few { result ≤ limit }
{
    if n <= limit { n } else { 0 }
}

// The number in a byte of the head, 0 above the limit.
fn number_at(head: &Head, at: usize, limit: u8) -> usize
    requires { at < head_bytes }
    ensures number { result ≡ within limit (get_or head.now at 0) }
    ensures few { result ≤ limit }
{
    usize::from(limited(head[at], limit))
}

#[tactic(auto, unfolding(crate::specs::Held::relations_in))]
pub fn relations_in(head: &Head) -> usize
    ensures number { result ≡ relations_in head.now }
    ensures few { result ≤ max_relations }
{
    number_at(head, RELATIONS, MAX_RELATIONS as u8)
}

#[tactic(auto, unfolding(crate::specs::Held::actions_in))]
pub fn actions_in(head: &Head) -> usize
    ensures number { result ≡ actions_in head.now }
    ensures few { result ≤ max_actions }
{
    number_at(head, ACTIONS, MAX_ACTIONS as u8)
}

#[tactic(auto, unfolding(crate::specs::Held::components_in))]
pub fn components_in(head: &Head) -> usize
    ensures number { result ≡ components_in head.now }
    ensures few { result ≤ max_components }
{
    number_at(head, COMPONENTS, MAX_COMPONENTS as u8)
}

#[tactic(auto, unfolding(crate::specs::Held::keys_in))]
pub fn keys_in(head: &Head) -> usize
    ensures number { result ≡ keys_in head.now }
    ensures few { result ≤ max_arguments }
{
    number_at(head, KEYS, MAX_ARGUMENTS as u8)
}

// The arity of a relation, 0 where there is none.
#[tactic(auto, unfolding(crate::specs::Held::arity_in))]
pub fn arity_of(head: &Head, relation: u8) -> u8
    ensures number { result ≡ arity_in head.now relation }
    ensures few { result ≤ max_arguments }
{
    let at = usize::from(relation);
    if at < MAX_RELATIONS {
        limited(head[ARITIES + at], MAX_ARGUMENTS as u8)
    } else {
        0
    }
}

// A byte of a component: its relation, then its labels.
pub fn component_byte(head: &Head, c: usize, i: usize) -> u8
    requires component { c < max_components }
    requires place { i < 8 }
    ensures { result ≡ get_or (component_row_in head.now c) i 0 }
{
    head[COMPONENT_ROWS + 8 * c + i]
}

// Whether a component has this relation.
pub fn is_used(head: &Head, relation: u8) -> bool
    ensures { result ≡ any (λ row. eqb relation (byte row 0)) (component_rows_in head.now) }
{
    (0..components_in(head)).any(|c| relation == component_byte(head, c, 0))
}

#[tactic(auto, unfolding(crate::specs::Held::variables_in))]
pub fn variables_of(head: &Head, i: usize) -> u8
    requires { i < max_actions }
    ensures number { result ≡ variables_in head.now i }
    ensures few { result ≤ max_variables }
{
    limited(head[VARIABLES + i], MAX_VARIABLES as u8)
}

#[tactic(auto, unfolding(crate::specs::Held::lasting_in))]
pub fn is_lasting(head: &Head, i: usize) -> bool
    requires { i < max_actions }
    ensures { result ≡ lasting_in head.now i }
{
    head[SORTS + i] == 1
}

// The row of an action's first literal.
#[tactic(auto, unfolding(crate::specs::Held::first_in))]
fn first_of(head: &Head, i: usize) -> usize
    requires { i < max_actions }
    ensures row { result ≡ first_in head.now i }
    ensures low { result < 65536 }
{
    usize::from(u16::from_le_bytes([head[LOWS + i], head[HIGHS + i]]))
}

// How many literals an action has.
#[tactic(auto, unfolding(crate::specs::Held::size_in))]
fn size_of(head: &Head, i: usize) -> u8
    requires { i < max_actions }
    ensures number { result ≡ size_in head.now i }
    ensures most { result ≤ max_literals }
{
    limited(head[SIZES + i], MAX_LITERALS as u8)
}

// The rows of an action's literals, as the head tells them.
pub fn span_of(head: &Head, i: usize) -> Span
    requires { i < max_actions }
    ensures few { (result.from ≤ result.to) × (result.to ≤ result.from + max_literals) × (result.from < 65536) }
    ensures rows { (D : Domain) (table : List ℕ) → Held D head.now table → i < length D.actions
        → (8 * result.to ≤ length table) × SpanOf D i table result }
    ensures size { result.to ≡ result.from + size_in head.now i }
{
    let from = first_of(head, i);
    let to = from + usize::from(size_of(head, i));
    Span { from, to }
}

// The same, none where the table has not so many.
pub fn rows_of(head: &Head, table: &[u8], i: usize) -> Span
    requires { i < max_actions }
    ensures fits { SpanFits (length table.now) result }
    ensures rows { (D : Domain) → Held D head.now table.now → i < length D.actions
        → SpanOf D i table.now result }
{
    let span = span_of(head, i);
    if 8 * span.to <= table.len() {
        span
    } else {
        Span { from: 0, to: 0 }
    }
}

// How many literals all actions have: up to the last one of the latest action.
fn literals_in(head: &Head) -> usize
    ensures most { result ≤ max_literals * max_actions }
    ensures number { (D : Domain) → HeadOf D head.now → result ≡ length (all_literals D.actions) }
{
    let n = actions_in(head);
    if n == 0 {
        return 0;
    }
    let to = first_of(head, n - 1) + usize::from(size_of(head, n - 1));
    if to <= MAX_LITERALS * MAX_ACTIONS {
        to
    } else {
        0
    }
}

// The same as rows of the table, 0 where it has not so many.
pub fn all_rows(head: &Head, table: &[u8]) -> usize
    ensures fits { 8 * result ≤ length table.now }
    ensures number { (D : Domain) → Held D head.now table.now → result ≡ length (all_literals D.actions) }
{
    let n = literals_in(head);
    if 8 * n <= table.len() { n } else { 0 }
}

// How many keys the template has with this component: the first component determines it.
pub fn keys_with(head: &Head, p: &[u8]) -> usize
    requires { length p.now ≤ 1 + max_arguments }
    ensures number { (D : Domain) → HeadOf D head.now
        → result ≡ keys_of (D.template ++ (component_of p.now ∷ [])) }
    ensures few { result ≤ max_arguments }
{
    if components_in(head) == 0 {
        count_keys(p)
    } else {
        keys_in(head)
    }
}

// The head with a relation more: its arity.
pub fn add_relation(head: &mut Head, p: &[u8])
    requires room { relations_in head.old < max_relations }
    requires long { 0 < length p.now }
    ensures { Adds relation_record p.now head.old head.new }
{
    let n = relations_in(head);
    head[ARITIES + n] = p[0];
    head[RELATIONS] = n as u8 + 1;
}

// The head with an action more: its variables and sort. It has no literals so far, and their first row is that behind all others.
pub fn add_action(head: &mut Head, p: &[u8])
    requires room { actions_in head.old < max_actions }
    requires long { 1 < length p.now }
    ensures { Adds action_record p.now head.old head.new }
{
    let n = actions_in(head);
    let [low, high] = (literals_in(head) as u16).to_le_bytes();
    head[VARIABLES + n] = p[0];
    head[SORTS + n] = p[1];
    head[SIZES + n] = 0;
    head[LOWS + n] = low;
    head[HIGHS + n] = high;
    head[ACTIONS] = n as u8 + 1;
}

// Whether some literal of the domain has FF.
#[tactic(auto, unfolding(crate::specs::Held::clears_in))]
pub fn clears_in(head: &Head) -> bool
    ensures { result ≡ clears_in head.now }
{
    head[CLEARS] == 1
}

// The head with a literal more, which may have FF, of the latest action, which has so many so far.
pub fn add_literal(head: &mut Head, last: usize, size: usize, clears: bool)
    requires latest { last + 1 ≡ actions_in head.old }
    requires size { size ≡ size_in head.old last }
    requires room { size < max_literals }
    requires actions { last < max_actions }
    ensures { (p : List ℕ) → clears ≡ has_every (literal_of p)
        → Adds literal_record p head.old head.new }
{
    head[SIZES + last] = size as u8 + 1;
    if clears {
        head[CLEARS] = 1;
    }
}

// The head with a component more: its row, and the number of keys, which the first component determines.
pub fn add_component(head: &mut Head, p: &[u8])
    requires whole { length head.old ≡ head_bytes }
    requires room { components_in head.old < max_components }
    requires short { length p.now ≤ 1 + max_arguments }
    ensures { Adds component_record p.now head.old head.new }
{
    let n = components_in(head);
    let keys = keys_with(head, p);
    put_word(head, COMPONENT_ROWS + 8 * n, row_word(p));
    head[COMPONENTS] = n as u8 + 1;
    head[KEYS] = keys as u8;
}

// The head of the domain without its template: as before the first component.
pub fn clear_template(head: &mut Head)
    ensures { (D : Domain) → Filled D head.old → Filled (bare D) head.new }
{
    head[COMPONENTS] = 0;
    head[KEYS] = 0;
}

// What one record adds to the domain: each function takes a record of one kind into the head and, a literal, into the table, or tells what
// stops it and leaves all as it was.
ghost use Rattle.std.specs.Prelude.{◌≡◌, ◌+◌, ◌*◌, ◌≤◌, ◌<◌, leb, length, drop, OnOk};
ghost use Rattle.records.specs.Lists.{any};
ghost use Rattle.literals.specs.Domain.{Domain};
ghost use Rattle.literals.specs.Decode.{max_actions, max_arguments, max_literals, literal_of, component_fault, stop_of, stop_place};
ghost use Rattle.literals.specs.Decode.{kind_of, relation_record, action_record, literal_record, component_record, closing_record};
ghost use Rattle.literals.specs.Faults.{stop_number, record_stop};
ghost use Rattle.literals.specs.Held.{row_of, has_every, WordOf, rows_stop, actions_in, size_in, HeadOf, Held, head_bytes};
ghost use Rattle.reading.specs.Kinds.{record_kind};
ghost use Rattle.reading.specs.Held.{Takes, rows_of, Placed, TakesRow, RecordReady};

use super::kind::Kind;
use literals::fault::{Fault, RecordFault};
use literals::fields::{
    action_fields, any_clears_key, component_fields, label_fields, literal_arguments,
    literal_shape, relation_fields,
};
use literals::head::{
    Head, actions_in, add_action, add_component, add_literal, add_relation, all_rows, clears_in,
    components_in, is_used, keys_with, relations_in, span_of, variables_of,
};
use literals::limits::{MAX_ACTIONS, MAX_COMPONENTS, MAX_LITERALS, MAX_RELATIONS};
use literals::row::{any_contradicts, any_same, put_word, row_word};
use literals::span::Span;
use records::bytes::any_from;

pub fn take_relation(head: &mut Head, p: &[u8]) -> Result<(), Fault>
    ensures { Takes relation_record p.now (stop_number result) head.old head.new }
{
    if 0 < actions_in(head) {
        return Err(Fault::OutOfOrder);
    }
    if 0 < components_in(head) {
        return Err(Fault::OutOfOrder);
    }
    if MAX_RELATIONS <= relations_in(head) {
        return Err(Fault::OverLimit);
    }
    relation_fields(p)?;
    add_relation(head, p);
    Ok(())
}

pub fn take_action(head: &mut Head, p: &[u8]) -> Result<(), Fault>
    ensures { Takes action_record p.now (stop_number result) head.old head.new }
{
    if 0 < components_in(head) {
        return Err(Fault::OutOfOrder);
    }
    if MAX_ACTIONS <= actions_in(head) {
        return Err(Fault::OverLimit);
    }
    action_fields(p)?;
    add_action(head, p);
    Ok(())
}

// What stops a literal beside the rows of its action: one is the same, or contradicts it.
fn rows_stop(table: &[u8], span: Span, word: u64, p: &[u8]) -> Result<(), Fault>
    requires order { span.from ≤ span.to }
    requires table { 8 * span.to ≤ length table.now }
    requires long { 2 ≤ length p.now }
    requires short { length p.now ≤ 8 }
    requires word { WordOf (row_of p.now) word }
    ensures { stop_number result ≡ rows_stop (row_of p.now) (rows_of span table.now) }
{
    if any_same(table, span.from, span.to, word) {
        return Err(Fault::RepeatedLiteral);
    }
    if any_contradicts(p, table, span.from, span.to) {
        return Err(Fault::OppositeConditions);
    }
    Ok(())
}

// A literal whose fields pass, with FF or without: compared with the rows of its action, and written behind them where none stops it.
fn place_literal(
    head: &mut Head,
    table: &mut [u8],
    last: usize,
    span: Span,
    p: &[u8],
    clears: bool,
) -> Result<(), Fault>
    requires latest { last + 1 ≡ actions_in head.old }
    requires actions { last < max_actions }
    requires size { span.to ≡ span.from + size_in head.old last }
    requires few { span.to < span.from + max_literals }
    requires room { 8 * span.to + 8 ≤ length table.old }
    requires long { 2 ≤ length p.now }
    requires short { length p.now ≤ 8 }
    requires every { clears ≡ has_every (literal_of p.now) }
    ensures { Placed span p.now (stop_number result)
        head.old table.old head.new table.new }
{
    let word = row_word(p);
    rows_stop(table, span, word, p)?;
    put_word(table, 8 * span.to, word);
    add_literal(head, last, span.to - span.from, clears);
    Ok(())
}

// Whether an argument of a literal is not below n. Two arguments, as most literals have, are asked without a loop.
fn any_beyond(p: &[u8], n: u8) -> bool
    ensures { result ≡ any (leb n) (drop 2 p.now) }
{
    if let [_, _, first, second] = p {
        return n <= *first || n <= *second;
    }
    any_from(p, 2, n)
}

// Most literals have variables below their action's count alone: one look tells that FF and an unknown variable need not be asked for.
pub fn take_literal(head: &mut Head, table: &mut [u8], p: &[u8]) -> Result<(), Fault>
    requires { RecordReady head.old table.old p.now }
    ensures { TakesRow literal_record p.now (stop_number result)
        head.old table.old head.new table.new }
{
    let n = actions_in(head);
    if n == 0 {
        return Err(Fault::OutOfOrder);
    }
    if 0 < components_in(head) {
        return Err(Fault::OutOfOrder);
    }
    let last = n - 1;
    let span = span_of(head, last);
    if MAX_LITERALS <= span.to - span.from {
        return Err(Fault::OverLimit);
    }
    literal_shape(head, last, p)?;
    let variables = variables_of(head, last);
    let beyond = any_beyond(p, variables);
    if beyond {
        literal_arguments(p, variables)?;
    }
    place_literal(head, table, last, span, p, beyond)
}

// What stops a component: its fields, then its labels, then a key where a literal of its relation has FF. The rows are looked through
// for that only where some literal has FF.
fn component_fault(head: &Head, table: &[u8], p: &[u8]) -> Result<(), RecordFault>
    ensures fault { (D : Domain) → Held D head.now table.now → record_stop result ≡ component_fault D p.now }
    ensures fits { OnOk result (length p.now ≤ 1 + max_arguments) }
{
    component_fields(head, p)?;
    if is_used(head, p[0]) {
        return Err(RecordFault::from(Fault::RelationUsed));
    }
    label_fields(p, keys_with(head, p))?;
    if !clears_in(head) {
        return Ok(());
    }
    if any_clears_key(p, table, all_rows(head, table)) {
        return Err(RecordFault::from(Fault::KeyCleared));
    }
    Ok(())
}

pub fn take_component(head: &mut Head, table: &[u8], p: &[u8]) -> Result<(), RecordFault>
    requires { length head.old ≡ head_bytes }
    ensures number { TakesRow component_record p.now (record_stop result).number
        head.old table.now head.new table.now }
    ensures place { (D : Domain) → Held D head.old table.now
        → (record_stop result).within ≡ stop_place D component_record p.now }
{
    if MAX_COMPONENTS <= components_in(head) {
        return Err(RecordFault::from(Fault::OverLimit));
    }
    component_fault(head, table, p)?;
    add_component(head, p);
    Ok(())
}

pub fn take_closing(head: &Head, p: &[u8]) -> Result<(), Fault>
    ensures { (D : Domain) → HeadOf D head.now → stop_number result ≡ stop_of D closing_record p.now }
{
    if p.len() != 0 {
        return Err(Fault::WrongLength);
    }
    if components_in(head) == 0 {
        return Err(Fault::NoComponent);
    }
    Ok(())
}

// A record of this kind. (A `match`: each kind is taken by a function of its own, of other arguments.)
fn take_kind(head: &mut Head, table: &mut [u8], kind: Kind, p: &[u8]) -> Result<(), RecordFault>
    requires { RecordReady head.old table.old p.now }
    ensures number { TakesRow (record_kind kind) p.now (record_stop result).number
        head.old table.old head.new table.new }
    ensures place { (D : Domain) → Held D head.old table.old
        → (record_stop result).within ≡ stop_place D (record_kind kind) p.now }
{
    match kind {
        Kind::Relation => Ok(take_relation(head, p)?),
        Kind::Action => Ok(take_action(head, p)?),
        Kind::Literal => Ok(take_literal(head, table, p)?),
        Kind::Component => take_component(head, &table[..], &p[..]),
        Kind::Closing => Ok(take_closing(head, p)?),
    }
}

// A record of any kind, by the number in its head.
pub fn take_record(
    head: &mut Head,
    table: &mut [u8],
    kind: u16,
    p: &[u8],
) -> Result<(), RecordFault>
    requires { RecordReady head.old table.old p.now }
    ensures number { TakesRow (kind_of kind) p.now (record_stop result).number
        head.old table.old head.new table.new }
    ensures place { (D : Domain) → Held D head.old table.old
        → (record_stop result).within ≡ stop_place D (kind_of kind) p.now }
{
    take_kind(head, table, Kind::try_from(kind)?, p)
}

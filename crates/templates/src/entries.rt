// The entries of the list: relation, counted place and verdict, a byte each, for every template that reading would take.
ghost use Rattle.std.specs.Prelude.{◌≡◌, List, [], ◌∷◌, ◌++◌, ℕ, ◌+◌, ◌*◌, ◌≤◌, ◌<◌, length};
ghost use Rattle.literals.specs.Domain.{Domain, arity};
ghost use Rattle.literals.specs.Decode.{max_relations, max_arguments};
ghost use Rattle.literals.specs.Held.{head_bytes};
ghost use Rattle.templates.specs.Templates.{Shape, shape, shapes_of, shapes};
ghost use Rattle.templates.specs.Held.{BareHeld, PlaceBelow, Listing};

use super::deciding::decide_alone;
use super::shapes::payload_of;
use literals::head::{Head, arity_of, relations_in};
use reading::take::take_component;

// The entry of one template, behind those that are written; nothing where reading would refuse it. How far the list goes then. (Head and
// table hold the domain without its template.)
fn put_entry(
    head: &Head,
    table: &[u8],
    relation: u8,
    counted: Option<u8>,
    list: &mut [u8],
    at: usize,
) -> usize
    requires whole { length head.now ≡ head_bytes }
    requires room { at + 3 ≤ length list.old }
    ensures few { result ≤ at + 3 }
    ensures entry { (D : Domain) (ss : List Shape) (old : List ℕ) → BareHeld D head.now table.now
        → relation < length D.arities → PlaceBelow (arity D relation) counted → Listing D ss at list.old old
        → Listing D (ss ++ (shape relation counted ∷ [])) result list.new old }
{
    let payload = payload_of(relation, counted);
    let size = usize::from(arity_of(head, relation)) + 1;
    let mut alone = *head;
    if take_component(&mut alone, table, &payload[..size]).is_err() {
        return at;
    }
    let place = counted.unwrap_or(255);
    let verdict = decide_alone(&alone, table, relation) as u8;
    list[at..at + 3].copy_from_slice(&[relation, place, verdict]);
    at + 3
}

// Those of one relation: no counted place, then each place.
fn put_relation(head: &Head, table: &[u8], relation: u8, list: &mut [u8], at: usize) -> usize
    requires whole { length head.now ≡ head_bytes }
    requires room { at + 21 ≤ length list.old }
    ensures few { result ≤ at + 21 }
    ensures entries { (D : Domain) (ss : List Shape) (old : List ℕ) → BareHeld D head.now table.now
        → relation < length D.arities → Listing D ss at list.old old
        → Listing D (ss ++ shapes_of relation (arity D relation)) result list.new old }
{
    let mut end = put_entry(head, table, relation, None, list, at);
    for place in 0..arity_of(head, relation) {
        end = put_entry(head, table, relation, Some(place), list, end);
    }
    end
}

// Those of all relations: how many bytes the list has.
pub fn put_list(head: &Head, table: &[u8], list: &mut [u8]) -> usize
    requires whole { length head.now ≡ head_bytes }
    requires room { 3 * ((1 + max_arguments) * max_relations) ≤ length list.old }
    ensures few { result ≤ 3 * ((1 + max_arguments) * max_relations) }
    ensures entries { (D : Domain) (old : List ℕ) → BareHeld D head.now table.now
        → Listing D [] 0 list.old old → Listing D (shapes D) result list.new old }
{
    let mut end = 0;
    for relation in 0..relations_in(head) {
        end = put_relation(head, table, relation as u8, list, end);
    }
    end
}

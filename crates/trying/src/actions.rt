// The answers for the actions of a domain, one behind the other.
ghost use Rattle.std.specs.Prelude.{◌≡◌, true, false, List, ℕ, ◌+◌, ◌*◌, ◌≤◌, ◌<◌, length};
ghost use Rattle.literals.specs.Domain.{Domain, action};
ghost use Rattle.literals.specs.Decode.{max_actions, max_literals};
ghost use Rattle.literals.specs.Held.{Held};
ghost use Rattle.verdict.specs.Claims.{well_formed};
ghost use Rattle.trying.specs.Held.{ActionHeld, Making};

use super::alone::step_alone;
use super::answers::answer_rows;
use effects::SCRATCH;
use literals::head::{Head, actions_in, is_lasting, rows_of};
use literals::key_places::Places;
use literals::limits::MAX_LITERALS;

// Those of the action i, which is at once, behind those that are written; how far they go then.
fn try_at_once(places: &Places, table: &[u8], i: usize, made: &mut [u8], at: usize) -> usize
    requires action { i < max_actions }
    requires listed { ActionHeld places.now.head.now table.now i }
    requires room { at + max_literals ≤ length made.old }
    ensures few { result ≤ at + max_literals }
    ensures answers { (D : Domain) (old : List ℕ) → Held D places.now.head.now table.now → well_formed D ≡ true
        → i < length D.actions → Making D i at made.old old → (action D i).lasting ≡ false
        → Making D (i + 1) result made.new old }
{
    let span = rows_of(places.head, table, i);
    let first = span.from;
    let last = span.to;
    let from = 8 * first;
    let to = 8 * last;
    let n = last - first;
    let mut numbers = [0u8; MAX_LITERALS];
    let mut base = [0u8; SCRATCH];
    let mut after = [0u8; SCRATCH];
    let alone = step_alone(places.head, table, i, &mut base, &mut after);
    let end = at + MAX_LITERALS;
    let count = answer_rows(
        places,
        alone,
        &base,
        &after,
        &table[from..to],
        &mut numbers[0..n],
        &mut made[at..end],
    );
    at + count
}

// Those of the action i: none where it lasts.
fn try_action(places: &Places, table: &[u8], i: usize, made: &mut [u8], at: usize) -> usize
    requires action { i < max_actions }
    requires listed { ActionHeld places.now.head.now table.now i }
    requires room { at + max_literals ≤ length made.old }
    ensures few { result ≤ at + max_literals }
    ensures answers { (D : Domain) (old : List ℕ) → Held D places.now.head.now table.now → well_formed D ≡ true
        → i < length D.actions → Making D i at made.old old → Making D (i + 1) result made.new old }
{
    if is_lasting(places.head, i) {
        return at;
    }
    try_at_once(places, table, i, made, at)
}

// Those of all actions: how many bytes they are.
pub fn try_actions(head: &Head, table: &[u8], made: &mut [u8]) -> usize
    requires read { (D : Domain) × Held D head.now table.now × (well_formed D ≡ true) }
    requires room { max_actions * max_literals ≤ length made.old }
    ensures few { result ≤ max_actions * max_literals }
    ensures answers { (D : Domain) (old : List ℕ) → Held D head.now table.now → well_formed D ≡ true
        → Making D 0 0 made.old old → Making D (length D.actions) result made.new old }
{
    let places = Places::of(head);
    let mut end = 0;
    for i in 0..actions_in(head) {
        end = try_action(&places, table, i, made, end);
    }
    end
}

// The decision of a domain whose template is one component, by the summaries of its actions. Of an action, the literals of the relation
// alone are named: the others do not match. One without such a literal has no class, and is passed over.
ghost use Rattle.std.specs.Prelude.{◌≡◌, true, cond, ◌+◌, ◌*◌, ◌≤◌, ◌<◌, length, take};
ghost use Rattle.std.proofs.Math.Seq.{paste};
ghost use Rattle.records.specs.Lists.{any, below};
ghost use Rattle.literals.specs.Domain.{Domain, Action, action};
ghost use Rattle.literals.specs.Decode.{max_actions, max_literals};
ghost use Rattle.literals.specs.Held.{Held, row_in};
ghost use Rattle.classes.specs.Held.{ActionOf};
ghost use Rattle.verdict.specs.Judged.{decided};
ghost use Rattle.verdict.specs.Claims.{well_formed};
ghost use Rattle.verdict.specs.Summaries.{summary_of};
ghost use Rattle.templates.specs.Held.{OnlyRelation, mentioned_at, rows_of_relation};

use literals::head::{Head, actions_in, is_lasting, rows_of};
use literals::key_places::Places;
use literals::limits::MAX_LITERALS;
use naming::name_action;
use verdict::{Notes, Summary};

// Whether a literal of these rows has the relation.
fn mentions(rows: &[u8], n: usize, relation: u8) -> bool
    requires { length rows.now ≡ 8 * n }
    ensures { result ≡ any (mentioned_at rows.now relation) (below n) }
{
    (0..n).any(|j| rows[8 * j + 1] == relation)
}

// Puts the row `j` behind the `k` rows that are kept, if it has the relation: how many are kept then.
fn keep_row(rows: &[u8], j: usize, relation: u8, kept: &mut [u8], k: usize) -> usize
    requires row { 8 * j + 8 ≤ length rows.now }
    requires room { 8 * k + 8 ≤ length kept.old }
    ensures count { result ≡ cond (mentioned_at rows.now relation j) (k + 1) k }
    ensures rows { kept.new ≡ cond (mentioned_at rows.now relation j)
        (paste kept.old (8 * k) (row_in rows.now j) 8) kept.old }
{
    if rows[8 * j + 1] != relation {
        return k;
    }
    kept[8 * k..8 * k + 8].copy_from_slice(&rows[8 * j..8 * j + 8]);
    k + 1
}

// Puts the rows that have the relation one behind the other: how many they are.
fn rows_of_relation(rows: &[u8], n: usize, relation: u8, kept: &mut [u8]) -> usize
    requires rowed { length rows.now ≡ 8 * n }
    requires room { 8 * n ≤ length kept.old }
    ensures few { result ≤ n }
    ensures rows { take (8 * result) kept.new ≡ rows_of_relation rows.now relation n }
{
    let mut k = 0;
    for j in 0..n {
        k = keep_row(rows, j, relation, kept, k);
    }
    k
}

// The summary of an action, of the rows of its literals.
fn summarize(places: &Places, rows: &[u8], n: usize, lasting: bool, relation: u8) -> Summary
    requires rowed { length rows.now ≡ 8 * n }
    requires few { n ≤ max_literals }
    ensures { (D : Domain) (a : Action) → ActionOf D a places.now.head.now rows.now → a.lasting ≡ lasting
        → OnlyRelation D relation → result ≡ summary_of D a }
{
    if mentions(rows, n, relation) {
        let mut kept = [0u8; 8 * MAX_LITERALS];
        let count = rows_of_relation(rows, n, relation, &mut kept);
        let mut numbers = [0u8; MAX_LITERALS];
        let mut words = [0u64; MAX_LITERALS];
        let mut names = [0u8; 2 * MAX_LITERALS];
        let named = name_action(
            places,
            &kept[..8 * count],
            &mut numbers[..count],
            &mut words,
            0,
            lasting,
            &mut names,
        );
        return named.summary;
    }
    Summary::new()
}

// That of the action i.
fn summary_of(places: &Places, table: &[u8], i: usize, relation: u8) -> Summary
    requires action { i < max_actions }
    ensures { (D : Domain) → Held D places.now.head.now table.now → well_formed D ≡ true → i < length D.actions
        → OnlyRelation D relation → result ≡ summary_of D (action D i) }
{
    let span = rows_of(places.head, table, i);
    let first = span.from;
    let last = span.to;
    let from = 8 * first;
    let to = 8 * last;
    summarize(
        places,
        &table[from..to],
        last - first,
        is_lasting(places.head, i),
        relation,
    )
}

// The number of the decision, of a template with one component, which has this relation.
pub fn decide_alone(head: &Head, table: &[u8], relation: u8) -> u64
    ensures few { result < 256 }
    ensures number { (D : Domain) → Held D head.now table.now → well_formed D ≡ true
        → OnlyRelation D relation → result ≡ (decided D).number }
{
    let places = Places::of(head);
    let mut notes = Notes::new();
    for i in 0..actions_in(head) {
        let summary = summary_of(&places, table, i, relation);
        notes = notes.with(i as u8, summary);
    }
    let decided = notes.decide();
    decided.number
}

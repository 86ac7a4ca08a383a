// Journeys of what is open: which classes of an action are journeys, how many of an open entry's belong to an instance, and the total
// that is told of it, which is its weight and those.
#![tactic(auto)]

ghost use Rattle.std.specs.Prelude.{◌≡◌, true, ◌&&◌, ℕ, ◌+◌, ◌*◌, ◌<◌, ◌≤◌, length, get_or};
ghost use mathlib.Core.List.{List, [], map, foldr};
ghost use Rattle.records.specs.Lists.{In, add_if, same_list};
ghost use Rattle.literals.specs.declared.Object.{Object};
ghost use Rattle.literals.specs.declared.Moment.TheVariants.{Start, End};
ghost use Rattle.literals.specs.Domain.{same_object, Fact, keys_of, Domain, Action, action};
ghost use Rattle.literals.specs.Decode.{max_literals};
ghost use Rattle.literals.specs.Held.{row_of, rows_in, pad, Held};
ghost use Rattle.classes.specs.Classes.{classes, journey};
ghost use Rattle.classes.specs.Held.{ActionOf, MomentOf, Sides, class_numbers, own_usages, sole_of, sole_in};
ghost use Rattle.verdict.specs.Binding.{bind_tuple};
ghost use Rattle.verdict.specs.Judged.{object_numbers};
ghost use Rattle.verdict.specs.Machine.{GroundAction, State};
ghost use Rattle.verdict.specs.Claims.{well_formed, journeys_for, total};
ghost use Rattle.verdict.specs.Held.{fact_row};
ghost use Rattle.run_semantics.specs.RunFile.{max_running, max_facts};
ghost use Rattle.run_semantics.specs.Track.{instance_of};
ghost use Rattle.store.specs.Held.{FactFits};
ghost use Rattle.events.specs.Held.{ground_bytes, open_bytes, agenda_bytes, ground_row, agenda_open, open_of, GroundFits, GroundsFit};
ghost use Rattle.journeys.specs.Held.{journey_mark};

use classes::names::{is_journey, note_soles, sole_in, usages_at};
use classes::number::number_classes;
use classes::{AT_END, AT_START, Count, Marks, Soles};
use events::facts::bound_row;
use events::{GROUND, MOMENTS_AT};
use literals::Moment;
use literals::head::{Head, actions_in, is_lasting, keys_in, rows_of};
use literals::key_places::Places;
use literals::limits::{MAX_LITERALS, MAX_RUNNING};
use store::weighing::{weigh, weight_at};

// The mark of a class of a lasting action, by the usages of its literals at the start and by what its classes have at both moments: 0
// where it is no journey, k + 1 where its true condition at the start is the literal k: the byte that stands in `Marks`.
fn mark_of(rows: &[u8], numbers: &[u8], usages: &Marks, soles: &Soles, class: usize) -> u8
    requires sides { Sides rows.now numbers.now }
    requires class { class < max_literals }
    requires counted { sole_in soles.now 0 class ≡ sole_of numbers.now usages.now class }
    ensures { (D : Domain) (a : Action) (head : List ℕ)
        → MomentOf D a Start head rows.now numbers.now usages.now → a.lasting ≡ true
        → sole_in soles.now 2 class ≡ sole_of (class_numbers D a) (pad max_literals (own_usages a End)) class
        → class < length (classes D a) → result ≡ journey_mark D a class }
{
    let start = sole_in(soles, AT_START, class);
    let Count::One(condition) = start.conditions else {
        return 0;
    };
    let end = sole_in(soles, AT_END, class);
    if is_journey(rows, numbers, usages, start, end, class as u8) {
        return condition + 1;
    }
    0
}

// Marks the classes of a lasting action, whose literals are these rows and have these class numbers. `marks` is all 0 before.
fn mark_journeys(rows: &[u8], numbers: &[u8], count: usize, marks: &mut Marks)
    requires rowed { length rows.now ≡ 8 * length numbers.now }
    requires literals { length numbers.now ≤ max_literals }
    requires few { count ≤ length numbers.now }
    ensures { (D : Domain) (a : Action) (head : List ℕ) → ActionOf D a head rows.now → a.lasting ≡ true
        → numbers.now ≡ class_numbers D a → count ≡ length (classes D a) → marks.old ≡ pad max_literals []
        → (class : ℕ) → class < count → get_or marks.new class 0 ≡ journey_mark D a class }
{
    let mut soles = [0u8; 5 * MAX_LITERALS];
    let mut usages = [0u8; MAX_LITERALS];
    note_soles(rows, numbers, &mut soles);
    usages_at(false, rows, numbers.len(), Moment::Start, &mut usages);
    for class in 0..count {
        marks[class] = mark_of(rows, numbers, &usages, &soles, class);
    }
}

// 1 where a class with this mark is a journey that belongs to the instance with this key tuple, of an open entry whose action has these
// rows: the key tuple of a class, bound, is that of each of its literals' facts. Else 0. (A mark is within the rows; the test gives
// the checker the bound.)
fn belongs_by(head: &Head, rows: &[u8], mark: u8, act: &[u8], row: [u8; 8]) -> usize
    requires { length act.now ≡ ground_bytes }
    ensures few { result ≤ 1 }
    ensures counts { (D : Domain) (g : GroundAction) (y : List Object) (class : ℕ)
        → ActionOf D (action D g.action) head.now rows.now → GroundFits D g
        → act.now ≡ ground_row g → length y ≡ keys_of D.template → row ≡ row_of (object_numbers y)
        → class < length (classes D (action D g.action)) → mark ≡ journey_mark D (action D g.action) class
        → let x = get_or (classes D (action D g.action)) class [] in
        result ≡ add_if (journey D (action D g.action) x && same_list same_object (bind_tuple g.binding x) y) 0 }
{
    let Some(literal) = usize::from(mark).checked_sub(1) else {
        return 0;
    };
    if rows.len() < 8 * (literal + 1) {
        return 0;
    }
    let fact = bound_row(head, act, rows, 8 * literal);
    weight_at(head, &fact, 0, row)
}

// How many of the first `count` classes belong to the instance, by their marks.
fn count_marked(
    head: &Head,
    rows: &[u8],
    marks: &Marks,
    count: usize,
    act: &[u8],
    row: [u8; 8],
) -> usize
    requires few { count ≤ max_literals }
    requires act { length act.now ≡ ground_bytes }
    ensures few { result ≤ count }
    ensures counts { (D : Domain) (g : GroundAction) (y : List Object)
        → ActionOf D (action D g.action) head.now rows.now → GroundFits D g
        → act.now ≡ ground_row g → length y ≡ keys_of D.template → row ≡ row_of (object_numbers y)
        → count ≡ length (classes D (action D g.action))
        → ((class : ℕ) → class < count → get_or marks.now class 0 ≡ journey_mark D (action D g.action) class)
        → result ≡ journeys_for D y g }
{
    let mut found: usize = 0;
    for mark in &marks[..count] {
        found += belongs_by(head, rows, *mark, act, row);
    }
    found
}

// How many journeys of an open entry belong to the instance; its lasting action has these n literals.
fn journeys_of(head: &Head, rows: &[u8], n: usize, act: &[u8], row: [u8; 8]) -> usize
    requires rowed { length rows.now ≡ 8 * n }
    requires literals { n ≤ max_literals }
    requires act { length act.now ≡ ground_bytes }
    ensures few { result ≤ max_literals }
    ensures counts { (D : Domain) (g : GroundAction) (y : List Object)
        → ActionOf D (action D g.action) head.now rows.now → (action D g.action).lasting ≡ true
        → GroundFits D g → act.now ≡ ground_row g → length y ≡ keys_of D.template → row ≡ row_of (object_numbers y)
        → result ≡ journeys_for D y g }
{
    let places = Places::of(head);
    let mut numbers = [0u8; MAX_LITERALS];
    let mut words = [0u64; MAX_LITERALS];
    let count = number_classes(&places, rows, &mut numbers[0..n], &mut words);
    let mut marks = [0u8; MAX_LITERALS];
    mark_journeys(rows, &numbers[0..n], count, &mut marks);
    count_marked(head, rows, &marks, count, act, row)
}

// The same of any entry: one of an action at once has none.
fn entry_journeys(head: &Head, table: &[u8], act: &[u8], row: [u8; 8]) -> usize
    requires { length act.now ≡ ground_bytes }
    ensures few { result ≤ max_literals }
    ensures counts { (D : Domain) (g : GroundAction) (y : List Object)
        → Held D head.now table.now → well_formed D ≡ true → GroundFits D g
        → act.now ≡ ground_row g → length y ≡ keys_of D.template → row ≡ row_of (object_numbers y)
        → result ≡ journeys_for D y g }
{
    let action = usize::from(act[0]);
    if actions_in(head) <= action {
        return 0;
    }
    if !is_lasting(head, action) {
        return 0;
    }
    let span = rows_of(head, table, action);
    journeys_of(
        head,
        &table[8 * span.from..8 * span.to],
        span.to - span.from,
        act,
        row,
    )
}

// How many journeys of the first n open entries belong to the instance.
fn open_journeys(head: &Head, table: &[u8], entries: &[u8], n: usize, row: [u8; 8]) -> usize
    requires few { n ≤ max_running }
    requires entries { length entries.now ≡ open_bytes }
    ensures few { result ≤ max_literals * n }
    ensures counts { (D : Domain) (gs : List GroundAction) (y : List Object)
        → Held D head.now table.now → well_formed D ≡ true → GroundsFit D gs
        → record { count = n; rows = entries.now } ≡ open_of gs → length y ≡ keys_of D.template → row ≡ row_of (object_numbers y)
        → result ≡ foldr (λ g m. journeys_for D y g + m) 0 gs }
{
    let mut found: usize = 0;
    for act in entries[..GROUND * n].chunks_exact(GROUND) {
        found += entry_journeys(head, table, act, row);
    }
    found
}

// The key tuple of an instance, as a row: its objects, FF to fill.
fn instance_row(instance: &[u8]) -> [u8; 8]
    requires { length instance.now ≤ 8 }
    ensures { result ≡ row_of instance.now }
{
    let mut row = [255u8; 8];
    row[..instance.len()].copy_from_slice(instance);
    row
}

// The total of an instance: its weight among the facts, and the open journeys that belong to it; 0 where it has another count than the
// keys. (There are no more entries than there is room for; the test gives the checker the bound.)
pub fn total_of(
    head: &Head,
    table: &[u8],
    work: &[u8],
    facts: usize,
    agenda: &[u8],
    opened: usize,
    instance: &[u8],
) -> usize
    requires few { facts ≤ max_facts }
    requires facts { 8 * facts ≤ length work.now }
    requires agenda { length agenda.now ≡ agenda_bytes }
    ensures { (D : Domain) (s : State) → Held D head.now table.now → well_formed D ≡ true
        → rows_in facts work.now ≡ map fact_row s.facts → ((f : Fact) → In f s.facts → FactFits D f)
        → agenda_open opened agenda.now ≡ open_of s.running → GroundsFit D s.running → length s.running ≤ max_running
        → result ≡ total D (instance_of instance.now) s }
{
    if MAX_RUNNING < opened {
        return 0;
    }
    if instance.len() != keys_in(head) {
        return 0;
    }
    let row = instance_row(instance);
    let weight = weigh(head, work, facts, row);
    weight + open_journeys(head, table, &agenda[0..MOMENTS_AT], opened, row)
}

// The witness: 8 bytes a fact (relation, arity, arguments, FF to fill), variable i as object i.
#![tactic(auto)]

ghost use Rattle.std.specs.Prelude.{◌≡◌, true, List, [], ℕ, ◌+◌, ◌*◌, ◌≤◌, ◌<◌, length, get_or, take, drop};
ghost use Rattle.std.proofs.Math.Seq.{paste};
ghost use Rattle.records.specs.Lists.{count_by};
ghost use Rattle.records.specs.Memory.{over};
ghost use Rattle.literals.specs.Domain.{object, Domain, Action, action};
ghost use Rattle.literals.specs.Decode.{max_literals};
ghost use Rattle.literals.specs.Held.{rows_in, Held};
ghost use Rattle.classes.specs.Classes.{classes};
ghost use Rattle.classes.specs.Held.{ActionOf, class_numbers, numbers_of, place_below, uncovered_at};
ghost use Rattle.verdict.specs.Claims.{well_formed};
ghost use Rattle.verdict.specs.Held.{moment_by};
ghost use Rattle.verdict.specs.Decision.{shown_at};
ghost use Rattle.witness.specs.Held.{RefusedAt, ShownAt, first_usages, is_condition, condition_bytes, condition_if, conditions_of};

use classes::Marks;
use classes::names::{first_uncovered, lasts_at, usages_at};
use classes::number::class_tuple;
use literals::head::{Head, actions_in, arity_of, components_in, rows_of, variables_of};
use literals::limits::MAX_LITERALS;
use literals::{Moment, Object, Variable};
use store::instances::put_instance;
use verdict::moment_of;

// How many literals are true conditions at the moment.
fn count_conditions(usages: &Marks, n: usize) -> usize
    requires { n ≤ max_literals }
    ensures number { result ≡ count_by is_condition (first_usages n usages.now) }
    ensures few { result ≤ max_literals }
{
    usages[..n].iter().filter(|usage| **usage == 1).count()
}

// "Variable i is object i": the one function that makes an object of a variable.
fn witness_object(v: Variable) -> Object
    ensures { result ≡ object v.0 }
{
    Object(v.0)
}

// The fact of a literal's row. (The FF that fill a row stay FF.)
fn condition_bytes(row: &[u8], arity: u8) -> [u8; 8]
    requires { length row.now ≡ 8 }
    ensures { result ≡ condition_bytes arity row.now }
{
    let object = |v: u8| witness_object(Variable(v)).0;
    [
        row[1],
        arity,
        object(row[2]),
        object(row[3]),
        object(row[4]),
        object(row[5]),
        object(row[6]),
        object(row[7]),
    ]
}

// Writes the fact of a literal's row where it is a true condition; answers the offset behind it.
fn put_if(out: &mut [u8], at: usize, head: &Head, row: &[u8], usage: u8) -> usize
    requires row { length row.now ≡ 8 }
    requires room { usage ≡ 1 → at + 8 ≤ length out.old }
    ensures written { out.new
        ≡ paste out.old at (condition_if head.now usage row.now) (length (condition_if head.now usage row.now)) }
    ensures behind { result ≡ at + length (condition_if head.now usage row.now) }
{
    if usage != 1 {
        return at;
    }
    let fact = condition_bytes(row, arity_of(head, row[1]));
    out[at..at + 8].copy_from_slice(&fact);
    at + 8
}

// The facts of the true conditions, in file order. (By an index, since the rows of 8 bytes and their usages stand side by side, and n may
// be less than the usages.)
fn put_conditions(out: &mut [u8], head: &Head, rows: &[u8], usages: &Marks, n: usize)
    requires few { n ≤ max_literals }
    requires rowed { 8 * n ≤ length rows.now }
    requires room { 8 * count_by is_condition (first_usages n usages.now) ≤ length out.old }
    ensures { out.new
        ≡ over (conditions_of head.now (first_usages n usages.now) (rows_in n rows.now))
        out.old }
{
    let mut at: usize = 0;
    for j in 0..n {
        at = put_if(out, at, head, &rows[8 * j..8 * j + 8], usages[j]);
    }
}

// The witness of a moment that is not unbounded: the true conditions that are asked there. Whether they fit; nothing is written where
// they do not.
fn put_plain(head: &Head, rows: &[u8], n: usize, m: Moment, out: &mut [u8]) -> bool
    requires few { n ≤ max_literals }
    requires rowed { length rows.now ≡ 8 * n }
    ensures { (D : Domain) (a : Action) (j number : ℕ) → ActionOf D a head.now rows.now
        → RefusedAt D a j m number → (number ≡ 42 → ⊥) → ShownAt D a j m out.old out.new result }
{
    let mut asked = [0u8; MAX_LITERALS];
    usages_at(true, rows, n, m, &mut asked);
    let k = count_conditions(&asked, n);
    if out.len() < 8 * k {
        return false;
    }
    put_conditions(out, head, rows, &asked, n);
    true
}

// The first component that a class leaves uncovered at a moment, if there is one.
fn open_component(head: &Head, rows: &[u8], numbers: &[u8], m: Moment, class: u8) -> Option<usize>
    requires few { length numbers.now ≤ max_literals }
    requires rowed { length rows.now ≡ 8 * length numbers.now }
    ensures { (D : Domain) (a : Action) → ActionOf D a head.now rows.now
        → numbers.now ≡ class_numbers D a → class < length (classes D a)
        → result ≡ place_below (length D.template) (uncovered_at D a (get_or (classes D a) class []) m) }
{
    let mut usages = [0u8; MAX_LITERALS];
    usages_at(false, rows, numbers.len(), m, &mut usages);
    first_uncovered(head, rows, numbers, &usages, class)
}

// The witness of an unbounded moment of the class j: the true conditions that are asked there, then the instance fact of the first
// uncovered component. Whether they fit; nothing is written where they do not. (An unbounded moment has an uncovered component; the test
// is there for the proof alone.)
fn put_open(
    head: &Head,
    rows: &[u8],
    numbers: &[u8],
    spare: Object,
    j: usize,
    m: Moment,
    out: &mut [u8],
) -> bool
    requires few { length numbers.now ≤ max_literals }
    requires class { j < max_literals }
    requires rowed { length rows.now ≡ 8 * length numbers.now }
    ensures { (D : Domain) (a : Action) → ActionOf D a head.now rows.now
        → numbers.now ≡ class_numbers D a
        → spare.0 ≡ a.vars → RefusedAt D a j m 42 → ShownAt D a j m out.old out.new result }
{
    let n = numbers.len();
    let mut asked = [0u8; MAX_LITERALS];
    usages_at(true, rows, n, m, &mut asked);
    let k = count_conditions(&asked, n);
    if out.len() < 8 * k + 8 {
        return false;
    }
    match open_component(head, rows, numbers, m, j as u8) {
        Some(u) if u < components_in(head) => {
            let tuple = class_tuple(head, rows, numbers, j as u8);
            put_conditions(out, head, rows, &asked, n);
            put_instance(out, 8 * k, head, u, &tuple, spare);
            true
        }
        _ => false,
    }
}

// The witness of a moment that is refused by `number`.
fn put_witness(
    head: &Head,
    rows: &[u8],
    numbers: &[u8],
    spare: Object,
    j: usize,
    m: Moment,
    number: u64,
    out: &mut [u8],
) -> bool
    requires few { length numbers.now ≤ max_literals }
    requires class { j < max_literals }
    requires rowed { length rows.now ≡ 8 * length numbers.now }
    ensures { (D : Domain) (a : Action) → ActionOf D a head.now rows.now
        → numbers.now ≡ class_numbers D a
        → spare.0 ≡ a.vars → RefusedAt D a j m number → ShownAt D a j m out.old out.new result }
{
    // A number, and no enum: it is the answer's own.
    if number == 42 {
        return put_open(head, rows, numbers, spare, j, m, out);
    }
    put_plain(head, rows, numbers.len(), m, out)
}

// Whether a witness is written for the place named: not at an end whose class has an over-all literal. `numbers` has the class number of
// each literal of the table. (The decision names an action and a class of the domain; the tests are there for the proof alone.)
pub fn is_shown(head: &Head, table: &[u8], numbers: &[u8], i: usize, j: usize, moment: u64) -> bool
    requires { length table.now ≤ 8 * length numbers.now }
    ensures { (D : Domain) (old : List ℕ) → Held D head.now table.now → well_formed D ≡ true
        → numbers.now ≡ over (numbers_of D D.actions) old → i < length D.actions
        → j < length (classes D (action D i)) → result ≡ shown_at D (action D i) (get_or (classes D (action D i)) j []) (moment_by moment) }
{
    if moment_of(moment) == Moment::Start || actions_in(head) <= i || MAX_LITERALS <= j {
        return true;
    }
    let span = rows_of(head, table, i);
    !lasts_at(
        &table[8 * span.from..8 * span.to],
        &numbers[span.from..span.to],
        j as u8,
    )
}

// The witness of the place named: the class j of the action i at a moment, refused by `number`. Whether it fits; nothing is written where
// it does not. (The number is the answer's own. The decision names an action and a class of the domain; the tests are there for the proof
// alone.)
pub fn show(
    head: &Head,
    table: &[u8],
    numbers: &[u8],
    i: usize,
    j: usize,
    moment: u64,
    number: u64,
    out: &mut [u8],
) -> bool
    requires { length table.now ≤ 8 * length numbers.now }
    ensures { (D : Domain) (old : List ℕ) → Held D head.now table.now → well_formed D ≡ true
        → numbers.now ≡ over (numbers_of D D.actions) old → i < length D.actions
        → RefusedAt D (action D i) j (moment_by moment) number
        → ShownAt D (action D i) j (moment_by moment) out.old out.new result }
{
    if actions_in(head) <= i || MAX_LITERALS <= j {
        return false;
    }
    let span = rows_of(head, table, i);
    put_witness(
        head,
        &table[8 * span.from..8 * span.to],
        &numbers[span.from..span.to],
        Object(variables_of(head, i)),
        j,
        moment_of(moment),
        number,
        out,
    )
}

// The literals of an action as rows, bound to its objects: the row of a fact, or a pattern with FF for every object; and the time that
// an event's moment asks of them.
ghost use Rattle.std.specs.Prelude.{◌≡◌, ◌+◌, ◌*◌, ◌<◌, ◌≤◌, length, get_or, take, drop};
ghost use Rattle.records.specs.Lists.{any};
ghost use Rattle.literals.specs.Decode.{max_arguments};
ghost use Rattle.literals.specs.Held.{rows_in, argument_number};
ghost use Rattle.verdict.specs.Held.{patterns_meet};
ghost use Rattle.run_semantics.specs.RunFile.{moment_of};
ghost use Rattle.events.specs.Held.{ground_bytes, bound_argument, bound_bytes, bound_row, is_pattern, time_of};

use super::{END, GROUND};
use literals::head::{Head, arity_of};
use literals::row::arguments_meet;
use literals::{Argument, Object, Time, Variable};
use std::array::from_fn;

// The row i among those of actions with their objects.
pub fn ground_at(rows: &[u8], i: usize) -> &[u8]
    requires { ground_bytes * i + ground_bytes ≤ length rows.now }
    ensures { result.now ≡ take ground_bytes (drop (ground_bytes * i) rows.now) }
{
    &rows[GROUND * i..GROUND * i + GROUND]
}

// The object that an action's row has for a variable. (What is answered for a number that is no variable's is never asked for.)
fn object_of(act: &[u8], v: Variable) -> Object
    requires { length act.now ≡ ground_bytes }
    ensures { result.0 ≡ bound_argument act.now v.0 }
{
    let place = usize::from(v.0) + 1;
    if place < GROUND {
        Object(act[place])
    } else {
        Object(255)
    }
}

// The byte of an argument, bound: of a variable its object; FF, every object, stays.
fn bound_argument(act: &[u8], argument: Argument) -> u8
    requires { length act.now ≡ ground_bytes }
    ensures { result ≡ bound_argument act.now (argument_number argument) }
{
    match argument {
        Argument::Variable(v) => object_of(act, v).0,
        Argument::Every => 255,
    }
}

// A byte of the literal's row at an offset, bound; `arity` is its relation's.
fn bound_byte(arity: u8, act: &[u8], rows: &[u8], row: usize, i: usize) -> u8
    requires bound { length act.now ≡ ground_bytes }
    requires literal { row + 8 ≤ length rows.now }
    requires place { i < 8 }
    requires arity { arity ≤ max_arguments }
    ensures { result ≡ get_or (bound_bytes arity act.now (take 8 (drop row rows.now))) i 0 }
{
    match i {
        0 => rows[row + 1],
        1 => arity,
        _ if i < 2 + usize::from(arity) => bound_argument(act, Argument::from(rows[row + i])),
        _ => 255,
    }
}

// The literal's row at an offset, bound.
pub fn bound_row(head: &Head, act: &[u8], rows: &[u8], row: usize) -> [u8; 8]
    requires bound { length act.now ≡ ground_bytes }
    requires literal { row + 8 ≤ length rows.now }
    ensures { result ≡ bound_row head.now act.now (take 8 (drop row rows.now)) }
{
    let arity = arity_of(head, rows[row + 1]);
    from_fn(|i| bound_byte(arity, act, rows, row, i))
}

// Whether FF stands among the arguments of the row at an offset: a pattern, which is about every fact whose row it meets.
#[tactic(auto, unfolding(crate::specs::Held::is_pattern))]
pub fn is_pattern(rows: &[u8], at: usize) -> bool
    requires { at + 8 ≤ length rows.now }
    ensures { result ≡ is_pattern (take 8 (drop at rows.now)) }
{
    let row = &rows[at..at + 8];
    row.iter()
        .skip(2)
        .take(usize::from(row[1]))
        .any(|b| 255 == *b)
}

// Whether there is one among the first n rows.
pub fn has_pattern(rows: &[u8], n: usize) -> bool
    requires { 8 * n ≤ length rows.now }
    ensures { result ≡ any is_pattern (rows_in n rows.now) }
{
    (0..n).any(|i| is_pattern(rows, 8 * i))
}

// Whether the row at an offset, of a literal or a fact, meets the row at an offset of another memory: they are about a fact in common.
pub fn patterns_meet(x: &[u8], i: usize, y: &[u8], j: usize) -> bool
    requires one { i + 8 ≤ length x.now }
    requires other { j + 8 ≤ length y.now }
    ensures { result ≡ patterns_meet (take 8 (drop i x.now)) (take 8 (drop j y.now)) }
{
    x[i] == y[j] && arguments_meet(x, i, y, j)
}

// The time of an event's literals, by the byte of its moment. (A function, no `From`: a byte tells a time only as the byte of a moment.)
pub fn time_at(moment: u8) -> Time
    ensures { result ≡ time_of (moment_of moment) }
{
    match moment {
        END => Time::AtEnd,
        _ => Time::AtStart,
    }
}

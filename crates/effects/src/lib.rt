// The facts after a step: what it strikes goes out, then what it adds joins, each fact once.
#![tactic(auto)]

ghost use Rattle.std.specs.Prelude.{◌≡◌, List, [], ◌∷◌, ◌++◌, map, ◌+◌, ◌*◌, ◌<◌, ◌≤◌, length, get_or, take, drop, IfSome};
ghost use Rattle.std.proofs.Math.Seq.{paste};
ghost use Rattle.records.specs.Memory.{over};
ghost use Rattle.records.specs.Lists.{any};
ghost use Rattle.literals.specs.declared.Object.{Object};
ghost use Rattle.literals.specs.Domain.{Fact, Domain};
ghost use Rattle.literals.specs.Held.{rows_in};
ghost use Rattle.run_semantics.specs.RunFile.{max_facts};
ghost use Rattle.verdict.specs.Machine.{Event};
ghost use Rattle.verdict.specs.Held.{fact_row};
ghost use Rattle.events.specs.Held.{OverObjects, is_pattern, max_ground, ground_at, ground_in, Grounded};
ghost use Rattle.store.specs.Held.{note_at, Sized, Indexed, SizedRow};
ghost use Rattle.effects.specs.Held.{scratch_bytes, effects_in, literals_in, rows_of_usage, flat, HoldsAfter, Once, any_meets, is_struck};
ghost use Rattle.effects.specs.Held.{struck_of, FirstStruck, Marked, is_apart, kept_of, join_row, join_rows, HoldsJoined};
ghost use Rattle.effects.specs.Held.{place_or, count_of};

use events::facts::{has_pattern, patterns_meet};
use events::grounding::{ADD, DELETE, GROUNDED, MAX_GROUND, USAGES};
use literals::head::Head;
use literals::limits::MAX_FACTS;
use records::bytes::put_bytes;
use store::index::{FactIndex, enter, is_held, leave};
use store::rows::{has_row, row_at};

// What a step works in, in two sections: its ground literals, in whose place the facts after it are put together when what it strikes and
// adds is told; and behind that what it strikes and then what it adds, which together are no more than its literals.
const EFFECTS: usize = GROUNDED;

pub const SCRATCH: usize = EFFECTS + 8 * MAX_GROUND;

// A mark for each byte: whether a row has it as its first argument.
type FirstMarks = [u8; 256];

// Bytes, written at an offset. (One by one, which is compiled to many at once: where they may lie in one memory, for all that the compiler
// knows, `copy_from_slice` is compiled to a call of C's `memmove`, a name that the library needs nowhere else.)
fn copy_bytes(out: &mut [u8], at: usize, p: &[u8])
    requires { at + length p.now ≤ length out.old }
    ensures { out.new ≡ paste out.old at p.now (length p.now) }
{
    for i in 0..p.len() {
        out[at + i] = p[i];
    }
}

// Writes a row behind the first n.
fn append_row(out: &mut [u8], n: usize, row: [u8; 8])
    requires { 8 * n + 8 ≤ length out.old }
    ensures { out.new ≡ over (flat (rows_in n out.old ++ (row ∷ []))) out.old }
{
    put_bytes(out, 8 * n, &row);
}

// Marks the third bytes of the first m rows.
fn put_marks(marks: &mut [u8], rows: &[u8], m: usize)
    requires marks { length marks.old ≡ 256 }
    requires rows { 8 * m ≤ length rows.now }
    ensures { Marked marks.new (rows_in m rows.now) }
{
    for j in 0..m {
        marks[usize::from(rows[8 * j + 2])] = 1;
    }
}

// Whether one of the first m rows meets the row at an offset of the work memory.
fn any_row_meets(rows: &[u8], m: usize, work: &[u8], at: usize) -> bool
    requires rows { 8 * m ≤ length rows.now }
    requires row { at + 8 ≤ length work.now }
    ensures { result ≡ any_meets (rows_in m rows.now) (take 8 (drop at work.now)) }
{
    (0..m).any(|j| patterns_meet(rows, 8 * j, work, at))
}

// Whether a row with this first argument meets none of the rows whose first arguments are marked: it is no mark, and neither is FF.
fn is_apart(marks: &FirstMarks, first: u8) -> bool
    ensures { result ≡ is_apart marks.now first }
{
    first != 255 && marks[255] == 0 && marks[usize::from(first)] == 0
}

// Whether one of the first m rows, patterns among them, meets the row at an offset of the work memory. Most are told by their third byte,
// the first argument.
fn is_met(work: &[u8], at: usize, marks: &FirstMarks, struck: &[u8], m: usize) -> bool
    requires row { at + 8 ≤ length work.now }
    requires struck { 8 * m ≤ length struck.now }
    requires marked { Marked marks.now (rows_in m struck.now) }
    ensures { result ≡ any_meets (rows_in m struck.now) (take 8 (drop at work.now)) }
{
    !is_apart(marks, work[at + 2]) && any_row_meets(struck, m, work, at)
}

// Whether the row at an offset of the work memory is struck: where there are patterns, by rows that meet; else by equal ones. Most are
// told by their third byte.
fn is_struck(
    work: &[u8],
    at: usize,
    marks: &FirstMarks,
    struck: &[u8],
    m: usize,
    patterns: bool,
) -> bool
    requires row { at + 8 ≤ length work.now }
    requires struck { 8 * m ≤ length struck.now }
    requires marked { Marked marks.now (rows_in m struck.now) }
    requires told { patterns ≡ any is_pattern (rows_in m struck.now) }
    ensures { result ≡ is_struck (rows_in m struck.now) (take 8 (drop at work.now)) }
{
    if patterns {
        return is_met(work, at, marks, struck, m);
    }
    marks[usize::from(work[at + 2])] != 0 && has_row(struck, m, row_at(work, at))
}

// The first struck row of the work memory from a row on, of n. No row occurs twice, so there is none once `gone` rows, as many as are
// struck, were found, where none of these is a pattern, which strikes many.
fn struck_from(
    work: &[u8],
    n: usize,
    from: usize,
    gone: usize,
    marks: &FirstMarks,
    struck: &[u8],
    m: usize,
    patterns: bool,
) -> Option<usize>
    requires few { n ≤ max_facts }
    requires rows { 8 * n ≤ length work.now }
    requires from { from ≤ n }
    requires struck { 8 * m ≤ length struck.now }
    requires marked { Marked marks.now (rows_in m struck.now) }
    requires once { Once (rows_in n work.now) }
    requires gone { gone ≡ struck_of (rows_in m struck.now) work.now from }
    requires told { patterns ≡ any is_pattern (rows_in m struck.now) }
    ensures inside { IfSome result (λ i. i < n) }
    ensures first { FirstStruck (rows_in m struck.now) work.now n from (place_or n result) }
{
    if !patterns && m <= gone {
        return None;
    }
    (from..n).find(|&i| is_struck(work, 8 * i, marks, struck, m, patterns))
}

// Copies the rows of the work memory that are not struck, in order, to the front of the scratch memory; answers how many they are. The
// struck rows are taken out of the index.
fn keep_rows(
    head: &Head,
    work: &[u8],
    n: usize,
    scratch: &mut [u8],
    m: usize,
    index: &mut FactIndex,
) -> usize
    requires few { n ≤ max_facts }
    requires rows { 8 * n ≤ length work.now }
    requires struck { m ≤ max_facts }
    requires scratch { length scratch.old ≡ scratch_bytes }
    requires once { Once (rows_in n work.now) }
    ensures count { result ≡ length (kept_of (rows_in m (effects_in scratch.old)) work.now n) }
    ensures rows { scratch.new
        ≡ over (flat (kept_of (rows_in m (effects_in scratch.old)) work.now n)) scratch.old }
    ensures indexed { Indexed head.now index.old (rows_in n work.now)
        → Indexed head.now index.new
        (kept_of (rows_in m (effects_in scratch.old)) work.now n) }
    ensures beside { get_or index.new note_at 0 ≡ get_or index.old note_at 0 }
{
    let mut marks: FirstMarks = [0u8; 256];
    put_marks(&mut marks, &scratch[EFFECTS..SCRATCH], m);
    let patterns = has_pattern(&scratch[EFFECTS..SCRATCH], m);
    let mut k = 0;
    let mut i = 0;
    // Most rows stay, so all rows between two struck ones are copied at once.
    while let Some(next) = struck_from(
        work,
        n,
        i,
        i - k,
        &marks,
        &scratch[EFFECTS..SCRATCH],
        m,
        patterns,
    ) {
        copy_bytes(scratch, 8 * k, &work[8 * i..8 * next]);
        k += next - i;
        leave(index, head, work, 8 * next);
        i = next + 1;
    }
    copy_bytes(scratch, 8 * k, &work[8 * i..8 * n]);
    k + (n - i)
}

// Appends the row at an offset of what is added to the first n rows of the scratch memory, and to the index, unless it is there already;
// answers the new count, or None where there is no room.
fn join_row(
    head: &Head,
    scratch: &mut [u8],
    at: usize,
    n: usize,
    index: &mut FactIndex,
) -> Option<usize>
    requires row { at + 8 ≤ length scratch.old }
    requires few { n ≤ max_facts }
    requires scratch { length scratch.old ≡ scratch_bytes }
    ensures few { IfSome result (λ count. (n ≤ count) × (count ≤ max_facts)) }
    ensures joined { Indexed head.now index.old (rows_in n scratch.old)
        → SizedRow head.now (take 8 (drop at scratch.old))
        → HoldsJoined head.now (join_row (rows_in n scratch.old) (take 8 (drop at scratch.old)))
        scratch.old (count_of result) scratch.new index.new }
    ensures beside { get_or index.new note_at 0 ≡ get_or index.old note_at 0 }
    ensures others { effects_in scratch.new ≡ effects_in scratch.old }
{
    let row = row_at(scratch, at);
    if is_held(index, scratch, n, row) {
        return Some(n);
    }
    if MAX_FACTS <= n {
        return None;
    }
    enter(index, head, scratch, at);
    append_row(scratch, n, row);
    Some(n + 1)
}

// Each of m rows of the effects from row `from` on, behind the first `count` rows of the scratch memory, where it is not there yet; the
// count then, or None where there is no room.
fn join_rows(
    head: &Head,
    scratch: &mut [u8],
    from: usize,
    m: usize,
    count: usize,
    index: &mut FactIndex,
) -> Option<usize>
    requires few { from + m ≤ max_facts }
    requires count { count ≤ max_facts }
    requires scratch { length scratch.old ≡ scratch_bytes }
    ensures few { IfSome result (λ n. (count ≤ n) × (n ≤ max_facts)) }
    ensures joined { Indexed head.now index.old (rows_in count scratch.old)
        → Sized head.now (rows_in m (drop (8 * from) (effects_in scratch.old)))
        → HoldsJoined head.now
        (join_rows (rows_in count scratch.old) (rows_in m (drop (8 * from) (effects_in scratch.old))))
        scratch.old (count_of result) scratch.new index.new }
    ensures beside { get_or index.new note_at 0 ≡ get_or index.old note_at 0 }
{
    let mut n = count;
    // By their numbers: the rows that join and those that they join stand in one memory.
    for j in 0..m {
        n = join_row(head, scratch, EFFECTS + 8 * (from + j), n, index)?;
    }
    Some(n)
}

// Appends the row of the ground literal i to the first n rows of the effects, if it is of this usage; answers the new count.
fn put_effect(scratch: &mut [u8], n: usize, i: usize, usage: u8) -> usize
    requires scratch { length scratch.old ≡ scratch_bytes }
    requires literal { i < max_ground }
    requires room { n + length (rows_of_usage usage (ground_at (literals_in scratch.old) i ∷ [])) ≤ max_ground }
    ensures count { result ≡ n + length (rows_of_usage usage (ground_at (literals_in scratch.old) i ∷ [])) }
    ensures rows { effects_in scratch.new ≡ over (flat (rows_in n (effects_in scratch.old)
        ++ rows_of_usage usage (ground_at (literals_in scratch.old) i ∷ []))) (effects_in scratch.old) }
    ensures literals { literals_in scratch.new ≡ literals_in scratch.old }
{
    if scratch[USAGES + i] == usage {
        let row = row_at(scratch, 8 * i);
        append_row(&mut scratch[EFFECTS..SCRATCH], n, row);
        return n + 1;
    }
    n
}

// Those of the first `total` ground literals that are of this usage, in order, behind the first `at` rows of the effects: what the step
// adds or strikes, or its true conditions. The count then.
pub fn step_effects(scratch: &mut [u8], at: usize, total: usize, usage: u8) -> usize
    requires scratch { length scratch.old ≡ scratch_bytes }
    requires total { total ≤ max_ground }
    requires room { at + length (rows_of_usage usage (ground_in total (literals_in scratch.old))) ≤ max_ground }
    ensures count { result ≡ at + length (rows_of_usage usage (ground_in total (literals_in scratch.old))) }
    ensures rows { rows_in result (effects_in scratch.new)
        ≡ rows_in at (effects_in scratch.old) ++ rows_of_usage usage (ground_in total (literals_in scratch.old)) }
    ensures literals { literals_in scratch.new ≡ literals_in scratch.old }
{
    let mut n = at;
    // By their numbers: the literals and the effects stand in one memory.
    for i in 0..total {
        n = put_effect(scratch, n, i, usage);
    }
    n
}

// What a step leaves: how many of the facts before it are kept, and how many facts there are, None where they are too many.
#[derive(Clone, Copy)]
pub struct After {
    pub kept: usize,
    pub facts: Option<usize>,
}

// The facts after the events of a step, in place of its ground literals at the front of the scratch memory: the first n rows of the work
// memory without those that a delete strikes, then what is added, each fact once; not beyond 1,024 facts.
pub fn facts_after(
    head: &Head,
    work: &[u8],
    n: usize,
    scratch: &mut [u8],
    total: usize,
    index: &mut FactIndex,
) -> After
    requires few { n ≤ max_facts }
    requires rows { 8 * n ≤ length work.now }
    requires scratch { length scratch.old ≡ scratch_bytes }
    requires once { Once (rows_in n work.now) }
    requires total { total ≤ max_ground }
    ensures few { (result.kept ≤ n) × IfSome result.facts (λ count. (result.kept ≤ count) × (count ≤ max_facts)) }
    ensures after { (D : Domain) (objs : List Object) (es : List Event) (fs : List Fact)
        → OverObjects D objs fs (map (λ (e : Event). e.act) es)
        → Grounded D head.now es (literals_in scratch.old) total
        → rows_in n work.now ≡ map fact_row fs → Indexed head.now index.old (map fact_row fs)
        → HoldsAfter D objs fs es head.now result scratch.new index.new }
    ensures beside { get_or index.new note_at 0 ≡ get_or index.old note_at 0 }
{
    let m = step_effects(scratch, 0, total, DELETE);
    let end = step_effects(scratch, m, total, ADD);
    let kept = keep_rows(head, work, n, scratch, m, index);
    let facts = join_rows(head, scratch, m, end - m, kept, index);
    After { kept, facts }
}

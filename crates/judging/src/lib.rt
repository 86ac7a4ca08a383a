// The call that judges: a domain file, a lent report and a lent witness.
#![tactic(auto)]

pub mod report;

ghost use Rattle.std.specs.Prelude.{◌≡◌, ◌⊎◌, true, List, ℕ, ◌*◌, ◌≤◌, length};
ghost use Rattle.records.specs.Memory.{over};
ghost use Rattle.literals.specs.Domain.{Domain};
ghost use Rattle.literals.specs.Decode.{decode, domain as domainRead, max_literals, max_actions};
ghost use Rattle.literals.specs.Held.{Held, Read};
ghost use Rattle.classes.specs.Held.{numbers_of};
ghost use Rattle.reading.specs.Held.{EnoughTable};
ghost use Rattle.verdict.specs.Judged.{answer_at, decided, writes_witness, judged, report_after, witness_after};
ghost use Rattle.verdict.specs.Claims.{well_formed, DecidesFile, AcceptedSafe, RefusedHarmful, WitnessHarms};
ghost use Rattle.verdict.specs.Held.{judgement_of};
ghost use Rattle.judging.specs.Held.{JudgedAs};

use literals::head::{HEAD, Head};
use literals::limits::{MAX_ACTIONS, MAX_LITERALS};
use naming::name_all;
use reading::read::read_domain;
use report::put_report;
use verdict::Judgement;
use witness::{is_shown, show};

// How many literals the memories of a small file have room for. A literal takes at least 6 bytes of the file.
const FEW: usize = 32;

const SOME: usize = 160;

const MANY: usize = 768;

const ALL: usize = MAX_LITERALS * MAX_ACTIONS;

// The lengths of their memories: 8 bytes a literal in the table, and two names.
const FEW_ROWS: usize = 8 * FEW;

const SOME_ROWS: usize = 8 * SOME;

const MANY_ROWS: usize = 8 * MANY;

const ALL_ROWS: usize = 8 * ALL;

const FEW_NAMES: usize = 2 * FEW;

const SOME_NAMES: usize = 2 * SOME;

const MANY_NAMES: usize = 2 * MANY;

const ALL_NAMES: usize = 2 * ALL;

// Whether the decision of a domain that was read comes with a witness: 40 to 42 do, but not at an end whose class has an over-all literal.
fn has_witness(head: &Head, table: &[u8], numbers: &[u8], made: Judgement) -> bool
    requires { length table.now ≤ 8 * length numbers.now }
    ensures { (D : Domain) (old : List ℕ) → Held D head.now table.now → well_formed D ≡ true
        → numbers.now ≡ over (numbers_of D D.actions) old → made ≡ judgement_of (decided D)
        → result ≡ writes_witness D made.number }
{
    matches!(made.number, 40..=42)
        && is_shown(
            head,
            table,
            numbers,
            made.first as usize,
            made.second as usize,
            made.third,
        )
}

// Judges a domain that was read; `numbers` is room for a byte a literal, and `names` for a byte a moment.
fn judge_with(
    head: &Head,
    table: &[u8],
    numbers: &mut [u8],
    names: &mut [u8],
    report: &mut [u8],
    witness: &mut [u8],
) -> Judgement
    requires read { Read head.now table.now }
    requires numbers { length table.now ≤ 8 * length numbers.old }
    requires room { length table.now ≤ 4 * length names.old }
    ensures { (D : Domain) → Held D head.now table.now → well_formed D ≡ true
        → JudgedAs (domainRead D) report.old witness.old result report.new witness.new }
{
    let mut counts = [0u8; MAX_ACTIONS];
    let naming = name_all(head, table, numbers, names, &mut counts);
    if report.len() < 4 * naming.rows {
        return Judgement::at(30, 0);
    }
    let decided = naming.notes.decide();
    if has_witness(head, table, numbers, decided)
        && !show(
            head,
            table,
            numbers,
            decided.first as usize,
            decided.second as usize,
            decided.third,
            decided.number,
            witness,
        )
    {
        return Judgement::at(31, 0);
    }
    put_report(head, &counts, names, report);
    decided
}

// Judges a file, or refuses it by 9 to 27; `table` is room for its literals, `numbers` for a number and `names` for two names a literal.
fn judge_in(
    file: &[u8],
    table: &mut [u8],
    numbers: &mut [u8],
    names: &mut [u8],
    report: &mut [u8],
    witness: &mut [u8],
) -> Judgement
    requires enough { EnoughTable file.now table.old }
    requires numbers { length table.old ≤ 8 * length numbers.old }
    requires room { length table.old ≤ 4 * length names.old }
    ensures { JudgedAs (decode file.now) report.old witness.old
        result report.new witness.new }
{
    let mut head = [0u8; HEAD];
    if let Err(refusal) = read_domain(file, &mut head, table) {
        return Judgement::at(refusal.fault.number(), refusal.place as u64);
    }
    judge_with(&head, table, numbers, names, report, witness)
}

// Judges a file in memories of these lengths: the table's, the numbers' and the names'.
fn judge_sized<const ROWS: usize, const NUMBERS: usize, const NAMES: usize>(
    file: &[u8],
    report: &mut [u8],
    witness: &mut [u8],
) -> Judgement
    requires enough { (NUMBERS ≡ max_literals * max_actions) ⊎ (length file.now ≤ 6 * NUMBERS) }
    requires few { NUMBERS ≤ max_literals * max_actions }
    requires rows { ROWS ≡ 8 * NUMBERS }
    requires names { NAMES ≡ 2 * NUMBERS }
    ensures { JudgedAs (decode file.now) report.old witness.old
        result report.new witness.new }
{
    let mut table = [0u8; ROWS];
    let mut numbers = [0u8; NUMBERS];
    let mut names = [0u8; NAMES];
    judge_in(file, &mut table, &mut numbers, &mut names, report, witness)
}

// Judges a file of any length. A small one gets small memories, since clearing large ones takes longer than judging it.
fn judge_file(file: &[u8], report: &mut [u8], witness: &mut [u8]) -> Judgement
    ensures { JudgedAs (decode file.now) report.old witness.old
        result report.new witness.new }
{
    if file.len() <= 6 * FEW {
        judge_sized::<FEW_ROWS, FEW, FEW_NAMES>(file, report, witness)
    } else if file.len() <= 6 * SOME {
        judge_sized::<SOME_ROWS, SOME, SOME_NAMES>(file, report, witness)
    } else if file.len() <= 6 * MANY {
        judge_sized::<MANY_ROWS, MANY, MANY_NAMES>(file, report, witness)
    } else {
        judge_sized::<ALL_ROWS, ALL, ALL_NAMES>(file, report, witness)
    }
}

// Judges a domain file, with demand 3 of the answer: an accepted template is safe for every catalogue and every run; where no action
// lasts, a template is refused for a class exactly when a single event can do harm, and the bytes of the witness show it for the action
// and class named.
pub fn judge(file: &[u8], report: &mut [u8], witness: &mut [u8]) -> Judgement
    ensures answer { result ≡ judgement_of (judged file.now report.old witness.old) }
    ensures reported { report.new ≡ report_after file.now report.old witness.old }
    ensures witnessed { witness.new ≡ witness_after file.now report.old witness.old }
    ensures decides { DecidesFile file.now result.number result.first result.second result.third }
    ensures safe { AcceptedSafe file.now result.number }
    ensures exact { RefusedHarmful file.now result.number }
    ensures shown { WitnessHarms file.now result.number witness.new result.first result.second result.third }
{
    judge_file(file, report, witness)
}

// The report: 4 bytes a moment, in order of action, class and moment.
ghost use Rattle.std.specs.Prelude.{◌≡◌, List, [], ◌∷◌, ◌++◌, map, ℕ, ◌+◌, ◌*◌, ◌≤◌, ◌<◌, length};
ghost use Rattle.records.specs.Memory.{over};
ghost use Rattle.literals.specs.declared.Variable.{Variable};
ghost use Rattle.literals.specs.Domain.{Action, Domain};
ghost use Rattle.literals.specs.Decode.{max_actions};
ghost use Rattle.literals.specs.Held.{pad, HeadOf};
ghost use Rattle.classes.specs.Classes.{moments_of};
ghost use Rattle.verdict.specs.Decision.{Row, row_at, rows_of_classes, rows};
ghost use Rattle.verdict.specs.Judged.{row_bytes};
ghost use Rattle.naming.specs.Held.{name_bytes, class_counts};
ghost use Rattle.judging.specs.Held.{Reporting};

use literals::Moment;
use literals::head::{Head, actions_in, is_lasting};
use naming::ClassCounts;

// One row at a place, with the name that is stored for it. (Both memories have room for the rows of every domain; the tests are there for
// the proof alone.)
fn put_moment(report: &mut [u8], at: usize, action: u8, class: u8, moment: Moment, names: &[u8])
    ensures { (rs rest : List Row) (r : Row) (old given : List ℕ)
        → Reporting rs (r ∷ rest) at report.old names.now old given
        → action ≡ r.action → class ≡ r.class → moment ≡ r.moment
        → Reporting (rs ++ (r ∷ [])) rest (at + 1) report.new names.now old given }
{
    if at < names.len() && at < report.len() / 4 {
        let row = [action, class, u8::from(moment), names[at]];
        report[4 * at..4 * at + 4].copy_from_slice(&row);
    }
}

// The rows of one class, from row `at` on; the row behind them.
fn put_class(
    report: &mut [u8],
    at: usize,
    action: u8,
    class: u8,
    lasting: bool,
    names: &[u8],
) -> usize
    requires { at ≤ 65536 }
    ensures few { result ≤ at + 2 }
    ensures rows { (D : Domain) (a : Action) (x : List Variable) (rs rest : List Row) (old given : List ℕ) → a.lasting ≡ lasting
        → Reporting rs (map (row_at D a action class x) (moments_of a) ++ rest) at report.old names.now old given
        → Reporting (rs ++ map (row_at D a action class x) (moments_of a)) rest result report.new names.now old given }
{
    put_moment(report, at, action, class, Moment::Start, names);
    if lasting {
        put_moment(report, at + 1, action, class, Moment::End, names);
        return at + 2;
    }
    at + 1
}

// The rows of one action, from row `at` on; the row behind them.
fn put_action(
    report: &mut [u8],
    at: usize,
    action: u8,
    count: u8,
    lasting: bool,
    names: &[u8],
) -> usize
    requires { at ≤ 65000 }
    ensures few { result ≤ at + 510 }
    ensures rows { (D : Domain) (a : Action) (xs : List (List Variable)) (rs rest : List Row) (old given : List ℕ)
        → a.lasting ≡ lasting → length xs ≡ count
        → Reporting rs (rows_of_classes D a action 0 xs ++ rest) at report.old names.now old given
        → Reporting (rs ++ rows_of_classes D a action 0 xs) rest result report.new names.now old given }
{
    let mut next = at;
    for class in 0..count {
        next = put_class(report, next, action, class, lasting, names);
    }
    next
}

// All rows of a domain, of how many classes each action has, and the names.
pub fn put_report(head: &Head, counts: &ClassCounts, names: &[u8], report: &mut [u8])
    ensures { (D : Domain) (old : List ℕ) → HeadOf D head.now
        → counts.now ≡ pad max_actions (class_counts D D.actions)
        → names.now ≡ over (name_bytes (rows D)) old → 4 * length (rows D) ≤ length report.old
        → report.new ≡ over (row_bytes (rows D)) report.old }
{
    let mut at = 0;
    for i in 0..actions_in(head) {
        at = put_action(report, at, i as u8, counts[i], is_lasting(head, i), names);
    }
}

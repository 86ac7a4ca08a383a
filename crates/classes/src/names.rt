// What a class has at a moment: the usage of each literal there, its true conditions and adds, and the name that they decide.
ghost use Rattle.std.specs.Prelude.{◌≡◌, Some, IfSome, true, not, ◌&&◌, List, [], map, ℕ, ◌+◌, ◌*◌, ◌≤◌, ◌<◌, eqb, length, get_or};
ghost use Rattle.records.specs.Lists.{any, below};
ghost use Rattle.literals.specs.Domain.{Domain, Action, role_of};
ghost use Rattle.literals.specs.Decode.{max_literals};
ghost use Rattle.literals.specs.Held.{pad};
ghost use Rattle.literals.specs.declared.Moment.{Moment};
ghost use Rattle.literals.specs.declared.Moment.TheVariants.{Start, End};
ghost use Rattle.classes.specs.Classes.{classes, lasts_in, name_of, journey};
ghost use Rattle.classes.specs.Held.{ActionOf, MomentOf, Sides, usages_by, own_usages, class_numbers, uncovered_at};
ghost use Rattle.classes.specs.Held.{place_below, timed, usage_byte, usage_mark};
ghost use Rattle.classes.specs.Held.{may_meet, same_atom_at, says_at, usage_in, lasts_at};
ghost use Rattle.classes.specs.Held.{count_of, sole_more, sole_of, reach_at, section_number, section_of, counts_in, SolesOf, sole_in};

use super::class_at::ClassAt;
use super::{ASKED, AT_END, AT_START, Count, Marks, Name, Sole, Soles, usage_mark};
use literals::head::Head;
use literals::limits::MAX_LITERALS;
use literals::row::same_four;
use literals::{Moment, Role, Time, Usage};

// Whether the literals of a time count at the moment: its own, or (wide) at an end all that is asked there, the over-all conditions too.
fn counts_at(wide: bool, m: Moment, time: Time) -> bool
    ensures { result ≡ timed wide m time }
{
    match (m, time) {
        (Moment::Start, Time::AtStart) | (Moment::End, Time::AtEnd) => true,
        (Moment::End, Time::OverAll) => wide,
        _ => false,
    }
}

// What a literal with this role byte is at the moment, if anything. Wide or of its own as above.
#[tactic(auto, unfolding(crate::specs::Held::usage_byte))]
fn usage_at(wide: bool, m: Moment, role: u8) -> Option<Usage>
    ensures { usage_mark result ≡ usage_byte wide m role }
{
    let sorted = Role::from(role);
    if !counts_at(wide, m, sorted.time) {
        return None;
    }
    Some(sorted.usage)
}

// Whether two rows have the same relation and arguments: the bytes 1 to 4, and 4 to 7.
pub(crate) fn rows_agree(rows: &[u8], i: usize, j: usize) -> bool
    requires one { 8 * i + 8 ≤ length rows.now }
    requires other { 8 * j + 8 ≤ length rows.now }
    ensures { result ≡ same_atom_at rows.now i j }
{
    same_four(rows, 8 * i + 1, rows, 8 * j + 1) && same_four(rows, 8 * i + 4, rows, 8 * j + 4)
}

// Whether the row `i` has this usage at the moment, and the atom of the row `j`.
fn says(wide: bool, rows: &[u8], m: Moment, usage: Usage, j: usize, i: usize) -> bool
    requires one { 8 * i + 8 ≤ length rows.now }
    requires other { 8 * j + 8 ≤ length rows.now }
    ensures { result ≡ says_at wide rows.now m (usage_mark (Some usage)) j i }
{
    rows_agree(rows, i, j) && usage_at(wide, m, rows[8 * i]) == Some(usage)
}

// Whether a row before `j` says the same.
fn earlier_same(wide: bool, rows: &[u8], m: Moment, usage: Usage, j: usize) -> bool
    requires { 8 * j + 8 ≤ length rows.now }
    ensures { result ≡ any (says_at wide rows.now m (usage_mark (Some usage)) j) (below j) }
{
    (0..j).any(|i| says(wide, rows, m, usage, j, i))
}

// Whether literals of different roles have this usage at the moment: what is asked at an end is its own conditions and the over-all ones.
fn may_meet(wide: bool, m: Moment, usage: Usage) -> bool
    ensures { result ≡ may_meet wide m (usage_mark (Some usage)) }
{
    match (m, usage) {
        (Moment::End, Usage::Positive | Usage::Negative) => wide,
        _ => false,
    }
}

// The usage of the row `j` at the moment, none where an earlier row says it. (Literals of one role are never the same.)
fn usage_once(wide: bool, rows: &[u8], m: Moment, j: usize) -> Option<Usage>
    requires { 8 * j + 8 ≤ length rows.now }
    ensures { usage_mark result ≡ usage_in wide rows.now m j }
{
    let usage = usage_at(wide, m, rows[8 * j])?;
    if may_meet(wide, m, usage) && earlier_same(wide, rows, m, usage, j) {
        return None;
    }
    Some(usage)
}

// The usage of each literal at a moment, 0 for none and for one that an earlier literal says already; `usages` is all 0 before. Of the
// moment's own literals, which names and journeys are told by, or (wide) of all that is asked there, which a witness lists.
pub fn usages_at(wide: bool, rows: &[u8], n: usize, m: Moment, usages: &mut Marks)
    requires rowed { length rows.now ≡ 8 * n }
    requires few { n ≤ max_literals }
    ensures bytes { usages.old ≡ pad max_literals []
        → usages.new ≡ pad max_literals (map (usage_in wide rows.now m) (below n)) }
    ensures usages { (D : Domain) (a : Action) (head : List ℕ) → ActionOf D a head rows.now
        → usages.old ≡ pad max_literals [] → usages.new ≡ pad max_literals (usages_by wide a m) }
{
    // By number, not by element: a literal's row and its usage have the same one.
    for j in 0..n {
        usages[j] = usage_mark(usage_once(wide, rows, m, j));
    }
}

// Notes the literal `j`, of a class, in a section.
fn note(soles: &mut Soles, section: usize, class: usize, j: usize)
    requires section { section < 5 }
    requires class { class < max_literals }
    requires few { j < max_literals }
    ensures { (s k : ℕ) → s < 5 → k < max_literals → get_or soles.new (max_literals * s + k) 0
        ≡ sole_more (eqb section s && eqb class k) j (get_or soles.old (max_literals * s + k) 0) }
{
    let at = MAX_LITERALS * section + class;
    soles[at] = if soles[at] == 0 { j as u8 + 1 } else { 255 };
}

// The first section that counts the literals of a role byte, if one does. (A true condition at the end is asked besides.)
fn section_of(role: u8) -> Option<usize>
    ensures number { section_number result ≡ section_of (role_of role) }
    ensures few { IfSome result (λ s. s < 5) }
{
    let sorted = Role::from(role);
    match (sorted.time, sorted.usage) {
        (Time::AtStart, Usage::Positive) => Some(AT_START),
        (Time::AtStart, Usage::Add) => Some(AT_START + 1),
        (Time::OverAll, Usage::Positive) => Some(ASKED),
        (Time::AtEnd, Usage::Positive) => Some(AT_END),
        (Time::AtEnd, Usage::Add) => Some(AT_END + 1),
        _ => None,
    }
}

// Notes the literal `j`, of a class, among those that are asked as true conditions at the end, unless an earlier literal says the same.
fn note_asked(rows: &[u8], class: usize, j: usize, soles: &mut Soles)
    requires row { 8 * j + 8 ≤ length rows.now }
    requires class { class < max_literals }
    requires few { j < max_literals }
    ensures { (s k : ℕ) → s < 5 → k < max_literals → get_or soles.new (max_literals * s + k) 0
        ≡ sole_more ((eqb 4 s && not (any (says_at true rows.now End 1 j) (below j))) && eqb class k) j
        (get_or soles.old (max_literals * s + k) 0) }
{
    if earlier_same(true, rows, Moment::End, Usage::Positive, j) {
        return;
    }
    note(soles, ASKED, class, j);
}

// Notes the literal `j` in each section of its class that counts it, and nowhere where it has none. Its role is sorted once.
fn note_literal(rows: &[u8], class: usize, j: usize, soles: &mut Soles)
    requires row { 8 * j + 8 ≤ length rows.now }
    requires few { j < max_literals }
    ensures { (s k : ℕ) → s < 5 → k < max_literals → get_or soles.new (max_literals * s + k) 0
        ≡ sole_more (eqb class k && counts_in rows.now s j) j (get_or soles.old (max_literals * s + k) 0) }
{
    if MAX_LITERALS <= class {
        return;
    }
    match section_of(rows[8 * j]) {
        None => {}
        Some(ASKED) => note_asked(rows, class, j, soles),
        Some(AT_END) => {
            note(soles, AT_END, class, j);
            note_asked(rows, class, j, soles);
        }
        Some(section) => note(soles, section, class, j),
    }
}

// What the classes of an action have at its moments, in one pass over its literals, which are these rows; `soles` is all 0 before.
pub fn note_soles(rows: &[u8], numbers: &[u8], soles: &mut Soles)
    requires { Sides rows.now numbers.now }
    ensures { soles.old ≡ pad (5 * max_literals) []
        → SolesOf rows.now numbers.now soles.new }
{
    // By number, not by element: it is noted.
    for j in 0..numbers.len() {
        note_literal(rows, usize::from(numbers[j]), j, soles);
    }
}

// The true conditions and the adds of a class at a moment, by the section of its true conditions.
pub fn sole_in(soles: &Soles, section: usize, class: usize) -> Sole
    requires section { section < 4 }
    requires class { class < max_literals }
    ensures { result ≡ sole_in soles.now section class }
{
    Sole {
        conditions: Count::from(soles[MAX_LITERALS * section + class]),
        adds: Count::from(soles[MAX_LITERALS * (section + 1) + class]),
    }
}

// The first component that a class does not cover at the moment of these usages, if there is one; `numbers` holds the class numbers of the
// action's literals, which are these rows.
pub fn first_uncovered(
    head: &Head,
    rows: &[u8],
    numbers: &[u8],
    usages: &Marks,
    class: u8,
) -> Option<usize>
    requires { Sides rows.now numbers.now }
    ensures { (D : Domain) (a : Action) (m : Moment)
        → MomentOf D a m head.now rows.now numbers.now usages.now
        → class < length (classes D a)
        → result ≡ place_below (length D.template) (uncovered_at D a (get_or (classes D a) class []) m) }
{
    let at = ClassAt {
        rows,
        numbers,
        usages,
        class,
    };
    at.first_lacking(head)
}

// The name of a class at the moment of these usages: of its true conditions that are asked there (`reach`), which count towards
// unreachable alone, and of its own true conditions and adds. What they do not decide is looked up.
pub fn name_at(
    head: &Head,
    rows: &[u8],
    numbers: &[u8],
    usages: &Marks,
    reach: Count,
    sole: Sole,
    class: u8,
) -> Name
    requires sides { Sides rows.now numbers.now }
    requires counted { sole ≡ sole_of numbers.now usages.now class }
    ensures { (D : Domain) (a : Action) (m : Moment)
        → MomentOf D a m head.now rows.now numbers.now usages.now
        → class < length (classes D a) → reach ≡ count_of (reach_at D a m class) → result ≡ name_of D a (get_or (classes D a) class []) m }
{
    if reach == Count::More {
        return Name::Unreachable;
    }
    match (sole.conditions, sole.adds) {
        (Count::More, _) => Name::Unreachable,
        (_, Count::Zero) => Name::Irrelevant,
        (_, Count::More) => Name::Heavy,
        (Count::Zero, Count::One(_)) => {
            match first_uncovered(head, rows, numbers, usages, class) {
                Some(_) => Name::Unbounded,
                None => Name::Bounded,
            }
        }
        (Count::One(condition), Count::One(_)) => {
            let at = ClassAt {
                rows,
                numbers,
                usages,
                class,
            };
            if at.changes(usize::from(condition)) {
                return Name::Balanced;
            }
            Name::Unbalanced
        }
    }
}

// Whether the row `j` is an over-all literal of a class. (Its usages are not asked, so it is told without a `ClassAt`.)
#[tactic(auto, unfolding(crate::specs::Held::lasts_at))]
fn is_lasting_at(rows: &[u8], numbers: &[u8], class: u8, j: usize) -> bool
    requires sides { Sides rows.now numbers.now }
    requires literal { j < length numbers.now }
    ensures { result ≡ lasts_at rows.now numbers.now class j }
{
    numbers[j] == class && Time::OverAll == Role::from(rows[8 * j]).time
}

// Whether a row is an over-all literal of a class.
fn any_lasting(rows: &[u8], numbers: &[u8], class: u8) -> bool
    requires { Sides rows.now numbers.now }
    ensures { result ≡ any (lasts_at rows.now numbers.now class) (below (length numbers.now)) }
{
    (0..numbers.len()).any(|j| is_lasting_at(rows, numbers, class, j))
}

// Whether a class of an action has an over-all literal: at its end nothing is shown then.
pub fn lasts_at(rows: &[u8], numbers: &[u8], class: u8) -> bool
    requires { Sides rows.now numbers.now }
    ensures { (D : Domain) (a : Action) (head : List ℕ) → ActionOf D a head rows.now
        → numbers.now ≡ class_numbers D a
        → class < length (classes D a) → result ≡ lasts_in D a (get_or (classes D a) class []) }
{
    any_lasting(rows, numbers, class)
}

// Whether a class of a lasting action is a journey, of its true conditions and adds at the start, whose usages these are, and at the end.
pub fn is_journey(
    rows: &[u8],
    numbers: &[u8],
    usages: &Marks,
    start: Sole,
    end: Sole,
    class: u8,
) -> bool
    requires sides { Sides rows.now numbers.now }
    requires counted { start ≡ sole_of numbers.now usages.now class }
    ensures { (D : Domain) (a : Action) (head : List ℕ)
        → MomentOf D a Start head rows.now numbers.now usages.now → a.lasting ≡ true
        → end ≡ sole_of (class_numbers D a) (pad max_literals (own_usages a End)) class → class < length (classes D a)
        → result ≡ journey D a (get_or (classes D a) class []) }
{
    match (start.conditions, start.adds, end.conditions, end.adds) {
        (Count::One(condition), Count::Zero, Count::Zero, Count::One(_)) => {
            let at = ClassAt {
                rows,
                numbers,
                usages,
                class,
            };
            at.deletes(usize::from(condition))
        }
        _ => false,
    }
}

// The names of all moments, in the order of the report.
#![tactic(auto)]

ghost use Rattle.std.specs.Prelude.{◌≡◌, true, List, [], ◌∷◌, ◌++◌, map, ℕ, ◌+◌, ◌*◌, ◌≤◌, ◌<◌, length, get_or};
ghost use Rattle.records.specs.Memory.{over};
ghost use Rattle.literals.specs.Domain.{Domain, Action};
ghost use Rattle.literals.specs.Decode.{max_actions, max_literals};
ghost use Rattle.literals.specs.Held.{pad, Held, Read};
ghost use Rattle.literals.specs.declared.Moment.TheVariants.{Start};
ghost use Rattle.classes.specs.Classes.{moments_of, classes};
ghost use Rattle.classes.specs.Held.{ActionOf, MomentOf, Sides, class_numbers, numbers_of};
ghost use Rattle.verdict.specs.Decision.{Row, row_at, rows_of_classes, rows};
ghost use Rattle.verdict.specs.Claims.{well_formed};
ghost use Rattle.verdict.specs.Summaries.{summary_of};
ghost use Rattle.verdict.specs.Held.{row_for};
ghost use Rattle.naming.specs.Held.{name_bytes, class_counts, class_names, SolesIn, EndOf, Listed, Named, naming_of};

use classes::names::{is_journey, name_at, note_soles, sole_in, usages_at};
use classes::number::number_classes;
use classes::{ASKED, AT_END, AT_START, Count, Marks, Name, Soles};
use literals::Moment;
use literals::head::{Head, actions_in, is_lasting, rows_of};
use literals::key_places::Places;
use literals::limits::{MAX_ACTIONS, MAX_LITERALS};
use verdict::{Notes, Summary};

// How many classes each action has.
pub type ClassCounts = [u8; MAX_ACTIONS];

// The name of an end, and whether it is a journey's.
#[derive(Clone, Copy)]
pub struct EndName {
    pub name: Name,
    pub journey: bool,
}

// The names of one class: at its start, and at its end where the action lasts.
#[derive(Clone, Copy)]
pub struct ClassNames {
    pub start: Name,
    pub end: Option<EndName>,
}

// An action whose classes are numbered: how many rows of the domain come before its own, how many classes it has, and whether it lasts.
#[derive(Clone, Copy)]
pub struct NumberedAction {
    pub rows: usize,
    pub classes: usize,
    pub lasting: bool,
}

// Where naming an action stands: how many rows of the domain are named, and the summary of the action's own.
#[derive(Clone, Copy)]
pub struct Naming {
    pub rows: usize,
    pub summary: Summary,
}

// An action that is named: how many rows of the domain are named with its own, how many classes it has, and its summary.
#[derive(Clone, Copy)]
pub struct NamedAction {
    pub rows: usize,
    pub classes: usize,
    pub summary: Summary,
}

// A domain that is named: how many rows it has, and what its decision is made of.
#[derive(Clone, Copy)]
pub struct NamedDomain {
    pub rows: usize,
    pub notes: Notes,
}

// The names of a class, by the usages of the action's literals at its start and at its end, and by the true conditions and the adds of
// each class there. (At an end, a true condition over all is asked too.)
fn name_class(
    head: &Head,
    rows: &[u8],
    numbers: &[u8],
    at_start: &Marks,
    at_end: &Marks,
    soles: &Soles,
    class: usize,
    lasting: bool,
) -> ClassNames
    requires sides { Sides rows.now numbers.now }
    requires first { SolesIn numbers.now at_start.now soles.now 0 }
    requires last { lasting ≡ true → SolesIn numbers.now at_end.now soles.now 2 }
    requires few { class < length numbers.now }
    ensures { (D : Domain) (a : Action)
        → MomentOf D a Start head.now rows.now numbers.now at_start.now → a.lasting ≡ lasting
        → (lasting ≡ true → EndOf D a head.now rows.now numbers.now at_end.now soles.now)
        → class < length (classes D a) → result ≡ class_names D a (get_or (classes D a) class []) }
{
    let number = class as u8;
    let first = sole_in(soles, AT_START, class);
    let start = name_at(
        head,
        rows,
        numbers,
        at_start,
        first.conditions,
        first,
        number,
    );
    if !lasting {
        return ClassNames { start, end: None };
    }
    let last = sole_in(soles, AT_END, class);
    let asked = Count::from(soles[MAX_LITERALS * ASKED + class]);
    let end = EndName {
        name: name_at(head, rows, numbers, at_end, asked, last, number),
        journey: is_journey(rows, numbers, at_start, first, last, number),
    };
    ClassNames {
        start,
        end: Some(end),
    }
}

impl Naming {
    // Before the first row of an action, with so many rows named.
    fn new(rows: usize) -> Naming
        ensures rows { result.rows ≡ rows }
        ensures named { (before : List Row) (names old : List ℕ) → Listed before rows names old → Named before [] result names old }
    {
        Naming {
            rows,
            summary: Summary::new(),
        }
    }

    // One row more.
    fn with_row(
        self,
        name: Name,
        ended: bool,
        class: u8,
        moment: Moment,
        names: &mut [u8],
    ) -> Naming
        requires { self.rows < length names.old }
        ensures rows { result.rows ≡ self.rows + 1 }
        ensures named { (before rs : List Row) (old : List ℕ) (i : ℕ) → Named before rs self names.old old
            → Named before (rs ++ (row_for i class moment name ended ∷ [])) result names.new old }
    {
        names[self.rows] = u8::from(name);
        Naming {
            rows: self.rows + 1,
            summary: self.summary.with(name, ended, class, moment),
        }
    }

    // The rows of one class more.
    fn with_class(self, class: u8, named: ClassNames, names: &mut [u8]) -> Naming
        requires room { self.rows + 2 ≤ length names.old }
        ensures rows { result.rows ≤ self.rows + 2 }
        ensures named { (before rs : List Row) (old : List ℕ) (D : Domain) (a : Action) (i : ℕ)
            → Named before rs self names.old old
            → named ≡ class_names D a (get_or (classes D a) class [])
            → Named before (rs ++ map (row_at D a i class (get_or (classes D a) class [])) (moments_of a)) result names.new old }
    {
        let started = self.with_row(named.start, false, class, Moment::Start, names);
        match named.end {
            Some(end) => started.with_row(end.name, end.journey, class, Moment::End, names),
            None => started,
        }
    }
}

impl NumberedAction {
    // Names the rows of its classes, by the usages of its literals at both moments and by what each class has there.
    fn name_each(
        self,
        head: &Head,
        rows: &[u8],
        numbers: &[u8],
        at_start: &Marks,
        at_end: &Marks,
        soles: &Soles,
        names: &mut [u8],
    ) -> Naming
        requires sides { Sides rows.now numbers.now }
        requires first { SolesIn numbers.now at_start.now soles.now 0 }
        requires last { self.lasting ≡ true → SolesIn numbers.now at_end.now soles.now 2 }
        requires few { self.classes ≤ length numbers.now }
        requires room { self.rows + 2 * self.classes ≤ length names.old }
        ensures rows { result.rows ≤ self.rows + 2 * self.classes }
        ensures named { (before : List Row) (old : List ℕ) (D : Domain) (a : Action) (i : ℕ)
            → Listed before self.rows names.old old
            → MomentOf D a Start head.now rows.now numbers.now at_start.now
            → a.lasting ≡ self.lasting
            → (self.lasting ≡ true → EndOf D a head.now rows.now numbers.now at_end.now
            soles.now) → self.classes ≡ length (classes D a)
            → Named before (rows_of_classes D a i 0 (classes D a)) result names.new old }
    {
        let count = self.classes;
        let mut next = Naming::new(self.rows);
        for class in 0..count {
            let named = name_class(
                head,
                rows,
                numbers,
                at_start,
                at_end,
                soles,
                class,
                self.lasting,
            );
            next = next.with_class(class as u8, named, names);
        }
        next
    }

    // Names the rows of its classes: `numbers` holds the class number of each of its literals, which are these rows. (An action at once
    // has no end.)
    fn name_classes(self, head: &Head, rows: &[u8], numbers: &[u8], names: &mut [u8]) -> Naming
        requires rowed { length rows.now ≡ 8 * length numbers.now }
        requires literals { length numbers.now ≤ max_literals }
        requires few { self.classes ≤ length numbers.now }
        requires room { self.rows + 2 * self.classes ≤ length names.old }
        ensures rows { result.rows ≤ self.rows + 2 * self.classes }
        ensures named { (before : List Row) (old : List ℕ) (D : Domain) (a : Action) (i : ℕ)
            → Listed before self.rows names.old old
            → ActionOf D a head.now rows.now → a.lasting ≡ self.lasting
            → numbers.now ≡ class_numbers D a → self.classes ≡ length (classes D a)
            → Named before (rows_of_classes D a i 0 (classes D a)) result names.new old }
    {
        let n = numbers.len();
        let mut soles = [0u8; 5 * MAX_LITERALS];
        let mut at_start = [0u8; MAX_LITERALS];
        note_soles(rows, numbers, &mut soles);
        usages_at(false, rows, n, Moment::Start, &mut at_start);
        let mut at_end = [0u8; MAX_LITERALS];
        if self.lasting {
            usages_at(false, rows, n, Moment::End, &mut at_end);
        }
        self.name_each(head, rows, numbers, &at_start, &at_end, &soles, names)
    }
}

// The rows of one action, whose literals are these rows, behind the `named` rows of the actions before it; `numbers` gets the class
// number of each literal, from which its classes are known afterwards. The summary is of this action alone. (`words` is work memory for
// numbering.)
pub fn name_action(
    places: &Places,
    rows: &[u8],
    numbers: &mut [u8],
    words: &mut [u64],
    named: usize,
    lasting: bool,
    names: &mut [u8],
) -> NamedAction
    requires rowed { length rows.now ≡ 8 * length numbers.old }
    requires literals { length numbers.old ≤ max_literals }
    requires words { length words.old ≡ max_literals }
    requires room { named + 2 * length numbers.old ≤ length names.old }
    ensures rows { result.rows ≤ named + 2 * length numbers.old }
    ensures classes { result.classes ≤ length numbers.old }
    ensures numbers { (D : Domain) (a : Action) → ActionOf D a places.now.head.now rows.now
        → numbers.new ≡ class_numbers D a }
    ensures named { (D : Domain) (a : Action) → ActionOf D a places.now.head.now rows.now → a.lasting ≡ lasting
        → (before : List Row) (old : List ℕ) (i : ℕ) → Listed before named names.old old
        → (result.classes ≡ length (classes D a)) × (result.summary ≡ summary_of D a)
        × Listed (before ++ rows_of_classes D a i 0 (classes D a)) result.rows names.new old }
{
    let classes = number_classes(places, rows, numbers, words);
    let numbered = NumberedAction {
        rows: named,
        classes,
        lasting,
    };
    let naming = numbered.name_classes(places.head, rows, numbers, names);
    NamedAction {
        rows: naming.rows,
        classes,
        summary: naming.summary,
    }
}

// The names of all moments of a domain that was read; `numbers` gets the class number of each literal, in the order of the table, and
// `counts` how many classes each action has.
pub fn name_all(
    head: &Head,
    table: &[u8],
    numbers: &mut [u8],
    names: &mut [u8],
    counts: &mut ClassCounts,
) -> NamedDomain
    requires read { Read head.now table.now }
    requires numbers { length table.now ≤ 8 * length numbers.old }
    requires room { length table.now ≤ 4 * length names.old }
    ensures rows { result.rows ≤ 2 * (max_literals * max_actions) }
    ensures numbers { (D : Domain) → Held D head.now table.now → well_formed D ≡ true
        → numbers.new ≡ over (numbers_of D D.actions) numbers.old }
    ensures named { (D : Domain) → Held D head.now table.now → well_formed D ≡ true
        → counts.old ≡ pad max_actions []
        → (result ≡ naming_of D) × (counts.new ≡ pad max_actions (class_counts D D.actions))
        × (names.new ≡ over (name_bytes (rows D)) names.old) }
{
    let places = Places::of(head);
    let mut words = [0u64; MAX_LITERALS];
    let mut rows = 0;
    let mut notes = Notes::new();
    for i in 0..actions_in(head) {
        let span = rows_of(head, table, i);
        let named = name_action(
            &places,
            &table[8 * span.from..8 * span.to],
            &mut numbers[span.from..span.to],
            &mut words,
            rows,
            is_lasting(head, i),
            names,
        );
        rows = named.rows;
        counts[i] = named.classes as u8;
        notes = notes.with(i as u8, named.summary);
    }
    NamedDomain { rows, notes }
}

// The decision of a template: per action a summary of its moments' names, and the decision from the summaries of all actions.
#![tactic(auto)]

ghost use Rattle.std.specs.Prelude.{◌≡◌, List, [], ◌∷◌, ◌++◌, ℕ, length};
ghost use Rattle.verdict.specs.declared.Summary.{Summary};
ghost use Rattle.verdict.specs.Decision.{Row};
ghost use Rattle.verdict.specs.Judged.{answer_at};
ghost use Rattle.verdict.specs.Summaries.{summary_rows, place_in, place_else, notes_of, answer_in, faultless, decide_notes};
ghost use Rattle.verdict.specs.Held.{judgement_of, moment_by, row_for, is_silent};

use classes::Name;
use literals::Moment;

// An answer: the number and three places, as numbers, since so the call of C answers.
#[derive(Clone, Copy, PartialEq, Eq, Debug)]
pub struct Judgement {
    pub number: u64,
    pub first: u64,
    pub second: u64,
    pub third: u64,
}

// A moment of a class of one action.
#[derive(Clone, Copy, PartialEq, Eq, Debug)]
pub struct Spot {
    pub class: u8,
    pub moment: Moment,
}

// What the decision needs of one action: its first moments that are refused by 40, by 41 and by 42, its first bounded one outside a
// journey's end, and whether one is unbounded, at a journey's end too.
#[derive(Clone, Copy, PartialEq, Eq, Debug)]
pub struct Summary {
    pub heavy: Option<Spot>,
    pub unbalanced: Option<Spot>,
    pub unbounded: Option<Spot>,
    pub bounded: Option<Spot>,
    pub endless: bool,
}

// A moment of a class of an action.
#[derive(Clone, Copy, PartialEq, Eq, Debug)]
pub struct Place {
    pub action: u8,
    pub class: u8,
    pub moment: Moment,
}

// What the decision is made of: of the summaries of all actions the first place of each sort, and whether a moment is unbounded.
#[derive(Clone, Copy, PartialEq, Eq, Debug)]
pub struct Notes {
    pub heavy: Option<Place>,
    pub unbalanced: Option<Place>,
    pub unbounded: Option<Place>,
    pub bounded: Option<Place>,
    pub endless: bool,
}

// The moment that a third place tells: 0 a start, and any other number an end.
pub fn moment_of(third: u64) -> Moment
    ensures { result ≡ moment_by third }
{
    match third {
        0 => Moment::Start,
        _ => Moment::End,
    }
}

impl Judgement {
    // The number, and a first place alone.
    pub fn at(number: u64, first: u64) -> Judgement
        ensures { result ≡ judgement_of (answer_at number first) }
    {
        Judgement {
            number,
            first,
            second: 0,
            third: 0,
        }
    }

    // The moment of the place that it names.
    pub fn moment(self) -> Moment
        ensures { result ≡ moment_by self.third }
    {
        moment_of(self.third)
    }
}

impl Summary {
    // Of no moment yet.
    #[tactic(auto, unfolding(crate::specs::Summaries::summary_rows))]
    pub fn new() -> Summary
        ensures { result ≡ summary_rows [] }
    {
        Summary {
            heavy: None,
            unbalanced: None,
            unbounded: None,
            bounded: None,
            endless: false,
        }
    }

    // The summary with one moment more, by its name; `ended`: it is a journey's end.
    pub fn with(self, name: Name, ended: bool, class: u8, moment: Moment) -> Summary
        ensures { (rs : List Row) (i : ℕ) → self ≡ summary_rows rs
            → result ≡ summary_rows (rs ++ (row_for i class moment name ended ∷ [])) }
    {
        let here = Some(Spot { class, moment });
        match name {
            Name::Heavy => Summary {
                heavy: self.heavy.or(here),
                ..self
            },
            Name::Unbalanced => Summary {
                unbalanced: self.unbalanced.or(here),
                ..self
            },
            Name::Unbounded if ended => Summary {
                endless: true,
                ..self
            },
            Name::Unbounded => Summary {
                unbounded: self.unbounded.or(here),
                endless: true,
                ..self
            },
            Name::Bounded if ended => self,
            Name::Bounded => Summary {
                bounded: self.bounded.or(here),
                ..self
            },
            Name::Unreachable | Name::Irrelevant | Name::Balanced => self,
        }
    }

    // Whether it has nothing for the decision, as of most actions.
    #[inline(always)]
    fn is_silent(self) -> bool
        ensures { result ≡ is_silent self }
    {
        !self.endless
            && self.heavy.is_none()
            && self.unbalanced.is_none()
            && self.unbounded.is_none()
            && self.bounded.is_none()
    }
}

impl Place {
    // The number at this place.
    fn refuse(self, number: u64) -> Judgement
        ensures { result ≡ judgement_of (answer_in number self) }
    {
        Judgement {
            number,
            first: u64::from(self.action),
            second: u64::from(self.class),
            third: u64::from(u8::from(self.moment)),
        }
    }
}

// This place, or where it is none the spot in the action i.
#[inline(always)]
fn or_in(place: Option<Place>, i: u8, spot: Option<Spot>) -> Option<Place>
    ensures { result ≡ place_else place (place_in i spot) }
{
    place.or(spot.map(|s| Place {
        action: i,
        class: s.class,
        moment: s.moment,
    }))
}

impl Notes {
    // Of no action yet.
    #[tactic(auto, unfolding(crate::specs::Summaries::notes_of))]
    pub fn new() -> Notes
        ensures { result ≡ notes_of [] }
    {
        Notes {
            heavy: None,
            unbalanced: None,
            unbounded: None,
            bounded: None,
            endless: false,
        }
    }

    // The notes joined with the summary of one action more, the action i.
    #[inline(always)]
    fn join(self, i: u8, summary: Summary) -> Notes
        ensures { (ss : List Summary) → i ≡ length ss → self ≡ notes_of ss → result ≡ notes_of (ss ++ (summary ∷ [])) }
    {
        Notes {
            heavy: or_in(self.heavy, i, summary.heavy),
            unbalanced: or_in(self.unbalanced, i, summary.unbalanced),
            unbounded: or_in(self.unbounded, i, summary.unbounded),
            bounded: or_in(self.bounded, i, summary.bounded),
            endless: self.endless || summary.endless,
        }
    }

    // The notes with the summary of one action more, the action i. Most summaries have nothing for the decision, which is asked first. (In
    // the loop that calls it, with all that it calls: to hand over notes and summary, some bytes each, costs more than to join them.)
    #[inline(always)]
    pub fn with(self, i: u8, summary: Summary) -> Notes
        ensures { (ss : List Summary) → i ≡ length ss → self ≡ notes_of ss → result ≡ notes_of (ss ++ (summary ∷ [])) }
    {
        if summary.is_silent() {
            return self;
        }
        self.join(i, summary)
    }

    // The decision where no moment is refused by 40 to 42.
    fn decide_faultless(self) -> Judgement
        ensures { result ≡ judgement_of (faultless self) }
    {
        if !self.endless {
            return Judgement::at(0, 0);
        }
        match self.bounded {
            Some(place) => place.refuse(43),
            None => Judgement::at(1, 0),
        }
    }

    // The decision: 40 before 41 before 42.
    #[tactic(auto, unfolding(crate::specs::Summaries::decide_notes))]
    pub fn decide(self) -> Judgement
        ensures { result ≡ judgement_of (decide_notes self) }
    {
        match (self.heavy, self.unbalanced, self.unbounded) {
            (Some(place), _, _) => place.refuse(40),
            (None, Some(place), _) => place.refuse(41),
            (None, None, Some(place)) => place.refuse(42),
            (None, None, None) => self.decide_faultless(),
        }
    }
}

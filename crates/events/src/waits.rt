// Events that wait for the close of their step, one behind the other.
ghost use Rattle.std.specs.Prelude.{◌≡◌, List, [], ◌∷◌, ◌++◌, ◌+◌, ◌<◌, length};
ghost use Rattle.literals.specs.Domain.{Domain};
ghost use Rattle.literals.specs.Held.{Bounded};
ghost use Rattle.literals.specs.Matching.{moment_number};
ghost use Rattle.verdict.specs.Machine.{Event};
ghost use Rattle.events.specs.Held.{agenda_bytes, entries_in, agenda_waiting, ground_row, waiting_of, EventsFit};
ghost use Rattle.run_semantics.specs.RunFile.{max_events};

use super::{AGENDA, EVENTS_AT, GROUND, MOMENTS_AT};

// One event more, behind the first n that wait.
pub fn wait(agenda: &mut [u8], n: usize, moment: u8, act: [u8; GROUND])
    requires few { n < max_events }
    requires agenda { length agenda.old ≡ agenda_bytes }
    ensures entries { entries_in agenda.new ≡ entries_in agenda.old }
    ensures waits { (D : Domain) (es : List Event) (e : Event) → Bounded D → EventsFit D es
        → agenda_waiting n agenda.old ≡ waiting_of es → moment ≡ moment_number e.moment → act ≡ ground_row e.act
        → agenda_waiting (n + 1) agenda.new ≡ waiting_of (es ++ (e ∷ [])) }
{
    agenda[MOMENTS_AT + n] = moment;
    let rows = &mut agenda[EVENTS_AT..AGENDA];
    let at = GROUND * n;
    rows[at..at + GROUND].copy_from_slice(&act);
}

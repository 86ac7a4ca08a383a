// A run file record by record.
ghost use Rattle.std.specs.Prelude.{◌≡◌, true, false, List, ℕ, ◌+◌, ◌*◌, ◌<◌, ◌≤◌, length, replicate};
ghost use Rattle.literals.specs.Domain.{Domain};
ghost use Rattle.literals.specs.Decode.{byte};
ghost use Rattle.literals.specs.Held.{HeadOf, Held};
ghost use Rattle.run_semantics.specs.RunFile.{max_events, max_facts, fact_of, event_of};
ghost use Rattle.run_semantics.specs.RunFile.{objects_stop, fact_stop, event_stop, end_stop};
ghost use Rattle.run_fields.specs.Kinds.{run_kind};
ghost use Rattle.run_semantics.specs.Play.{work_bytes, Playing, before_run, go_on, unless, begin, with_objects, with_fact, run_objects};
ghost use Rattle.run_semantics.specs.Play.{with_event, close_step, with_close, play_record, play_step};
ghost use Rattle.machine.specs.Held.{Noted, Closable};
ghost use Rattle.player.specs.Held.{whole_in, turn_in, player_of, Stands, Playable, RunMemory, PlayLeadsTo, NotedAfter};
ghost use Rattle.events.specs.Held.{agenda_bytes};
ghost use Rattle.player.specs.declared.Ending.TheVariants.{Stopped};

use super::{Ending, Over, Player, Tally};
use events::grounding::GROUNDED;
use events::waits::wait;
use events::{AGENDA, EVENTS_AT, MOMENTS_AT};
use literals::head::Head;
use literals::limits::MAX_FACTS;
use machine::State;
use machine::step::rest;
use records::{Record, record_at};
use run_fields::kind::Kind;
use run_fields::{
    end_stop, event_stop, fact_row, fact_stop, ground_row, objects_stop, put_fact, step_stop,
};
use run_semantics::Stop;
use std::num::NonZeroU8;
use store::index::{FactIndex, NOTE, enter, is_held};
use store::weighing::top_from;

impl Player {
    // Before the run.
    pub fn new() -> Player
        ensures { whole_in result (replicate agenda_bytes 0) ≡ player_of before_run }
    {
        Player {
            at: 0,
            closed: false,
            begun: false,
            objects: None,
            state: State {
                facts: 0,
                opened: 0,
                waits: 0,
            },
            tally: Tally {
                steps: 0,
                weight: 0,
            },
        }
    }

    // The player from the first record of kind 18 to 20 on: the start is over, and its facts are weighed.
    fn begin(self, head: &Head, work: &[u8], index: &FactIndex) -> Player
        requires few { self.state.facts ≤ max_facts }
        requires facts { 8 * self.state.facts ≤ length work.now }
        ensures { (D : Domain) (p : Playing) (agenda old : List ℕ) → HeadOf D head.now
            → Stands D p (whole_in self agenda) work.now old
            → Noted D (run_objects p) head.now index.now p.state
            → whole_in result agenda ≡ player_of (begin D p) }
    {
        if self.begun {
            return self;
        }
        let top = top_from(head, work, self.state.facts, 0, 0, index);
        Player {
            begun: true,
            tally: Tally {
                steps: 0,
                weight: top,
            },
            ..self
        }
    }

    // The player behind a record, with so many facts and so many events that wait.
    fn onward(self, behind: usize, facts: usize, waits: usize) -> Player
        ensures { result ≡ record {
          at = behind;
          closed = false;
          begun = self.begun;
          objects = self.objects;
          state = record { facts = facts; opened = self.state.opened; waits = waits };
          tally = self.tally;
        } }
    {
        Player {
            at: behind,
            closed: false,
            state: State {
                facts,
                waits,
                ..self.state
            },
            ..self
        }
    }

    // Playing is over where the player stands, by what stops the record there.
    fn stopped(self, stop: Stop) -> Over
        ensures { result ≡ record { ending = Stopped stop; player = self } }
    {
        Over {
            ending: Ending::Stopped(stop),
            player: self,
        }
    }

    // Kind 16: the object count.
    fn take_objects(self, p: &[u8], behind: usize) -> Result<Player, Over>
        ensures { (D : Domain) (q : Playing) (agenda work old : List ℕ) → Stands D q (whole_in self agenda) work old
            → PlayLeadsTo (unless (objects_stop q.objects p.now) q (go_on (with_objects q (byte p.now 0) behind)))
            (turn_in result agenda) work old }
    {
        if let Err(stop) = objects_stop(self.objects, p) {
            return Err(self.stopped(stop));
        }
        Ok(Player {
            at: behind,
            closed: false,
            objects: NonZeroU8::new(p[0]),
            ..self
        })
    }

    // Kind 17: a start fact; one that is held already changes nothing. (There is room for a new one, as `fact_stop` says
    // otherwise; the test gives the checker the bound.)
    fn take_fact(
        self,
        head: &Head,
        work: &mut [u8],
        index: &mut FactIndex,
        p: &[u8],
        behind: usize,
    ) -> Result<Player, Over>
        requires few { self.state.facts ≤ max_facts }
        requires work { work_bytes ≤ length work.old }
        ensures leads { (D : Domain) (q : Playing) (agenda old : List ℕ) → HeadOf D head.now
            → Stands D q (whole_in self agenda) work.old old
            → Noted D (run_objects q) head.now index.old q.state
            → PlayLeadsTo (unless (fact_stop D q.objects q.tally.begun q.state.facts p.now) q
            (go_on (with_fact q (fact_of p.now) behind))) (turn_in result agenda) work.new old }
        ensures noted { (D : Domain) (q : Playing) (agenda old : List ℕ) → HeadOf D head.now
            → Stands D q (whole_in self agenda) work.old old
            → Noted D (run_objects q) head.now index.old q.state
            → NotedAfter D head.now index.new
            (unless (fact_stop D q.objects q.tally.begun q.state.facts p.now) q
            (go_on (with_fact q (fact_of p.now) behind))) }
    {
        let n = self.state.facts;
        if let Err(stop) = fact_stop(head, self.objects, self.begun, work, n, p) {
            return Err(self.stopped(stop));
        }
        let row = fact_row(p);
        if is_held(index, work, n, row) {
            return Ok(self.onward(behind, n, self.state.waits));
        }
        if MAX_FACTS <= n {
            return Err(self.stopped(Stop::TooMany));
        }
        put_fact(work, n, row);
        enter(index, head, &row, 0);
        index[NOTE] = 0;
        Ok(self.onward(behind, n + 1, self.state.waits))
    }

    // Kind 18: an event.
    fn take_event(
        self,
        head: &Head,
        agenda: &mut [u8],
        p: &[u8],
        behind: usize,
    ) -> Result<Player, Over>
        requires few { self.state.waits ≤ max_events }
        requires agenda { length agenda.old ≡ agenda_bytes }
        ensures { (D : Domain) (q : Playing) (work old : List ℕ) → HeadOf D head.now
            → Stands D q (whole_in self agenda.old) work old
            → PlayLeadsTo (unless (event_stop D q.objects q.waiting p.now) q
            (go_on (with_event q (event_of p.now) behind))) (turn_in result agenda.new) work old }
    {
        let n = self.state.waits;
        let moments = &agenda[MOMENTS_AT..EVENTS_AT];
        let rows = &agenda[EVENTS_AT..AGENDA];
        if let Err(stop) = event_stop(head, self.objects, moments, rows, n, p) {
            return Err(self.stopped(stop));
        }
        wait(agenda, n, p[0], ground_row(p));
        Ok(self.onward(behind, self.state.facts, n + 1))
    }

    // The player behind a step that was made, with the state after it and the highest weight.
    fn stepped(self, behind: usize, state: State, weight: usize) -> Player
        requires steps { self.tally.steps ≤ self.at }
        requires further { self.at < behind }
        ensures { result ≡ record {
          at = behind;
          closed = false;
          begun = self.begun;
          objects = self.objects;
          state = state;
          tally = record { steps = self.tally.steps + 1; weight = weight };
        } }
    {
        let tally = self.tally;
        Player {
            at: behind,
            closed: false,
            state,
            tally: Tally {
                steps: tally.steps + 1,
                weight,
            },
            ..self
        }
    }

    // Kind 19, whose record passed, where no event waits: nothing changes.
    fn take_rest(
        self,
        head: &Head,
        table: &[u8],
        work: &[u8],
        index: &mut FactIndex,
        agenda: &[u8],
        scratch: &mut [u8],
        behind: usize,
    ) -> Result<Player, Over>
        requires closable { Closable self.state.facts work.now }
        requires steps { self.tally.steps ≤ self.at }
        requires further { self.at < behind }
        requires memory { RunMemory agenda.now scratch.old }
        requires none { self.state.waits ≡ 0 }
        ensures leads { (D : Domain) (q : Playing) (old : List ℕ) → Held D head.now table.now
            → Stands D q (whole_in self agenda.now) work.now old
            → q.tally.begun ≡ true → Noted D (run_objects q) head.now index.old q.state
            → PlayLeadsTo (close_step D q behind) (turn_in result agenda.now) work.now old }
        ensures noted { (D : Domain) (q : Playing) (old : List ℕ) → Held D head.now table.now
            → Stands D q (whole_in self agenda.now) work.now old
            → q.tally.begun ≡ true → Noted D (run_objects q) head.now index.old q.state
            → NotedAfter D head.now index.new (close_step D q behind) }
    {
        let memory = &mut scratch[0..GROUNDED];
        if let Err(stop) = rest(head, table, agenda, self.state, memory, index, work) {
            return Err(self.stopped(stop));
        }
        Ok(self.stepped(behind, self.state, self.tally.weight))
    }

    // Kind 19, whose record passed: the step's close.
    fn take_step(
        self,
        head: &Head,
        table: &[u8],
        work: &mut [u8],
        index: &mut FactIndex,
        agenda: &mut [u8],
        scratch: &mut [u8],
        behind: usize,
    ) -> Result<Player, Over>
        requires closable { Closable self.state.facts work.old }
        requires steps { self.tally.steps ≤ self.at }
        requires further { self.at < behind }
        requires memory { RunMemory agenda.old scratch.old }
        ensures leads { (D : Domain) (q : Playing) (old : List ℕ) → Held D head.now table.now
            → Stands D q (whole_in self agenda.old) work.old old
            → (q.objects ≡ 0 → ⊥) → q.tally.begun ≡ true → Noted D (run_objects q) head.now index.old q.state
            → PlayLeadsTo (close_step D q behind) (turn_in result agenda.new) work.new old }
        ensures noted { (D : Domain) (q : Playing) (old : List ℕ) → Held D head.now table.now
            → Stands D q (whole_in self agenda.old) work.old old
            → (q.objects ≡ 0 → ⊥) → q.tally.begun ≡ true → Noted D (run_objects q) head.now index.old q.state
            → NotedAfter D head.now index.new (close_step D q behind) }
    {
        if self.state.waits == 0 {
            return self.take_rest(head, table, work, index, agenda, scratch, behind);
        }
        let weight = self.tally.weight;
        match self
            .state
            .step(head, table, agenda, work, weight, index, scratch)
        {
            Ok(closed) => Ok(self.stepped(behind, closed.state, closed.weight)),
            Err(stop) => Err(self.stopped(stop)),
        }
    }

    // Kind 20: the run's close.
    fn take_end(self, p: &[u8], behind: usize) -> Result<Player, Over>
        ensures { (D : Domain) (q : Playing) (agenda work old : List ℕ) → Stands D q (whole_in self agenda) work old
            → PlayLeadsTo (unless (end_stop q.objects q.waiting p.now) q (go_on (with_close q behind)))
            (turn_in result agenda) work old }
    {
        if let Err(stop) = end_stop(self.objects, self.state.waits, p) {
            return Err(self.stopped(stop));
        }
        Ok(Player {
            at: behind,
            closed: true,
            ..self
        })
    }

    // A record of any kind; the start is over once one of kind 18 to 20 is met. (A `match`: each kind is taken by a method of its own, of
    // other arguments.)
    fn take_run_record(
        self,
        head: &Head,
        table: &[u8],
        work: &mut [u8],
        index: &mut FactIndex,
        agenda: &mut [u8],
        scratch: &mut [u8],
        kind: Kind,
        p: &[u8],
        behind: usize,
    ) -> Result<Player, Over>
        requires playable { Playable head.now (whole_in self agenda.old) work.old index.old }
        requires memory { RunMemory agenda.old scratch.old }
        requires further { self.at < behind }
        ensures leads { (D : Domain) (q : Playing) (old : List ℕ) → Held D head.now table.now
            → Stands D q (whole_in self agenda.old) work.old old
            → Noted D (run_objects q) head.now index.old q.state
            → PlayLeadsTo (play_record D q (run_kind kind) p.now behind) (turn_in result agenda.new)
            work.new old }
        ensures noted { (D : Domain) (q : Playing) (old : List ℕ) → Held D head.now table.now
            → Stands D q (whole_in self agenda.old) work.old old
            → Noted D (run_objects q) head.now index.old q.state
            → NotedAfter D head.now index.new (play_record D q (run_kind kind) p.now behind) }
    {
        match kind {
            Kind::Objects => self.take_objects(p, behind),
            Kind::Fact => self.take_fact(head, work, index, p, behind),
            Kind::Event => {
                let begun = self.begin(head, work, index);
                begun.take_event(head, agenda, p, behind)
            }
            Kind::Step => {
                let begun = self.begin(head, work, index);
                if let Err(stop) = step_stop(begun.objects, p) {
                    return Err(begun.stopped(stop));
                }
                begun.take_step(head, table, work, index, agenda, scratch, behind)
            }
            Kind::End => {
                let begun = self.begin(head, work, index);
                begun.take_end(p, behind)
            }
        }
    }

    // The next record of the run file.
    pub fn step(
        self,
        head: &Head,
        table: &[u8],
        run: &[u8],
        work: &mut [u8],
        index: &mut FactIndex,
        agenda: &mut [u8],
        scratch: &mut [u8],
    ) -> Result<Player, Over>
        requires playable { Playable head.now (whole_in self agenda.old) work.old index.old }
        requires memory { RunMemory agenda.old scratch.old }
        ensures leads { (D : Domain) (q : Playing) (old : List ℕ) → Held D head.now table.now
            → Stands D q (whole_in self agenda.old) work.old old
            → Noted D (run_objects q) head.now index.old q.state
            → PlayLeadsTo (play_step D run.now q) (turn_in result agenda.new) work.new old }
        ensures noted { (D : Domain) (q : Playing) (old : List ℕ) → Held D head.now table.now
            → Stands D q (whole_in self agenda.old) work.old old
            → Noted D (run_objects q) head.now index.old q.state
            → NotedAfter D head.now index.new (play_step D run.now q) }
    {
        let at = self.at;
        if self.closed {
            if at < run.len() {
                return Err(self.stopped(Stop::Malformed));
            }
            return Err(Over {
                ending: Ending::Played,
                player: self,
            });
        }
        let Record::Whole { kind, start, len } = record_at(run, at) else {
            return Err(self.stopped(Stop::Malformed));
        };
        let kind = match Kind::try_from(kind) {
            Ok(kind) => kind,
            Err(stop) => return Err(self.stopped(stop)),
        };
        let end = start + len;
        let p = &run[start..end];
        self.take_run_record(head, table, work, index, agenda, scratch, kind, p, end)
    }
}

// The file, record by record.
ghost use Rattle.std.specs.Prelude.{◌≡◌, List, ℕ, replicate};
ghost use Rattle.literals.specs.Decode.{Reading, read_step, decode};
ghost use Rattle.literals.specs.Held.{head_bytes};
ghost use Rattle.reading.specs.Held.{EnoughTable, ReadLeadsTo, ReadAs, Standing, StepReady, at_start, table_after};

use super::kind::Kind;
use super::take::take_record;
use super::{Progress, Refusal};
use literals::fault::{Fault, RecordFault};
use literals::head::Head;
use literals::limits::MAX_FILE;
use records::{Record, record_at};

impl Progress {
    pub fn new() -> Progress
        ensures { result ≡ at_start }
    {
        Progress {
            at: 0,
            closed: false,
        }
    }

    // One record more: where reading stands then, or none where the file is read.
    pub fn step(
        self,
        s: &[u8],
        head: &mut Head,
        table: &mut [u8],
    ) -> Result<Option<Progress>, Refusal>
        requires { StepReady self s.now head.old table.old }
        ensures { (q : Reading) (old : List ℕ) → Standing old q self head.old table.old
            → ReadLeadsTo old q (read_step s.now q) result head.new table.new }
    {
        let at = self.at;
        if self.closed {
            if at < s.len() {
                return Err(Refusal::of_record(RecordFault::from(Fault::OutOfOrder), at));
            }
            return Ok(None);
        }
        let Record::Whole { kind, start, len } = record_at(s, at) else {
            return Err(Refusal::of_record(RecordFault::from(Fault::CutShort), at));
        };
        let end = start + len;
        if let Err(fault) = take_record(head, table, kind, &s[start..end]) {
            return Err(Refusal::of_record(fault, at));
        }
        Ok(Some(Progress {
            at: end,
            closed: Kind::try_from(kind) == Ok(Kind::Closing),
        }))
    }
}

// How every service begins: a domain file is read into a head that is all 0 and a table that is large enough, or refused. Behind the
// literals that were read, the table stays as it was.
pub fn read_domain(s: &[u8], head: &mut Head, table: &mut [u8]) -> Result<(), Refusal>
    requires cleared { head.old ≡ replicate head_bytes 0 }
    requires enough { EnoughTable s.now table.old }
    ensures answer { ReadAs (decode s.now) result head.new table.new }
    ensures table { table.new ≡ table_after s.now table.old }
{
    if MAX_FILE < s.len() {
        return Err(Refusal::of_record(RecordFault::from(Fault::FileTooLong), 0));
    }
    let mut progress = Progress::new();
    while let Some(next) = progress.step(s, head, table)? {
        progress = next;
    }
    Ok(())
}

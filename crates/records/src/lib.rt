// A file is a row of records: payload length (2 bytes, little-endian), kind (2 bytes), payload. Functions on bytes are in bytes.
#![tactic(auto)]

pub mod bytes;

ghost use Rattle.std.specs.Prelude.{◌≡◌, ◌+◌, ◌<◌, length};
ghost use Rattle.records.specs.Record.{record_at, word};

// What stands at an offset of a file.
#[derive(Clone, Copy, PartialEq, Eq, Debug)]
pub enum Record {
    // A whole record of this kind: its payload starts at `start` and is `len` bytes long.
    Whole { kind: u16, start: usize, len: usize },
    // A head or a payload that runs past the end.
    Cut,
    // Nothing: the offset is the end of the file, or behind it.
    End,
}

// The number in two bytes, the lower first.
#[tactic(auto, unfolding(crate::specs::Record::word))]
fn word_at(s: &[u8], at: usize) -> u16
    requires { at + 1 < length s.now }
    ensures number { result ≡ word s.now at }
    ensures low { result < 65536 }
{
    u16::from_le_bytes([s[at], s[at + 1]])
}

// The record at an offset, which a reader answers.
#[tactic(auto, unfolding(crate::specs::Record::record_at))]
fn found_at(s: &[u8], at: usize) -> Record
    ensures { result ≡ record_at s.now at }
{
    if s.len() <= at {
        return Record::End;
    }
    if s.len() - at < 4 {
        return Record::Cut;
    }
    let len = usize::from(word_at(s, at));
    let kind = word_at(s, at + 2);
    if len <= s.len() - at - 4 {
        Record::Whole {
            kind,
            start: at + 4,
            len,
        }
    } else {
        Record::Cut
    }
}

// A file and a position in it. Few functions are over it, and thin: what they answer is `found_at` of the two.
#[derive(Drop)]
pub struct Reader<'a> {
    pub file: &'a [u8],
    pub at: usize,
}

impl<'a> Reader<'a> {
    // The reader at a position.
    pub fn new(file: &'a [u8], at: usize) -> Reader<'a>
        ensures { (result.file ≡ file.entry) × (result.at ≡ at) }
    {
        Reader { file, at }
    }

    // The record at its position.
    pub fn record(self) -> Record
        ensures { result ≡ record_at self.entry.file.now self.entry.at }
    {
        found_at(self.file, self.at)
    }
}

// The record at an offset, by a reader there: every caller reads a file through this.
pub fn record_at(s: &[u8], at: usize) -> Record
    ensures { result ≡ record_at s.now at }
{
    Reader::new(s, at).record()
}

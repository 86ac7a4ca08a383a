// The call that counts: a box of domain files, and lent memory for its totals.
#![tactic(auto)]

pub mod boxes;
pub mod counting;
pub mod written;

ghost use Rattle.std.specs.Prelude.{◌≡◌};
ghost use Rattle.totals.specs.Totals.{totalled, totals_after};
ghost use Rattle.totals.specs.Claims.{CountsFiles, AddsUp};
ghost use Rattle.totals.specs.Held.{answer_to};

use boxes::open_box;
use counting::count_files;
use written::put_totals;

// Why a box is not counted: it is cut at the length at an offset, or the memory for its totals is too short.
#[derive(Clone, Copy, PartialEq, Eq, Debug)]
pub enum Uncounted {
    Cut(usize),
    Short,
}

// How many numbers are counted, 0 to 63, and how many names.
const NUMBERS: usize = 64;

const NAMES: usize = 7;

// The last of the numbers. The total of a name stands so many places behind it as the name's number says, which is 1 or more.
pub const LAST_NUMBER: usize = NUMBERS - 1;

// The totals of all of them, 8 bytes each.
pub const TOTALS: usize = NUMBERS + NAMES;

const TOTALS_SIZE: usize = 8 * TOTALS;

// The totals of a box: nothing is judged before the box is known to be whole, and nothing is written before all of it is counted.
fn count_opened(packed: &[u8], totals: &mut [u8]) -> Result<(), Uncounted>
    ensures answer { answer_to result ≡ totalled packed.now totals.old }
    ensures totals { totals.new ≡ totals_after packed.now totals.old }
{
    open_box(packed)?;
    if totals.len() < TOTALS_SIZE {
        return Err(Uncounted::Short);
    }
    let mut counts = [0u64; TOTALS];
    count_files(packed, &mut counts);
    put_totals(&counts, totals);
    Ok(())
}

// Counts a box, with what the answer means: every total is the count over the files of the box, and the totals add up. (The number, and the
// place through a reference: as the call of C answers.)
pub fn count_box(packed: &[u8], totals: &mut [u8], first: &mut u64) -> u64
    ensures number { result ≡ (totalled packed.now totals.old).number }
    ensures first { first.new ≡ (totalled packed.now totals.old).first }
    ensures totals { totals.new ≡ totals_after packed.now totals.old }
    ensures counts { CountsFiles packed.now result totals.new }
    ensures sums { AddsUp packed.now result totals.new }
{
    let (number, place) = match count_opened(packed, totals) {
        Ok(()) => (0, TOTALS_SIZE),
        Err(Uncounted::Short) => (30, 0),
        Err(Uncounted::Cut(at)) => (33, at),
    };
    *first = place as u64;
    number
}

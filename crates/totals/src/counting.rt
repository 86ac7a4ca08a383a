// The totals while they are counted, those of the numbers before those of the names.
ghost use Rattle.std.specs.Prelude.{◌≡◌, map, ℕ, ◌+◌, ◌*◌, ◌≤◌, ◌<◌, length, replicate};
ghost use Rattle.records.specs.Lists.{In};
ghost use Rattle.totals.specs.Totals.{opened, files, counted_names, total_count, name_mark, totals};
ghost use Rattle.totals.specs.Held.{files_in, one_more, one_more_each, names_in, marks_of, Room, enough_report, enough_witness};

use super::boxes::first_file;
use super::{LAST_NUMBER, TOTALS};
use judging::judge;
use literals::limits::{MAX_ACTIONS, MAX_LITERALS};

// One total is one higher.
fn add_one(counts: &mut [u64; TOTALS], at: usize)
    requires within { at < total_count }
    requires room { Room counts.old 1 }
    ensures { counts.new ≡ one_more counts.old at }
{
    counts[at] += 1;
}

// Counts the names in a report, up to the first row that is clear; the offset of that row.
fn count_names(report: &[u8], counts: &mut [u64; TOTALS]) -> usize
    requires names { (k : ℕ) → In k (names_in report.now) → k ≤ counted_names }
    requires room { Room counts.old (length (names_in report.now)) }
    ensures rows { result ≡ 4 * length (names_in report.now) }
    ensures counted { counts.new ≡ one_more_each counts.old (map name_mark (names_in report.now)) }
{
    let mut rest = report;
    while let Some((row, behind)) = rest.split_first_chunk::<4>() {
        let name = row[3];
        if name == 0 {
            break;
        }
        add_one(counts, LAST_NUMBER + usize::from(name));
        rest = behind;
    }
    report.len() - rest.len()
}

// Judges a file with memory enough, and counts its number and the names of its moments: none where it is refused, since judging then
// leaves the report as it was. The report is clear before and after, so its rows end at the first that is clear; only these are cleared.
fn count_file(file: &[u8], report: &mut [u8], witness: &mut [u8], counts: &mut [u64; TOTALS])
    requires room { Room counts.old (1 + length file.now) }
    requires rows { enough_report ≤ length report.old }
    requires facts { enough_witness ≤ length witness.old }
    requires cleared { report.old ≡ replicate (length report.old) 0 }
    ensures counted { counts.new ≡ one_more_each counts.old (marks_of file.now) }
    ensures cleared { report.new ≡ replicate (length report.old) 0 }
{
    let answer = judge(file, report, witness);
    add_one(counts, answer.number as usize);
    let end = count_names(report, counts);
    report[..end].fill(0);
}

// Counts the files of a whole box, one after the other.
fn count_all(packed: &[u8], report: &mut [u8], witness: &mut [u8], counts: &mut [u64; TOTALS])
    requires whole { opened packed.now ≡ files (files_in packed.now) }
    requires rows { enough_report ≤ length report.old }
    requires facts { enough_witness ≤ length witness.old }
    requires cleared { report.old ≡ replicate (length report.old) 0 }
    requires none { counts.old ≡ replicate total_count 0 }
    ensures { counts.new ≡ totals (files_in packed.now) }
{
    let mut rest = packed;
    while let Some((file, behind)) = first_file(rest) {
        count_file(file, report, witness, counts);
        rest = behind;
    }
}

// The same, with memory that is enough for every file: 4 bytes for each moment, and 8 for each true condition of an action and for one
// fact more.
pub fn count_files(packed: &[u8], counts: &mut [u64; TOTALS])
    requires whole { opened packed.now ≡ files (files_in packed.now) }
    requires none { counts.old ≡ replicate total_count 0 }
    ensures { counts.new ≡ totals (files_in packed.now) }
{
    let mut report = [0u8; 4 * 2 * MAX_LITERALS * MAX_ACTIONS];
    let mut witness = [0u8; 8 * (MAX_LITERALS + 1)];
    count_all(packed, &mut report, &mut witness, counts);
}

// A box from left to right: each file stands behind its length.
ghost use Rattle.std.specs.Prelude.{◌≡◌, true, false, MatchOption};
ghost use Rattle.totals.specs.Totals.{whole_file, first_file, behind_file, opened};
ghost use Rattle.totals.specs.Held.{opening_of};

use super::Uncounted;

// The file in front of a box, and what stands behind it; nothing where its length is cut short itself, or the file is. The length stands
// in four bytes, the lowest first.
pub fn first_file(packed: &[u8]) -> Option<(&[u8], &[u8])>
    ensures { MatchOption result (whole_file packed.now ≡ false)
        (λ p. (whole_file packed.now ≡ true) × (p.0.now ≡ first_file packed.now) × (p.1.now ≡ behind_file packed.now)) }
{
    let (length, behind) = packed.split_first_chunk::<4>()?;
    behind.split_at_checked(u32::from_le_bytes(*length) as usize)
}

// Goes from length to length, without reading the files.
pub fn open_box(packed: &[u8]) -> Result<(), Uncounted>
    ensures { result ≡ opening_of (opened packed.now) }
{
    let mut rest = packed;
    while let Some((_, behind)) = first_file(rest) {
        rest = behind;
    }
    if rest.is_empty() {
        Ok(())
    } else {
        Err(Uncounted::Cut(packed.len() - rest.len()))
    }
}

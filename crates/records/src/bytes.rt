// Bytes of a memory: written at an offset, and looked through from an offset on.
ghost use Rattle.std.specs.Prelude.{◌≡◌, ◌||◌, ◌+◌, ◌<◌, ◌≤◌, eqb, leb, length, drop, replicate, count_by};
ghost use Rattle.std.proofs.Math.Seq.{paste};
ghost use Rattle.records.specs.Lists.{any};

// The bytes of a slice, written at an offset.
pub fn put_bytes(out: &mut [u8], at: usize, p: &[u8])
    requires { at + length p.now ≤ length out.old }
    ensures { out.new ≡ paste out.old at p.now (length p.now) }
{
    out[at..at + p.len()].copy_from_slice(p);
}

// So many zeros, written at an offset.
pub fn put_zeros(out: &mut [u8], at: usize, n: usize)
    requires { at + n ≤ length out.old }
    ensures { out.new ≡ paste out.old at (replicate n 0) n }
{
    out[at..at + n].fill(0);
}

// Whether a byte from `from` on is not below the limit.
pub fn any_from(s: &[u8], from: usize, limit: u8) -> bool
    ensures { result ≡ any (leb limit) (drop from s.now) }
{
    s.iter().skip(from).any(|b| limit <= *b)
}

// How many bytes from `from` on equal b.
pub fn count_from(s: &[u8], from: usize, b: u8) -> usize
    ensures { result ≡ count_by (eqb b) (drop from s.now) }
{
    s.iter().skip(from).filter(|x| b == **x).count()
}

// Whether something is found already, or two numbers are equal. A loop that asks this of each number, and goes on where it is found, is
// compiled to look at several at once.
pub fn found_or_equal(found: bool, x: u64, y: u64) -> bool
    ensures { result ≡ (found || eqb x y) }
{
    found || x == y
}

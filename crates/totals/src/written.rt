// The bytes of the totals: 8 each, the lowest first.
ghost use Rattle.std.specs.Prelude.{◌≡◌, ◌*◌, ◌≤◌, length};
ghost use Rattle.records.specs.Memory.{over};
ghost use Rattle.totals.specs.Totals.{total_bytes};

// All of them.
pub fn put_totals(totals: &[u64], out: &mut [u8])
    requires { 8 * length totals.now ≤ length out.old }
    ensures { out.new ≡ over (total_bytes totals.now) out.old }
{
    // An index: what a memory holds after a loop over `chunks_exact_mut` is not known to a proof.
    for n in 0..totals.len() {
        out[8 * n..8 * n + 8].copy_from_slice(&totals[n].to_le_bytes());
    }
}

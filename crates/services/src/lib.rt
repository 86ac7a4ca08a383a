// What services on one file have in common: it is read whole, or refused as judging refuses it, and the bytes made for its domain are
// handed over whole, or not at all.
#![tactic(auto)]

ghost use Rattle.std.specs.Prelude.{◌≡◌, true, List, ℕ, ◌≤◌, ◌<◌, length, take};
ghost use Rattle.literals.specs.Domain.{Domain};
ghost use Rattle.literals.specs.Held.{Held};
ghost use Rattle.verdict.specs.Claims.{well_formed};
ghost use Rattle.services.specs.Service.{DeliveredAs, ServedAs};

use literals::head::{HEAD, Head};
use literals::limits::{MAX_ACTIONS, MAX_LITERALS};
use reading::read::read_domain;

// Hands over the bytes that a service made: answers 0 and leaves their number, or 30 where the lent memory is too short for them, which
// stays as it was. (A number, and the place through a reference: as a service's C call answers.)
#[tactic(auto, unfolding(records::specs::Memory::over))]
pub fn deliver(made: &[u8], out: &mut [u8], first: &mut u64) -> u64
    ensures { DeliveredAs made.now out.old result first.new out.new }
{
    if out.len() < made.len() {
        *first = 0;
        return 30;
    }
    out[..made.len()].copy_from_slice(made);
    *first = made.len() as u64;
    0
}

// A service on a file: it is refused as judging refuses it, or `make` puts the bytes for its domain at the front of a memory of N zeros,
// and answers how many they are. What it makes of a domain is the service's own definition. (A number, and the place
// through a reference: as a service's C call answers.)
pub fn serve<const N: usize, F: FnOnce(&Head, &[u8], &mut [u8]) -> usize>(
    file: &[u8],
    make: F,
    out: &mut [u8],
    first: &mut u64,
) -> u64
    requires memory { N < 9223372036854775808 }
    requires callable { (D : Domain) (head : _) (table : _) (made : _) → Held D head.now table.now → well_formed D ≡ true
        → length made.now ≡ N → F.pre make head table made }
    requires few { (head : _) (table : _) (made : _) (n : _) (after : _) → F.post make head table made n after → n ≤ N }
    ensures { (bytes_of : Domain → List ℕ)
        → ((D : Domain) (head : _) (table : _) (made : _) (n : _) (after : _) → Held D head.now table.now → well_formed D ≡ true
        → F.post make head table made n after → take n after.now ≡ bytes_of D)
        → ServedAs bytes_of file.now out.old result first.new out.new }
{
    let mut head = [0u8; HEAD];
    let mut table = [0u8; 8 * MAX_LITERALS * MAX_ACTIONS];
    if let Err(refusal) = read_domain(file, &mut head, &mut table) {
        *first = refusal.place as u64;
        return refusal.fault.number();
    }
    let mut memory = [0u8; N];
    let made = &mut memory[..];
    let size = make(&head, &table, made);
    deliver(&made[..size], out, first)
}

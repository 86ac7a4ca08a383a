// "Bind variable i to object i": an action at once as the only event of a step, and its ground literals.
ghost use Rattle.std.specs.Prelude.{◌≡◌, [], ◌∷◌, ◌≤◌, ◌<◌, length};
ghost use Rattle.literals.specs.Domain.{Domain};
ghost use Rattle.literals.specs.Decode.{max_actions, max_variables, max_literals};
ghost use Rattle.literals.specs.Held.{Held};
ghost use Rattle.verdict.specs.Claims.{plain_event};
ghost use Rattle.events.specs.Held.{ground_row, grounded_bytes, Grounded};
ghost use Rattle.trying.specs.Held.{plain_ground};

use events::GROUND;
use events::grounding::{COUNTS, ground_action};
use literals::Time;
use literals::head::{Head, variables_of};

// The row of the action i with its objects, of so many variables.
fn plain_row(i: u8, variables: u8) -> [u8; GROUND]
    requires { variables ≤ max_variables }
    ensures { result ≡ ground_row (plain_ground i variables) }
{
    let mut row = [255u8; GROUND];
    row[0] = i;
    // An index: what a row holds after a loop over `iter_mut` is not known to a proof.
    for k in 0..variables {
        row[k as usize + 1] = k;
    }
    row
}

// The ground literals of the action i: how many they are.
pub fn ground_plain(head: &Head, table: &[u8], i: usize, memory: &mut [u8]) -> usize
    requires action { i < max_actions }
    requires memory { length memory.old ≡ grounded_bytes }
    ensures few { result ≤ max_literals }
    ensures grounded { (D : Domain) → Held D head.now table.now → i < length D.actions
        → Grounded D head.now (plain_event D i ∷ []) memory.new result }
{
    let row = plain_row(i as u8, variables_of(head, i));
    let n = ground_action(head, table, Time::AtStart, &row, memory, 0);
    memory[COUNTS] = n as u8;
    n
}

// "Trying the facts themselves": the call (here), the answers of a domain (actions) and of an action (answers); the event with its ground
// literals (plain), one step of the machine from its true conditions (alone), and the further facts that change what it leaves (free).
#![tactic(auto)]

pub mod actions;
pub mod alone;
pub mod answers;
pub mod free;
pub mod plain;

ghost use Rattle.std.specs.Prelude.{◌≡◌};
ghost use Rattle.trying.specs.Trying.{tried_file, tried_after};
ghost use Rattle.trying.specs.Claims.{AgreesWithNames};

use actions::try_actions;
use literals::limits::{MAX_ACTIONS, MAX_LITERALS};
use services::serve;

// The bytes of a domain: one for each class of an action at once.
const TRIED_SIZE: usize = MAX_ACTIONS * MAX_LITERALS;

// Those of a file.
fn try_file(file: &[u8], tried: &mut [u8], first: &mut u64) -> u64
    ensures number { result ≡ (tried_file file.now tried.old).number }
    ensures first { first.new ≡ (tried_file file.now tried.old).first }
    ensures tried { tried.new ≡ tried_after file.now tried.old }
{
    serve::<TRIED_SIZE, _>(file, try_actions, tried, first)
}

// Tries the facts themselves for every class of every action at once: 1 where one of the small sets of facts, in which the instance weighs
// at most one, leads to two or more by one step of the machine, else 0. It is 1 exactly for heavy, unbalanced and unbounded. (The
// number, and the place through a reference: as the call of C answers.)
pub fn try_facts(file: &[u8], tried: &mut [u8], first: &mut u64) -> u64
    ensures number { result ≡ (tried_file file.now tried.old).number }
    ensures first { first.new ≡ (tried_file file.now tried.old).first }
    ensures tried { tried.new ≡ tried_after file.now tried.old }
    ensures names { AgreesWithNames file.now result first.new tried.new }
{
    try_file(file, tried, first)
}

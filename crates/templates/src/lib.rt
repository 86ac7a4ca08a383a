// "Every one-relation template, listed": the call (here), the component of a template (shapes), its verdict (deciding), the entries
// (entries).
#![tactic(auto)]

pub mod deciding;
pub mod entries;
pub mod shapes;

ghost use Rattle.std.specs.Prelude.{◌≡◌, true, ◌+◌, ◌*◌, ◌≤◌, length, take};
ghost use Rattle.literals.specs.Domain.{Domain};
ghost use Rattle.literals.specs.Decode.{max_relations, max_arguments};
ghost use Rattle.literals.specs.Held.{Held, Read};
ghost use Rattle.verdict.specs.Claims.{well_formed};
ghost use Rattle.templates.specs.Templates.{list_bytes, list_file, list_after};
ghost use Rattle.templates.specs.Claims.{EntriesSafe, NothingMissing};

use entries::put_list;
use literals::head::{Head, clear_template};
use literals::limits::{MAX_ARGUMENTS, MAX_RELATIONS};
use services::serve;

// Of each relation a template without a counted place, and one for each of six places: 3 bytes each.
const LIST_SIZE: usize = 3 * ((1 + MAX_ARGUMENTS) * MAX_RELATIONS);

// The list of a domain that was read, whose own template is left aside: how many bytes it has.
fn list_domain(head: &Head, table: &[u8], made: &mut [u8]) -> usize
    requires read { Read head.now table.now }
    requires room { length made.old ≡ 3 * ((1 + max_arguments) * max_relations) }
    ensures few { result ≤ 3 * ((1 + max_arguments) * max_relations) }
    ensures bytes { (D : Domain) → Held D head.now table.now → well_formed D ≡ true → take result made.new ≡ list_bytes D }
{
    let mut bare = *head;
    clear_template(&mut bare);
    put_list(&bare, table, made)
}

// The list of a file.
fn list_file(file: &[u8], list: &mut [u8], first: &mut u64) -> u64
    ensures number { result ≡ (list_file file.now list.old).number }
    ensures first { first.new ≡ (list_file file.now list.old).first }
    ensures list { list.new ≡ list_after file.now list.old }
{
    serve::<LIST_SIZE, _>(file, list_domain, list, first)
}

// Lists every template of a single component that reading would take, with its verdict. Of what is listed: an entry with verdict 0 or 1 is
// safe in every run, and nothing that is legal is missing. (The number, and the place through a reference: as the call of C answers.)
pub fn list_templates(file: &[u8], list: &mut [u8], first: &mut u64) -> u64
    ensures number { result ≡ (list_file file.now list.old).number }
    ensures first { first.new ≡ (list_file file.now list.old).first }
    ensures list { list.new ≡ list_after file.now list.old }
    ensures safe { EntriesSafe file.now result first.new list.new }
    ensures whole { NothingMissing file.now result first.new list.new }
{
    list_file(file, list, first)
}

// The payload of a component, its keys numbered from left to right.
ghost use Rattle.std.specs.Prelude.{◌≡◌};
ghost use Rattle.templates.specs.Held.{label_at, payload_of};

use literals::limits::MAX_ARGUMENTS;

// The label at a place: FF at the counted place, if there is one, and behind it the keys are one lower.
fn label_at(counted: Option<u8>, i: u8) -> u8
    ensures { result ≡ label_at counted i }
{
    match counted {
        Some(place) if i == place => 255,
        Some(place) if place < i => i - 1,
        _ => i,
    }
}

// The relation, and the labels of as many places as a relation may have. (An array from a function of the index would ask of each whether
// it is the relation's.)
pub fn payload_of(relation: u8, counted: Option<u8>) -> [u8; 1 + MAX_ARGUMENTS]
    ensures { result ≡ payload_of relation counted }
{
    [
        relation,
        label_at(counted, 0),
        label_at(counted, 1),
        label_at(counted, 2),
        label_at(counted, 3),
        label_at(counted, 4),
        label_at(counted, 5),
    ]
}

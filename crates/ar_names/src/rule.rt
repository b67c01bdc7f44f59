ghost use Rattle.std.specs.Prelude.{◌≡◌, ◌<◌, length};
ghost use Rattle.ar_names.specs.Names.{StandBefore, is_wrong_at, is_open, first_fault_of};

/// The most bytes of a name.
const NAME_LEN: usize = 253;
/// The most bytes of a label.
const LABEL_LEN: usize = 63;

/// Whether the byte at the place is wrong; `label` bytes of its label stand before it.
#[tactic(auto, using(crate::proofs::Places::wrong_places))]
fn is_wrong(text: &[u8], place: usize, label: usize) -> bool
    requires inside { place < length text.now }
    requires before { StandBefore text.now place label }
    ensures { result ≡ is_wrong_at text.now place }
{
    if place >= NAME_LEN {
        return true;
    }
    match text[place] {
        b'.' => label == 0 || text[place - 1] == b'-',
        b'-' => label == 0 || label >= LABEL_LEN,
        b'a'..=b'z' | b'0'..=b'9' => label >= LABEL_LEN,
        _ => true,
    }
}

/// Whether a name cannot end where the text ends.
#[tactic(auto, unfolding(crate::specs::Names::is_open))]
fn is_open(text: &[u8]) -> bool
    ensures { result ≡ is_open text.now }
{
    match text.last() {
        None => true,
        Some(last) => *last == b'.' || *last == b'-',
    }
}

/// The place of the first fault of a text, or `None` exactly for a name.
///
/// Names are labels of `a` to `z`, `0` to `9` and `-` with dots between them. No label is empty, begins or
/// ends with `-`, or has more than 63 bytes, and a name has at most 253. The fault is the least place
/// whose byte breaks this, or the end of a text that stops where a label must go on.
#[tactic(auto, using(crate::proofs::Least::faults))]
pub fn first_fault(text: &[u8]) -> Option<usize>
    ensures { result ≡ first_fault_of text.now }
{
    let mut label = 0;
    for (place, byte) in text.iter().enumerate() {
        if is_wrong(text, place, label) {
            return Some(place);
        }
        label = if *byte == b'.' { 0 } else { label + 1 };
    }
    if is_open(text) {
        Some(text.len())
    } else {
        None
    }
}

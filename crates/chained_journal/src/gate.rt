//! Gates, and with what bytes begin.

ghost use Rattle.std.specs.Prelude.{◌≡◌, ◌≢◌, ◌==◌, ◌++◌, false, List, ℕ, length, drop, IsTrue, IfSome, IsNone};
ghost use Rattle.std.specs.List.{list_all};
ghost use Rattle.chained_journal.specs.Journal.{open_gate, opens};

/// How many bytes a gate has.
pub(crate) const GATE_LEN: usize = 8;

/// A gate before a record that counts.
pub(crate) const OPEN: [u8; GATE_LEN] = [255, 255, 255, 255, 255, 255, 255, 255];

/// The gate behind the last record that counts.
pub(crate) const SHUT: [u8; GATE_LEN] = [0, 0, 0, 0, 0, 0, 0, 0];

/// Do the bytes begin with these?
pub(crate) fn begins(bytes: &[u8], front: &[u8]) -> bool
    ensures yes { IsTrue result → bytes.now ≡ front.now ++ drop (length front.now) bytes.now }
    ensures no { result ≡ false → (rest : List ℕ) → bytes.now ≢ front.now ++ rest }
{
    bytes.starts_with(front)
}

/// Does an open gate stand here?
#[tactic(auto, using(crate::proofs::Gates::opens_told))]
pub(crate) fn is_open(bytes: &[u8]) -> bool
    ensures { result ≡ opens bytes.now }
{
    begins(bytes, &OPEN)
}

/// What stands behind the gate with which these bytes begin, where it is open.
pub(crate) fn behind_open<'a>(bytes: &'a [u8]) -> Option<&'a [u8]>
    ensures open { IfSome result (λ behind. bytes.now ≡ open_gate ++ behind.now) }
    ensures not_open { IsNone result → (behind : List ℕ) → bytes.now ≢ open_gate ++ behind }
{
    if !begins(bytes, &OPEN) {
        return None;
    }
    let (_gate, behind) = bytes.split_at(GATE_LEN);
    Some(behind)
}

/// Is each of these bytes 0?
pub(crate) fn are_zeros(bytes: &[u8]) -> bool
    ensures { result ≡ list_all (λ byte. byte == 0) bytes.now }
{
    bytes.iter().all(|byte| *byte == 0)
}

ghost use Rattle.std.specs.Prelude.{◌≡◌, ◌<◌, ◌≤◌, ◌+◌, ℕ, Some, None, nat_eq, position, if◌then◌else◌};
ghost use Rattle.std.specs.List.{position_or_len};
ghost use Rattle.std.specs.Option.{option_or};
ghost use Rattle.indexmap.specs.IndexMap.{get, spare};

use crate::Printed;
use indexmap::IndexMap;

/// The place of the first item that is what is sought, which stands nowhere before `from`.
pub(crate) fn walk<T: Printed>(items: &[T], sought: &T::Sought, from: usize) -> Option<usize>
    requires { from ≤ position_or_len (T.same sought.now) items.now }
    ensures { result ≡ position (T.same sought.now) items.now }
{
    for i in from..items.len() {
        if items[i].is_same(sought) {
            return Some(i);
        }
    }
    None
}

/// Notes the place of a print, unless one is noted. There is room for it.
pub(crate) fn note(places: &mut IndexMap<u128, usize>, print: u128, place: usize)
    requires { 0 < spare places.old }
    ensures index { (k : ℕ) → get nat_eq places.new k
        ≡ option_or (get nat_eq places.old k) (if nat_eq k print then Some place else None) }
    ensures room { spare places.old ≤ spare places.new + 1 }
{
    if places.get(&print).is_none() {
        match places.insert(print, place) {
            Ok(_) => {}
            Err(_) => unreachable!(),
        }
    }
}

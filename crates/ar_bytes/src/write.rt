ghost use Rattle.std.specs.Prelude.{◌≡◌, ◌+◌, ◌≤◌, ◌++◌, length, take, drop};
ghost use Rattle.std.specs.Int.{w8, w16, w32, w64};
ghost use Rattle.ar_bytes.specs.RoundTrip.{number_text};

/// Writes a number of one byte at a place in `out`, and gives the place behind it.
///
/// Here and below no memory is taken, the bytes before the field and behind it stay, and `out` has room
/// for the field.
#[tactic(auto, unfolding(crate::specs::RoundTrip::number_text))]
pub fn write_u8(out: &mut [u8], place: usize, v: u8) -> usize
    requires { place + 1 ≤ length out.old }
    ensures place { result ≡ place + 1 }
    ensures front { take result out.new ≡ take place out.old ++ number_text w8 v }
    ensures behind { drop result out.new ≡ drop result out.old }
{
    write_bytes(out, place, &[v])
}

/// Writes a big-endian number of two bytes at a place in `out`, and gives the place behind it.
#[tactic(auto, unfolding(crate::specs::RoundTrip::number_text))]
pub fn write_u16(out: &mut [u8], place: usize, v: u16) -> usize
    requires { place + 2 ≤ length out.old }
    ensures place { result ≡ place + 2 }
    ensures front { take result out.new ≡ take place out.old ++ number_text w16 v }
    ensures behind { drop result out.new ≡ drop result out.old }
{
    write_bytes(out, place, &v.to_be_bytes())
}

/// Writes a big-endian number of four bytes at a place in `out`, and gives the place behind it.
#[tactic(auto, unfolding(crate::specs::RoundTrip::number_text))]
pub fn write_u32(out: &mut [u8], place: usize, v: u32) -> usize
    requires { place + 4 ≤ length out.old }
    ensures place { result ≡ place + 4 }
    ensures front { take result out.new ≡ take place out.old ++ number_text w32 v }
    ensures behind { drop result out.new ≡ drop result out.old }
{
    write_bytes(out, place, &v.to_be_bytes())
}

/// Writes a big-endian number of eight bytes at a place in `out`, and gives the place behind it.
#[tactic(auto, unfolding(crate::specs::RoundTrip::number_text))]
pub fn write_u64(out: &mut [u8], place: usize, v: u64) -> usize
    requires { place + 8 ≤ length out.old }
    ensures place { result ≡ place + 8 }
    ensures front { take result out.new ≡ take place out.old ++ number_text w64 v }
    ensures behind { drop result out.new ≡ drop result out.old }
{
    write_bytes(out, place, &v.to_be_bytes())
}

/// Writes bytes as they stand at a place in `out`, without a count, and gives the place behind them.
pub fn write_bytes(out: &mut [u8], place: usize, v: &[u8]) -> usize
    requires { place + length v.now ≤ length out.old }
    ensures place { result ≡ place + length v.now }
    ensures front { take result out.new ≡ take place out.old ++ v.now }
    ensures behind { drop result out.new ≡ drop result out.old }
{
    let end = place + v.len();
    let (front, _behind) = out.split_at_mut(end);
    front[place..].copy_from_slice(v);
    end
}

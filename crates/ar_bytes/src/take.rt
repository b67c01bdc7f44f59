//! Readers that tell the place of the field that fails, as the offset of its first byte in the whole
//! input. After a fault the reader is of no further use.

ghost use Rattle.std.specs.Prelude.{◌≡◌, ◌^◌, ◌<◌, ◌≤◌, length, IfOk};
ghost use Rattle.std.specs.Int.{w8, w16, w32, w64};

use crate::fields::Fields;

impl<'a> Fields<'a> {
    ghost use Rattle.ar_bytes.specs.Reading.{all_of, bytes_at, number_at, counted_at, counted_part_at, Tells};
    ghost use Rattle.ar_bytes.specs.Tested.{byte_at, count_at, flag_at};
    ghost use Rattle.ar_bytes.specs.Ascending.{number_from};

    /// A number of one byte.
    pub fn take_u8(&mut self) -> Result<u8, usize>
        ensures { Tells (λ v. v) result self.new (number_at w8 self.old) }
    {
        let place = self.place();
        self.u8().ok_or(place)
    }

    /// A big-endian number of two bytes.
    pub fn take_u16(&mut self) -> Result<u16, usize>
        ensures { Tells (λ v. v) result self.new (number_at w16 self.old) }
    {
        let place = self.place();
        self.u16().ok_or(place)
    }

    /// A big-endian number of four bytes.
    pub fn take_u32(&mut self) -> Result<u32, usize>
        ensures { Tells (λ v. v) result self.new (number_at w32 self.old) }
    {
        let place = self.place();
        self.u32().ok_or(place)
    }

    /// A big-endian number of eight bytes.
    pub fn take_u64(&mut self) -> Result<u64, usize>
        ensures { Tells (λ v. v) result self.new (number_at w64 self.old) }
    {
        let place = self.place();
        self.u64().ok_or(place)
    }

    /// The next `n` bytes, borrowed.
    pub fn take_bytes(&mut self, n: usize) -> Result<&'a [u8], usize>
        ensures field { Tells (λ piece. piece.now) result self.new (bytes_at n self.old) }
        ensures len { IfOk result (λ piece. length piece.now ≡ n) }
    {
        let place = self.place();
        self.bytes(n).ok_or(place)
    }

    /// The next `N` bytes as an array.
    pub fn take_array<const N: usize>(&mut self) -> Result<[u8; N], usize>
        ensures { Tells (λ array. array) result self.new (bytes_at N self.old) }
    {
        let place = self.place();
        self.array().copied().ok_or(place)
    }

    /// One byte that has to have this value.
    #[tactic(auto, unfolding(crate::specs::Reading::such_that))]
    pub fn take_byte(&mut self, value: u8) -> Result<u8, usize>
        ensures { Tells (λ n. n) result self.new (byte_at value self.old) }
    {
        let place = self.place();
        let n = self.take_u8()?;
        if n != value {
            return Err(place);
        }
        Ok(n)
    }

    /// A number of one byte that is at most `most`.
    #[tactic(auto, unfolding(crate::specs::Reading::such_that))]
    pub fn take_count(&mut self, most: u8) -> Result<u8, usize>
        ensures field { Tells (λ n. n) result self.new (count_at most self.old) }
        ensures few { IfOk result (λ n. n ≤ most) }
    {
        let place = self.place();
        let n = self.take_u8()?;
        if n > most {
            return Err(place);
        }
        Ok(n)
    }

    /// A flag of one byte, 0 for no and 1 for yes.
    #[tactic(auto, unfolding(crate::specs::Tested::flag_at))]
    pub fn take_flag(&mut self) -> Result<bool, usize>
        ensures { Tells (λ flag. flag) result self.new (flag_at self.old) }
    {
        let n = self.take_count(1)?;
        Ok(n == 1)
    }

    /// A number of two bytes that is not below `least`, as in a list of numbers that ascend.
    #[tactic(auto, unfolding(crate::specs::Ascending::number_from, crate::specs::Reading::such_that))]
    pub fn take_number_from(&mut self, least: u32) -> Result<u16, usize>
        ensures { Tells (λ n. n) result self.new (number_from least self.old) }
    {
        let place = self.place();
        let n = self.take_u16()?;
        if (n as u32) < least {
            return Err(place);
        }
        Ok(n)
    }

    /// A count of two bytes, and so many bytes, borrowed.
    #[tactic(auto, unfolding(crate::specs::Reading::counted_at))]
    pub fn take_counted(&mut self) -> Result<&'a [u8], usize>
        ensures field { Tells (λ piece. piece.now) result self.new (counted_at self.old) }
        ensures len { IfOk result (λ piece. length piece.now < 2 ^ 16) }
    {
        let count = self.take_u16()?;
        self.take_bytes(count as usize)
    }

    /// A count of two bytes, and so many bytes as a reader of their own, which tells its places in the
    /// whole input.
    #[tactic(auto, unfolding(crate::specs::Reading::counted_part_at))]
    pub fn take_part(&mut self) -> Result<Fields<'a>, usize>
        ensures { Tells (λ part. part) result self.new (counted_part_at self.old) }
    {
        let count = self.take_u16()?;
        let place = self.place();
        self.part(count as usize).ok_or(place)
    }

    /// Nothing is left; bytes that are left fail at the first of them.
    pub fn take_end(&self) -> Result<(), usize>
        ensures { result ≡ all_of (tt, self.now) }
    {
        if self.at_end() {
            Ok(())
        } else {
            Err(self.place())
        }
    }
}

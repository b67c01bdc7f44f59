ghost use Rattle.std.specs.Prelude.{◌≡◌, ◌++◌, Some, length, take, drop, min};

use crate::unread::Unread;
use crate::{Failed, Source};
use std::marker::Model;

/// A source in memory that never fails: its count of faults is always 0. A contract sees it as the
/// bytes that are left.
#[derive(Debug, Drop)]
pub struct QuietSource {
    unread: Unread,
}

impl Model for QuietSource {
    ghost use Rattle.std.specs.Prelude.{ℕ, List};

    ghost Value = { List ℕ };

    ghost view = { λ s. s.unread };
}

impl QuietSource {
    /// A source of these bytes.
    pub fn new(bytes: Vec<u8>) -> QuietSource
        ensures { result ≡ bytes.items }
    {
        QuietSource {
            unread: Unread::new(bytes),
        }
    }
}

impl Source for QuietSource {
    ghost left = { λ s. Some s };

    ghost faults = { λ _. 0 };

    /// Gives as many of the next bytes as the buffer holds and are left.
    fn read(&mut self, buf: &mut [u8]) -> Result<usize, Failed>
        ensures count { result ≡ Ok (min (length buf.old) (length self.old)) }
        ensures filled { let n = min (length buf.old) (length self.old)
            in buf.new ≡ take n self.old ++ drop n buf.old }
        ensures rest { self.new ≡ drop (length buf.old) self.old }
    {
        let most = buf.len();
        Ok(self.unread.take_into(buf, most))
    }
}

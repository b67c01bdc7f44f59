ghost use Rattle.std.specs.Prelude.{◌≡◌, ◌++◌, length, take, drop, min};

use std::marker::Model;

// Bytes that are read from the front: a contract sees those that are left.
#[derive(Debug, Drop)]
pub struct Unread {
    bytes: Vec<u8>,
    at: usize,
}

impl Model for Unread {
    ghost use Rattle.std.specs.Prelude.{ℕ, ◌≤◌, List, drop, vec_len};

    ghost Value = { List ℕ };

    ghost view = { λ u. drop u.at u.bytes.items };

    ghost invariant = { λ u. u.at ≤ vec_len u.bytes };
}

impl Unread {
    // All of the bytes are left.
    pub fn new(bytes: Vec<u8>) -> Unread
        ensures { result ≡ bytes.items }
    {
        Unread { bytes, at: 0 }
    }

    // Moves the next bytes, `most` at most, into the front of `buf`, and answers how many they are.
    pub fn take_into(&mut self, buf: &mut [u8], most: usize) -> usize
        ensures count { result ≡ min (min most (length buf.old)) (length self.old) }
        ensures filled { buf.new ≡ take result self.old ++ drop result buf.old }
        ensures left { self.new ≡ drop result self.old }
    {
        let left = &self.bytes[self.at..];
        let count = most.min(buf.len()).min(left.len());
        buf[..count].copy_from_slice(&left[..count]);
        self.at += count;
        count
    }
}

ghost use Rattle.std.specs.Prelude.{◌≡◌, ◌++◌, IfOk, length, take, drop, min};

use crate::Memory;
use std::alloc::Global;
use std::marker::Model;

// Bytes of which the first were given already. It is seen as those that are left.
#[derive(Debug, Drop)]
pub struct Unread {
    bytes: Vec<u8>,
    at: usize,
}

impl Model for Unread {
    ghost use Rattle.std.specs.Prelude.{◌≤◌, ℕ, List, drop, vec_len};

    ghost Value = { List ℕ };

    ghost view = { λ u. drop u.at u.bytes.items };

    ghost invariant = { λ u. u.at ≤ vec_len u.bytes };
}

impl Unread {
    pub fn new(alloc: Global, bytes: &[u8]) -> Result<Unread, Memory>
        ensures { IfOk result (λ u. u ≡ bytes.now) }
    {
        Ok(Unread {
            bytes: bytes.to_vec(alloc)?,
            at: 0,
        })
    }

    // Gives the first bytes, as many as there is room for.
    pub fn give(&mut self, buf: &mut [u8]) -> usize
        ensures count { result ≡ min (length buf.old) (length self.old) }
        ensures filled { buf.new ≡ take result self.old ++ drop result buf.old }
        ensures left { self.new ≡ drop result self.old }
    {
        let (_, left) = self.bytes.split_at(self.at);
        let count = copy_front(left, buf);
        self.at += count;
        count
    }
}

// Copies the first bytes, as many as there is room for, and says how many.
fn copy_front(bytes: &[u8], buf: &mut [u8]) -> usize
    ensures count { result ≡ min (length buf.old) (length bytes.now) }
    ensures filled { buf.new ≡ take result bytes.now ++ drop result buf.old }
{
    let count = buf.len().min(bytes.len());
    let (front, _) = buf.split_at_mut(count);
    let (bytes, _) = bytes.split_at(count);
    front.copy_from_slice(bytes);
    count
}

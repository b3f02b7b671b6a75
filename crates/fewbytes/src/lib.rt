// At most N bytes, in a value that has room for them: nothing here allocates. Callers see the bytes that are there, in their order.
#![tactic(auto)]

ghost use Rattle.std.specs.Prelude.{◌≡◌, ◌<◌, ◌≤◌, ◌++◌, ◌∷◌, [], length, take, nat_eq};

use std::marker::Model;

// The first `len` of `room`; the places past them are 0, so that the bytes say all of the value and it can be copied. It is here alone that a length
// stands beside its room: the crates are written over std alone, which has no such value.
#[derive(Clone, Copy)]
pub struct FewBytes<const N: usize> {
    room: [u8; N],
    len: usize,
}

impl<const N: usize> Model for FewBytes<N> {
    ghost use Rattle.std.specs.Prelude.{ℕ, ◌≡◌, ◌-◌, ◌≤◌, ◌++◌, List, length, take, drop, replicate};
    ghost use Rattle.std.proofs.Common.{sym, ap, ◌∙◌, take-append-drop, length-take-le};

    ghost Value = { List ℕ };

    ghost view = { λ b. take b.len b.room };

    ghost invariant = { λ b. (b.len ≤ length b.room) × (drop b.len b.room ≡ replicate (N - b.len) 0) };

    ghost inverse = { λ s. record { room = s ++ replicate (N - length s) 0; len = length s } };

    ghost inverse_ok = { λ b h i. record {
      room = (ap (λ (k : ℕ). take b.len b.room ++ replicate (N - k) 0) (length-take-le b.len b.room h.0) ∙ ap (λ (past : List ℕ). take b.len b.room ++ past) (sym h.1) ∙ take-append-drop b.len b.room) i;
      len = length-take-le b.len b.room h.0 i;
    } };
}

impl<const N: usize> FewBytes<N> {
    // No byte.
    pub fn new() -> Self
        ensures { result ≡ [] }
    {
        FewBytes {
            room: [0; N],
            len: 0,
        }
    }

    pub fn as_slice(&self) -> &[u8]
        ensures bytes { result.now ≡ self.now }
        ensures within { length self.now ≤ N }
    {
        &self.room[..self.len]
    }

    pub fn is_full(&self) -> bool
        ensures full { result ≡ nat_eq (length self.now) N }
        ensures within { length self.now ≤ N }
    {
        self.len == N
    }

    // One more byte behind the others. A byte that finds no room is dropped.
    pub fn push(&mut self, byte: u8)
        ensures bytes { self.new ≡ take N (self.old ++ byte ∷ []) }
        ensures room { length self.old < N → self.new ≡ self.old ++ byte ∷ [] }
    {
        if self.len < N {
            self.room[self.len] = byte;
            self.len += 1;
        }
    }
}

//! The line that is being read.
ghost use Rattle.std.specs.Prelude.{◌≡◌, ◌↔◌, ◌≤◌, ◌++◌, List, ℕ, [], IfOk, IsTrue, Some};
ghost use Rattle.std.specs.Option.{option_copied};
ghost use Rattle.std.specs.Vec.{vec_capacity};
ghost use Rattle.ivl_lines.specs.Cut.{IsBegun};

use std::alloc::{AllocError, Global};
use std::marker::Model;

/// The most bytes of a line for which there always is memory.
pub const ROOM: usize = 65536;

/// What was read of a line that has not ended. It is lost once there is no memory for its bytes: no
/// more of them are kept. A contract sees the bytes, or `None` if the line is lost.
#[derive(Drop)]
pub struct BegunLine {
    bytes: Vec<u8>,
    is_lost: bool,
}

impl Model for BegunLine {
    ghost use Rattle.std.specs.Prelude.{◌≤◌, ℕ, List, Option, None, Some, if◌then◌else◌};
    ghost use Rattle.std.specs.Vec.{vec_capacity};

    ghost Value = { Option (List ℕ) };

    ghost view = { λ l. if l.is_lost then None else Some l.bytes.items };

    ghost invariant = { λ l. 65536 ≤ vec_capacity l.bytes };
}

impl BegunLine {
    /// Returns a line without bytes. Allocates the room that each line has.
    pub fn new(alloc: Global) -> Result<BegunLine, AllocError>
        // On success, no byte is kept, and none is lost.
        ensures { IfOk result (λ line. line ≡ Some []) }
    {
        Ok(BegunLine {
            bytes: Vec::with_capacity(alloc, ROOM)?,
            is_lost: false,
        })
    }

    /// Returns whether the line has no byte yet.
    pub fn is_empty(&self) -> bool
        // True exactly when no byte is kept, and none is lost.
        ensures { IsTrue result ↔ self.now ≡ Some [] }
    {
        !self.is_lost && self.bytes.is_empty()
    }

    /// Returns the bytes of the line, or `None` if it is lost.
    pub fn bytes(&self) -> Option<&[u8]>
        // The result is the bytes that are kept, or `None` if they are lost.
        ensures { option_copied result ≡ self.now }
    {
        if self.is_lost {
            return None;
        }
        Some(&self.bytes)
    }

    /// Adds bytes to the line, or loses it if there is no memory for them. What it held is then given
    /// back.
    pub fn extend(&mut self, bytes: &[u8])
        // What it kept of a line becomes what it keeps of the line with these bytes at its end: all of it, or nothing
        // if it is lost.
        ensures { (line : List ℕ) → IsBegun line self.old → IsBegun (line ++ bytes.now) self.new }
    {
        if self.is_lost {
            return;
        }
        if self.bytes.extend_from_slice(bytes).is_err() {
            self.is_lost = true;
            empty(&mut self.bytes);
        }
    }

    /// Begins a line without bytes. Gives back the memory that only a long line needs.
    pub fn clear(&mut self)
        // No byte is kept, and none is lost.
        ensures { self.new ≡ Some [] }
    {
        self.is_lost = false;
        empty(&mut self.bytes);
    }
}

// Drops the bytes, and gives back what is more than the room that each line has.
fn empty(bytes: &mut Vec<u8>)
    requires { 65536 ≤ vec_capacity bytes.old }
    ensures items { bytes.new.items ≡ [] }
    ensures room { 65536 ≤ vec_capacity bytes.new }
{
    bytes.clear();
    bytes.shrink_to(ROOM);
}

//! What a kernel may do with each group of frames.

ghost use Rattle.std.specs.Prelude.{◌≡◌, ◌<◌, Bool, false, replicate, slice_index_or, slice_set};
ghost use Rattle.phys_groups.specs.Translation.{covers, right_on};

use super::rows::Flags;
use cache_ident::Frame;
use std::marker::Model;

/// How many frames a page group has.
pub const GROUP_FRAMES: u32 = 128;

/// A read bit and a write bit for each of the 16 groups of 128 frames.
///
/// A contract sees the pairs of bits as a list, by group. Every call takes constant time.
#[derive(Clone, Copy, PartialEq, Eq, Debug)]
pub struct Rights {
    groups: [(bool, bool); 16],
}

impl Model for Rights {
    ghost use Rattle.std.specs.Prelude.{List, Bool};

    ghost Value = { List (Bool × Bool) };

    ghost view = { λ rights. rights.groups };

    ghost inverse = { λ groups. record { groups = groups } };
}

impl Rights {
    /// All bits clear.
    pub fn none() -> Rights
        ensures { result ≡ replicate 16 (false, false) }
    {
        Rights {
            groups: [(false, false); 16],
        }
    }

    /// The read bit and the write bit of a group.
    pub fn get(&self, group: u32) -> (bool, bool)
        requires { group < 16 }
        ensures { result ≡ right_on self.now group }
    {
        self.groups[group as usize]
    }

    /// Sets both bits of a group. All other bits stay.
    pub fn set(&mut self, group: u32, read: bool, write: bool)
        requires { group < 16 }
        ensures { self.new ≡ slice_set self.old group (read, write) }
    {
        self.groups[group as usize] = (read, write);
    }

    /// Whether a row with these flags may map this frame: `r` and `x` ask for the read bit of the
    /// frame's group, and `w` asks for its write bit.
    pub fn covers(&self, frame: Frame, flags: Flags) -> bool
        requires { frame.0 < 2048 }
        ensures { result ≡ covers self.now frame flags }
    {
        let (read, write) = self.get(frame.0 / GROUP_FRAMES);
        let reads = flags.r || flags.x;
        (!reads || read) && (!flags.w || write)
    }
}

//! Where the pages are that aren't kept.

ghost use Rattle.std.specs.Prelude.{◌≡◌, ◌<◌, ◌≤◌, ℕ, List, Option, IfSome, OnOk, OnErr, length};
ghost use Rattle.phys_groups.specs.Memory.{page_at};
ghost use Rattle.byte_ports.specs.Faults.{last_count, HasRisen};
ghost use Rattle.page_store.specs.Kept.{with_page_in};

use byte_ports::Failed;
use cache_ident::Frame;

/// Holds a page of 4,096 bytes for each of its frames. A call may fail.
pub trait Store {
    // How many frames it has.
    ghost frames: { Self → ℕ };

    // The bytes of its frames, one frame after another, where it tells them.
    ghost bytes_held: { Self → Option (List ℕ) };

    // How many calls have failed so far.
    ghost faults: { Self → ℕ };

    /// Copies the page of a frame into 4,096 bytes. After a failure these are left open, and so are the pages.
    fn read(&mut self, frame: Frame, into: &mut [u8]) -> Result<(), Failed>
        requires there { frame.0 < frames self.old }
        requires whole_page { length into.old ≡ 4096 }
        ensures frames { frames self.new ≡ frames self.old }
        ensures bytes { OnOk result (bytes_held self.new ≡ bytes_held self.old) }
        ensures page { OnOk result (IfSome (bytes_held self.old) (λ bytes. into.new ≡ page_at bytes frame)) }
        ensures faultless { OnOk result (faults self.new ≡ faults self.old) }
        ensures fault { OnErr result (HasRisen (faults self.old) (faults self.new)) }
        ensures counted { faults self.new ≤ last_count };

    /// Copies 4,096 bytes over the page of a frame. A failure leaves the pages.
    fn write(&mut self, frame: Frame, from: &[u8]) -> Result<(), Failed>
        requires there { frame.0 < frames self.old }
        requires whole_page { length from.now ≡ 4096 }
        ensures frames { frames self.new ≡ frames self.old }
        ensures bytes { OnOk result (bytes_held self.new ≡ with_page_in (bytes_held self.old) frame from.now) }
        ensures faultless { OnOk result (faults self.new ≡ faults self.old) }
        ensures unchanged { OnErr result (bytes_held self.new ≡ bytes_held self.old) }
        ensures fault { OnErr result (HasRisen (faults self.old) (faults self.new)) }
        ensures counted { faults self.new ≤ last_count };
}

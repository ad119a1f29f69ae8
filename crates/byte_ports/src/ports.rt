// What a source and a sink are.
ghost use Rattle.std.specs.Prelude.{◌≡◌, ◌<◌, ◌≤◌, ℕ, List, Option, IfOk, OnOk, OnErr, length, take};
ghost use Rattle.std.specs.Io.KnownBytes.{Appends, Consumes, IsAtEnd, Keeps};
ghost use Rattle.byte_ports.specs.Faults.{last_count, HasRisen};

/// A read or a write failed.
#[derive(Clone, Copy, Debug, PartialEq, Eq)]
pub struct Failed;

/// Where bytes come from.
pub trait Source {
    // The bytes that reads have yet to give, where the source tells them.
    ghost bytes_left: { Self → Option (List ℕ) };

    // How many reads have failed so far.
    ghost faults: { Self → ℕ };

    /// Takes the next bytes and puts them into the front of `into`; what stands behind them is left
    /// open. It answers how many they are, maybe fewer than `into` has room for and fewer than are
    /// left: 0 for a piece that isn't empty is the end.
    fn read(&mut self, into: &mut [u8]) -> Result<usize, Failed>
        ensures bound { IfOk result (λ n. n ≤ length into.new) }
        ensures taken { IfOk result (λ n.
            Consumes (bytes_left self.old) (bytes_left self.new) (take n into.new)) }
        ensures end { IfOk result (λ n. n ≡ 0 → 0 < length into.new → IsAtEnd (bytes_left self.new)) }
        ensures faultless { OnOk result (faults self.new ≡ faults self.old) }

        // A read that fails takes nothing.
        ensures unchanged { OnErr result (Keeps (bytes_left self.old) (bytes_left self.new)) }
        ensures fault { OnErr result (HasRisen (faults self.old) (faults self.new)) }
        ensures counted { faults self.new ≤ last_count };
}

/// Where bytes go.
pub trait Sink {
    // The bytes that the sink holds, where it tells them.
    ghost bytes_held: { Self → Option (List ℕ) };

    // How many writes have failed so far.
    ghost faults: { Self → ℕ };

    /// Appends the front of `piece`, and answers how many bytes that is: at least one, unless
    /// `piece` is empty, and maybe fewer than `piece` has.
    fn write(&mut self, piece: &[u8]) -> Result<usize, Failed>
        ensures bound { IfOk result (λ n. n ≤ length piece.now) }
        ensures progress { IfOk result (λ n. 0 < length piece.now → 0 < n) }
        ensures appended { IfOk result (λ n.
            Appends (bytes_held self.old) (bytes_held self.new) (take n piece.now)) }
        ensures faultless { OnOk result (faults self.new ≡ faults self.old) }

        // A write that fails appends nothing.
        ensures unchanged { OnErr result (Keeps (bytes_held self.old) (bytes_held self.new)) }
        ensures fault { OnErr result (HasRisen (faults self.old) (faults self.new)) }
        ensures counted { faults self.new ≤ last_count };
}

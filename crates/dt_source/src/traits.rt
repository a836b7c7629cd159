ghost use Rattle.std.specs.Borrow.{GName};
ghost use Rattle.std.specs.Prelude.{◌≡◌, ◌<◌, ◌≤◌, ℕ, List, [], Option, IfOk, IfSome, OnErr, OnOk, length, take};
ghost use Rattle.dt_source.specs.Faults.{Rose};
ghost use Rattle.dt_source.specs.Known.{TakesFrom, Appends};

/// A read or a write failed. The count of faults of its source or sink rose.
#[derive(Clone, Copy, Debug, PartialEq, Eq)]
pub struct Failed;

/// Where bytes come from.
pub trait Source {
    // The bytes that are left, where the source tells them. Files do not.
    ghost left: { Self → Option (List ℕ) };

    // How many faults the source has counted.
    ghost faults: { Self → ℕ };

    // The references that the source reads through, where it is a lent one.
    ghost lent: { Self → List GName } = { λ _. [] };

    /// Reads the next bytes into the front of the buffer and says how many: 0 only at the end.
    fn read(&mut self, buf: &mut [u8]) -> Result<usize, Failed>
        requires { 0 < length buf.old }
        ensures within { IfOk result (λ n. n ≤ length buf.old) }
        ensures takes { IfOk result (λ n.
            TakesFrom (left self.old) (take n buf.new) (left self.new)) }
        ensures end { result ≡ Ok 0 → IfSome (left self.new) (λ rest. rest ≡ []) }
        ensures failed_only { OnErr result (Rose (faults self.old) (faults self.new)) }
        ensures quiet { OnOk result (faults self.new ≡ faults self.old) }
        ensures failed_takes_nothing { OnErr result (left self.new ≡ left self.old) }
        ensures never_falls { faults self.old ≤ faults self.new }
        ensures same_lent { lent self.new ≡ lent self.old };
}

/// Where bytes go.
pub trait Sink {
    // The bytes that were written, where the sink tells them. Terminals do not.
    ghost written: { Self → Option (List ℕ) };

    // How many faults the sink has counted.
    ghost faults: { Self → ℕ };

    /// Writes bytes from the front of the piece and says how many: at least one, unless the piece
    /// is empty.
    fn write(&mut self, piece: &[u8]) -> Result<usize, Failed>
        ensures within { IfOk result (λ n. n ≤ length piece.now) }
        ensures some { 0 < length piece.now → IfOk result (λ n. 0 < n) }
        ensures appends { IfOk result (λ n.
            Appends (written self.old) (take n piece.now) (written self.new)) }
        ensures failed_only { OnErr result (Rose (faults self.old) (faults self.new)) }
        ensures quiet { OnOk result (faults self.new ≡ faults self.old) }
        ensures failed_appends_nothing { OnErr result (written self.new ≡ written self.old) }
        ensures never_falls { faults self.old ≤ faults self.new };
}

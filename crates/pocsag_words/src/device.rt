ghost use Rattle.std.specs.Prelude.{◌≡◌, ℕ, ◌<◌, ◌≤◌, Bool, false, true, List, [], ◌++◌, length, take, IfNone, IfOk, IfSome, OnOk, OnErr};
ghost use Rattle.pocsag_words.specs.Devices.{CallsPerByte, CountsFailures, Delivers, one_more};

use thiserror::Error;

/// A device failed in a call; the call moved no byte.
#[derive(Clone, Copy, PartialEq, Eq, Debug, Error)]
#[error("a device failed")]
pub struct DeviceFault;

/// A reader. `read` fills the front of the buffer and returns how many bytes it put there, which is 0 for a non-empty
/// buffer only at the end.
pub trait Source {
    // Whether contracts know the bytes.
    ghost is_known: { Type 0 };

    // The bytes that are still held, up to the end.
    ghost held: { Self → List ℕ };

    // Whether a call fails before their end is returned: what was to be read is cut.
    ghost is_cut: { Self → Bool };

    // How many calls there were, and how many of them failed; each stays at its greatest value.
    ghost calls: { Self → ℕ };

    ghost failures: { Self → ℕ };

    fn read(&mut self, buffer: &mut [u8]) -> Result<usize, DeviceFault>
        ensures within { IfOk result (λ n. n ≤ length buffer.old) }
        ensures moved { is_known → IfOk result (λ n. held self.old ≡ take n buffer.new ++ held self.new) }
        ensures end { is_known → IfOk result (λ n. n ≡ 0 → 0 < length buffer.old → held self.old ≡ []) }
        ensures whole { is_known → IfOk result (λ n. n ≡ 0 → 0 < length buffer.old → is_cut self.old ≡ false) }
        ensures kept { is_known → OnErr result (held self.new ≡ held self.old) }
        ensures cut { is_known → OnErr result (is_cut self.old ≡ true) }
        ensures still { is_known → is_cut self.new ≡ is_cut self.old }
        ensures called { calls self.new ≡ one_more (calls self.old) }
        ensures succeeded { OnOk result (failures self.new ≡ failures self.old) }
        ensures failed { OnErr result (failures self.new ≡ one_more (failures self.old)) };

    /// The bytes that are held, where all of them are in memory and no call fails before their end. No call of the device is made.
    fn lent(&self) -> Option<&[u8]>
        ensures lent { is_known → IfSome result (λ bytes. bytes.now ≡ held self.now) }
        ensures whole { is_known → IfSome result (λ _. is_cut self.now ≡ false) }
    {
        None
    }

    /// Takes away the bytes that are held, where the device owns all of them and no call fails before their end. No call of the
    /// device is made.
    fn take_all(&mut self) -> Option<Vec<u8>>
        ensures taken { is_known → IfSome result (λ bytes. bytes.items ≡ held self.old) }
        ensures whole { is_known → IfSome result (λ _. is_cut self.old ≡ false) }
        ensures kept { is_known → IfNone result (held self.new ≡ held self.old) }
        ensures still { is_known → IfNone result (is_cut self.new ≡ is_cut self.old) }
        ensures calls { calls self.new ≡ calls self.old }
        ensures failures { failures self.new ≡ failures self.old }
    {
        None
    }
}

/// A writer. `write` takes some bytes of the front of the piece, at least 1 of a non-empty piece, and returns how
/// many.
pub trait Sink {
    // Whether contracts know the bytes.
    ghost is_known: { Type 0 };

    // The bytes that were taken.
    ghost taken: { Self → List ℕ };

    // How many calls there were, and how many of them failed; each stays at its greatest value.
    ghost calls: { Self → ℕ };

    ghost failures: { Self → ℕ };

    fn write(&mut self, piece: &[u8]) -> Result<usize, DeviceFault>
        ensures within { IfOk result (λ n. n ≤ length piece.now) }
        ensures some { IfOk result (λ n. 0 < length piece.now → 0 < n) }
        ensures moved { is_known → IfOk result (λ n. taken self.new ≡ taken self.old ++ take n piece.now) }
        ensures kept { is_known → OnErr result (taken self.new ≡ taken self.old) }
        ensures called { calls self.new ≡ one_more (calls self.old) }
        ensures succeeded { OnOk result (failures self.new ≡ failures self.old) }
        ensures failed { OnErr result (failures self.new ≡ one_more (failures self.old)) };
}

/// Writes the bytes whole, by as many single writes as it takes. After a fault a prefix of them was
/// taken.
pub fn write_all<S: Sink>(sink: &mut S, bytes: &[u8]) -> Result<(), DeviceFault>
    ensures delivers { S.is_known → Delivers result (S.taken sink.old) (S.taken sink.new) bytes.now }

    // No call of the writer is without a byte to write.
    ensures calls { CallsPerByte (S.calls sink.old) (S.calls sink.new) bytes.now }
    ensures failures { CountsFailures result (S.failures sink.old) (S.failures sink.new) }
{
    let mut rest = bytes;
    while !rest.is_empty() {
        let count = sink.write(rest)?;
        rest = &rest[count..];
    }
    Ok(())
}

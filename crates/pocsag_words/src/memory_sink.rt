ghost use Rattle.std.specs.Prelude.{◌≤◌, length};

use crate::device::{DeviceFault, Sink};

/// A sink that keeps the bytes in an array of `N`, for tests. It moves at most `step` bytes in a
/// call and `fails_at` bytes in all, after which every call fails, as it does once the array is full.
#[derive(Drop)]
pub struct MemorySink<const N: usize> {
    bytes: [u8; N],
    len: usize,
    step: usize,
    left: u64,
    calls: u64,
    failures: u64,
    ghost moves: { 1 ≤ step },
    ghost within: { len ≤ N },
}

impl<const N: usize> MemorySink<N> {
    ghost use Rattle.std.specs.Prelude.{◌≡◌, ◌≤◌, []};
    ghost use Rattle.pocsag_words.specs.MemorySink.{taken_of, sink_calls, sink_failures, sink_step, sink_left};

    /// An empty sink.
    pub fn new(step: usize, fails_at: u64) -> MemorySink<N>
        requires { 1 ≤ step }
        ensures taken { taken_of result ≡ [] }
        ensures calls { sink_calls result ≡ 0 }
        ensures failures { sink_failures result ≡ 0 }
        ensures step { sink_step result ≡ step }
        ensures left { sink_left result ≡ fails_at }
    {
        MemorySink {
            bytes: [0; N],
            len: 0,
            step,
            left: fails_at,
            calls: 0,
            failures: 0,
        }
    }

    /// The bytes that were taken.
    pub fn bytes(&self) -> &[u8]
        ensures { result.now ≡ taken_of self.now }
    {
        &self.bytes[..self.len]
    }
}

impl<const N: usize> Sink for MemorySink<N> {
    ghost use Rattle.std.specs.Prelude.{◌≡◌, ◌<◌, ◌≤◌, ◌+◌, ◌++◌, ◌↔◌, ◌⊎◌, length, take, IfOk, IsErr, OnOk, OnErr};
    ghost use Rattle.pocsag_words.specs.Devices.{one_more};
    ghost use Rattle.pocsag_words.specs.MemorySink.{taken_of, sink_calls, sink_failures, sink_step, sink_left};

    ghost is_known = { Unit {0} };

    ghost taken = { taken_of };

    ghost calls = { sink_calls };

    ghost failures = { sink_failures };

    fn write(&mut self, piece: &[u8]) -> Result<usize, DeviceFault>
        ensures within { IfOk result (λ n. n ≤ length piece.now) }
        ensures some { IfOk result (λ n. 0 < length piece.now → 0 < n) }
        ensures moved { IfOk result (λ n. taken_of self.new ≡ taken_of self.old ++ take n piece.now) }
        ensures kept { OnErr result (taken_of self.new ≡ taken_of self.old) }
        ensures called { sink_calls self.new ≡ one_more (sink_calls self.old) }
        ensures succeeded { OnOk result (sink_failures self.new ≡ sink_failures self.old) }
        ensures failed { OnErr result (sink_failures self.new ≡ one_more (sink_failures self.old)) }

        // It moves at most its step, and fails exactly when nothing is left to move or it is full.
        ensures few { IfOk result (λ n. n ≤ sink_step self.old) }
        ensures step { sink_step self.new ≡ sink_step self.old }
        ensures left { IfOk result (λ n. sink_left self.new + n ≡ sink_left self.old) }
        ensures stops { IsErr result ↔ ((sink_left self.old ≡ 0) ⊎ (length (taken_of self.old) ≡ N)) }
        ensures stopped { OnErr result (sink_left self.new ≡ sink_left self.old) }
    {
        self.calls = self.calls.saturating_add(1);
        if self.left == 0 || self.len == N {
            self.failures = self.failures.saturating_add(1);
            return Err(DeviceFault);
        }
        let most = piece.len().min(N - self.len).min(self.step);
        let count = self.left.min(most as u64) as usize;
        let bytes = &mut self.bytes[..];
        bytes[self.len..self.len + count].copy_from_slice(&piece[..count]);
        self.len += count;
        self.left -= count as u64;
        Ok(count)
    }
}

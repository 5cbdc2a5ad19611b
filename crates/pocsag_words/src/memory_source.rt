ghost use Rattle.std.specs.Prelude.{◌≤◌};

use crate::device::{DeviceFault, Source};

/// A source that holds the bytes of a slice, for tests. It moves at most `step` bytes in a call and
/// `fails_at` bytes in all, after which every call fails.
#[derive(Drop)]
pub struct MemorySource<'a> {
    rest: &'a [u8],
    step: usize,
    left: u64,
    calls: u64,
    failures: u64,
    ghost moves: { 1 ≤ step },
}

impl<'a> MemorySource<'a> {
    ghost use Rattle.std.specs.Prelude.{◌≡◌, ◌≤◌};
    ghost use Rattle.pocsag_words.specs.MemorySource.{held_of, source_calls, source_failures, source_step, source_left};

    /// The source of these bytes.
    pub fn new(bytes: &'a [u8], step: usize, fails_at: u64) -> MemorySource<'a>
        requires { 1 ≤ step }
        ensures held { held_of result ≡ bytes.now }
        ensures calls { source_calls result ≡ 0 }
        ensures failures { source_failures result ≡ 0 }
        ensures step { source_step result ≡ step }
        ensures left { source_left result ≡ fails_at }
    {
        MemorySource {
            rest: bytes,
            step,
            left: fails_at,
            calls: 0,
            failures: 0,
        }
    }
}

impl<'a> Source for MemorySource<'a> {
    ghost use Rattle.std.specs.Prelude.{◌≡◌, ◌<◌, ◌≤◌, ◌+◌, false, true, [], ◌++◌, ◌↔◌, length, take, IfOk, IsErr, OnOk, OnErr};
    ghost use Rattle.pocsag_words.specs.Devices.{one_more};
    ghost use Rattle.pocsag_words.specs.MemorySource.{held_of, source_calls, source_failures, source_is_cut, source_step, source_left};

    ghost is_known = { Unit {0} };

    ghost held = { held_of };

    ghost is_cut = { source_is_cut };

    ghost calls = { source_calls };

    ghost failures = { source_failures };

    fn read(&mut self, buffer: &mut [u8]) -> Result<usize, DeviceFault>
        ensures within { IfOk result (λ n. n ≤ length buffer.old) }
        ensures moved { IfOk result (λ n. held_of self.old ≡ take n buffer.new ++ held_of self.new) }
        ensures end { IfOk result (λ n. n ≡ 0 → 0 < length buffer.old → held_of self.old ≡ []) }
        ensures whole { IfOk result (λ n. n ≡ 0 → 0 < length buffer.old → source_is_cut self.old ≡ false) }
        ensures kept { OnErr result (held_of self.new ≡ held_of self.old) }
        ensures cut { OnErr result (source_is_cut self.old ≡ true) }
        ensures still { source_is_cut self.new ≡ source_is_cut self.old }
        ensures called { source_calls self.new ≡ one_more (source_calls self.old) }
        ensures succeeded { OnOk result (source_failures self.new ≡ source_failures self.old) }
        ensures failed { OnErr result (source_failures self.new ≡ one_more (source_failures self.old)) }

        // It moves at most its step, and fails exactly when nothing is left to move.
        ensures few { IfOk result (λ n. n ≤ source_step self.old) }
        ensures step { source_step self.new ≡ source_step self.old }
        ensures left { IfOk result (λ n. source_left self.new + n ≡ source_left self.old) }
        ensures stops { IsErr result ↔ (source_left self.old ≡ 0) }
        ensures stopped { OnErr result (source_left self.new ≡ source_left self.old) }
    {
        self.calls = self.calls.saturating_add(1);
        if self.left == 0 {
            self.failures = self.failures.saturating_add(1);
            return Err(DeviceFault);
        }
        let most = self.rest.len().min(buffer.len()).min(self.step);
        let count = self.left.min(most as u64) as usize;
        buffer[..count].copy_from_slice(&self.rest[..count]);
        self.rest = &self.rest[count..];
        self.left -= count as u64;
        Ok(count)
    }
}

ghost use Rattle.std.specs.Prelude.{◌≡◌, false, ◌+◌, ◌-◌, ◌^◌, ◌<◌, ◌≤◌, ◌⊎◌, length, IfErr, IfOk, OnOk};
ghost use Rattle.pocsag_words.specs.Devices.{HasFailed, IsOfCut};

use crate::fault::WholeFault;
use pocsag_words::Source;
use std::alloc::Global;

// How many bytes are asked for in one read.
const PIECE: usize = 8192;

/// All the bytes of a reader up to its end, of which at most `max` are allowed; by at most `max + 2`
/// reads. Where memory is refused it reads on, so that more bytes than are allowed are reported as such.
pub fn read_whole<S: Source>(
    alloc: Global,
    source: &mut S,
    max: usize,
) -> Result<Vec<u8>, WholeFault>
    ensures whole { S.is_known → IfOk result (λ v. v.items ≡ S.held source.old) }
    ensures fits { IfOk result (λ v. length v.items ≤ max) }
    ensures too_large { S.is_known → result ≡ Err WholeFault.TooLarge → max < length (S.held source.old) }
    ensures memory { S.is_known → result ≡ Err WholeFault.OutOfMemory → length (S.held source.old) ≤ max }
    ensures uncut { S.is_known → OnOk result (S.is_cut source.old ≡ false) }
    ensures cut { S.is_known → IfErr result (IsOfCut WholeFault.ReadFault WholeFault.TooLarge (S.is_cut source.old)) }
    ensures succeeded { OnOk result (S.failures source.new ≡ S.failures source.old) }
    ensures unfailed { IfErr result
        (λ e. (e ≡ WholeFault.ReadFault) ⊎ (S.failures source.new ≡ S.failures source.old)) }
    ensures failed { result ≡ Err WholeFault.ReadFault → HasFailed (S.failures source.old) (S.failures source.new) }
    ensures called { S.calls source.old < 2 ^ 64 - 1 → S.calls source.old < S.calls source.new }
    ensures calls { S.calls source.new ≤ S.calls source.old + (max + 2) }
{
    let mut bytes = Vec::new(alloc);
    let mut len = 0;
    let mut is_refused = false;
    let mut piece = [0u8; PIECE];
    loop {
        let Ok(count) = source.read(&mut piece) else {
            return Err(WholeFault::ReadFault);
        };
        if count == 0 && is_refused {
            return Err(WholeFault::OutOfMemory);
        }
        if count == 0 {
            return Ok(bytes);
        }
        if count > max - len {
            return Err(WholeFault::TooLarge);
        }
        len += count;
        is_refused = is_refused || bytes.extend_from_slice(&piece[..count]).is_err();
    }
}

ghost use Rattle.std.specs.Prelude.{◌≡◌, ◌⊎◌, All, IfOk, MatchResult};
ghost use Rattle.pocsag_decode.specs.Faults.{HasFault, ReadsAs, WantsMemory};
ghost use Rattle.pocsag_pages.specs.Listable.{IsListable};

use crate::fault::DecodeFault;
use crate::state::Decoder;
use pocsag_pages::Page;
use std::alloc::Global;

/// The pages of a transmission in order of transmission, with every address and function, or its
/// first fault from left to right.
pub fn decode(alloc: Global, bytes: &[u8]) -> Result<Vec<Page>, DecodeFault>
    ensures decoded { MatchResult result (λ v. ReadsAs bytes.now v.items)
        (λ e. (e ≡ DecodeFault.OutOfMemory) ⊎ HasFault bytes.now e) }
    ensures listable { IfOk result (λ v. All IsListable v.items) }

    // Memory is wanted only to keep a page or an item, once a page has begun.
    ensures memory { result ≡ Err DecodeFault.OutOfMemory → WantsMemory bytes.now }
{
    let mut decoder = Decoder::new(alloc);
    decoder.feed(bytes)?;
    decoder.finish()
}

ghost use Rattle.std.specs.Prelude.{◌≡◌, ◌∷◌, [], ◌++◌, ◌<◌, ℕ, Option, None, Some, IfOk, IsSome, OnErr};
ghost use Rattle.std.specs.Bool.{OnFalse};
ghost use Rattle.pocsag_pager.specs.Shown.{is_ours};
ghost use Rattle.pocsag_pager.specs.Turns.{IsHeardAs, ending, next_open};

use pocsag_pages::{Page, Payload};
use pocsag_words::{Kind, kind, repair};
use std::alloc::{AllocError, Global};

// The lowest of the 18 high bits of an address in an address codeword.
const HIGH_UNIT: u32 = 8192;

// What the word says once it is mended; `None` where no codeword is within two bits.
pub(crate) fn heard_as(word: u32) -> Option<Kind>
    ensures { IsHeardAs word result }
{
    match repair(word) {
        Some(mended) => Some(kind(mended)),
        None => None,
    }
}

// Whether an address codeword in a slot, with these high bits, is that of the address.
#[tactic(auto, unfolding(crate::specs::Shown::is_ours))]
fn is_called(address: u32, slot: u32, high: u32) -> bool
    requires { slot < 16 }
    ensures { result ≡ is_ours address slot high }
{
    slot / 2 == address % 8 && high == address / 8
}

// Whether a word in a slot opens a page of the address.
pub(crate) fn opens(address: u32, slot: u32, heard: Option<Kind>) -> bool
    requires { slot < 16 }
    ensures { OnFalse result (next_open address slot None heard ≡ None) }
{
    match heard {
        Some(Kind::Address { high, function: _ }) => is_called(address, slot, high),
        _ => false,
    }
}

// Whether a word, once it is mended, has the high bits of the address as an address codeword has them.
pub(crate) fn calls(address: u32, word: u32) -> bool
    ensures { OnFalse result ((heard : Option Kind) × IsHeardAs word heard
        × ((slot : ℕ) → next_open address slot None heard ≡ None)) }
{
    match repair(word) {
        Some(mended) => mended.raw() / HIGH_UNIT == address / 8,
        None => false,
    }
}

// The page that is open after a word, and the page that ends at it.
pub(crate) struct Change {
    pub(crate) kept: Option<Page>,
    pub(crate) ended: Option<Page>,
}

// What a word in a slot changes for a pager with this open page.
pub(crate) fn change_at(
    alloc: Global,
    address: u32,
    slot: u32,
    kept: Option<Page>,
    heard: Option<Kind>,
) -> Result<Change, AllocError>
    requires { slot < 16 }
    ensures kept { IfOk result (λ c. c.kept ≡ next_open address slot kept heard) }
    ensures ended { IfOk result (λ c. c.ended ≡ ending kept heard) }

    // Memory is wanted only by a message codeword while a page is open.
    ensures message { OnErr result ((bits : ℕ) × (heard ≡ Some (Kind.Message bits))) }
    ensures open_page { OnErr result (IsSome kept) }
{
    let ended = kept;
    match heard {
        Some(Kind::Message(bits)) => match ended {
            Some(page) => {
                let mut items = page.payload.into_vec();
                items.push(bits)?;
                let payload = Payload::from_vec(items);
                Ok(Change {
                    kept: Some(Page { payload, ..page }),
                    ended: None,
                })
            }
            None => Ok(Change {
                kept: None,
                ended: None,
            }),
        },
        Some(Kind::Address { high, function }) => {
            if is_called(address, slot, high) {
                let page = Page {
                    address,
                    function,
                    payload: Payload::empty(alloc),
                };
                Ok(Change {
                    kept: Some(page),
                    ended,
                })
            } else {
                Ok(Change { kept: None, ended })
            }
        }
        Some(Kind::Idle) | None => Ok(Change { kept: None, ended }),
    }
}

ghost use Rattle.std.specs.Prelude.{◌≡◌, ◌==◌, ◌&&◌, ◌||◌, ◌^◌, length, nat_le, not};
ghost use Rattle.std.specs.List.{list_any};
ghost use Rattle.pocsag_text.specs.Bits.{item_width};
ghost use Rattle.pocsag_pages.specs.Pages.{is_bad_payload, is_reserved, page_fault_of};

use crate::fault::PageFault;
use crate::page::{LAST_ADDRESS, Page};

/// The greatest number of items of a message, which 4,000 characters of seven bits fill.
pub const ITEM_LIMIT: usize = 1_400;

// The greatest function, which has two bits.
const LAST_FUNCTION: u8 = 3;

// The least number of more than twenty bits.
const ITEM_END: u32 = 1_048_576;

/// Whether the address is one of the sixteen that the idle and the synchronisation codeword would be
/// read as.
#[tactic(auto, unfolding(crate::specs::Pages::is_reserved))]
pub fn is_reserved_address(address: u32) -> bool
    ensures { result ≡ is_reserved address }
{
    matches!(address, 2_007_664..=2_007_671 | 2_045_056..=2_045_063)
}

fn has_large_item(items: &[u32]) -> bool
    ensures { result ≡ list_any (nat_le (2 ^ item_width)) items.now }
{
    items.iter().any(|item| ITEM_END <= *item)
}

#[tactic(auto, unfolding(crate::specs::Pages::is_bad_payload))]
fn has_bad_payload(function: u8, items: &[u32]) -> bool
    ensures { result ≡ is_bad_payload function items.now }
{
    if function > LAST_FUNCTION {
        return true;
    }
    if (function == 1 || function == 2) && !items.is_empty() {
        return true;
    }
    if items.len() > ITEM_LIMIT {
        return true;
    }
    has_large_item(items)
}

/// The first rule that the page breaks, if it breaks one: its address is at most 2,097,151 and not
/// reserved, its function at most 3, its message empty for functions 1 and 2 and of at most 1,400
/// items below 2^20.
pub fn page_fault(page: &Page) -> Option<PageFault>
    ensures { result ≡ page_fault_of page.now }
{
    if page.address > LAST_ADDRESS {
        return Some(PageFault::BadAddress);
    }
    if is_reserved_address(page.address) {
        return Some(PageFault::ReservedAddress);
    }
    if has_bad_payload(page.function, page.payload.as_slice()) {
        return Some(PageFault::BadPayload);
    }
    None
}

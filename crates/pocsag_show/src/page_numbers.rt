ghost use Rattle.std.specs.List.Sorted.{IsNonDecreasing};

use crate::kind_reader::KindReader;
use pocsag_pages::LAST_ADDRESS;
use std::alloc::{AllocError, Global};

// The most pages whose addresses are listed. Of more a table is faster, which takes eight bytes for each of 2,097,152 addresses;
// a list takes four for each page.
const MOST_LISTED: usize = 262_144;

/// The addresses of pages in ascending order.
#[derive(Drop)]
pub(crate) struct SortedAddresses {
    addresses: Vec<u32>,
    ghost ordered: { IsNonDecreasing addresses.items },
}

/// How many pages have a smaller address, for each address.
#[derive(Drop)]
pub(crate) enum PageNumbers {
    /// The addresses of the pages, where these are few.
    Sorted(SortedAddresses),
    /// A number for each address.
    Table(Vec<usize>),
}

impl SortedAddresses {
    ghost use Rattle.std.specs.Prelude.{◌≡◌, ℕ, IfOk};
    ghost use Rattle.pocsag_show.specs.Numbers.{pages_below};
    ghost use Rattle.pocsag_show.specs.PageNumbers.{pages_begun, smaller_in};

    // The addresses of a transmission of so many pages.
    fn new(alloc: Global, bytes: &[u8], pages: usize) -> Result<SortedAddresses, AllocError>
        ensures { IfOk result (λ s. (a : ℕ) → smaller_in s.addresses.items a ≡ pages_below (pages_begun bytes.now) a) }
    {
        let mut addresses = Vec::with_capacity(alloc, pages)?;
        let mut kinds = KindReader::new(bytes);
        while let Some(address) = kinds.next_address() {
            addresses.push(address)?;
        }
        addresses.sort_unstable();
        Ok(SortedAddresses { addresses })
    }
}

impl PageNumbers {
    ghost use Rattle.std.specs.Prelude.{◌≡◌, ℕ, ◌^◌, ◌<◌, IfOk, length, slice_index};
    ghost use Rattle.pocsag_show.specs.Numbers.{pages_below};
    ghost use Rattle.pocsag_show.specs.PageNumbers.{NumbersPages, number_below, pages_begun};

    /// The numbers of a transmission of so many pages.
    pub(crate) fn new(alloc: Global, bytes: &[u8], pages: usize) -> Result<PageNumbers, AllocError>
        requires { pages ≡ length (pages_begun bytes.now) }
        ensures { IfOk result (NumbersPages (pages_begun bytes.now)) }
    {
        if pages > MOST_LISTED {
            let table = PageNumbers::table(alloc, bytes)?;
            return Ok(PageNumbers::Table(table));
        }
        let sorted = SortedAddresses::new(alloc, bytes, pages)?;
        Ok(PageNumbers::Sorted(sorted))
    }

    // The number of each address.
    fn table(alloc: Global, bytes: &[u8]) -> Result<Vec<usize>, AllocError>
        requires { length (pages_begun bytes.now) < 2 ^ 64 }
        ensures { IfOk result (λ v. (a : ℕ) → a < 2 ^ 21 →
            slice_index v.items a ≡ pages_below (pages_begun bytes.now) a) }
    {
        let mut table = vec![in alloc; 0; LAST_ADDRESS as usize + 1]?;
        let mut kinds = KindReader::new(bytes);
        while let Some(address) = kinds.next_address() {
            table[address as usize] += 1;
        }
        let mut smaller = 0;
        for address in 0..table.len() {
            let count = table[address];
            table[address] = smaller;
            smaller += count;
        }
        Ok(table)
    }

    /// How many pages have a smaller address.
    pub(crate) fn below(&self, address: u32) -> usize
        ensures { result ≡ number_below self.now address }
    {
        match self {
            PageNumbers::Sorted(sorted) => sorted
                .addresses
                .partition_point(|other| *other < address),
            PageNumbers::Table(table) => table.get(address as usize).copied().unwrap_or(0),
        }
    }
}

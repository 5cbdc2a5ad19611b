ghost use Rattle.std.specs.Prelude.{◌≡◌, ◌==◌, [], IfOk};
ghost use Rattle.std.specs.Cmp.Lexicographic.{pointwise};
ghost use Rattle.std.specs.Cmp.Rules.{comparing};
ghost use Rattle.std.proofs.Common.{rules};

use pocsag_words::OutOfMemory;
use std::alloc::Global;
use std::marker::Model;

/// The greatest address of a pager, which has 21 bits.
pub const LAST_ADDRESS: u32 = 2_097_151;

/// The message of a page: its items of 20 bits each, in order, the bit that is sent first the
/// highest.
#[derive(Debug, Drop)]
pub struct Payload {
    items: Vec<u32>,
}

impl Model for Payload {
    ghost use Rattle.std.specs.Prelude.{ℕ, List};

    ghost Value = { List ℕ };

    ghost view = { λ p. p.items.items };
}

impl Payload {
    /// A payload of no items, which takes no memory.
    pub fn empty(alloc: Global) -> Payload
        ensures { result ≡ [] }
    {
        Payload {
            items: Vec::new(alloc),
        }
    }

    /// The items of the list, in order, which takes no memory.
    pub fn from_vec(items: Vec<u32>) -> Payload
        ensures { result ≡ items.items }
    {
        Self { items }
    }

    /// The list of the items, which takes no memory.
    pub fn into_vec(self) -> Vec<u32>
        ensures { result.items ≡ self }
    {
        let Payload { items } = self;
        items
    }

    /// The items in order.
    pub fn as_slice(&self) -> &[u32]
        ensures { result.now ≡ self.now }
    {
        self.items.as_slice()
    }

    /// An equal payload.
    pub fn copy(&self, alloc: Global) -> Result<Payload, OutOfMemory>
        ensures { IfOk result (λ p. p ≡ self.now) }
    {
        Ok(Payload {
            items: self.as_slice().to_vec(alloc)?,
        })
    }
}

impl PartialEq for Payload {
    ghost eq = { pointwise ◌==◌ };

    ghost laws = { Prim.search (comparing, rules) };

    fn eq(&self, other: &Payload) -> bool {
        self.as_slice() == other.as_slice()
    }
}

/// One page: the message for one pager, as plain data that keeps no rule.
#[derive(PartialEq, Debug, Drop)]
pub struct Page {
    /// The pager's address, 0 to 2,097,151. Its three low bits name the frame.
    pub address: u32,
    /// The function, 0 to 3.
    pub function: u8,
    /// The message, empty for a page of an address codeword alone.
    pub payload: Payload,
}

impl Page {
    /// An equal page.
    pub fn copy(&self, alloc: Global) -> Result<Page, OutOfMemory>
        ensures { IfOk result (λ p. p ≡ self.now) }
    {
        Ok(Page {
            address: self.address,
            function: self.function,
            payload: self.payload.copy(alloc)?,
        })
    }
}

ghost use Rattle.std.specs.Prelude.{◌≡◌, ◌++◌, OnOk};
ghost use Rattle.std.specs.List.{flat_map};
ghost use Rattle.pocsag_pages.specs.Listable.{IsListable};
ghost use Rattle.pocsag_show.specs.Escapes.{escaped, told};

use crate::letters::letter_of;
use crate::marks::put_label;
use crate::pieces::{put, put_printed};
use crate::placed::Placed;
use pocsag_decode::{kind_of_page, message_of};
use std::alloc::{AllocError, Global};

// Writes a character of a message so that it stands for itself.
#[tactic(auto, unfolding(crate::specs::Escapes::escaped))]
fn put_escaped(text: &mut Vec<u8>, byte: u8) -> Result<(), AllocError>
    ensures { OnOk result (text.new.items ≡ text.old.items ++ escaped byte) }
{
    if byte == b'&' {
        put(text, b"&amp;")
    } else if byte == b'<' {
        put(text, b"&lt;")
    } else if byte == b'>' {
        put(text, b"&gt;")
    } else if byte < 32 {
        let code = 9216 + u32::from(byte);
        put_printed(text, format_args!("&#{code};"))
    } else if byte < 127 {
        put(text, &[byte])
    } else {
        put(text, b"&#9249;")
    }
}

/// Writes what is reported of a page: its label, address, kind and, where it has one, message.
#[tactic(auto, unfolding(crate::specs::Escapes::told, crate::specs::Escapes::told_message))]
pub(crate) fn put_told(alloc: Global, text: &mut Vec<u8>, placed: &Placed) -> Result<(), AllocError>
    requires { IsListable placed.now.page }
    ensures { OnOk result (text.new.items ≡ text.old.items ++ told placed.now) }
{
    let page = &placed.page;
    let (address, items) = (page.address, page.payload.as_slice());
    put_label(text, letter_of(b'A', placed.number), placed.number)?;
    put_printed(text, format_args!(": address {address}, "))?;
    put(text, kind_of_page(page.function, items))?;
    if items.is_empty() {
        return Ok(());
    }
    put(text, b": ")?;
    let message = message_of(alloc, page.function, items).map_err(|_| AllocError)?;
    for byte in message.as_slice() {
        put_escaped(text, *byte)?;
    }
    Ok(())
}

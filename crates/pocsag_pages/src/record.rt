ghost use Rattle.std.specs.Prelude.{◌≡◌, ◌≢◌, ◌^◌, ◌<◌, ◌≤◌, ◌⊎◌, ◌∷◌, [], length, None, All, IfErr, IfNone, IfOk, IfSome, IsOk};
ghost use Rattle.std.specs.Str.{bytes_eq};
ghost use Rattle.csv.specs.Records.{fields_of};
ghost use Rattle.pocsag_text.specs.Bits.{AreItems};
ghost use Rattle.pocsag_text.specs.Text.{item_limit};
ghost use Rattle.pocsag_pages.specs.Pages.{last_address, page_fault_of};
ghost use Rattle.pocsag_pages.specs.PageFile.{address_digits, address_of, decimal, function_of, is_header, kind_of_field, page_of, page_of_fields, payload_of, IsTone};

use crate::fault::{FieldFault, RecordFault};
use crate::page::{LAST_ADDRESS, Page, Payload};
use crate::rule::is_reserved_address;
use csv::ByteRecord;
use pocsag_text::{pack_alpha, pack_numeric};
use std::alloc::Global;

// The most digits of an address.
const ADDRESS_DIGITS: usize = 7;

// What a page file calls the kind of a page.
#[derive(Clone, Copy)]
pub(crate) enum PageKind {
    // No message, with this function.
    Tone(u8),
    Numeric,
    Alpha,
}

// The three fields of a record.
#[derive(Clone, Copy)]
struct Fields<'a> {
    address: &'a [u8],
    kind: &'a [u8],
    message: &'a [u8],
}

fn three_fields(row: &ByteRecord) -> Option<Fields<'_>>
    ensures some { IfSome result (λ f. fields_of row.now ≡ f.address.now ∷ f.kind.now ∷ f.message.now ∷ []) }
    ensures none { IfNone result (length (fields_of row.now) ≢ 3) }
{
    if row.len() != 3 {
        return None;
    }
    Some(Fields {
        address: row.get(0).unwrap(),
        kind: row.get(1).unwrap(),
        message: row.get(2).unwrap(),
    })
}

fn is_word(field: &[u8], word: &[u8]) -> bool
    ensures { result ≡ bytes_eq field.now word.now }
{
    field == word
}

// Whether the record is the header of a page file.
#[tactic(auto, unfolding(crate::specs::PageFile::is_header))]
pub(crate) fn is_header_row(row: &ByteRecord) -> bool
    ensures { result ≡ is_header (fields_of row.now) }
{
    let Some(fields) = three_fields(row) else {
        return false;
    };
    is_word(fields.address, b"address")
        && is_word(fields.kind, b"kind")
        && is_word(fields.message, b"message")
}

fn parse_decimal(digits: &[u8]) -> Option<u32>
    requires { length digits.now ≤ address_digits }
    ensures { result ≡ decimal 0 digits.now }
{
    let mut value = 0;
    for digit in digits {
        if !digit.is_ascii_digit() {
            return None;
        }
        value = 10 * value + u32::from(*digit - b'0');
    }
    Some(value)
}

/// The address that a field of text spells, in one to seven digits; none where it spells none.
#[tactic(auto, unfolding(crate::specs::PageFile::address_of))]
pub fn parse_address(field: &[u8]) -> Option<u32>
    ensures value { result ≡ address_of field.now }
    ensures low { IfSome result (λ address. address ≤ last_address) }
{
    if field.is_empty() {
        return None;
    }
    if field.len() > ADDRESS_DIGITS {
        return None;
    }
    match parse_decimal(field) {
        Some(address) if address <= LAST_ADDRESS => Some(address),
        _ => None,
    }
}

#[tactic(auto, unfolding(crate::specs::PageFile::kind_of_field))]
fn parse_kind(field: &[u8]) -> Option<PageKind>
    ensures value { result ≡ kind_of_field field.now }
    ensures known { IfSome result (λ kind. function_of kind < 4) }
{
    match field {
        b"tone0" => Some(PageKind::Tone(0)),
        b"tone1" => Some(PageKind::Tone(1)),
        b"tone2" => Some(PageKind::Tone(2)),
        b"tone3" => Some(PageKind::Tone(3)),
        b"numeric" => Some(PageKind::Numeric),
        b"alpha" => Some(PageKind::Alpha),
        _ => None,
    }
}

// The payload of a page's message.
#[tactic(auto, unfolding(crate::specs::PageFile::payload_of))]
fn pack_message(alloc: Global, kind: PageKind, message: &[u8]) -> Result<Payload, FieldFault>
    ensures ok { IfOk result (λ p. payload_of kind message.now ≡ Ok p) }
    ensures small { IfOk result (λ p. AreItems p) }
    ensures few { IfOk result (λ p. length p ≤ item_limit) }
    ensures silent { IfOk result (λ p. IsTone kind → p ≡ []) }
    ensures err { IfErr result
        (λ e. (e ≡ FieldFault.OutOfMemory) ⊎ (payload_of kind message.now ≡ Err e)) }
    ensures memory { result ≡ Err FieldFault.OutOfMemory → IsOk (payload_of kind message.now) }
{
    let items = match kind {
        PageKind::Tone(_) => {
            if message.is_empty() {
                return Ok(Payload::empty(alloc));
            }
            return Err(FieldFault::MessageForTone);
        }
        PageKind::Numeric => pack_numeric(alloc, message)?,
        PageKind::Alpha => pack_alpha(alloc, message)?,
    };
    Ok(Payload::from_vec(items))
}

/// The page that three fields of text spell, as those of a record of a page file. Faults, in this order:
/// `BadAddress`, `ReservedAddress`, `BadKind`; of the message `MessageForTone`, `EmptyMessage`,
/// `BadCharacter`, `TooLong`; then `OutOfMemory`.
#[tactic(auto, unfolding(crate::specs::PageFile::page_of_fields))]
pub fn page_of_fields(
    alloc: Global,
    address: &[u8],
    kind: &[u8],
    message: &[u8],
) -> Result<Page, FieldFault>
    ensures ok { IfOk result (λ p. page_of_fields address.now kind.now message.now ≡ Ok p) }
    ensures good { IfOk result (λ p. page_fault_of p ≡ None) }
    ensures err { IfErr result
        (λ e. (e ≡ FieldFault.OutOfMemory) ⊎ (page_of_fields address.now kind.now message.now ≡ Err e)) }

    // Memory is wanted only by fields that spell a page.
    ensures memory { result ≡ Err FieldFault.OutOfMemory → IsOk (page_of_fields address.now kind.now message.now) }
{
    let Some(address) = parse_address(address) else {
        return Err(FieldFault::BadAddress);
    };
    if is_reserved_address(address) {
        return Err(FieldFault::ReservedAddress);
    }
    let Some(kind) = parse_kind(kind) else {
        return Err(FieldFault::BadKind);
    };
    let payload = pack_message(alloc, kind, message)?;
    let function = match kind {
        PageKind::Tone(function) => function,
        PageKind::Numeric => 0,
        PageKind::Alpha => 3,
    };
    Ok(Page {
        address,
        function,
        payload,
    })
}

// The page of a record, other records aside.
#[tactic(auto, unfolding(crate::specs::PageFile::page_of))]
pub(crate) fn page_of_row(alloc: Global, row: &ByteRecord) -> Result<Page, RecordFault>
    ensures ok { IfOk result (λ p. page_of (fields_of row.now) ≡ Ok p) }
    ensures good { IfOk result (λ p. page_fault_of p ≡ None) }
    ensures err { IfErr result
        (λ e. (e ≡ RecordFault.Field FieldFault.OutOfMemory) ⊎ (page_of (fields_of row.now) ≡ Err e)) }

    // Memory is wanted only by a record that is a page.
    ensures memory { result ≡ Err (RecordFault.Field FieldFault.OutOfMemory) → IsOk (page_of (fields_of row.now)) }
{
    let Some(fields) = three_fields(row) else {
        return Err(RecordFault::FieldCount);
    };
    page_of_fields(alloc, fields.address, fields.kind, fields.message).map_err(RecordFault::Field)
}

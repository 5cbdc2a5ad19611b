//! Page files, rounds and pages.

ghost use Rattle.std.specs.Prelude.{◌≤◌};

use crate::given::{PageRow, file_of, many_records, page, pages, tones};
use crate::rounds::{self, round_of};
use crate::same;
use pocsag_pages::FieldFault::{
    BadAddress, BadCharacter, BadKind, EmptyMessage, MessageForTone, ReservedAddress, TooLong,
};
use pocsag_pages::RecordFault::{DuplicateAddress, Field, FieldCount};
use pocsag_pages::RoundFault::{BadHeader, NoPages, Record};
use pocsag_pages::{
    FieldFault, Page, PageFault, Payload, RecordFault, Round, RoundFault, WholeFault,
    is_reserved_address, only_row, page_fault, page_of_fields, preamble_len, read_round,
    read_whole,
};
use pocsag_words::{MemorySource, OutOfMemory};
use std::alloc::Global;
use std::process::Abort;
use std::test::Fail;

// What stands behind the header, and the pages.
const READ: &[(&[u8], &[PageRow])] = &[
    (
        b"8,tone0,\n0000000,numeric,12345\r\n\n2097151,alpha,\"ABC\"\n9,tone3,\n",
        &[
            (8, 0, &[]),
            (0, 0, &[0x84C2A]),
            (2_097_151, 3, &[0x82870, 0x80000]),
            (9, 3, &[]),
        ],
    ),
    (b"0,numeric,12  \n", &[(0, 0, &[0x84333])]),
    (b"0,numeric,12\n", &[(0, 0, &[0x84333])]),
    (b"2007663,tone0,\n", &[(2_007_663, 0, &[])]),
];

// What stands behind the header, how many digits 1 follow, and the fault of the file.
const REFUSED: &[(&[u8], usize, RoundFault)] = &[
    (b"", 0, NoPages),
    (b"2007664,tone0,\n", 0, Record(1, Field(ReservedAddress))),
    (b"2097152,tone0,\n", 0, Record(1, Field(BadAddress))),
    (b"7,Tone0,\n", 0, Record(1, Field(BadKind))),
    (b"7,tone1,x\n", 0, Record(1, Field(MessageForTone))),
    (b"7,alpha,\n", 0, Record(1, Field(EmptyMessage))),
    (b"7,numeric,12a\n", 0, Record(1, Field(BadCharacter(2)))),
    (b"7,numeric,", 4_001, Record(1, Field(TooLong))),
    (
        b"\n8,tone0,\n\r\n\n9,tone9,\n",
        0,
        Record(2, Field(BadKind)),
    ),
    (
        b"8,tone0,\n0000008,tone1,\n",
        0,
        Record(2, DuplicateAddress),
    ),
    (
        b"8,tone0,\n16,tone0,\n8,tone1,\n",
        0,
        Record(3, DuplicateAddress),
    ),
    (b"7,tone0\n", 0, Record(1, FieldCount)),
];

// Without the header.
const UNHEADED: &[&[u8]] = &[b"", b"8,tone0,\n"];

// These bytes, then one byte so many times, then more bytes.
fn joined(
    alloc: Global,
    before: &[u8],
    byte: u8,
    count: usize,
    behind: &[u8],
) -> Result<Vec<u8>, OutOfMemory> {
    let mut bytes = Vec::from_slice(alloc, before)?;
    let len = before.len().saturating_add(count);
    bytes.resize(len, byte)?;
    bytes.extend_from_slice(behind)?;
    Ok(bytes)
}

// The round of a file that is read by so many bytes, from a device that lasts for so many.
fn read_file(alloc: Global, file: &[u8], step: usize, lasting: u64) -> Result<Round, RoundFault>
    requires { 1 ≤ step }
{
    read_round(alloc, &mut MemorySource::new(file, step, lasting))
}

fn read_records(alloc: Global, records: &[u8], ones: usize) -> Result<Round, RoundFault> {
    let file = file_of(alloc, records, ones)?;
    read_file(alloc, file.as_slice(), 7, u64::MAX)
}

fn expect_pages(
    rt: &impl Abort,
    round: Result<Round, RoundFault>,
    due: Result<Vec<Page>, OutOfMemory>,
) {
    let round = round.expect(rt, "a round");
    let due = due.expect(rt, "memory");
    same!(rt; round.pages(), due.as_slice());
}

#[test]
fn page_files(rt: HostRuntime) {
    let alloc = rt.alloc();
    for (records, rows) in READ {
        expect_pages(&rt, read_records(alloc, records, 0), pages(alloc, rows));
    }
    for (records, ones, fault) in REFUSED {
        same!(rt; read_records(alloc, records, *ones).err(), Some(*fault), records);
    }
}

// The device fails behind so many bytes.
fn expect_read_fault(rt: &impl Abort, alloc: Global, file: &[u8], place: u64) {
    let all = read_whole(alloc, &mut MemorySource::new(file, 1, place), 1000);
    same!(rt; all.err(), Some(WholeFault::ReadFault), place);
    let round = read_file(alloc, file, 1, place);
    same!(rt; round.err(), Some(RoundFault::ReadFault), place);
}

#[test]
fn page_files_that_cannot_be_read(rt: HostRuntime) {
    let alloc = rt.alloc();
    for file in UNHEADED {
        same!(rt; read_file(alloc, file, 7, u64::MAX).err(), Some(RoundFault::BadHeader));
    }
    let file = b"address,kind,message\n8,tone0,".as_slice();
    for place in 0..30u64 {
        expect_read_fault(&rt, alloc, file, place);
    }
    expect_pages(
        &rt,
        read_file(alloc, file, 1, 30),
        pages(alloc, &[(8, 0, &[])]),
    );
}

// What stands before more commas than are few, and the fault of the file.
const BEFORE_COMMAS: &[(&[u8], RoundFault)] = &[
    (b"", BadHeader),
    (b"address,kind,message", BadHeader),
    (b"address,kind,message\n", Record(1, FieldCount)),
    (b"address,kind,message\n8,tone0,\n", Record(2, FieldCount)),
    (
        b"\xef\xbb\xbf\"address\",kind,message\r\n8,tone0,\r",
        Record(2, FieldCount),
    ),
    (
        b"address,kind,message\n8,alpha,\"a\nb, \"\",,,\"\"\"\n",
        Record(2, FieldCount),
    ),
    (
        b"address,kind,message\n8,alpha,\"a, \"\"",
        Record(1, Field(TooLong)),
    ),
    (
        b"address,kind,message\n8,alpha,\"a\"b",
        Record(1, FieldCount),
    ),
    (
        b"address,kind,message\n\"8,,,\n\",tone0,\n",
        Record(1, Field(BadAddress)),
    ),
];

// What stands before and behind so many commas. Each first record has more than three fields, some of them behind a front of
// 4,194,304 bytes.
const LONG_FILES: &[(&[u8], usize, &[u8])] = &[
    (
        b"address,kind,message\n8,tone0,",
        5_000_000,
        b"\n8,tone0,\n",
    ),
    (
        b"address,kind,message\n8,alpha,\"",
        5_000_000,
        b"\",\n8,tone0,\n",
    ),
    (b"address,kind,message\n", 4_194_283, b""),
];

// Reads a file with so many commas between these bytes by so many bytes.
fn read_commas(
    alloc: Global,
    before: &[u8],
    commas: usize,
    behind: &[u8],
    step: usize,
) -> Result<Round, RoundFault>
    requires { 1 ≤ step }
{
    let file = joined(alloc, before, b',', commas, behind)?;
    read_file(alloc, file.as_slice(), step, u64::MAX)
}

#[test]
fn records_too_wide(rt: HostRuntime) {
    let alloc = rt.alloc();
    for (before, due) in BEFORE_COMMAS {
        let read = read_commas(alloc, before, 100_001, b"", 8192);
        same!(rt; read.err(), Some(*due), before);
    }
    let due = RoundFault::Record(1, RecordFault::FieldCount);
    for (before, commas, behind) in LONG_FILES {
        let read = read_commas(alloc, before, *commas, behind, 65_536);
        same!(rt; read.err(), Some(due), before);
    }
}

fn read_tones(alloc: Global, count: u32) -> Result<Round, RoundFault> {
    let file = many_records(alloc, count, 1, b"tone0,\n")?;
    read_file(alloc, file.as_slice(), 7, u64::MAX)
}

fn round_of_tones(alloc: Global, count: u32) -> Result<Round, RoundFault> {
    Round::from_pages(alloc, tones(alloc, count)?)
}

#[test]
fn sizes(rt: HostRuntime) {
    let alloc = rt.alloc();
    let too_many = Some(RoundFault::Record(20_001, RecordFault::TooManyPages));
    expect_pages(&rt, read_tones(alloc, 20_000), tones(alloc, 20_000));
    same!(rt; read_tones(alloc, 20_001).err(), too_many);
    expect_pages(&rt, round_of_tones(alloc, 20_000), tones(alloc, 20_000));
    same!(rt; round_of_tones(alloc, 20_001).err(), too_many);
    // Files of 268,435,456 bytes and of one more are read by built programs: with checks it takes minutes.
}

#[test]
fn bytes_at_the_most(rt: HostRuntime) {
    let alloc = rt.alloc();
    let bytes: &[u8] = &[0xAA; 140];
    let refused = read_whole(alloc, &mut MemorySource::new(bytes, 9, u64::MAX), 139);
    same!(rt; refused.err(), Some(WholeFault::TooLarge));
    let all = read_whole(alloc, &mut MemorySource::new(bytes, 9, u64::MAX), 140);
    same!(rt; all.expect(&rt, "all bytes").as_slice(), bytes);
}

// The three fields of a record, and its page or its fault.
const FIELDS: &[(&[u8], &[u8], &[u8], Result<PageRow, FieldFault>)] = &[
    (b"0000000", b"numeric", b"12345", Ok((0, 0, &[0x84C2A]))),
    (
        b"2097151",
        b"alpha",
        b"ABC",
        Ok((2_097_151, 3, &[0x82870, 0x80000])),
    ),
    (b"2097152", b"nones", b"-", Err(BadAddress)),
    (b"2007664", b"nones", b"-", Err(ReservedAddress)),
    (b"0000007", b"Tone0", b"-", Err(BadKind)),
    (b"0000007", b"tone1", b"-", Err(MessageForTone)),
    (b"0000007", b"alpha", b"\x00", Err(BadCharacter(0))),
    (b"7", b"alpha", b"", Err(EmptyMessage)),
    (b"7", b"numeric", &[b'1'; 4_001], Err(TooLong)),
];

// Pages with their fault.
const JUDGED: &[(PageRow, Option<PageFault>)] = &[
    ((2_097_152, 0, &[]), Some(PageFault::BadAddress)),
    ((2_045_063, 0, &[]), Some(PageFault::ReservedAddress)),
    ((8, 1, &[0x84C2A]), Some(PageFault::BadPayload)),
    ((8, 2, &[1_048_576]), Some(PageFault::BadPayload)),
    ((8, 3, &[1_048_575]), None),
    ((2_097_151, 0, &[0x88888; 1_400]), None),
    (
        (2_097_151, 0, &[0x88888; 1_401]),
        Some(PageFault::BadPayload),
    ),
];

fn wanted_page(alloc: Global, row: &Result<PageRow, FieldFault>) -> Result<Page, FieldFault> {
    match row {
        Ok((address, function, items)) => {
            page(alloc, *address, *function, items).or(Err(FieldFault::OutOfMemory))
        }
        Err(fault) => Err(*fault),
    }
}

#[test]
fn records_and_pages(rt: HostRuntime) {
    let alloc = rt.alloc();
    for (address, kind, message, row) in FIELDS {
        let told = page_of_fields(alloc, address, kind, message);
        same!(rt; told, wanted_page(alloc, row), (address, kind));
    }
}

// Addresses next to the ends of the reserved ones.
const RESERVED: &[(u32, bool)] = &[
    (2_007_663, false),
    (2_007_664, true),
    (2_007_671, true),
    (2_007_672, false),
    (2_045_055, false),
    (2_045_056, true),
    (2_045_063, true),
    (2_045_064, false),
];

#[test]
fn pages_and_addresses(rt: HostRuntime) {
    for ((address, function, items), fault) in JUDGED {
        let judged = page(rt.alloc(), *address, *function, items).expect(&rt, "memory");
        same!(rt; page_fault(&judged), *fault, (address, function));
    }
    for (address, is_reserved) in RESERVED {
        same!(rt; is_reserved_address(*address), *is_reserved, address);
    }
}

fn expect_preamble(rt: &impl Abort, alloc: Global, count: usize, behind: &[u8]) {
    let bytes = joined(alloc, b"", 0xAA, count, behind).expect(rt, "memory");
    same!(rt; preamble_len(bytes.as_slice()), count);
}

#[test]
fn leading_bytes(rt: HostRuntime) {
    for count in 71..74 {
        expect_preamble(&rt, rt.alloc(), count, b"");
        expect_preamble(&rt, rt.alloc(), count, b"\x2A");
    }
}

// The pages of `three-pages-tight`.
const TIGHT: &[PageRow] = &[
    (0, 0, &[0x88888; 5]),
    (3, 0, &[0x88888; 9]),
    (11, 0, &[0x88888; 15]),
];

// The same, and one more of address 0.
const TWICE: &[PageRow] = &[
    (0, 0, &[0x88888; 5]),
    (3, 0, &[0x88888; 9]),
    (11, 0, &[0x88888; 15]),
    (0, 1, &[]),
];

fn round_of_rows(alloc: Global, rows: &[PageRow]) -> Result<Round, RoundFault> {
    Round::from_pages(alloc, pages(alloc, rows)?)
}

#[test]
fn rounds_of_pages(rt: HostRuntime) {
    let alloc = rt.alloc();
    expect_pages(&rt, round_of(alloc, rounds::TIGHT), pages(alloc, TIGHT));
    let fault = RoundFault::Record(4, RecordFault::DuplicateAddress);
    same!(rt; round_of_rows(alloc, TWICE).err(), Some(fault));
    same!(rt; round_of_rows(alloc, &[]).err(), Some(RoundFault::NoPages));
}

fn expect_copy(rt: &impl Abort, alloc: Global, page: Result<Page, OutOfMemory>, items: &[u32]) {
    let page = page.expect(rt, "memory");
    same!(rt; page.copy(alloc).expect(rt, "memory"), page);
    same!(rt; page.payload.as_slice(), items);
    same!(rt; page.payload.into_vec().len(), items.len());
}

const COPIED: &[PageRow] = &[
    (8, 0, &[]),
    (0, 0, &[0x84C2A]),
    (0, 0, &[0x88888; 5]),
    (3, 0, &[0x88888; 9]),
    (11, 0, &[0x88888; 15]),
];

#[test]
fn copies_and_payloads(rt: HostRuntime) {
    let alloc = rt.alloc();
    for (address, function, items) in COPIED {
        let page = page(alloc, *address, *function, items);
        expect_copy(&rt, alloc, page, items);
    }
    let none = Payload::from_vec(Vec::new(alloc));
    same!(rt; Payload::empty(alloc), none);
}

// Pages of 4,000 commas each.
#[test]
fn pages_beyond_a_front(rt: HostRuntime) {
    let page = joined(rt.alloc(), b"alpha,\"", b',', 4_000, b"\"\n").expect(&rt, "memory");
    let file = many_records(rt.alloc(), 1_100, 8, page.as_slice()).expect(&rt, "memory");
    let round = read_file(rt.alloc(), file.as_slice(), 65_536, u64::MAX).expect(&rt, "a round");
    assert!(rt; round.pages().len() == 1_100);
    same!(rt; round.pages()[1_099].address, 8_792);
}

// Bytes, and the fields of their record, where they hold one and no more. Each field is followed by `|`, so that the number
// of fields shows.
const LONE_ROWS: &[(&[u8], Option<&[u8]>)] = &[
    // Lines with nothing on them are no records, wherever they stand.
    (b"", None),
    (b"\r", None),
    (b"\r\n", None),
    (b"\n\n\r\r\n", None),
    (b"list", Some(b"list|")),
    (b"list\r", Some(b"list|")),
    (b"list\n", Some(b"list|")),
    (b"\r\n\n\ra,b\n\n\r\r\n", Some(b"a|b|")),
    (b" \n", Some(b" |")),
    // Two records.
    (b"a\nb", None),
    (b"a\rb", None),
    (b"a\r\nb", None),
    (b"a\n\n\r b\n", None),
    (b"a\n,", None),
    (b"a\n\"", None),
    // Empty fields.
    (b",", Some(b"||")),
    (b"a,", Some(b"a||")),
    (b"a,\r\n", Some(b"a||")),
    (b",a", Some(b"|a|")),
    (b",,\n", Some(b"|||")),
    (b"\"\"", Some(b"|")),
    (b"\"\",\"\"", Some(b"||")),
    // Quotes around a field.
    (b"a,,\"b, \"\"c\"\"\"\r\n", Some(b"a||b, \"c\"|")),
    (b"\"a\nb\"", Some(b"a\nb|")),
    (b"\"a\r\n\r\n,b\",c", Some(b"a\r\n\r\n,b|c|")),
    (b"\"\"\"\"", Some(b"\"|")),
    (b"\"\"\"a\"\"\"\"b\"", Some(b"\"a\"\"b|")),
    // Quotes that do not begin a field are bytes of it.
    (b"a\"b", Some(b"a\"b|")),
    (b"a\"\"b,\"c\"", Some(b"a\"\"b|c|")),
    (b" \"a\"", Some(b" \"a\"|")),
    (b"a\",b\"\n", Some(b"a\"|b\"|")),
    // Bytes behind a closing quote join the field.
    (b"\"a\"b", Some(b"ab|")),
    (b"\"a\" ,b", Some(b"a |b|")),
    (b"\"a,\"b\"c\",d\n", Some(b"a,b\"c\"|d|")),
    // A quote that none closes holds all that is left.
    (b"\"", Some(b"|")),
    (b"a,\"b,c\n", Some(b"a|b,c\n|")),
    (b"\"a\"\"", Some(b"a\"|")),
    // One byte order mark, at the start alone.
    (b"\xef\xbb\xbf", None),
    (b"\xef\xbb\xbf\r\n", None),
    (b"\xef\xbb\xbfa,b", Some(b"a|b|")),
    (b"\xef\xbb\xbf\"a,b\"", Some(b"a,b|")),
    (b"\xef\xbb\xbf\xef\xbb\xbf", Some(b"\xef\xbb\xbf|")),
    (b"\n\xef\xbb\xbfa", Some(b"\xef\xbb\xbfa|")),
    (b"\xef\xbb", Some(b"\xef\xbb|")),
];

// Whether these bytes hold one record and no more. Its fields are appended, each followed by `|`.
fn append_fields(fields: &mut Vec<u8>, alloc: Global, bytes: &[u8]) -> Result<bool, OutOfMemory> {
    let Some(row) = only_row(alloc, bytes)? else {
        return Ok(false);
    };
    for i in 0..row.len() {
        fields.extend_from_slice(row.get(i).unwrap_or(b"no field"))?;
        fields.push(b'|')?;
    }
    Ok(true)
}

fn expect_fields(rt: &impl Abort, alloc: Global, bytes: &[u8], due: Option<&[u8]>) {
    let mut fields = Vec::new(alloc);
    let is_alone = append_fields(&mut fields, alloc, bytes).expect(rt, "memory");
    same!(rt; (is_alone, fields.as_slice()), (due.is_some(), due.unwrap_or(b"")), bytes);
}

#[test]
fn lone_rows(rt: HostRuntime) {
    for (bytes, fields) in LONE_ROWS {
        expect_fields(&rt, rt.alloc(), bytes, *fields);
    }
}

// What stands before and behind so many times one byte, and how often the byte is in the first field.
const LONG_ROWS: &[(&[u8], u8, usize, &[u8], usize)] = &[
    (b"", b'x', 70_000, b",last", 70_000),
    (b"\"", b',', 70_000, b"\",last\r\n", 70_000),
    (b"\"", b'"', 140_000, b"\",last\n", 70_000),
];

#[test]
fn long_rows(rt: HostRuntime) -> Result<(), Fail> {
    let alloc = rt.alloc();
    for (before, byte, count, behind, field_count) in LONG_ROWS {
        let bytes = joined(alloc, before, *byte, *count, behind)?;
        let fields = joined(alloc, b"", *byte, *field_count, b"|last|")?;
        expect_fields(&rt, alloc, bytes.as_slice(), Some(fields.as_slice()));
    }
    Ok(())
}

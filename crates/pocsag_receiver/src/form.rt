//! The forms in which pages are listed.
ghost use Rattle.std.specs.Prelude.{◌≡◌, ℕ, ◌<◌, ◌≤◌, ◌∷◌, ◌++◌, [], All, Bool, Err, IfOk, IfSome, List, OnErr, OnOk, length};
ghost use Rattle.std.specs.Str.{IsAscii};
ghost use Rattle.json.specs.Json.{Members, object};
ghost use Rattle.json.specs.Token.{end_object};
ghost use Rattle.json.specs.Tree.{json_tokens, members_tokens};
ghost use Rattle.pocsag_text.specs.Bits.{AreItems};
ghost use Rattle.pocsag_pages.specs.Listable.{IsListable};
ghost use Rattle.pocsag_words.specs.Devices.{TookPrefix};
ghost use Rattle.pocsag_pages.specs.declared.page.Page.{Page};
ghost use Rattle.pocsag_decode.specs.Faults.{NamesFailures};
ghost use Rattle.pocsag_decode.specs.Lines.{IsReady, text_in};
ghost use Rattle.pocsag_shell.specs.Runs.{IsStreamOf};
ghost use Rattle.pocsag_receiver.specs.Forms.{is_text, kind_read, listed_in, members_of, message_read, names_in, page_members, row_in, row_line, row_record, state_field, unmarked};
ghost use Rattle.pocsag_receiver.specs.Rows.{HandsOn, ListsRows, as_streamed};
ghost use Rattle.pocsag_receiver.specs.Works.{writing};
ghost use Rattle.pocsag_receiver.specs.declared.form.Row.{Row};

use crate::captured::PageOrigin;
use crate::fault::ReceiverFault;
use pocsag_decode::{ListFault, PageSource, message_of, write_many_records, write_records};
use pocsag_pages::Page;
use pocsag_text::{unpack_alpha, unpack_numeric};
use pocsag_words::{OutOfMemory, Sink, write_all};
use std::alloc::{AllocError, Global};
use std::{mem, str};

// The most bytes of lines that wait before they are written, beside the line of one page.
const PIECE: usize = 65_536;

/// The form in which pages are listed. The flags say of which functions from 0 to 2 the messages are read as alphanumeric
/// text.
#[derive(Clone, Copy)]
pub enum ListForm {
    /// CSV, each message in the kind of its function.
    Listing,
    /// CSV, with these functions as text.
    Texts([bool; 3]),
    /// One line of JSON for each page, with these functions as text.
    Json([bool; 3]),
}

// Whether the messages of this function are read as alphanumeric text.
fn is_text(texts: [bool; 3], function: u8) -> bool
    ensures { result ≡ is_text texts function }
{
    function < 3 && texts[usize::from(function)]
}

// The kind of a page with this function and these items.
#[tactic(auto, unfolding(crate::specs::Forms::kind_read, pocsag_decode::specs::Listing::kind_field))]
fn kind_read(texts: [bool; 3], function: u8, items: &[u32]) -> &'static str
    requires { function < 4 }
    ensures { result.now ≡ kind_read texts function items.now }
{
    match (function, items.is_empty(), is_text(texts, function)) {
        (0, true, _) => "tone0",
        (1, true, _) => "tone1",
        (2, true, _) => "tone2",
        (_, true, _) => "tone3",
        (0, false, true) => "text0",
        (1, false, true) => "text1",
        (2, false, true) => "text2",
        (0, false, false) => "numeric",
        (1, false, false) => "data1",
        (2, false, false) => "data2",
        (_, false, _) => "alpha",
    }
}

// The message of a page with this function and these items.
#[tactic(auto, unfolding(crate::specs::Forms::message_read, pocsag_decode::specs::Listing::message_field), using(crate::proofs::Read::numeric_is_ascii, crate::proofs::Read::data_is_ascii))]
fn message_read(
    alloc: Global,
    texts: [bool; 3],
    function: u8,
    items: &[u32],
) -> Result<Vec<u8>, OutOfMemory>
    requires { AreItems items.now }
    ensures text { IfOk result (λ v. v.items ≡ message_read texts function items.now) }
    ensures ascii { IfOk result (λ v. IsAscii v.items) }
{
    if items.is_empty() {
        return Ok(Vec::new(alloc));
    }
    if function == 3 || is_text(texts, function) {
        return unpack_alpha(alloc, items);
    }
    if function == 0 {
        return unpack_numeric(alloc, items);
    }
    message_of(alloc, function, items)
}

// The lines before these, and the JSON object of a page as far as all forms have it.
fn begin_page_object(
    alloc: Global,
    lines: Vec<u8>,
    texts: [bool; 3],
    page: &Page,
) -> Result<json::Writer, AllocError>
    requires { IsListable page.now }
    ensures before { IfOk result (λ w. w.before ≡ lines.items) }
    ensures begun { (others : Members) → IfOk result (λ w.
        w.tokens ++ members_tokens others ≡ json_tokens (object (page_members texts page.now others))) }
{
    let items = page.payload.as_slice();
    let message = message_read(alloc, texts, page.function, items).map_err(|_| AllocError)?;
    let Ok(message) = str::from_utf8(message.as_slice()) else {
        unreachable!()
    };
    let mut writer = json::Writer::new(lines);
    writer.begin_object()?;
    writer.key("address")?;
    writer.u64(u64::from(page.address))?;
    writer.key("function")?;
    writer.u64(u64::from(page.function))?;
    writer.key("kind")?;
    writer.string(kind_read(texts, page.function, items))?;
    writer.key("message")?;
    writer.string(message)?;
    Ok(writer)
}

// The state of a page.
fn state_name(is_cut: bool) -> &'static str
    ensures { result.now ≡ state_field is_cut }
{
    if is_cut { "cut" } else { "whole" }
}

// The JSON object of a page with its mark, where it has one, as far as its end.
fn with_mark(mut writer: json::Writer, mark: Option<PageOrigin>) -> Result<json::Writer, AllocError>
    ensures before { IfOk result (λ w. w.before ≡ writer.before) }
    ensures marked { IfOk result (λ w.
        w.tokens ++ end_object ∷ [] ≡ writer.tokens ++ members_tokens (members_of mark)) }
{
    let Some(mark) = mark else {
        return Ok(writer);
    };
    writer.key("state")?;
    writer.string(state_name(mark.is_cut))?;
    writer.key("transmission")?;
    writer.u64(mark.transmission)?;
    writer.key("inverted")?;
    writer.boolean(mark.is_inverted)?;
    writer.key("bit")?;
    writer.u64(mark.bit)?;
    Ok(writer)
}

/// A page that is listed: of a capture with its mark.
#[derive(Drop)]
pub(crate) struct Row {
    pub(crate) page: Page,
    pub(crate) mark: Option<PageOrigin>,
}

/// What hands out rows one after the other.
pub(crate) trait RowSource {
    // What is reported beside the rows.
    ghost Told: { Type 0 };

    // What holds of it, whatever it returned,
    ghost is_sound: { Self → Type 0 };

    // and while it hands out rows: those that are left can be listed.
    ghost can_list: { Self → Type 0 };

    // These rows are left, and in the end this is reported.
    ghost leaves: { Self → List Row → Told → Type 0 };

    // A number that falls with each row.
    ghost most: { Self → ℕ };

    /// The next row, or none where none is left.
    fn next_row(&mut self) -> Result<Option<Row>, AllocError>
        requires sound { is_sound self.old }
        requires can { can_list self.old }
        ensures sound { is_sound self.new }
        ensures can { IfOk result (λ found. IfSome found (λ _. can_list self.new)) }
        ensures listable { IfOk result (λ found. IfSome found (λ row. IsListable row.page)) }
        ensures fewer { IfOk result (λ found. IfSome found (λ _. most self.new < most self.old)) }
        ensures handed { HandsOn (leaves self.old) (leaves self.new) result };
}

// Pages without a mark.
impl<P: PageSource> RowSource for P {
    ghost Told = { Unit {0} };

    ghost is_sound = { λ _. Unit {0} };

    ghost can_list = { λ pages. All IsListable (P.left pages) };

    ghost leaves = { λ pages rows _. rows ≡ unmarked (P.left pages) };

    ghost most = { λ pages. length (P.left pages) };

    fn next_row(&mut self) -> Result<Option<Row>, AllocError> {
        match self.next_page()? {
            Some(page) => Ok(Some(Row { page, mark: None })),
            None => Ok(None),
        }
    }
}

// Text of rows that waits to be written.
trait Waiting {
    // Whether it stands before a row.
    ghost is_ready: { Self → Type 0 };

    // The text that waits.
    ghost text: { Self → List ℕ };

    // The text of a row, with these functions as text.
    ghost of_row: { List Bool → Row → List ℕ };

    // Puts the text of a row behind it.
    fn put(&mut self, alloc: Global, texts: [bool; 3], row: &Row) -> Result<(), AllocError>
        requires ready { is_ready self.old }
        requires listable { IsListable row.now.page }
        ensures ready { OnOk result (is_ready self.new) }
        ensures some { OnOk result (0 < length (text self.new)) }
        ensures text { OnOk result (text self.new ≡ text self.old ++ of_row texts row.now) };

    // Writes it out where it is long, but for its last byte: while memory may be refused, the text is not whole.
    fn write_long<S: Sink>(&mut self, alloc: Global, sink: &mut S) -> Result<(), ListFault>
        requires { is_ready self.old }
        ensures ready { OnOk result (is_ready self.new) }
        ensures told { S.is_known →
            OnOk result (S.taken sink.new ++ text self.new ≡ S.taken sink.old ++ text self.old) }
        ensures grown { S.is_known → OnOk result (length (S.taken sink.old) ≤ length (S.taken sink.new)) }
        ensures kept { 0 < length (text self.old) → OnOk result (0 < length (text self.new)) }
        ensures part { S.is_known → OnErr result (TookPrefix (S.taken sink.old) (S.taken sink.new) (text self.old)) }
        ensures untouched { result ≡ Err ListFault.OutOfMemory → sink.new ≡ sink.old }
        ensures failures { NamesFailures result ListFault.WriteFault (S.failures sink.old) (S.failures sink.new) };

    // Writes all of it out.
    fn write_rest<S: Sink>(&mut self, alloc: Global, sink: &mut S) -> Result<(), ListFault>
        ensures whole { S.is_known → OnOk result (S.taken sink.new ≡ S.taken sink.old ++ text self.old) }
        ensures part { S.is_known → OnErr result (TookPrefix (S.taken sink.old) (S.taken sink.new) (text self.old)) }
        ensures untouched { result ≡ Err ListFault.OutOfMemory → sink.new ≡ sink.old }
        ensures failures { NamesFailures result ListFault.WriteFault (S.failures sink.old) (S.failures sink.new) };
}

// Records.
impl Waiting for csv::Writer<Vec<u8>> {
    ghost is_ready = { IsReady };

    ghost text = { text_in };

    ghost of_row = { row_record };

    fn put(&mut self, alloc: Global, texts: [bool; 3], row: &Row) -> Result<(), AllocError> {
        let page = &row.page;
        let items = page.payload.as_slice();
        let message = message_read(alloc, texts, page.function, items).map_err(|_| AllocError)?;
        let address = format!(in alloc; "{}", page.address)?;
        let kind = kind_read(texts, page.function, items).as_bytes();
        let written = match row.mark {
            Some(mark) => self.write_fields(&[
                address.as_bytes(),
                kind,
                message.as_slice(),
                state_name(mark.is_cut).as_bytes(),
            ]),
            None => self.write_fields(&[address.as_bytes(), kind, message.as_slice()]),
        };
        written.map_err(|_| AllocError)
    }

    fn write_long<S: Sink>(&mut self, alloc: Global, sink: &mut S) -> Result<(), ListFault> {
        write_many_records(alloc, self, sink)
    }

    fn write_rest<S: Sink>(&mut self, alloc: Global, sink: &mut S) -> Result<(), ListFault> {
        write_records(alloc, self, sink)
    }
}

// Lines of JSON.
impl Waiting for Vec<u8> {
    ghost is_ready = { λ _. Unit {0} };

    ghost text = { λ v. v.items };

    ghost of_row = { row_line };

    fn put(&mut self, alloc: Global, texts: [bool; 3], row: &Row) -> Result<(), AllocError> {
        let lines = mem::replace(self, Vec::new(alloc));
        let begun = begin_page_object(alloc, lines, texts, &row.page)?;
        let mut writer = with_mark(begun, row.mark)?;
        writer.end_object()?;
        *self = writer.into_inner();
        self.push(b'\n')?;
        Ok(())
    }

    fn write_long<S: Sink>(&mut self, _alloc: Global, sink: &mut S) -> Result<(), ListFault> {
        if self.len() < PIECE {
            return Ok(());
        }
        let Some(last) = self.pop() else {
            return Ok(());
        };
        write_all(sink, self.as_slice())?;
        self.truncate(1);
        self[0] = last;
        Ok(())
    }

    fn write_rest<S: Sink>(&mut self, _alloc: Global, sink: &mut S) -> Result<(), ListFault> {
        Ok(write_all(sink, self.as_slice())?)
    }
}

// Writes rows behind the text that waits, as they are handed out.
fn list_behind<W: Waiting, R: RowSource, S: Sink>(
    alloc: Global,
    texts: [bool; 3],
    waiting: &mut W,
    rows: &mut R,
    sink: &mut S,
) -> Result<(), ListFault>
    requires ready { W.is_ready waiting.old }
    requires sound { R.is_sound rows.old }
    requires can { R.can_list rows.old }
    ensures sound { R.is_sound rows.new }
    ensures lists { ListsRows S.Sink sink.old sink.new (W.text waiting.old) (W.of_row texts)
        (R.leaves rows.old) (R.leaves rows.new) (as_streamed result) }
{
    while let Some(row) = rows.next_row()? {
        waiting.put(alloc, texts, &row)?;
        waiting.write_long(alloc, sink)?;
    }
    waiting.write_rest(alloc, sink)
}

// Writes records behind that of these names.
fn list_records<R: RowSource, S: Sink>(
    alloc: Global,
    texts: [bool; 3],
    names: &[u8],
    rows: &mut R,
    sink: &mut S,
) -> Result<(), ListFault>
    requires sound { R.is_sound rows.old }
    requires can { R.can_list rows.old }
    ensures sound { R.is_sound rows.new }
    ensures lists { ListsRows S.Sink sink.old sink.new names.now (row_record texts)
        (R.leaves rows.old) (R.leaves rows.new) (as_streamed result) }
{
    let mut begun = Vec::new(alloc);
    begun.extend_from_slice(names)?;
    let mut records = csv::Writer::from_writer(begun);
    list_behind(alloc, texts, &mut records, rows, sink)
}

/// Writes rows in a form as they are handed out; as records, after one of these names. No more than one row is held, and
/// text up to 1,048,576 bytes beside its own.
pub(crate) fn list_rows<R: RowSource, S: Sink>(
    alloc: Global,
    form: ListForm,
    names: &[u8],
    rows: &mut R,
    sink: &mut S,
) -> Result<(), ListFault>
    requires sound { R.is_sound rows.old }
    requires can { R.can_list rows.old }
    ensures sound { R.is_sound rows.new }
    ensures lists { ListsRows S.Sink sink.old sink.new (names_in form names.now) (row_in form)
        (R.leaves rows.old) (R.leaves rows.new) (as_streamed result) }
{
    match form {
        ListForm::Listing => list_records(alloc, [false; 3], names, rows, sink),
        ListForm::Texts(texts) => list_records(alloc, texts, names, rows, sink),
        ListForm::Json(texts) => list_behind(alloc, texts, &mut Vec::new(alloc), rows, sink),
    }
}

/// Writes pages in a form, as they are handed out. Returns exit status 0.
pub(crate) fn list_from<P: PageSource, S: Sink>(
    alloc: Global,
    form: ListForm,
    pages: &mut P,
    sink: &mut S,
) -> Result<u8, ReceiverFault>
    requires { All IsListable (P.left pages.old) }
    ensures streams { IsStreamOf (writing (listed_in form (P.left pages.old))) S.Sink sink.old sink.new result }
{
    list_rows(alloc, form, b"address,kind,message\n", pages, sink)?;
    Ok(0)
}

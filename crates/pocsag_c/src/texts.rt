ghost use Rattle.std.specs.Prelude.{◌≡◌, ◌⊎◌};
ghost use Rattle.pocsag_c.specs.Answers.{IsDelivered, IsTooSmall};
ghost use Rattle.pocsag_c.specs.Texts.{file_text, release_text, sent_text, status_text};

use crate::buffer::hand_out;

// What a status says: the texts of what was done, asked for or had no room; or else those of faults.
fn status_text(status: u32) -> &'static [u8]
    ensures { result.now ≡ status_text status }
{
    match status {
        0 => b"done",
        1 => b"not shown",
        2 => b"the end must be 0, 1 or 2",
        3 => b"out of memory",
        4 => b"the rate must be 512, 1200 or 2400",
        5 => b"the limit must be 1 to 1000000",
        6 => b"search limit reached",
        7 => b"the buffer of the transmission is too small",
        8 => b"the buffer of the certificate is too small",
        9 => b"the buffer of the listing is too small",
        10 => b"the buffer of the text is too small",
        11 => b"the form must be 0 or 1",
        12 => b"page 1 needs more batches",
        13 => b"the buffer of the pages that are left is too small",
        14 => b"the buffer of the certificate of one page more is too small",
        _ => file_text(status),
    }
}

// The texts of page files, certificates and quotes; or else those of transmissions, captures and pagers.
fn file_text(status: u32) -> &'static [u8]
    ensures { result.now ≡ file_text status }
{
    match status {
        17 => b"the file is too large",
        18 => b"the header must be address,kind,message",
        19 => b"three fields are wanted",
        20 => b"bad address",
        21 => b"reserved address",
        22 => b"unknown kind",
        23 => b"a tone page has no message",
        24 => b"the message is empty",
        25 => b"bad character",
        26 => b"the message is too long",
        27 => b"the address is already there",
        28 => b"too many pages",
        29 => b"bad payload",
        30 => b"there are no pages",
        32 => b"not a certificate",
        33 => b"unknown certificate version",
        34 => b"the certificate is cut short",
        35 => b"bytes after the certificate",
        36 | 37 => b"the certificate is malformed",
        38 => b"the certificate is too deep",
        39 => b"the certificate has too many nodes",
        41 => b"the quote is not closed",
        42 => b"the quote stands inside a field that begins without one",
        43 => b"text follows the closing quote",
        _ => sent_text(status),
    }
}

// The texts of transmissions, captures and pagers.
fn sent_text(status: u32) -> &'static [u8]
    ensures { result.now ≡ sent_text status }
{
    match status {
        48 => b"the preamble is too short",
        49 => b"no synchronisation codeword",
        50 => b"not a codeword",
        51 => b"a message without an address",
        52 => b"the transmission is cut short",
        53 => b"the transmission has no batch",
        56 => b"the capture is too large",
        57 => b"there are no such batches",
        58 => b"a reading or the form of a picture must be 0, 1 or 2",
        60 => b"the samples a second must be from the rate to 192000",
        61 => b"the preamble must have 576 bits or more, a multiple of 8",
        62 => b"the sound is too long for a WAV file",
        64 => b"bad address",
        65 => b"reserved address",
        _ => b"unknown status",
    }
}

/// Puts what a status says into a buffer: 0, or 10 where the buffer is too small. In both cases `text_len` reports the length.
#[unsafe(no_mangle)]
pub extern "C" fn pocsag_text_of_status(status: u32, text: &mut [u8], text_len: &mut usize) -> u32
    ensures told { result ≡ 0 → IsDelivered text.old text.new text_len.new (status_text status) }
    ensures no_room { result ≡ 10 → IsTooSmall text.old text.new text_len.new (status_text status) }
    ensures only { (result ≡ 0) ⊎ (result ≡ 10) }
{
    hand_out(status_text(status), 10, text, text_len)
}

/// Puts the version of the package into a buffer, as `pocsag_text_of_status` does.
#[unsafe(no_mangle)]
pub extern "C" fn pocsag_text_of_version(text: &mut [u8], text_len: &mut usize) -> u32
    ensures told { result ≡ 0 → IsDelivered text.old text.new text_len.new release_text }
    ensures no_room { result ≡ 10 → IsTooSmall text.old text.new text_len.new release_text }
    ensures only { (result ≡ 0) ⊎ (result ≡ 10) }
{
    hand_out(b"1.2.1", 10, text, text_len)
}

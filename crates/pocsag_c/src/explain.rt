ghost use Rattle.std.specs.Prelude.{◌≡◌, ◌≢◌, ◌↔◌, ◌⊎◌, false, true, IfSome, None};
ghost use Rattle.pocsag_c.specs.Answers.{IsNotAccepted, IsShown, IsUnjudged, no_verdict};
ghost use Rattle.pocsag_c.specs.Explain.{IsNumberOfForm, IsNoForm, IsTextOfVerdict, IsVerdictText, IsWithoutVerdict};
ghost use Rattle.pocsag_c.specs.Listings.{HasNoRoom, IsListed};
ghost use Rattle.pocsag_c.specs.Statuses.{IsOfBytes, nowhere};

use crate::buffer::hand_out;
use crate::check::{CheckInfo, NOT_JUDGED, verdict_of};
use pocsag_findings::{Format, JudgedCertificate, write_explanation};
use pocsag_words::GrowingSink;
use std::alloc::Global;

// How the certificate is reported, by the number of a form: 0 in words, 1 as JSON.
fn format_of(form: u32, depth: u32) -> Option<Format>
    ensures form { IfSome result (IsNumberOfForm form depth) }
    ensures none { result ≡ None ↔ IsNoForm form }
{
    match form {
        0 => Some(Format::Lines(depth)),
        1 => Some(Format::Json(depth)),
        _ => None,
    }
}

/// Judges a certificate for a page file as `pocsag_check` does, and puts the text that reports why fewer batches do not
/// suffice, or which node does not hold, into a buffer: 10 where the buffer is too small. `text_len` reports the length
/// of the text then too. The form is 0 for words and 1 for JSON; either reports the nodes no deeper than `depth`.
#[unsafe(no_mangle)]
pub extern "C" fn pocsag_explain(
    alloc: Global,
    pages: &[u8],
    cert: &[u8],
    form: u32,
    depth: u32,
    text: &mut [u8],
    text_len: &mut usize,
    info: &mut CheckInfo,
) -> u32
    // The verdict is that of the checker, and a text that begins with it stands in the buffer.
    ensures shown { result ≡ 0 → IsShown pages.now cert.now info.new }
    ensures not_shown { result ≡ 1 → IsNotAccepted pages.now cert.now info.new }
    ensures told { result ≡ 0 →
        IsListed (IsVerdictText form depth info.new true) text.old text.new text_len.new }
    ensures refused { result ≡ 1 →
        IsListed (IsVerdictText form depth info.new false) text.old text.new text_len.new }
    // There is a verdict and a text, but no room for the text.
    ensures judged { result ≡ 10 → IsShown pages.now cert.now info.new ⊎ IsNotAccepted pages.now cert.now info.new }
    ensures no_room { result ≡ 10 →
        HasNoRoom (IsTextOfVerdict form depth info.new) text.old text.new text_len.new }
    // Any other status says why nothing is reported, and never that a device failed. Want of memory for the text is that for the
    // certificate.
    ensures bad_form { result ≡ 11 ↔ IsNoForm form }
    ensures fault { IsWithoutVerdict result → IsUnjudged pages.now cert.now result info.new.place }
    ensures placeless { (result ≡ 0) ⊎ (result ≡ 1) ⊎ (result ≡ 10) ⊎ (result ≡ 11) → info.new.place ≡ nowhere }
    ensures nothing { result ≢ 0 → result ≢ 1 → result ≢ 10 →
        (text_len.new ≡ 0) × (info.new ≡ no_verdict info.new.place) }
    ensures of_bytes { IsOfBytes result }
    ensures untouched { result ≢ 0 → result ≢ 1 → text.new ≡ text.old }
{
    *text_len = 0;
    *info = NOT_JUDGED;
    let Some(format) = format_of(form, depth) else {
        return 11;
    };
    let verdict = match verdict_of(alloc, pages, cert) {
        Ok(verdict) => verdict,
        Err(refusal) => return refusal.put(&mut info.place),
    };
    let shown = verdict.is_shown;
    let judged = JudgedCertificate {
        round: &verdict.round,
        certificate: &verdict.certificate,
        is_shown: shown,
    };
    let mut told = GrowingSink::new(alloc);
    let Ok(()) = write_explanation(alloc, format, judged, &mut told) else {
        return 3;
    };
    *info = verdict.info;
    match hand_out(told.into_bytes().as_slice(), 10, text, text_len) {
        0 => u32::from(!shown),
        small => small,
    }
}

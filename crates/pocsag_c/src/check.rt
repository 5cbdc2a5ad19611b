ghost use Rattle.std.specs.Prelude.{◌≡◌, ◌≢◌, ◌⊎◌, IfErr, IfOk, IsFalse, IsTrue};
ghost use Rattle.pocsag_c.specs.Answers.{IsNotAccepted, IsShown, IsUnjudged, no_verdict, number_of_end};
ghost use Rattle.pocsag_c.specs.Statuses.{IsOfBytes, IsRefusing, nowhere};

use crate::refusal::{NOWHERE, Place, StatusAt, refused_certificate, refused_round};
use pocsag_pages::{Round, read_round};
use pocsag_plan::verdict_on;
use pocsag_tree::{Certificate, read_certificate};
use pocsag_words::SliceSource;
use std::alloc::Global;

/// What a check reports; all but the place is 0 where nothing was judged.
#[repr(C)]
#[derive(Clone, Copy)]
pub struct CheckInfo {
    /// The end that the certificate names: 0 for the open one, 1 for the closed one, 2 for the idle one.
    pub end: u32,
    /// The number of batches that it names.
    pub batches: u32,
    /// Where the fault stands.
    pub place: Place,
}

// What is reported where nothing is judged.
pub(crate) const NOT_JUDGED: CheckInfo = CheckInfo {
    end: 0,
    batches: 0,
    place: NOWHERE,
};

// A round and a certificate, with the verdict of the checker and what is reported of it.
#[derive(Drop)]
pub(crate) struct Verdict {
    pub(crate) round: Round,
    pub(crate) certificate: Certificate,
    pub(crate) is_shown: bool,
    pub(crate) info: CheckInfo,
}

// Judges a certificate for a page file, or refuses one of them.
pub(crate) fn verdict_of(alloc: Global, pages: &[u8], cert: &[u8]) -> Result<Verdict, StatusAt>
    ensures shown { IfOk result (λ v. IsTrue v.is_shown → IsShown pages.now cert.now v.info) }
    ensures not_shown { IfOk result (λ v. IsFalse v.is_shown → IsNotAccepted pages.now cert.now v.info) }
    ensures end { IfOk result (λ v. v.info.end ≡ number_of_end v.certificate.end) }
    ensures batches { IfOk result (λ v. v.info.batches ≡ v.certificate.batches) }
    ensures place { IfOk result (λ v. v.info.place ≡ nowhere) }
    ensures fault { IfErr result (λ r. IsUnjudged pages.now cert.now r.status r.place) }
    ensures refusing { IfErr result (λ r. IsRefusing r.status) }
    ensures of_bytes { IfErr result (λ r. IsOfBytes r.status) }
{
    let round = read_round(alloc, &mut SliceSource::new(pages)).map_err(refused_round)?;
    let mut source = SliceSource::new(cert);
    let certificate = read_certificate(alloc, &mut source).map_err(refused_certificate)?;
    let is_shown = verdict_on(&round, &certificate).is_shown;
    let info = CheckInfo {
        end: certificate.end as u32,
        batches: certificate.batches,
        place: NOWHERE,
    };
    Ok(Verdict {
        round,
        certificate,
        is_shown,
        info,
    })
}

/// Whether the certificate shows its number of batches for the page file: 0, or 1 where it does not.
#[unsafe(no_mangle)]
pub extern "C" fn pocsag_check(
    alloc: Global,
    pages: &[u8],
    cert: &[u8],
    info: &mut CheckInfo,
) -> u32
    // The page file is that of a round, and every transmission of it for the end has so many batches at least.
    ensures shown { result ≡ 0 → IsShown pages.now cert.now info.new }
    // The two can be read, and the checker does not accept the tree.
    ensures not_shown { result ≡ 1 → IsNotAccepted pages.now cert.now info.new }
    ensures placeless { (result ≡ 0) ⊎ (result ≡ 1) → info.new.place ≡ nowhere }
    // Any other status is that of the fault of one of them, with its place, and never that of a device.
    ensures fault { result ≢ 0 → result ≢ 1 → IsUnjudged pages.now cert.now result info.new.place }
    ensures nothing { result ≢ 0 → result ≢ 1 → info.new ≡ no_verdict info.new.place }
    ensures of_bytes { IsOfBytes result }
{
    *info = NOT_JUDGED;
    match verdict_of(alloc, pages, cert) {
        Ok(verdict) => {
            *info = verdict.info;
            u32::from(!verdict.is_shown)
        }
        Err(refusal) => refusal.put(&mut info.place),
    }
}

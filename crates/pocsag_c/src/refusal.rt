ghost use Rattle.std.specs.Prelude.{◌≡◌, ◌≢◌};
ghost use Rattle.pocsag_pages.specs.declared.fault.RoundFault.TheVariants as round_fault;
ghost use Rattle.pocsag_plan.specs.declared.fault.StreamFault.TheVariants as stream_fault;
ghost use Rattle.pocsag_decode.specs.declared.fault.DecodeFault.TheVariants as decode_fault;
ghost use Rattle.pocsag_c.specs.Statuses.{IsOfBytes, IsRefusing, capture_refusal, certificate_refusal, front_refusal, pager_refusal, plain_refusal, refusal_at, refusal_of_record, round_refusal, show_refusal, stream_refusal, transmission_refusal, wav_refusal};

use pocsag_capture::CaptureFault;
use pocsag_decode::DecodeFault;
use pocsag_pager::PagerFault;
use pocsag_pages::{FieldFault, PageFault, RecordFault, RoundFault};
use pocsag_plan::{PlanFault, StreamFault, UnsentFront};
use pocsag_show::ShowFault;
use pocsag_tree::CertificateFault;
use pocsag_wav::NoSound;

/// Where a fault is, and what a search knew. A number that says nothing is 0.
#[repr(C)]
#[derive(Clone, Copy, Default)]
pub struct Place {
    /// The record of the page file, counted from 1, the header not counted.
    pub record_number: u32,
    /// The least number of batches that the search could not exclude.
    pub least: u32,
    /// The number of batches that would do.
    pub found: u32,
    /// The byte in the message, the batch or the codeword, counted from 0.
    pub at: u64,
}

// A status, and the place that belongs to it.
#[derive(Clone, Copy)]
pub(crate) struct StatusAt {
    pub(crate) status: u32,
    pub(crate) place: Place,
}

impl StatusAt {
    /// Reports the place. Returns the status.
    pub(crate) fn put(self, place: &mut Place) -> u32
        ensures status { result ≡ self.status }
        ensures place { place.new ≡ self.place }
    {
        *place = self.place;
        self.status
    }
}

pub(crate) const NOWHERE: Place = Place {
    record_number: 0,
    least: 0,
    found: 0,
    at: 0,
};

// A refusal that has no place.
pub(crate) fn plain(status: u32) -> StatusAt
    ensures { result ≡ plain_refusal status }
{
    StatusAt {
        status,
        place: NOWHERE,
    }
}

// A refusal for a record of the page file, and a line, a byte, a batch or a codeword. A number that says nothing is 0.
pub(crate) fn refused_at(status: u32, record_number: u32, at: u64) -> StatusAt
    ensures { result ≡ refusal_at status record_number at }
{
    StatusAt {
        status,
        place: Place {
            record_number,
            at,
            ..NOWHERE
        },
    }
}

// A refusal for a record of this number, which is 0 for a page that stands in no file yet.
pub(crate) fn refused_record(number: u32, fault: RecordFault) -> StatusAt
    ensures value { result ≡ refusal_of_record number fault }
    ensures refusing { IsRefusing result.status }
    ensures of_bytes { IsOfBytes result.status }
{
    match fault {
        RecordFault::FieldCount => refused_at(19, number, 0),
        RecordFault::Field(FieldFault::BadAddress) => refused_at(20, number, 0),
        RecordFault::Field(FieldFault::ReservedAddress) => refused_at(21, number, 0),
        RecordFault::Field(FieldFault::BadKind) => refused_at(22, number, 0),
        RecordFault::Field(FieldFault::MessageForTone) => refused_at(23, number, 0),
        RecordFault::Field(FieldFault::EmptyMessage) => refused_at(24, number, 0),
        RecordFault::Field(FieldFault::BadCharacter(at)) => refused_at(25, number, at as u64),
        RecordFault::Field(FieldFault::TooLong) => refused_at(26, number, 0),
        RecordFault::Field(FieldFault::OutOfMemory) => plain(3),
        RecordFault::Page(PageFault::BadAddress) => refused_at(20, number, 0),
        RecordFault::Page(PageFault::ReservedAddress) => refused_at(21, number, 0),
        RecordFault::Page(PageFault::BadPayload) => refused_at(29, number, 0),
        RecordFault::DuplicateAddress => refused_at(27, number, 0),
        RecordFault::TooManyPages => refused_at(28, number, 0),
    }
}

pub(crate) fn refused_round(fault: RoundFault) -> StatusAt
    ensures value { result ≡ round_refusal fault }
    ensures refusing { IsRefusing result.status }
    ensures of_bytes { fault ≢ RoundFault.ReadFault → IsOfBytes result.status }
{
    match fault {
        RoundFault::ReadFault => plain(16),
        RoundFault::TooLarge => plain(17),
        RoundFault::BadHeader => plain(18),
        RoundFault::Record(record, fault) => refused_record(record, fault),
        RoundFault::NoPages => plain(30),
        RoundFault::OutOfMemory => plain(3),
    }
}

pub(crate) fn refused_certificate(fault: CertificateFault) -> StatusAt
    ensures value { result ≡ certificate_refusal fault }
    ensures refusing { IsRefusing result.status }
    ensures of_bytes { fault ≢ CertificateFault.ReadFault → IsOfBytes result.status }
{
    plain(match fault {
        CertificateFault::NotCertificate => 32,
        CertificateFault::Version => 33,
        CertificateFault::Truncated => 34,
        CertificateFault::Trailing => 35,
        CertificateFault::BadTag => 36,
        CertificateFault::BadField => 37,
        CertificateFault::TooDeep => 38,
        CertificateFault::TooMany => 39,
        CertificateFault::ReadFault => 40,
        CertificateFault::OutOfMemory => 3,
    })
}

pub(crate) fn refused_transmission(fault: DecodeFault) -> StatusAt
    ensures value { result ≡ transmission_refusal fault }
    ensures refusing { IsRefusing result.status }
    ensures of_bytes { fault ≢ DecodeFault.TooMuch → fault ≢ DecodeFault.Failed → IsOfBytes result.status }
{
    match fault {
        DecodeFault::ShortPreamble => plain(48),
        DecodeFault::NoSync(batch) => refused_at(49, 0, batch),
        DecodeFault::BadWord(index) => refused_at(50, 0, index),
        DecodeFault::Orphan(index) => refused_at(51, 0, index),
        DecodeFault::Truncated => plain(52),
        DecodeFault::NoBatch => plain(53),
        DecodeFault::TooMuch => plain(54),
        DecodeFault::OutOfMemory => plain(3),
        DecodeFault::Failed => plain(55),
    }
}

// A picture is written to memory, so a fault of writing is want of memory.
pub(crate) fn refused_show(fault: ShowFault) -> StatusAt
    ensures value { result ≡ show_refusal fault }
    ensures refusing { IsRefusing result.status }
    ensures of_bytes { fault ≢ ShowFault.Transmission decode_fault.TooMuch →
        fault ≢ ShowFault.Transmission decode_fault.Failed → IsOfBytes result.status }
{
    match fault {
        ShowFault::Transmission(fault) => refused_transmission(fault),
        ShowFault::WriteFault | ShowFault::OutOfMemory => plain(3),
    }
}

// A sound is written to memory, so a fault of writing is want of memory.
pub(crate) fn refused_wav(fault: NoSound) -> StatusAt
    ensures value { result ≡ wav_refusal fault }
    ensures done { (result.status ≢ 0) × (result.status ≢ 10) }
    ensures refusing { fault ≢ NoSound.BadRate → IsRefusing result.status }
    ensures of_bytes { fault ≢ NoSound.Transmission decode_fault.TooMuch →
        fault ≢ NoSound.Transmission decode_fault.Failed → IsOfBytes result.status }
{
    match fault {
        NoSound::BadRate => plain(4),
        NoSound::BadSamples => plain(60),
        NoSound::BadPreamble => plain(61),
        NoSound::Transmission(fault) => refused_transmission(fault),
        NoSound::TooLong => plain(62),
        NoSound::WriteFault => plain(3),
    }
}

pub(crate) fn refused_capture(fault: CaptureFault) -> StatusAt
    ensures value { result ≡ capture_refusal fault }
    ensures refusing { IsRefusing result.status }
    ensures of_bytes { IsOfBytes result.status }
{
    plain(match fault {
        CaptureFault::TooLarge => 56,
        CaptureFault::NoSuchTransmission { .. } => 59,
        CaptureFault::OutOfMemory => 3,
    })
}

pub(crate) fn refused_hearing(fault: PagerFault) -> StatusAt
    ensures value { result ≡ pager_refusal fault }
    ensures refusing { IsRefusing result.status }
    ensures of_bytes { fault ≢ PagerFault.Failed → IsOfBytes result.status }
{
    plain(match fault {
        PagerFault::ShortPreamble => 48,
        PagerFault::Truncated => 52,
        PagerFault::NoBatch => 53,
        PagerFault::BadAddress => 64,
        PagerFault::ReservedAddress => 65,
        PagerFault::OutOfMemory => 3,
        PagerFault::Failed => 66,
    })
}

// A text is written to memory, so a fault of writing is want of memory.
pub(crate) fn refused_stream(fault: StreamFault) -> StatusAt
    ensures value { result ≡ stream_refusal fault }
    ensures refusing { IsRefusing result.status }
    ensures of_bytes { fault ≢ stream_fault.Round round_fault.ReadFault → IsOfBytes result.status }
{
    match fault {
        StreamFault::Plan(PlanFault::BadLimit) => plain(5),
        StreamFault::Plan(PlanFault::SearchLimit(stop)) => StatusAt {
            status: 6,
            place: Place {
                least: stop.least,
                found: stop.found,
                ..NOWHERE
            },
        },
        StreamFault::Round(fault) => refused_round(fault),
        StreamFault::Plan(PlanFault::OutOfMemory)
        | StreamFault::Transmission(_)
        | StreamFault::Certificate(_) => plain(3),
    }
}

pub(crate) fn refused_front(fault: UnsentFront) -> StatusAt
    ensures value { result ≡ front_refusal fault }
    ensures refusing { IsRefusing result.status }
    ensures of_bytes { fault ≢ UnsentFront.Stream (stream_fault.Round round_fault.ReadFault) → IsOfBytes result.status }
{
    match fault {
        UnsentFront::Stream(fault) => refused_stream(fault),
        UnsentFront::FirstPage(found) => StatusAt {
            status: 12,
            place: Place { found, ..NOWHERE },
        },
    }
}

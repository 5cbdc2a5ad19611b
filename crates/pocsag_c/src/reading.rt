//! What is read of the bytes that a caller gives: these bytes, their repair, or the transmissions of a capture.
ghost use Rattle.std.specs.Prelude.{◌≡◌, IfErr, IfOk, MatchOption};
ghost use Rattle.pocsag_c.specs.Readings.{AreReadAs, IsNoReading, IsUnreadAs, bytes_in, number_of_reading};
ghost use Rattle.pocsag_c.specs.Statuses.{IsOfBytes, IsRefusing};

use crate::refusal::{StatusAt, plain, refused_capture};
use pocsag_capture::extract_all;
use pocsag_decode::repair_all;
use std::alloc::Global;

// How the bytes that a caller gives are read.
#[derive(Clone, Copy)]
pub(crate) enum Reading {
    Plain,
    Repaired,
    Captured,
}

// The reading of a number.
pub(crate) fn reading_of(number: u32) -> Option<Reading>
    ensures { MatchOption result (IsNoReading number) (λ reading. number ≡ number_of_reading reading) }
{
    match number {
        0 => Some(Reading::Plain),
        1 => Some(Reading::Repaired),
        2 => Some(Reading::Captured),
        _ => None,
    }
}

// Bytes that are read.
#[derive(Drop)]
pub(crate) enum Read<'a> {
    // Those that the caller gave.
    Given(&'a [u8]),
    // Others, which were made of them.
    Made(Vec<u8>),
}

impl<'a> Read<'a> {
    ghost use Rattle.std.specs.Prelude.{◌≡◌};
    ghost use Rattle.pocsag_c.specs.Readings.{bytes_in};

    pub(crate) fn bytes(&self) -> &[u8]
        ensures { result.now ≡ bytes_in self.now }
    {
        match self {
            Read::Given(bytes) => bytes,
            Read::Made(bytes) => bytes.as_slice(),
        }
    }
}

// What is read of the bytes that are given.
pub(crate) fn read_as<'a>(
    alloc: Global,
    reading: Reading,
    given: &'a [u8],
) -> Result<Read<'a>, StatusAt>
    ensures read { IfOk result (λ read. AreReadAs reading given.now (bytes_in read)) }
    ensures unread { IfErr result (λ r. IsUnreadAs reading given.now r.status r.place) }
    ensures refusing { IfErr result (λ r. IsRefusing r.status) }
    ensures of_bytes { IfErr result (λ r. IsOfBytes r.status) }
{
    match reading {
        Reading::Plain => Ok(Read::Given(given)),
        Reading::Repaired => match Vec::from_slice(alloc, given) {
            Ok(mut bytes) => {
                repair_all(bytes.as_mut_slice());
                Ok(Read::Made(bytes))
            }
            Err(_) => Err(plain(3)),
        },
        Reading::Captured => match extract_all(alloc, given) {
            Ok(extracted) => Ok(Read::Made(extracted.bytes)),
            Err(fault) => Err(refused_capture(fault)),
        },
    }
}

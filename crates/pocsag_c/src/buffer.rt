ghost use Rattle.std.specs.Prelude.{◌≡◌, ◌≢◌, ◌⊎◌, IfErr, IsErrAnd, IsOkAnd};
ghost use Rattle.pocsag_c.specs.Answers.{IsDelivered, IsTooSmall};
ghost use Rattle.pocsag_c.specs.Statuses.{IsOfBytes, IsRefusing, IsTextTooSmall, nowhere};

use crate::refusal::{NOWHERE, Place, StatusAt};

// Prints how many bytes there are, and puts them to the front of the buffer where they fit: 0, or `small` where they do not.
pub(crate) fn hand_out(bytes: &[u8], small: u32, buffer: &mut [u8], told: &mut usize) -> u32
    requires { small ≢ 0 }
    ensures only { (result ≡ 0) ⊎ (result ≡ small) }
    ensures delivered { result ≡ 0 → IsDelivered buffer.old buffer.new told.new bytes.now }
    ensures too_small { result ≡ small → IsTooSmall buffer.old buffer.new told.new bytes.now }
{
    *told = bytes.len();
    if bytes.len() > buffer.len() {
        return small;
    }
    buffer[..bytes.len()].copy_from_slice(bytes);
    0
}

// Hands out a text, or reports why there is none; `small` is the status where it has no room.
pub(crate) fn hand_out_text(
    made: Result<Vec<u8>, StatusAt>,
    small: u32,
    buffer: &mut [u8],
    told: &mut usize,
    place: &mut Place,
) -> u32
    requires refusing { IfErr made (λ r. IsRefusing r.status) }
    requires small { IsTextTooSmall small }
    ensures delivered { result ≡ 0 →
        IsOkAnd made (λ text. IsDelivered buffer.old buffer.new told.new text.items) }
    ensures too_small { result ≡ small →
        IsOkAnd made (λ text. IsTooSmall buffer.old buffer.new told.new text.items) }
    ensures fault { result ≢ 0 → result ≢ small →
        IsErrAnd made (λ r. (result ≡ r.status) × (place.new ≡ r.place)) }
    ensures placeless { (result ≡ 0) ⊎ (result ≡ small) → place.new ≡ nowhere }
    ensures nothing { result ≢ 0 → result ≢ small → told.new ≡ 0 }
    ensures of_bytes { IfErr made (λ r. IsOfBytes r.status) → IsOfBytes result }
    ensures untouched { result ≢ 0 → buffer.new ≡ buffer.old }
{
    match made {
        Ok(text) => {
            *place = NOWHERE;
            hand_out(text.as_slice(), small, buffer, told)
        }
        Err(refusal) => {
            *told = 0;
            refusal.put(place)
        }
    }
}

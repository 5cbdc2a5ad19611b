ghost use Rattle.std.specs.Prelude.{◌+◌, ◌^◌, ◌<◌};
ghost use Rattle.pocsag_decode.specs.PartialWords.{size_of};

use crate::body::Body;

/// A decoder of one transmission, which comes in pieces. It keeps neither bytes nor words: it holds
/// how many bytes came, how many bytes AA came first, the bytes of an unfinished word, the pages so
/// far, and whether a message codeword may follow.
#[derive(Drop)]
pub struct Decoder {
    pub(crate) has_failed: bool,
    // How many bytes AA came first.
    pub(crate) leading: u64,
    // What came after them.
    pub(crate) body: Body,
    ghost counted: { leading + size_of body.place body.partial < 2 ^ 64 },
}

//! The words of `wav`, and what help says of them.

use pocsag_shell::{ArgForm, ArgSpec, ArgType, CommandSpec, FLAG, TX_PLACE};

pub(crate) const WAV: &str = "wav";

pub(crate) const BIT_RATE: &str = "rate";

pub(crate) const SAMPLES: &str = "samples";

pub(crate) const INVERT: &str = "invert";

pub(crate) const LEAD: &str = "preamble";

pub(crate) const TAIL: &str = "tail";

const WAV_MANUAL: &str = "\
The sound goes to standard output: a WAV file of PCM samples, 16 bits and one
channel. A bit 0 has a high level and a bit 1 a low one, and the end is silent
for the time of one batch, or for --tail. Sample i belongs to bit i * R / S,
rounded down.
TX is read whole and judged as decode judges it before the first sample is
written. '-' as TX is standard input.

Example:
  pocsag wav tx.bin > tx.wav
  pocsag plan pages.csv - cert.bin | pocsag wav - --rate 512 | aplay";

const BIT_RATE_OPTION: ArgSpec = ArgSpec {
    id: BIT_RATE,
    help: "Bits a second: 512, 1200 or 2400",
    given: ArgForm::Option("R", &["1200"]),
    content: ArgType::Number,
    ..FLAG
};

const SAMPLES_OPTION: ArgSpec = ArgSpec {
    id: SAMPLES,
    help: "Samples a second, from R to 192000",
    given: ArgForm::Option("S", &["48000"]),
    content: ArgType::Number,
    ..FLAG
};

const INVERT_FLAG: ArgSpec = ArgSpec {
    id: INVERT,
    help: "Makes a bit 0 low and a bit 1 high",
    ..FLAG
};

const LEAD_OPTION: ArgSpec = ArgSpec {
    id: LEAD,
    help: "\
Sends N bits of preamble in place of those of TX: 576 or
more, a multiple of 8",
    given: ArgForm::Option("N", &[]),
    content: ArgType::Number,
    ..FLAG
};

const TAIL_OPTION: ArgSpec = ArgSpec {
    id: TAIL,
    help: "\
Ends with MS milliseconds of silence, rounded up to whole
bits, in place of the time of a batch",
    given: ArgForm::Option("MS", &[]),
    content: ArgType::Number,
    ..FLAG
};

pub(crate) const SOUND_COMMANDS: &[CommandSpec] = &[CommandSpec {
    name: WAV,
    about: "Writes a transmission as sound, for a transmitter or a receiver",
    manual: Some(WAV_MANUAL),
    words: &[
        TX_PLACE,
        BIT_RATE_OPTION,
        SAMPLES_OPTION,
        INVERT_FLAG,
        LEAD_OPTION,
        TAIL_OPTION,
    ],
}];

//! The words of `decode`, `hear` and `show`, and what help says of them.

use crate::form::ListForm;
use clap::ArgMatches;
use pocsag_shell::{ArgForm, ArgSpec, ArgType, CommandSpec, FLAG, PLACE, SVG, TX_PLACE};
use pocsag_show::{Rows, View};

pub(crate) const DECODE: &str = "decode";

pub(crate) const HEAR: &str = "hear";

pub(crate) const SHOW: &str = "show";

pub(crate) const ADDRESS: &str = "ADDRESS";

pub(crate) const REPAIR: &str = "repair";

pub(crate) const CAPTURE: &str = "capture";

pub(crate) const NTH: &str = "nth";

const AS_JSON: &str = "json";

const TEXT: &str = "text";

const LIST: &str = "list";

const ROWS: &str = "rows";

const SHOW_MANUAL: &str = "\
The first line has the totals. Then each batch has a line with its number and
a letter for each codeword, in eight frames of two: a capital letter for the
address codeword of a page, the same letter in lower case for its message
codewords, and a full stop for an idle codeword. The address of a page decides
its letter, and its hue in the drawing, so a page keeps both however its round
is sent. --rows A-B shows the batches from A to B, --rows A- those from A on,
and --rows A one batch. The whole transmission is read and checked in each
case, and rows after its last batch are refused. --repair shows the
transmission as it is after the repair. --capture shows one transmission of a
capture, each word repaired: a word past repair, and a message codeword that
it leaves without a page, are shown as idle.

Example:
  pocsag show tx.bin
  pocsag show tx.bin --svg > tx.svg
  pocsag show tx.bin --rows 3-7
  pocsag show --capture air.bin --nth 2";

// What help says of captures.
const CAPTURE_MANUAL: &str = "\
A capture holds bits off the air, eight to a byte, from any point on. A
transmission begins at each synchronisation codeword within two wrong bits, at
any bit and in either polarity. It goes on past one that cannot be recognised
where the next is in step, and counts where it has a second one or at most five
of its sixteen words are lost. Words in front of it that can be repaired, two
or more of at most one batch, are read too. Each word is repaired; a word past
repair ends the open page. The pages of all transmissions are listed in order,
each with its state: whole, or cut where a lost word, one out of step or the
end of the transmission stands directly behind what is listed of it. --json
prints the number of the transmission too, whether it was inverted, and the bit
at which its first recognised synchronisation codeword begins. --verbose tells
the bit, the polarity and the batches of each transmission, and how many bits
were corrected, words lost and pages cut.";

// What refuses a range of rows that is none.
pub(crate) const BAD_ROWS: &str = "\
invalid value for '--rows A-B': batches are counted from 1, as in 3-7, 3- or 5,
and the last is not before the first";

// What refuses functions that are none.
pub(crate) const BAD_TEXT: &str = "\
invalid value for '--text LIST': the functions are 0, 1 and 2, with commas
between them, as in 0,1,2 or 1";

const ADDRESS_PLACE: ArgSpec = ArgSpec {
    id: ADDRESS,
    help: "The pager's address, 0 to 2097151",
    content: ArgType::Number,
    ..PLACE
};

const REPAIR_FLAG: ArgSpec = ArgSpec {
    id: REPAIR,
    help: "\
Corrects up to two wrong bits in each word before it is
read, for every address; --verbose tells how many",
    excludes: &[CAPTURE],
    ..FLAG
};

const CAPTURE_FLAG: ArgSpec = ArgSpec {
    id: CAPTURE,
    help: "\
Reads a capture: bits off the air, at any offset and in
either polarity, with noise; each word is repaired",
    ..FLAG
};

const AS_JSON_FLAG: ArgSpec = ArgSpec {
    id: AS_JSON,
    help: "Prints each page as one line of JSON",
    ..FLAG
};

const TEXT_OPTION: ArgSpec = ArgSpec {
    id: TEXT,
    help: "\
Reads the messages of these functions, of 0, 1 and 2
with commas between, as alphanumeric text",
    given: ArgForm::Option("LIST", &[]),
    ..FLAG
};

const NTH_OPTION: ArgSpec = ArgSpec {
    id: NTH,
    help: "\
Shows this transmission of the capture, counted from 1;
without it the first",
    given: ArgForm::Option("N", &[]),
    content: ArgType::Number,
    needs: &[CAPTURE],
    ..FLAG
};

const SVG_FLAG: ArgSpec = ArgSpec {
    id: SVG,
    help: "Draws the transmission as an SVG picture",
    ..FLAG
};

const LIST_FLAG: ArgSpec = ArgSpec {
    id: LIST,
    help: "Lists where each page is, as CSV",
    excludes: &[SVG],
    ..FLAG
};

const ROWS_OPTION: ArgSpec = ArgSpec {
    id: ROWS,
    help: "Shows these batches alone, counted from 1",
    given: ArgForm::Option("A-B", &[]),
    excludes: &[LIST],
    ..FLAG
};

pub(crate) const SHOW_COMMAND: CommandSpec = CommandSpec {
    name: SHOW,
    about: "Shows what a transmission looks like, codeword by codeword",
    manual: Some(SHOW_MANUAL),
    words: &[
        TX_PLACE,
        SVG_FLAG,
        ROWS_OPTION,
        LIST_FLAG,
        REPAIR_FLAG,
        CAPTURE_FLAG,
        NTH_OPTION,
    ],
};

pub(crate) const DECODE_COMMAND: CommandSpec = CommandSpec {
    name: DECODE,
    about: "Lists the pages of a transmission",
    manual: Some(CAPTURE_MANUAL),
    words: &[
        TX_PLACE,
        REPAIR_FLAG,
        CAPTURE_FLAG,
        AS_JSON_FLAG,
        TEXT_OPTION,
    ],
};

pub(crate) const HEAR_COMMAND: CommandSpec = CommandSpec {
    name: HEAR,
    about: "Lists what one pager shows, past two wrong bits in each codeword",
    manual: Some(CAPTURE_MANUAL),
    words: &[
        ADDRESS_PLACE,
        TX_PLACE,
        AS_JSON_FLAG,
        TEXT_OPTION,
        CAPTURE_FLAG,
    ],
};

// The commands in the order of help.
pub(crate) const RECEIVER_COMMANDS: &[CommandSpec] = &[DECODE_COMMAND, HEAR_COMMAND, SHOW_COMMAND];

// The number of decimal digits alone.
fn number_of(word: &str) -> Option<u64> {
    if word.starts_with('+') {
        return None;
    }
    word.parse::<u64>().ok()
}

/// How `show` is asked to show a transmission; the rows are A-B, A- or A. Nothing where the word for
/// them names none.
pub(crate) fn wanted_view(found: &ArgMatches<'_>) -> Option<View> {
    let rows = match found.get_str(ROWS) {
        Some(word) => {
            let (first, last) = word.split_once('-').unwrap_or((word, word));
            let last = if last.is_empty() {
                u64::MAX
            } else {
                number_of(last)?
            };
            Rows::new(number_of(first)?, last)?
        }
        None => Rows::all(),
    };
    Some(if found.get_flag(SVG) {
        View::Drawing(rows)
    } else if found.get_flag(LIST) {
        View::Places
    } else {
        View::Grid(rows)
    })
}

/// The form in which `decode` and `hear` are asked to list pages. Nothing where the word for functions names another than 0, 1
/// and 2.
pub(crate) fn wanted_form(found: &ArgMatches<'_>) -> Option<ListForm> {
    let mut texts = [false; 3];
    let word = found.get_str(TEXT);
    if let Some(word) = word {
        for name in word.split(',') {
            match name {
                "0" => texts[0] = true,
                "1" => texts[1] = true,
                "2" => texts[2] = true,
                _ => return None,
            }
        }
    }
    Some(if found.get_flag(AS_JSON) {
        ListForm::Json(texts)
    } else if word.is_some() {
        ListForm::Texts(texts)
    } else {
        ListForm::Listing
    })
}

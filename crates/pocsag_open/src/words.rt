//! The words of `open`.

use pocsag_shell::{
    ALWAYS, ALWAYS_FLAG, ArgForm, ArgSpec, ArgType, CommandSpec, EXPECT, FLAG, KEEP, KEEP_FLAG,
    PAGES, PLACE, STRICT,
};

pub(crate) const ROUND: &str = "open";

pub(crate) const JOURNAL: &str = "journal";

pub(crate) const READ_ONLY: &str = "read-only";

const MANUAL: &str = "\
Each line of standard input is an edit, and is answered at once by one line:
  add,ADDRESS,KIND,MESSAGE   adds a page, its fields as in a page file
  cancel,ADDRESS             takes the page of that address out
  list                       lists the pages, before the answer
  plan,TX,CERT[,END]         writes both files as the command plan does; END is
                             open, closed or idle
  plan,TX,CERT,END,B         the same of the longest front that B batches carry,
                             whose pages are taken out
  sent,K                     takes the first K pages out
  clear                      takes all pages out
A line is a CSV record of at most 65536 bytes. The answer is 'ok N' with the
number of pages, 'batches B' after plan, or 'batches N, sent K' if it took K
pages out, or 'refused: ' and why: the round is then as it was. With --always
no plan is refused at the limit; where the batches may be one more than the
fewest, ', at least N' follows. The end of the input ends the program.

Example:
  printf 'add,8,tone0,\\nplan,tx.bin,cert.bin\\n' | pocsag open";

const FIRST_PAGES_PLACE: ArgSpec = ArgSpec {
    id: PAGES,
    help: "The page file that the round begins with",
    is_required: false,
    ..PLACE
};

const JOURNAL_OPTION: ArgSpec = ArgSpec {
    id: JOURNAL,
    help: "\
Keeps each edit in FILE before it is answered, and
begins with the edits that FILE holds",
    given: ArgForm::Option("FILE", &[]),
    ..FLAG
};

const READ_ONLY_FLAG: ArgSpec = ArgSpec {
    id: READ_ONLY,
    help: "\
Lists the pages of the journal as a page file, and
ends; FILE is neither locked nor changed",
    needs: &[JOURNAL],
    excludes: &[PAGES, EXPECT, STRICT, ALWAYS, KEEP],
    ..FLAG
};

const PAGES_EXPECTED_OPTION: ArgSpec = ArgSpec {
    id: EXPECT,
    help: "\
How many pages PAGES must have: a page file of another
number is refused",
    given: ArgForm::Option("N", &[]),
    content: ArgType::Number,
    needs: &[PAGES],
    ..FLAG
};

const STRICT_PAGES_FLAG: ArgSpec = ArgSpec {
    id: STRICT,
    help: "\
Refuses PAGES with a quote that is not closed or stands
inside a field",
    needs: &[PAGES],
    ..FLAG
};

pub(crate) const ROUND_COMMANDS: &[CommandSpec] = &[CommandSpec {
    name: ROUND,
    about: "Keeps an open round, which lines of standard input edit and plan",
    manual: Some(MANUAL),
    words: &[
        FIRST_PAGES_PLACE,
        JOURNAL_OPTION,
        READ_ONLY_FLAG,
        PAGES_EXPECTED_OPTION,
        STRICT_PAGES_FLAG,
        ALWAYS_FLAG,
        KEEP_FLAG,
    ],
}];

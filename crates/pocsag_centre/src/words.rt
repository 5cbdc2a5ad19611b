//! The words of the commands, as tables.

use pocsag_shell::{
    ALWAYS_FLAG, ArgForm, ArgSpec, ArgType, CERT_PLACE, CommandSpec, EXPECT, FLAG, KEEP_FLAG,
    PAGES_PLACE, PLACE, STRICT, SVG, TX_PLACE,
};

// The commands.
pub(crate) const PLAN: &str = "plan";

pub(crate) const CHECK: &str = "check";

pub(crate) const REPORT: &str = "report";

pub(crate) const EXPLAIN: &str = "explain";

// Their words.
pub(crate) const RATE: &str = "rate";

pub(crate) const LIMIT: &str = "limit";

pub(crate) const END: &str = "end";

pub(crate) const IDLE_LAST: &str = "idle-last";

pub(crate) const VERIFY: &str = "verify";

pub(crate) const EACH_FRAME: &str = "frames";

pub(crate) const DEPTH: &str = "depth";

pub(crate) const JSON: &str = "json";

pub(crate) const AT_MOST: &str = "at-most";

pub(crate) const AIRTIME: &str = "airtime";

pub(crate) const REST: &str = "rest";

pub(crate) const WHY: &str = "why";

pub(crate) const LATER: &str = "later";

pub(crate) const OVERSIZED: &str = "oversized";

// The names of the ends.
pub(crate) const OPEN_END: &str = "open";

pub(crate) const CLOSED_END: &str = "closed";

pub(crate) const IDLE_END: &str = "idle";

// Its word is `DEFAULT_LIMIT` of `pocsag_plan`.
const LIMIT_OPTION: ArgSpec = ArgSpec {
    id: LIMIT,
    help: "\
How many nodes the search may examine, 1 to 1000000.
The first look, of up to 20000 of a first kind, does
not count",
    given: ArgForm::Option("N", &["100000"]),
    content: ArgType::Number,
    ..FLAG
};

const END_OPTION: ArgSpec = ArgSpec {
    id: END,
    help: "\
What ends the last message: the end of the transmission
(open), an idle or an address codeword behind it
(closed), or an idle codeword, the last of all (idle)
",
    given: ArgForm::Option("END", &[OPEN_END]),
    content: ArgType::Choice(&[OPEN_END, CLOSED_END, IDLE_END]),
    ..FLAG
};

const IDLE_LAST_FLAG: ArgSpec = ArgSpec {
    id: IDLE_LAST,
    help: "\
The same as --end idle: some receivers show a page only
when another codeword than a message follows it",
    excludes: &[END],
    ..FLAG
};

const EXPECT_OPTION: ArgSpec = ArgSpec {
    id: EXPECT,
    help: "\
How many pages the round must have: a round of another
number is refused",
    given: ArgForm::Option("N", &[]),
    content: ArgType::Number,
    ..FLAG
};

pub(crate) const STRICT_FLAG: ArgSpec = ArgSpec {
    id: STRICT,
    help: "\
Refuses a page file with a quote that is not closed or
stands inside a field",
    ..FLAG
};

// What refuses --strict in front of a command.
pub(crate) const EARLY_STRICT: &str =
    "--strict stands behind the name of its command, plan, report or open";

const AT_MOST_OPTION: ArgSpec = ArgSpec {
    id: AT_MOST,
    help: "Plans the first pages, as many as B batches carry",
    given: ArgForm::Option("B", &[]),
    content: ArgType::Number,
    excludes: &[AIRTIME],
    ..FLAG
};

const AIRTIME_OPTION: ArgSpec = ArgSpec {
    id: AIRTIME,
    help: "\
The same for the most batches that last at most MS
milliseconds at the rate R, as report tells it",
    given: ArgForm::Option("MS", &[]),
    content: ArgType::Number,
    needs: &[RATE],
    ..FLAG
};

const LATER_FLAG: ArgSpec = ArgSpec {
    id: LATER,
    help: "\
Leaves each page to REST whose address an earlier page
of the file has: no such page is a fault then",
    needs: &[REST],
    ..FLAG
};

const PLAN_MANUAL: &str = "\
The page file is CSV with the header address,kind,message. The command opens
it, makes TX and CERT or empties them, and then reads it: after a refusal they
are empty, unless --keep is given. '-' as PAGES is standard input, and as TX or
CERT standard output: the lines then go to standard error. The command refuses
a file that stands behind standard output or standard error. It refuses a round
whose search reaches the limit. With --always it answers every round: nearly
always with the fewest batches, and otherwise with one more than the
certificate shows to be needed. A third line, 'at least N batches', then gives
that bound.

With --at-most or --airtime the command plans the longest front of the file:
its first pages, as many as so many batches carry, in the order of the file. It
adds the line 'left L', the number of the other pages. If not even the first
page fits, REST and the FILE of --why stay as they are. With --later the file
may have several pages for one address: the round is the first page of each,
and REST is every other page, in the order of the file.

Example:
  pocsag plan pages.csv tx.bin cert.bin --strict --always --verify --keep
  pocsag plan queue.csv tx.bin cert.bin --at-most 9 --rest rest.csv --keep";

pub(crate) const PLAN_COMMAND: CommandSpec = CommandSpec {
    name: PLAN,
    about: "Writes a page file's transmission and the certificate of its bound",
    manual: Some(PLAN_MANUAL),
    words: &[
        PAGES_PLACE,
        TX_PLACE,
        CERT_PLACE,
        LIMIT_OPTION,
        END_OPTION,
        IDLE_LAST_FLAG,
        EXPECT_OPTION,
        STRICT_FLAG,
        ALWAYS_FLAG,
        ArgSpec {
            id: VERIFY,
            help: "\
Reads TX and CERT back and compares them with the page
file",
            ..FLAG
        },
        KEEP_FLAG,
        AT_MOST_OPTION,
        AIRTIME_OPTION,
        ArgSpec {
            id: RATE,
            help: "Bits a second for --airtime: 512, 1200 or 2400",
            given: ArgForm::Option("R", &[]),
            content: ArgType::Number,
            needs: &[AIRTIME],
            excludes: &[AT_MOST],
            ..FLAG
        },
        ArgSpec {
            id: REST,
            help: "Writes the pages that are left to the page file REST",
            given: ArgForm::Option("REST", &[]),
            ..FLAG
        },
        ArgSpec {
            id: WHY,
            help: "\
Writes a certificate that the first pages and one more
need more batches, if pages are left",
            given: ArgForm::Option("FILE", &[]),
            ..FLAG
        },
        LATER_FLAG,
        ArgSpec {
            id: OVERSIZED,
            help: "\
Writes the pages that alone need more batches to F
and plans the others; adds the line 'oversized N'",
            given: ArgForm::Option("F", &[]),
            ..FLAG
        },
    ],
};

pub(crate) const CHECK_COMMAND: CommandSpec = CommandSpec {
    name: CHECK,
    about: "Says whether a certificate shows that fewer batches do not suffice",
    manual: None,
    words: &[PAGES_PLACE, CERT_PLACE],
};

// What refuses --oversized of `report` where nothing bounds the batches.
pub(crate) const BAD_SLOT: &str = "\
error: --oversized goes with --at-most or --airtime

For more information, try 'pocsag report --help'.
";

pub(crate) const REPORT_COMMAND: CommandSpec = CommandSpec {
    name: REPORT,
    about: "Reports what the plan of a page file takes on the air",
    manual: None,
    words: &[
        PAGES_PLACE,
        ArgSpec {
            id: RATE,
            help: "Bits a second: 512, 1200 or 2400",
            given: ArgForm::Option("R", &[]),
            content: ArgType::Number,
            ..PLACE
        },
        LIMIT_OPTION,
        END_OPTION,
        IDLE_LAST_FLAG,
        EXPECT_OPTION,
        STRICT_FLAG,
        ALWAYS_FLAG,
        ArgSpec {
            id: EACH_FRAME,
            help: "\
Adds a line for each frame: its pages, their codewords,
and the idles in its two slots, the least room first",
            excludes: &[AT_MOST, AIRTIME, LATER],
            ..FLAG
        },
        // The words for the front that it reports on. It writes no file, so none of them names one.
        ArgSpec {
            help: "\
Reports on the first pages, as many as B batches carry,
as plan sends them; adds the line 'left L'",
            ..AT_MOST_OPTION
        },
        AIRTIME_OPTION,
        ArgSpec {
            help: "\
Leaves each page whose address an earlier page of the
file has: no such page is a fault then",
            needs: &[],
            ..LATER_FLAG
        },
        ArgSpec {
            id: OVERSIZED,
            help: "\
Leaves out the pages that alone need more batches;
adds the line 'oversized N'",
            ..FLAG
        },
    ],
};

const EXPLAIN_MANUAL: &str = "\
The first line gives the batches that are shown, the codewords of the round and
the room of one batch less. Then each node of the certificate has a line,
indented as the tree is. An overload names slots in which more codewords must
stand than there is room for. A cut names boundaries that no transmission stays
inside, and has a node below it for each way out. A split has two cases. Where
a node does not hold, the command prints 'not shown' and the first such node
with the reason, and the status is 1. '-' as PAGES or CERT is standard input.

Example:
  pocsag explain pages.csv cert.bin
  pocsag explain pages.csv cert.bin --svg > cert.svg";

pub(crate) const EXPLAIN_COMMAND: CommandSpec = CommandSpec {
    name: EXPLAIN,
    about: "Explains why fewer batches do not suffice, by the certificate",
    manual: Some(EXPLAIN_MANUAL),
    words: &[
        PAGES_PLACE,
        CERT_PLACE,
        ArgSpec {
            id: DEPTH,
            help: "\
The depth of the deepest nodes that have a line; the
nodes below them are counted",
            given: ArgForm::Option("N", &["3"]),
            content: ArgType::Number,
            ..FLAG
        },
        ArgSpec {
            id: JSON,
            help: "Prints the same facts as JSON",
            ..FLAG
        },
        ArgSpec {
            id: SVG,
            help: "\
Draws the root and the nodes right below it as an SVG
picture: the slots as columns, what must stand in each,
and the room",
            excludes: &[JSON, DEPTH],
            ..FLAG
        },
    ],
};

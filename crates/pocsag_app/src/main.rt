#![tactic(auto)]
//! The program `pocsag`: the list of its groups of commands, and what help says of the whole.

use pocsag_centre::Centre;
use pocsag_open::RoundGroup;
use pocsag_receiver::Receiver;
use pocsag_shell::{CommandSpec, GroupPair, run};
use pocsag_sound::Sound;
use std::process::ExitCode;

const POCSAG: CommandSpec = CommandSpec {
    name: "pocsag",
    about: "\
Plans POCSAG transmissions with the fewest batches, and proves that fewer do not
suffice. With no words: reads a page file from standard input and tells its
pages and fewest batches",
    manual: Some(
        "\
Page files are CSV with the header address,kind,message. Kinds of pages:
  tone0 tone1 tone2 tone3  no message
  numeric                  1 to 4000 of the characters 0123456789*U -][
  alpha                    1 to 4000 characters of codes 1 to 127
Limits: 1 to 20000 pages, one to an address, addresses 0 to 2097151 (sixteen are
reserved), page files and transmissions of at most 268435456 bytes.
With --always the commands plan, report and open do not stop at the limit of the
search. With --strict the commands plan, report and open, and the program with
no words, refuse a page file with a quote that is not closed.
Exit status: 0 done, 1 refused or not shown, 2 usage, 3 a file or memory.

Example:
  pocsag plan pages.csv tx.bin cert.bin && pocsag check pages.csv cert.bin
  pocsag < pages.csv",
    ),
    words: &[],
};

fn main(rt: HostRuntime) -> ExitCode {
    let groups = &GroupPair(Centre, GroupPair(Receiver, GroupPair(Sound, RoundGroup)));
    ExitCode::from(run(&rt, &POCSAG, groups))
}

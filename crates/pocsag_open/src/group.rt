use crate::fault::OpenFault;
use crate::kept_round::open_journal;
use crate::round_files::{OpenArgs, RoundFiles, load_pages};
use crate::session::{run_open, run_open_pages};
use crate::words::{JOURNAL, READ_ONLY, ROUND, ROUND_COMMANDS};
use clap::{ArgMatches, Error};
use pocsag_plan::OnLimit;
use pocsag_shell::{
    ALWAYS, Call, Context, EXPECT, Group, KEEP, NamedFile, PAGES, Role, STRICT, SystemDevice,
    Tables,
};
use std::alloc::AllocError;

/// The group of the open round: the command `open`.
pub struct RoundGroup;

impl Group for RoundGroup {
    fn add_to(&self, tables: &mut Tables) -> Result<(), AllocError> {
        tables.commands.extend_from_slice(ROUND_COMMANDS)
    }

    fn run(&self, context: Context<'_>, call: Call<'_, '_>) -> Option<Result<u8, Error>> {
        if call.name != Some(ROUND) {
            return None;
        }
        let args = OpenArgs {
            pages: call.found.get_str(PAGES),
            journal: call.found.get_str(JOURNAL),
            read_only: call.found.get_flag(READ_ONLY),
            expect: call.found.get_one::<u32>(EXPECT),
            strict: call.found.get_flag(STRICT),
            on_limit: if call.found.get_flag(ALWAYS) {
                OnLimit::Always
            } else {
                OnLimit::Fewest
            },
            keep: call.found.get_flag(KEEP),
        };
        let files = [
            NamedFile(Role::PageFile, args.pages),
            NamedFile(Role::Journal, args.journal),
        ];
        let done = match args.journal {
            Some(path) => open_journal(context, args, path),
            None => open_round(context, args),
        };
        if let Err(fault) = &done {
            if let Some(role) = fault.refused() {
                context.diagnostics.note_refusal(role);
            }
        }
        Some(Ok(context.end(&files, done)))
    }
}

// Keeps an open round in memory alone. Returns the exit status.
fn open_round(context: Context<'_>, args: OpenArgs<'_>) -> Result<u8, OpenFault> {
    let mut settings = RoundFiles::settings(context, args);
    let mut input = SystemDevice::new(context.rt.stdin(), Role::Lines, context.diagnostics);
    let mut out = context.out();
    let Some(path) = args.pages else {
        run_open(context.alloc, &mut settings, &mut input, &mut out)?;
        return Ok(0);
    };
    let mut pages = load_pages(context, args, path)?;
    run_open_pages(
        context.alloc,
        &mut settings,
        &mut pages,
        &mut input,
        &mut out,
    )?;
    Ok(0)
}

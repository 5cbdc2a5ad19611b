//! Builds the parser of the command line from the tables of words.

use crate::group::{Group, Tables};
use crate::words::{ArgForm, ArgSpec, ArgType, CommandSpec, VERBOSE_FLAG};
use clap::{Arg, ArgAction, Command, value_parser};
use std::alloc::{AllocError, Global};

// The version of the program, and the line that `rt version` prints for the toolchain that proved it.
const VERSION: &str = "1.2.1, proved by rattle-kit-13f logic dac8208d650f15bf";

fn argument<'a>(alloc: Global, word: &ArgSpec) -> Result<Arg<'a>, AllocError> {
    let argument = Arg::new(alloc, word.id);
    let argument = match word.content {
        ArgType::Text => argument,
        ArgType::Number => argument.value_parser(value_parser!(u32)),
        ArgType::Choice(names) => argument.value_parser(names),
    };
    let argument = match word.given {
        ArgForm::Place => argument,
        ArgForm::Flag => argument.long(word.id).action(ArgAction::SetTrue),
        ArgForm::Option(name, defaults) => argument
            .long(word.id)
            .value_name(name)
            .default_values(defaults),
    };
    argument
        .help(word.help)
        .required(word.is_required)
        .global(word.is_global)
        .requires_all(word.needs)?
        .conflicts_with_all(word.excludes)
}

/// Builds a command.
pub fn command<'a>(alloc: Global, spec: &CommandSpec) -> Result<Command<'a>, AllocError> {
    let mut command = Command::new(alloc, spec.name).about(spec.about);
    if let Some(manual) = spec.manual {
        command = command.after_help(manual);
    }
    for word in spec.words {
        command = command.arg(argument(alloc, word)?)?;
    }
    Ok(command)
}

/// Builds the program. It takes what the group takes, and `--verbose`.
pub(crate) fn program<'a, G: Group>(
    alloc: Global,
    spec: &CommandSpec,
    group: &G,
) -> Result<Command<'a>, AllocError> {
    let mut tables = Tables {
        commands: Vec::new(alloc),
        words: Vec::new(alloc),
    };
    group.add_to(&mut tables)?;
    tables.words.push(VERBOSE_FLAG)?;
    let mut program = command(alloc, spec)?.version(VERSION).bin_name(spec.name)?;
    for word in &tables.words {
        program = program.arg(argument(alloc, word)?)?;
    }
    for spec in &tables.commands {
        program = program.subcommand(command(alloc, spec)?)?;
    }
    Ok(program)
}

use crate::context::Context;
use crate::words::{ArgSpec, CommandSpec};
use clap::{ArgMatches, Error};
use std::alloc::AllocError;

/// What the command line asks for.
#[derive(Clone, Copy)]
pub struct Call<'a, 'm> {
    /// The name of the command, if the user named one.
    pub name: Option<&'m str>,
    /// The words of the command, or those of the program if the user named no command.
    pub found: &'m ArgMatches<'a>,
}

/// What the groups add to the program.
#[derive(Drop)]
pub struct Tables {
    /// The commands, in the order of help.
    pub commands: Vec<CommandSpec>,
    /// The words that the program takes without a command.
    pub words: Vec<ArgSpec>,
}

/// A group of commands.
pub trait Group {
    /// Adds the group's tables to those of the groups before it.
    fn add_to(&self, tables: &mut Tables) -> Result<(), AllocError>;

    /// The error text for words of the group that stand in front of a command, if there are any. `_found` holds the words of
    /// the program.
    fn misplaced(&self, _found: &ArgMatches<'_>) -> Option<&'static str> {
        None
    }

    /// Carries out a call and returns the exit status, or an error in the words. `None` means that the call is not for this
    /// group.
    fn run(&self, context: Context<'_>, call: Call<'_, '_>) -> Option<Result<u8, Error>>;
}

/// Two groups as one. Help lists the commands of the first in front.
pub struct GroupPair<A: Group, B: Group>(pub A, pub B);

impl<A: Group, B: Group> Group for GroupPair<A, B> {
    fn add_to(&self, tables: &mut Tables) -> Result<(), AllocError> {
        self.0.add_to(tables)?;
        self.1.add_to(tables)
    }

    fn misplaced(&self, found: &ArgMatches<'_>) -> Option<&'static str> {
        self.0.misplaced(found).or_else(|| self.1.misplaced(found))
    }

    fn run(&self, context: Context<'_>, call: Call<'_, '_>) -> Option<Result<u8, Error>> {
        self.0
            .run(context, call)
            .or_else(|| self.1.run(context, call))
    }
}

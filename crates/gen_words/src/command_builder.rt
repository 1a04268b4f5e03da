//! Commands of the command line that are made part by part.
ghost use Rattle.std.specs.Prelude.{◌≡◌, IfOk, false, true};
ghost use Rattle.clap.specs.Words.{app_of, new_app, rule_of, with_rule, with_subcommand};
ghost use Rattle.clap.specs.declared.builder.command.Command.TheViews.{out-Command as fields_of};

use clap::{Arg, Command};
use std::alloc::{AllocError, Global};

/// A command whose arguments and commands are given one by one. If memory is refused for one, `finish` tells it. So
/// whoever makes a command looks for a refusal once.
#[derive(Drop)]
pub(crate) struct CommandBuilder<'a> {
    alloc: Global,
    pub(crate) command: Command<'a>,
    pub(crate) refused: bool,
}

impl<'a> CommandBuilder<'a> {
    /// Returns this command, to which more is added.
    pub(crate) fn of(alloc: Global, command: Command<'a>) -> CommandBuilder<'a>
        ensures { result.command ≡ command.entry }
    {
        CommandBuilder {
            alloc,
            command,
            refused: false,
        }
    }

    /// Returns a command of this name.
    pub(crate) fn new(alloc: Global, name: &'a str, about: &'a str) -> CommandBuilder<'a>
        ensures app { app_of result.command ≡ new_app name.entry.now }
        ensures local { (fields_of result.command).has_globals ≡ false }
    {
        CommandBuilder::of(alloc, Command::new(alloc, name).about(about))
    }

    /// Returns the command that is left if memory was refused.
    fn without(alloc: Global) -> CommandBuilder<'a>
        ensures refused { result.refused ≡ true }
        ensures local { (fields_of result.command).has_globals ≡ false }
    {
        CommandBuilder {
            alloc,
            command: Command::new(alloc, ""),
            refused: true,
        }
    }

    /// Returns the command with an argument more.
    pub(crate) fn arg(self, arg: Arg<'a>) -> CommandBuilder<'a>
        requires local { arg.global ≡ false }
        requires plain { (fields_of self.command).has_globals ≡ false }
        ensures kept { result.refused ≡ false → self.entry.refused ≡ false }
        ensures app { result.refused ≡ false
            → app_of result.command ≡ with_rule (app_of self.entry.command) (rule_of arg.entry) }
        ensures local { (fields_of result.command).has_globals ≡ false }
    {
        match self.command.arg(arg) {
            Ok(command) => CommandBuilder {
                alloc: self.alloc,
                command,
                refused: self.refused,
            },
            Err(_) => CommandBuilder::without(self.alloc),
        }
    }

    /// Returns the command with a command more.
    pub(crate) fn subcommand(self, more: CommandBuilder<'a>) -> CommandBuilder<'a>
        requires { (fields_of more.command).has_globals ≡ false }
        ensures kept { result.refused ≡ false → self.entry.refused ≡ false }
        ensures more { result.refused ≡ false → more.entry.refused ≡ false }
        ensures app { result.refused ≡ false → app_of result.command
            ≡ with_subcommand (app_of self.entry.command) (app_of more.entry.command).top }
    {
        match self.command.subcommand(more.command) {
            Ok(command) => CommandBuilder {
                alloc: self.alloc,
                command,
                refused: self.refused || more.refused,
            },
            Err(_) => CommandBuilder::without(self.alloc),
        }
    }

    /// Returns the command. It fails only if memory was refused for a part.
    pub(crate) fn finish(self) -> Result<Command<'a>, AllocError>
        ensures whole { IfOk result (λ _. self.entry.refused ≡ false) }
        ensures command { IfOk result (λ c. c ≡ self.entry.command) }
    {
        if self.refused {
            Err(AllocError)
        } else {
            Ok(self.command)
        }
    }
}

//! What clap is told of the tools.
ghost use Rattle.std.specs.Prelude.{◌≡◌, false, fold, IfOk};
ghost use Rattle.clap.specs.Words.{app_of, new_app, rule_of};
ghost use Rattle.clap.specs.declared.builder.command.Command.TheViews.{out-Command as fields_of};
ghost use Rattle.rec_command.specs.proving.Tools.{rule_of_argument, usage_in};
ghost use Rattle.rec_command.specs.Usage.{plain_usage, usage, with_tool};

use super::help::{ABOUT, PROGRAM_HELP, VERSION};
use crate::options::{Argument, Takes, Written};
use crate::tools::{TOOLS, Tool, Usage};
use clap::{Arg, ArgAction, Command};
use std::alloc::{AllocError, Global};

impl Argument {
    /// What clap is told of it.
    fn arg<'a>(&self, alloc: Global) -> Arg<'a>
        ensures rule { rule_of result ≡ rule_of_argument self.now }
        ensures alone { result.global ≡ false }
    {
        let named = Arg::new(alloc, self.name).help(self.help);
        let written = match self.written {
            Written::Name => named.long(self.name),
            Written::Letter(letter) => named.short(letter),
            Written::Both(letter) => named.short(letter).long(self.name),
            Written::Word => named,
            Written::NeededWord => named.required(true),
        };
        match self.takes {
            Takes::Nothing => written.action(ArgAction::SetTrue),
            Takes::Value(value) => written.value_name(value),
            Takes::Values(value) => written.value_name(value).action(ArgAction::Append),
        }
    }
}

impl Usage {
    /// What clap is told of it.
    fn command<'a>(&self, alloc: Global) -> Result<Command<'a>, AllocError>
        ensures usage { IfOk result (λ command. app_of command ≡ usage_in self.now) }
        ensures alone { IfOk result (λ command. (fields_of command).has_globals ≡ false) }
    {
        let mut command = self.texts(alloc);
        for argument in self.arguments {
            command = command.arg(argument.arg(alloc))?;
        }
        Ok(command)
    }

    /// Its texts.
    fn texts<'a>(&self, alloc: Global) -> Command<'a>
        ensures usage { app_of result ≡ new_app self.now.name.now }
        ensures alone { (fields_of result).has_globals ≡ false }
    {
        let plain = Command::new(alloc, self.name)
            .about(self.about)
            .after_help(self.after_help);
        let described = match self.long_about {
            Some(text) => plain.long_about(text),
            None => plain,
        };
        match self.usage {
            Some(lines) => described.override_usage(lines),
            None => described,
        }
    }
}

/// The program with all tools.
pub fn command<'a>(alloc: Global) -> Result<Command<'a>, AllocError>
    ensures { IfOk result (λ command. app_of command ≡ usage) }
{
    with_tools(alloc, program(alloc)?, TOOLS.as_slice())
}

/// The program without its tools.
fn program<'a>(alloc: Global) -> Result<Command<'a>, AllocError>
    ensures { IfOk result (λ command. app_of command ≡ plain_usage) }
{
    let named = Command::new(alloc, "recu").bin_name("recu")?;
    Ok(
        named
            .no_binary_name(true)
            .version(VERSION)
            .propagate_version(true)
            .about(ABOUT)
            .after_help(PROGRAM_HELP)
            .arg_required_else_help(true)
            .subcommand_required(true),
    )
}

/// The program with these tools after those that it has.
fn with_tools<'a>(
    alloc: Global,
    mut program: Command<'a>,
    tools: &[Tool],
) -> Result<Command<'a>, AllocError>
    ensures { IfOk result (λ command. app_of command ≡ fold with_tool (app_of program.entry) tools.now) }
{
    for tool in tools {
        program = program.subcommand(tool.usage().command(alloc)?)?;
    }
    Ok(program)
}

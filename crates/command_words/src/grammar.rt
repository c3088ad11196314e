// The commands as clap has them.
ghost use Rattle.std.specs.Prelude.{◌≡◌, true, false, codes, IfOk, IfErr, string_bytes, map};
ghost use Rattle.clap.specs.Words.{app_of, rule_of, subcommand_of, subcommand_rows_of, with_rule, with_subcommand, new_app};
ghost use Rattle.clap.specs.Faults.{fault_of};
ghost use Rattle.clap.specs.Simple.{on_top};
ghost use Rattle.clap.specs.Walk.{is_empty};
ghost use Rattle.clap.specs.declared.builder.command.Command.TheViews.{out-Command as fields_of};
ghost use Rattle.command_words.specs.Commands.{pipe as pipe_app, load as load_app, play as play_app, inbox as inbox_app, door as door_app, serve as serve_app, writer as writer_app, edit as edit_app, storeless as storeless_app, storing as storing_app, serving as serving_app, wave as wave_app, plain_top, option_rule, flag_rule};

use crate::command::WordsFault;
use clap::error::ErrorKind;
use clap::{Arg, ArgAction, ArgMatches, Command};
use std::alloc::{AllocError, Global};

// An option with a value.
fn option<'a>(alloc: Global, name: &'a str, needed: bool) -> Arg<'a>
    ensures rule { rule_of result ≡ option_rule name.now needed }
    ensures global { result.global ≡ false }
{
    Arg::new(alloc, name)
        .long(name)
        .required(needed)
        .action(ArgAction::Set)
}

// An option without a value.
fn flag<'a>(alloc: Global, name: &'a str) -> Arg<'a>
    ensures rule { rule_of result ≡ flag_rule name.now }
    ensures global { result.global ≡ false }
{
    Arg::new(alloc, name).long(name).action(ArgAction::SetTrue)
}

// The program, without its commands.
fn top<'a>(alloc: Global) -> Command<'a>
    ensures app { app_of result ≡ on_top plain_top (new_app (codes "wave")) }
{
    Command::new(alloc, "wave")
        .no_binary_name(true)
        .disable_help_flag(true)
        .disable_help_subcommand(true)
        .disable_version_flag(true)
        .subcommand_required(true)
}

fn pipe<'a>(alloc: Global) -> Result<Command<'a>, AllocError>
    ensures app { IfOk result (λ c. app_of c ≡ pipe_app) }
    ensures local { IfOk result (λ c. (fields_of c).has_globals ≡ false) }
{
    Command::new(alloc, "pipe").arg(option(alloc, "store", false))
}

fn load<'a>(alloc: Global) -> Result<Command<'a>, AllocError>
    ensures app { IfOk result (λ c. app_of c ≡ load_app) }
    ensures local { IfOk result (λ c. (fields_of c).has_globals ≡ false) }
{
    let count = Arg::new(alloc, "count").required(true);
    Command::new(alloc, "load").arg(count)
}

fn play<'a>(alloc: Global) -> Result<Command<'a>, AllocError>
    ensures app { IfOk result (λ c. app_of c ≡ play_app) }
    ensures local { IfOk result (λ c. (fields_of c).has_globals ≡ false) }
{
    Command::new(alloc, "play")
        .arg(option(alloc, "store", true))?
        .arg(option(alloc, "wavelet", true))
}

fn inbox<'a>(alloc: Global) -> Result<Command<'a>, AllocError>
    ensures app { IfOk result (λ c. app_of c ≡ inbox_app) }
    ensures local { IfOk result (λ c. (fields_of c).has_globals ≡ false) }
{
    Command::new(alloc, "inbox")
        .arg(option(alloc, "store", true))?
        .arg(option(alloc, "user", true))
}

// The server, with the options that say for whom it speaks, where, and with which others.
fn door<'a>(alloc: Global) -> Result<Command<'a>, AllocError>
    ensures app { IfOk result (λ c. app_of c ≡ door_app) }
    ensures local { IfOk result (λ c. (fields_of c).has_globals ≡ false) }
{
    Command::new(alloc, "serve")
        .arg(option(alloc, "domain", true))?
        .arg(option(alloc, "listen", true))?
        .arg(option(alloc, "peer", false))
}

fn serve<'a>(alloc: Global) -> Result<Command<'a>, AllocError>
    ensures app { IfOk result (λ c. app_of c ≡ serve_app) }
    ensures local { IfOk result (λ c. (fields_of c).has_globals ≡ false) }
{
    door(alloc)?
        .arg(option(alloc, "sessions", false))?
        .arg(option(alloc, "store", false))?
        .arg(flag(alloc, "echo"))
}

// The terminal client, with the options that say who types.
fn writer<'a>(alloc: Global) -> Result<Command<'a>, AllocError>
    ensures app { IfOk result (λ c. app_of c ≡ writer_app) }
    ensures local { IfOk result (λ c. (fields_of c).has_globals ≡ false) }
{
    Command::new(alloc, "edit")
        .arg(option(alloc, "user", true))?
        .arg(option(alloc, "client", true))
}

fn edit<'a>(alloc: Global) -> Result<Command<'a>, AllocError>
    ensures app { IfOk result (λ c. app_of c ≡ edit_app) }
    ensures local { IfOk result (λ c. (fields_of c).has_globals ≡ false) }
{
    writer(alloc)?.arg(option(alloc, "connect", true))
}

// Adds a command.
fn with_command<'a>(command: Command<'a>, sub: Command<'a>) -> Result<Command<'a>, AllocError>
    requires local { (fields_of sub).has_globals ≡ false }
    ensures app { IfOk result (λ c. app_of c ≡ with_subcommand (app_of command.entry) (app_of sub.entry).top) }
{
    command.subcommand(sub)
}

// The program with the commands that need no store.
fn storeless<'a>(alloc: Global) -> Result<Command<'a>, AllocError>
    ensures app { IfOk result (λ c. app_of c ≡ storeless_app) }
{
    let command = top(alloc);
    let command = with_command(command, pipe(alloc)?)?;
    with_command(command, load(alloc)?)
}

// The program with those that need one, too.
fn storing<'a>(alloc: Global) -> Result<Command<'a>, AllocError>
    ensures app { IfOk result (λ c. app_of c ≡ storing_app) }
{
    let command = storeless(alloc)?;
    let command = with_command(command, play(alloc)?)?;
    with_command(command, inbox(alloc)?)
}

// The program with that of a server, too.
fn serving<'a>(alloc: Global) -> Result<Command<'a>, AllocError>
    ensures app { IfOk result (λ c. app_of c ≡ serving_app) }
{
    let command = storing(alloc)?;
    with_command(command, serve(alloc)?)
}

// The program with its commands.
fn wave<'a>(alloc: Global) -> Result<Command<'a>, AllocError>
    ensures app { IfOk result (λ c. app_of c ≡ wave_app) }
{
    let command = serving(alloc)?;
    with_command(command, edit(alloc)?)
}

// What clap makes of the words.
fn parse<'a>(command: Command<'a>, words: &'a [String]) -> Result<ArgMatches<'a>, WordsFault>
    requires app { app_of command ≡ wave_app }
    ensures ok { IfOk result (λ m. is_empty (fault_of wave_app (map string_bytes words.entry.now)) ≡ true) }
    ensures rows { IfOk result (λ m. subcommand_rows_of m ≡ subcommand_of wave_app (map string_bytes words.entry.now)) }
    ensures err { IfErr result (λ e. e ≡ WordsFault.Usage → is_empty (fault_of wave_app (map string_bytes words.entry.now)) ≡ false) }
{
    match command.try_get_matches_from(words) {
        Ok(matches) => Ok(matches),
        Err(error) => match error.kind() {
            ErrorKind::OutOfMemory => Err(WordsFault::Memory),
            _ => Err(WordsFault::Usage),
        },
    }
}

/// What clap makes of the words, by the program's commands.
pub(crate) fn matches_of<'a>(
    alloc: Global,
    words: &'a [String],
) -> Result<ArgMatches<'a>, WordsFault>
    ensures ok { IfOk result (λ m. is_empty (fault_of wave_app (map string_bytes words.entry.now)) ≡ true) }
    ensures rows { IfOk result (λ m. subcommand_rows_of m ≡ subcommand_of wave_app (map string_bytes words.entry.now)) }
    ensures err { IfErr result (λ e. e ≡ WordsFault.Usage → is_empty (fault_of wave_app (map string_bytes words.entry.now)) ≡ false) }
{
    match wave(alloc) {
        Ok(command) => parse(command, words),
        Err(_) => Err(WordsFault::Memory),
    }
}

//! The grammar of the command line: the commands and their arguments.

ghost use Rattle.std.specs.Prelude.{◌≡◌, IfOk, codes, false};
ghost use Rattle.clap.specs.Words.{app_of, rule_of, with_subcommand};
ghost use Rattle.commands.specs.Command.{attach_app, bare_app, bnc_app, caps_rule, control_app};
ghost use Rattle.commands.specs.Command.{file_app, file_rule, history_rule, optional_rule};
ghost use Rattle.commands.specs.Command.{profile_rule, required_rule};

use clap::builder::ValueParser;
use clap::{Arg, ArgAction};
use history::CAPACITY_LIMIT;
use std::alloc::{AllocError, Global};

/// What FILE is for most commands.
const SETTINGS_FILE: &str = "The settings file";

/// FILE, the settings file or another one.
fn file_argument<'a>(alloc: Global, help: &'a str) -> Arg<'a>
    ensures rule { rule_of result ≡ file_rule }
    ensures local { result.global ≡ false }
{
    Arg::new(alloc, "file")
        .required(true)
        .action(ArgAction::Set)
        .value_name("FILE")
        .help(help)
}

/// `--caps LIST`.
fn caps_argument<'a>(alloc: Global) -> Arg<'a>
    ensures rule { rule_of result ≡ caps_rule }
    ensures local { result.global ≡ false }
{
    Arg::new(alloc, "caps")
        .long("caps")
        .action(ArgAction::Set)
        .value_name("LIST")
        .default_value("")
        .help(
            "Capabilities of the client, with commas between them: multi-prefix, extended-join, \
             account-notify, away-notify, server-time, batch",
        )
}

/// `--history N`.
fn history_argument<'a>(alloc: Global) -> Arg<'a>
    ensures rule { rule_of result ≡ history_rule }
    ensures local { result.global ≡ false }
{
    Arg::new(alloc, "history")
        .long("history")
        .action(ArgAction::Set)
        .value_name("N")
        .value_parser(ValueParser::unsigned(1, CAPACITY_LIMIT as u64))
        .default_value("500")
        .help("How many of the last messages to each target are played back at most")
}

/// `--profile FILE`.
fn profile_argument<'a>(alloc: Global) -> Arg<'a>
    ensures rule { rule_of result ≡ profile_rule }
    ensures local { result.global ≡ false }
{
    Arg::new(alloc, "profile")
        .long("profile")
        .action(ArgAction::Set)
        .value_name("FILE")
        .help(
            "A settings file: its tables [messages] and [playback] say what is kept and how it is \
             played back",
        )
}

/// `bnc COMMAND`, without the commands.
fn bnc_grammar<'a>(alloc: Global) -> Result<clap::Command<'a>, AllocError>
    ensures { IfOk result (λ command. app_of command ≡ bare_app) }
{
    Ok(
        clap::Command::new(alloc, "bnc")
            .about("An IRC bouncer with late attach")
            .version("1")
            .after_help("The manual is docs/bnc.1: man bnc, once it is installed.")
            .no_binary_name(true)
            .subcommand_required(true)
            .bin_name("bnc")?,
    )
}

/// A command with `attach [--caps LIST] [--history N] [--profile FILE]` beneath it.
fn add_attach<'a>(
    alloc: Global,
    command: clap::Command<'a>,
) -> Result<clap::Command<'a>, AllocError>
    ensures { IfOk result (λ added. app_of added
        ≡ with_subcommand (app_of command.entry) attach_app.top) }
{
    let bare = clap::Command::new(alloc, "attach").about(
        "Reads what a network sent and prints what a client that attaches now would receive",
    );
    let with_caps = bare.arg(caps_argument(alloc))?;
    let with_history = with_caps.arg(history_argument(alloc))?;
    let attach = with_history.arg(profile_argument(alloc))?;
    let added = command.subcommand(attach)?;
    Ok(added)
}

/// A command with `NAME FILE` beneath it.
fn add_file_command<'a>(
    alloc: Global,
    command: clap::Command<'a>,
    name: &'a str,
    about: &'a str,
    file: &'a str,
) -> Result<clap::Command<'a>, AllocError>
    ensures { IfOk result (λ added. app_of added
        ≡ with_subcommand (app_of command.entry) (file_app name.now).top) }
{
    let file_command = clap::Command::new(alloc, name)
        .about(about)
        .arg(file_argument(alloc, file))?;
    let added = command.subcommand(file_command)?;
    Ok(added)
}

/// WORD, what the program is to do.
fn word_argument<'a>(alloc: Global) -> Arg<'a>
    ensures rule { rule_of result ≡ required_rule (codes "word") }
    ensures local { result.global ≡ false }
{
    Arg::new(alloc, "word")
        .required(true)
        .action(ArgAction::Set)
        .value_name("WORD")
        .help(
            "What it is to do: reload, reload empty, status, metrics, forget USER/NETWORK NAME, or stop",
        )
}

/// NETWORK, which a word may be about.
fn network_argument<'a>(alloc: Global) -> Arg<'a>
    ensures rule { rule_of result ≡ optional_rule (codes "network") }
    ensures local { result.global ≡ false }
{
    Arg::new(alloc, "network")
        .action(ArgAction::Set)
        .value_name("NETWORK")
        .help("The network that it is about: USER/NETWORK")
}

/// NAME, the client's name that a word may be about.
fn name_argument<'a>(alloc: Global) -> Arg<'a>
    ensures rule { rule_of result ≡ optional_rule (codes "name") }
    ensures local { result.global ≡ false }
{
    Arg::new(alloc, "name")
        .action(ArgAction::Set)
        .value_name("NAME")
        .help("The name of a client that it is about")
}

/// A command with `control FILE WORD [NETWORK [NAME]]` beneath it.
fn add_control<'a>(
    alloc: Global,
    command: clap::Command<'a>,
) -> Result<clap::Command<'a>, AllocError>
    ensures { IfOk result (λ added. app_of added
        ≡ with_subcommand (app_of command.entry) control_app.top) }
{
    let with_file = clap::Command::new(alloc, "control")
        .about("Has the program that serves a settings file do something")
        .arg(file_argument(alloc, SETTINGS_FILE))?;
    let with_word = with_file.arg(word_argument(alloc))?;
    let with_network = with_word.arg(network_argument(alloc))?;
    let control = with_network.arg(name_argument(alloc))?;
    let added = command.subcommand(control)?;
    Ok(added)
}

/// The grammar of the words after the program's name.
pub(crate) fn grammar<'a>(alloc: Global) -> Result<clap::Command<'a>, AllocError>
    ensures { IfOk result (λ command. app_of command ≡ bnc_app) }
{
    let bare = bnc_grammar(alloc)?;
    let with_serve = add_file_command(
        alloc,
        bare,
        "serve",
        "Stays on the networks of a settings file and serves their users' clients",
        SETTINGS_FILE,
    )?;
    let with_check = add_file_command(
        alloc,
        with_serve,
        "check",
        "Checks a settings file and counts its users and networks",
        SETTINGS_FILE,
    )?;
    let with_setup = add_file_command(
        alloc,
        with_check,
        "setup",
        "Asks for a network, a nick, channels and a password, and writes a settings file",
        SETTINGS_FILE,
    )?;
    let with_log = add_file_command(
        alloc,
        with_setup,
        "log",
        "Prints the messages that are kept of a network, one a line",
        "The file of the network, in the folder of the key `kept`",
    )?;
    let password = clap::Command::new(alloc, "password").about(
        "Reads a password from standard input and prints its lines for a settings file",
    );
    let with_password = with_log.subcommand(password)?;
    let with_control = add_control(alloc, with_password)?;
    let view = clap::Command::new(alloc, "view").about(
        "Reads what a network sent and prints the state that follows: nick, channels, members",
    );
    let with_view = with_control.subcommand(view)?;
    let bnc = add_attach(alloc, with_view)?;
    Ok(bnc)
}

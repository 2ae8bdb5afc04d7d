//! The program's commands, for `clap`.

ghost use Rattle.std.specs.Prelude.{◌≡◌, IfOk};
ghost use Rattle.clap.specs.Words.{app_of};
ghost use Rattle.shop_words.specs.CommandLine as line;

use crate::arguments::arg_of;
use crate::words::{Argument, VERSION, WORDS, Word};
use clap::Command;
use std::alloc::{AllocError, Global};

// A command with these arguments in turn, and an example of its use.
fn new_command<'a>(
    alloc: Global,
    name: &'a str,
    about: &'a str,
    example: &'a str,
    arguments: &[Argument],
) -> Result<Command<'a>, AllocError>
    ensures { IfOk result (line.IsAppCommand (line.command_app name.entry.now arguments.now)) }
{
    let mut command = Command::new(alloc, name).about(about).after_help(example);
    for argument in arguments {
        command = command.arg(arg_of(alloc, *argument))?;
    }
    Ok(command)
}

fn replay_command<'a>(alloc: Global) -> Result<Command<'a>, AllocError>
    ensures { IfOk result (line.IsAppCommand line.replay_app) }
{
    new_command(
        alloc,
        "replay",
        "Answers the lines of standard input on standard output",
        "Example:\n  cutshop replay < lines.txt",
        &[],
    )
}

fn plan_command<'a>(alloc: Global) -> Result<Command<'a>, AllocError>
    ensures { IfOk result (line.IsAppCommand line.plan_app) }
{
    new_command(
        alloc,
        "plan",
        "Plans the rectangle of a problem file, or all its pieces from as many as it takes, or the lines of an order file",
        "Examples:\n  cutshop plan sheet.txt --kerf 30 --step 10\n  cutshop plan sheet.txt --kerf 30 --whole\n  cutshop plan orders.csv --whole --shop shop.toml --material GLASS --size 3210.0x2250.0",
        &[
            Argument::File,
            Argument::Kerf,
            Argument::Step,
            Argument::Whole,
            Argument::Calls,
            Argument::Stages,
            Argument::PlanShop,
            Argument::PlanMaterial,
            Argument::Size,
        ],
    )
}

fn orders_command<'a>(alloc: Global) -> Result<Command<'a>, AllocError>
    ensures { IfOk result (line.IsAppCommand line.orders_app) }
{
    new_command(
        alloc,
        "orders",
        "Checks an order file: prints how many lines it has, or with --order, --terminal and --number the message that makes the order, to be posted as it is",
        "Examples:\n  cutshop orders orders.csv\n  cutshop orders orders.csv --shop shop.toml\n  cutshop orders orders.csv --order A-1 --terminal 1 --number 7",
        &[
            Argument::OrderFile,
            Argument::OrdersShop,
            Argument::Order,
            Argument::Terminal,
            Argument::Number,
        ],
    )
}

fn serve_command<'a>(alloc: Global) -> Result<Command<'a>, AllocError>
    ensures { IfOk result (line.IsAppCommand line.serve_app) }
{
    new_command(
        alloc,
        "serve",
        "Adds the materials of a shop file and serves terminals over HTTP, on this machine alone",
        "Examples:\n  cutshop serve --port 8017 --store shop.db --shop shop.toml --page page/terminal.html\n  cutshop serve --port 8017 --store shop.db --shop shop.toml --backup backups",
        &[
            Argument::Port,
            Argument::Store,
            Argument::Shop,
            Argument::Limit,
            Argument::Page,
            Argument::Backup,
            Argument::Existing,
            Argument::Keep,
            Argument::Host,
            Argument::Origin,
        ],
    )
}

fn ticket_command<'a>(alloc: Global) -> Result<Command<'a>, AllocError>
    ensures { IfOk result (line.IsAppCommand line.ticket_app) }
{
    new_command(
        alloc,
        "ticket",
        "Prints the ticket of a job: what is cut in which order, where, and for whom",
        "Example:\n  cutshop ticket --store shop.db 2",
        &[Argument::PrintedStore, Argument::Job, Argument::ReadOnly],
    )
}

fn yield_command<'a>(alloc: Global) -> Result<Command<'a>, AllocError>
    ensures { IfOk result (line.IsAppCommand line.yield_app) }
{
    new_command(
        alloc,
        "yield",
        "Prints what became of a material, and which parts of it stand",
        "Example:\n  cutshop yield --store shop.db STEEL",
        &[
            Argument::PrintedStore,
            Argument::Material,
            Argument::ReadOnly,
        ],
    )
}

fn history_command<'a>(alloc: Global) -> Result<Command<'a>, AllocError>
    ensures { IfOk result (line.IsAppCommand line.history_app) }
{
    new_command(
        alloc,
        "history",
        "Prints the entries of a shop's history, one a line: what was accepted, when, and the reply",
        "Examples:\n  cutshop history --store shop.db\n  cutshop history --store shop.db --after 812",
        &[Argument::KeptStore, Argument::After, Argument::ReadOnly],
    )
}

fn audit_command<'a>(alloc: Global) -> Result<Command<'a>, AllocError>
    ensures { IfOk result (line.IsAppCommand line.audit_app) }
{
    new_command(
        alloc,
        "audit",
        "Checks whether a store is whole: executes its history again in memory, and compares all replies and rows",
        "Example:\n  cutshop audit --store backups/3/shop.db",
        &[Argument::KeptStore, Argument::ReadOnly],
    )
}

fn restore_command<'a>(alloc: Global) -> Result<Command<'a>, AllocError>
    ensures { IfOk result (line.IsAppCommand line.restore_app) }
{
    new_command(
        alloc,
        "restore",
        "Puts a backup in the place of a store, whose old files stay as FILE.before and FILE.before-wal",
        "Example:\n  cutshop restore --store shop.db --from backups/3",
        &[Argument::ReplacedStore, Argument::From],
    )
}

// The command of a word.
fn command_for<'a>(alloc: Global, word: Word) -> Result<Command<'a>, AllocError>
    ensures { IfOk result (line.IsAppCommand (line.word_app word)) }
{
    match word {
        Word::Replay => replay_command(alloc),
        Word::Plan => plan_command(alloc),
        Word::Orders => orders_command(alloc),
        Word::Serve => serve_command(alloc),
        Word::Ticket => ticket_command(alloc),
        Word::Yield => yield_command(alloc),
        Word::History => history_command(alloc),
        Word::Audit => audit_command(alloc),
        Word::Restore => restore_command(alloc),
    }
}

// The program, with the commands of these words added in turn.
fn with_words<'a>(
    alloc: Global,
    program: Command<'a>,
    words: &[Word],
) -> Result<Command<'a>, AllocError>
    ensures { IfOk result (λ command.
        app_of command ≡ line.added_in_turn line.with_word (app_of program.entry) words.now) }
{
    let mut command = program;
    for word in words {
        let added = command_for(alloc, *word)?;
        command = command.subcommand(added)?;
    }
    Ok(command)
}

// The program without its commands.
fn program<'a>(alloc: Global) -> Command<'a>
    ensures { app_of result ≡ line.program_app }
{
    Command::new(alloc, "cutshop")
        .about("The books and the plans of a cutting shop")
        .after_help(
            "Units: messages, replies, problem files, --kerf and --step count tenths of a millimetre; shop files, order files, tickets and reports say millimetres.\n\nExamples:\n  cutshop replay < lines.txt\n  cutshop plan sheet.txt --kerf 30 --step 10\n  cutshop plan sheet.txt --kerf 30 --whole\n  cutshop orders orders.csv\n  cutshop serve --port 8017 --store shop.db --shop shop.toml\n  cutshop ticket --store shop.db 2\n  cutshop yield --store shop.db STEEL\n  cutshop history --store shop.db --after 812\n  cutshop audit --store backups/3/shop.db\n  cutshop restore --store shop.db --from backups/3",
        )
        .subcommand_required(true)
        .version(VERSION)
}

/// The program's command line.
pub(crate) fn command_of<'a>(alloc: Global) -> Result<Command<'a>, AllocError>
    ensures { IfOk result (λ command. app_of command ≡ line.shop_app) }
{
    with_words(alloc, program(alloc), &WORDS)
}

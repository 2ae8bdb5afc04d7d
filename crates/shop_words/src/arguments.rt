//! The arguments of the commands, for `clap`.

ghost use Rattle.shop_words.specs.CommandLine as line;

use crate::words::Argument;
use clap::builder::ValueParser;
use clap::{Arg, ArgAction, value_parser};
use std::alloc::Global;

// A word or an option with one value.
fn value_arg<'a>(alloc: Global, name: &'a str, about: &'a str) -> Arg<'a>
    ensures { line.IsArg (line.value_rule name.entry.now) result }
{
    Arg::new(alloc, name).action(ArgAction::Set).help(about)
}

// An option with a value.
fn option_arg<'a>(alloc: Global, name: &'a str, value: &'a str, about: &'a str) -> Arg<'a>
    ensures { line.IsArg (line.option_rule name.entry.now) result }
{
    value_arg(alloc, name, about).long(name).value_name(value)
}

// An option with a value that may be given several times.
fn several_arg<'a>(alloc: Global, name: &'a str, value: &'a str, about: &'a str) -> Arg<'a>
    ensures { line.IsArg (line.several_rule name.entry.now) result }
{
    option_arg(alloc, name, value, about).action(ArgAction::Append)
}

// An option that has to be there, with a number.
fn number_arg<'a>(alloc: Global, name: &'a str, range: ValueParser<'a>, about: &'a str) -> Arg<'a>
    ensures { line.IsArg (line.number_rule name.entry.now range.entry) result }
{
    option_arg(alloc, name, "N", about)
        .required(true)
        .value_parser(range)
}

// An option that has to be there, with the path of a file.
fn path_arg<'a>(alloc: Global, name: &'a str, about: &'a str) -> Arg<'a>
    ensures { line.IsArg (line.path_rule name.entry.now) result }
{
    option_arg(alloc, name, "FILE", about).required(true)
}

// A word that has to be there.
fn word_arg<'a>(alloc: Global, name: &'a str, about: &'a str) -> Arg<'a>
    ensures { line.IsArg (line.word_rule name.entry.now) result }
{
    value_arg(alloc, name, about).required(true)
}

fn store_arg<'a>(alloc: Global) -> Arg<'a>
    ensures { line.IsArg line.store_rule result }
{
    path_arg(
        alloc,
        "store",
        "The file that keeps the shop's book; it is created if it doesn't exist",
    )
}

// The store of a command that creates it, unless it only reads.
fn printed_store_arg<'a>(alloc: Global) -> Arg<'a>
    ensures { line.IsArg line.store_rule result }
{
    path_arg(
        alloc,
        "store",
        "The file that keeps the shop's book; without --read-only it is created if it doesn't exist",
    )
}

// The store of a command that never creates it.
fn kept_store_arg<'a>(alloc: Global) -> Arg<'a>
    ensures { line.IsArg line.store_rule result }
{
    path_arg(
        alloc,
        "store",
        "The file that keeps the shop's book; it has to exist",
    )
}

// The store that a restore replaces.
fn replaced_store_arg<'a>(alloc: Global) -> Arg<'a>
    ensures { line.IsArg line.store_rule result }
{
    path_arg(
        alloc,
        "store",
        "The file that keeps the shop's book, which is replaced; it may be missing or damaged, or have lost its log",
    )
}

fn after_arg<'a>(alloc: Global) -> Arg<'a>
    ensures { line.IsArg line.after_rule result }
{
    option_arg(
        alloc,
        "after",
        "N",
        "Only the entries with greater numbers: 0 to 4294967295. Without it all are printed",
    )
    .value_parser(value_parser!(u32).range(0..=4294967295))
}

fn kerf_arg<'a>(alloc: Global) -> Arg<'a>
    ensures { line.IsArg line.kerf_rule result }
{
    option_arg(
        alloc,
        "kerf",
        "N",
        "The width of the saw's cut, in tenths of a millimetre: 0 to 200; needed without --shop, and with it not allowed",
    )
    .value_parser(value_parser!(u32).range(0..=200))
}

fn step_arg<'a>(alloc: Global) -> Arg<'a>
    ensures { line.IsArg line.step_rule result }
{
    option_arg(
        alloc,
        "step",
        "N",
        "The step to whose multiples sides are rounded up, in tenths of a millimetre: 0 to 200000; needed without --whole, and with --shop not allowed",
    )
    .value_parser(value_parser!(u32).range(0..=200000))
}

// A flag.
fn flag_arg<'a>(alloc: Global, name: &'a str, about: &'a str) -> Arg<'a>
    ensures { line.IsArg (line.flag_rule name.entry.now) result }
{
    Arg::new(alloc, name)
        .action(ArgAction::SetTrue)
        .long(name)
        .help(about)
}

fn whole_arg<'a>(alloc: Global) -> Arg<'a>
    ensures { line.IsArg line.whole_rule result }
{
    flag_arg(
        alloc,
        "whole",
        "Plans all pieces, from as many of the rectangles or units as it takes",
    )
}

fn calls_arg<'a>(alloc: Global) -> Arg<'a>
    ensures { line.IsArg line.calls_rule result }
{
    option_arg(
        alloc,
        "calls",
        "N",
        "With --whole, how long plans are searched for, in tables: 1 to 5000. Without it 500",
    )
    .value_parser(value_parser!(u32).range(1..=5000))
}

fn stages_arg<'a>(alloc: Global) -> Arg<'a>
    ensures { line.IsArg line.stages_rule result }
{
    option_arg(
        alloc,
        "stages",
        "N",
        "With --whole, how many stages a plan may have at most, each a run of parallel cuts: 2 to 255. Without it any number",
    )
    .value_parser(value_parser!(u32).range(2..=255))
}

fn size_arg<'a>(alloc: Global) -> Arg<'a>
    ensures { line.IsArg line.size_rule result }
{
    several_arg(
        alloc,
        "size",
        "WxH",
        "A size of the units from which an order file is planned, in millimetres, as 2400.0x1300.0, of a bar its length, as 6000.0; up to 10 times",
    )
}

fn port_arg<'a>(alloc: Global) -> Arg<'a>
    ensures { line.IsArg line.port_rule result }
{
    number_arg(
        alloc,
        "port",
        value_parser!(u32).range(1..=65535),
        "The port of this machine that terminals reach: 1 to 65535",
    )
}

fn limit_arg<'a>(alloc: Global) -> Arg<'a>
    ensures { line.IsArg line.limit_rule result }
{
    option_arg(
        alloc,
        "limit",
        "N",
        "How many connections are served before it ends: 1 to 1000000. Without it 1000000, or with --page no limit",
    )
    .value_parser(value_parser!(u32).range(1..=1000000))
}

fn page_arg<'a>(alloc: Global) -> Arg<'a>
    ensures { line.IsArg line.page_rule result }
{
    option_arg(
        alloc,
        "page",
        "FILE",
        "The page that browsers get at http://127.0.0.1:PORT/, at most 1 MiB",
    )
}

fn backup_arg<'a>(alloc: Global) -> Arg<'a>
    ensures { line.IsArg line.backup_rule result }
{
    option_arg(
        alloc,
        "backup",
        "FOLDER",
        "The folder in which a backup of the store is made for each POST to /backup: 1, 2 and so on; it has to exist, and only its owner may write in it",
    )
}

fn existing_arg<'a>(alloc: Global) -> Arg<'a>
    ensures { line.IsArg line.existing_rule result }
{
    flag_arg(
        alloc,
        "existing",
        "Creates no store: if there is none, that is an error",
    )
}

fn keep_arg<'a>(alloc: Global) -> Arg<'a>
    ensures { line.IsArg line.keep_rule result }
{
    option_arg(
        alloc,
        "keep",
        "N",
        "With --backup, how many of the newest backups stay: 1 to 10000. Without it all do",
    )
    .value_parser(value_parser!(u32).range(1..=10000))
}

fn host_arg<'a>(alloc: Global) -> Arg<'a>
    ensures { line.IsArg line.host_rule result }
{
    several_arg(
        alloc,
        "host",
        "NAME",
        "A name under which this machine is reached, besides its own; up to 10 times",
    )
}

fn origin_arg<'a>(alloc: Global) -> Arg<'a>
    ensures { line.IsArg line.origin_rule result }
{
    several_arg(
        alloc,
        "origin",
        "ORIGIN",
        "An origin of pages that may send messages, besides the program's own, as https://shop.example; up to 10 times",
    )
}

fn read_only_arg<'a>(alloc: Global) -> Arg<'a>
    ensures { line.IsArg line.read_only_rule result }
{
    flag_arg(
        alloc,
        "read-only",
        "Only reads the store's files: changes none, and creates none",
    )
}

fn from_arg<'a>(alloc: Global) -> Arg<'a>
    ensures { line.IsArg line.from_rule result }
{
    option_arg(
        alloc,
        "from",
        "FOLDER/N",
        "The backup: its number behind the folder of backups",
    )
    .required(true)
}

fn order_arg<'a>(alloc: Global) -> Arg<'a>
    ensures { line.IsArg line.order_rule result }
{
    option_arg(
        alloc,
        "order",
        "CODE",
        "The order's code in the message: 1 to 16 of A-Z, 0-9 and -; it needs --terminal and --number",
    )
}

fn terminal_arg<'a>(alloc: Global) -> Arg<'a>
    ensures { line.IsArg line.terminal_rule result }
{
    option_arg(
        alloc,
        "terminal",
        "N",
        "The terminal that sends the message: 1 to 4294967295",
    )
    .value_parser(value_parser!(u32).range(1..=4294967295))
}

fn message_number_arg<'a>(alloc: Global) -> Arg<'a>
    ensures { line.IsArg line.message_number_rule result }
{
    option_arg(
        alloc,
        "number",
        "N",
        "The message's number, one that the terminal has not used: 0 to 4294967295",
    )
    .value_parser(value_parser!(u32).range(0..=4294967295))
}

fn job_arg<'a>(alloc: Global) -> Arg<'a>
    ensures { line.IsArg line.job_rule result }
{
    word_arg(alloc, "JOB", "The job's number: 1 to 2147483647").value_parser(value_parser!(
        u32
    ).range(1..=2147483647))
}

fn file_arg<'a>(alloc: Global) -> Arg<'a>
    ensures { line.IsArg line.file_rule result }
{
    word_arg(
        alloc,
        "FILE",
        "The problem file, its sides in tenths of a millimetre, or with --shop an order file",
    )
}

fn order_file_arg<'a>(alloc: Global) -> Arg<'a>
    ensures { line.IsArg line.file_rule result }
{
    word_arg(
        alloc,
        "FILE",
        "The order file: CSV, lengths and widths in millimetres",
    )
}

fn plan_shop_arg<'a>(alloc: Global) -> Arg<'a>
    ensures { line.IsArg line.known_shop_rule result }
{
    option_arg(
        alloc,
        "shop",
        "FILE",
        "The shop file of an order file's materials; it needs --whole, --material and --size",
    )
}

fn plan_material_arg<'a>(alloc: Global) -> Arg<'a>
    ensures { line.IsArg line.plan_material_rule result }
{
    option_arg(
        alloc,
        "material",
        "CODE",
        "The material whose lines of an order file are planned",
    )
}

fn orders_shop_arg<'a>(alloc: Global) -> Arg<'a>
    ensures { line.IsArg line.known_shop_rule result }
{
    option_arg(
        alloc,
        "shop",
        "FILE",
        "A shop file, by whose materials the lines are judged too",
    )
}

fn shop_arg<'a>(alloc: Global) -> Arg<'a>
    ensures { line.IsArg line.shop_rule result }
{
    path_arg(
        alloc,
        "shop",
        "The shop file: its materials, lengths in millimetres",
    )
}

/// The `clap` argument of an argument of the command line.
pub(crate) fn arg_of<'a>(alloc: Global, argument: Argument) -> Arg<'a>
    ensures { line.IsArg (line.argument_rule argument) result }
{
    match argument {
        Argument::File => file_arg(alloc),
        Argument::Kerf => kerf_arg(alloc),
        Argument::Step => step_arg(alloc),
        Argument::Whole => whole_arg(alloc),
        Argument::Calls => calls_arg(alloc),
        Argument::Stages => stages_arg(alloc),
        Argument::PlanShop => plan_shop_arg(alloc),
        Argument::PlanMaterial => plan_material_arg(alloc),
        Argument::Size => size_arg(alloc),
        Argument::OrderFile => order_file_arg(alloc),
        Argument::OrdersShop => orders_shop_arg(alloc),
        Argument::Order => order_arg(alloc),
        Argument::Terminal => terminal_arg(alloc),
        Argument::Number => message_number_arg(alloc),
        Argument::Port => port_arg(alloc),
        Argument::Store => store_arg(alloc),
        Argument::Shop => shop_arg(alloc),
        Argument::Limit => limit_arg(alloc),
        Argument::Page => page_arg(alloc),
        Argument::Backup => backup_arg(alloc),
        Argument::Existing => existing_arg(alloc),
        Argument::Keep => keep_arg(alloc),
        Argument::Host => host_arg(alloc),
        Argument::Origin => origin_arg(alloc),
        Argument::Job => job_arg(alloc),
        Argument::Material => word_arg(alloc, "MATERIAL", "The material's code"),
        Argument::PrintedStore => printed_store_arg(alloc),
        Argument::KeptStore => kept_store_arg(alloc),
        Argument::ReplacedStore => replaced_store_arg(alloc),
        Argument::After => after_arg(alloc),
        Argument::ReadOnly => read_only_arg(alloc),
        Argument::From => from_arg(alloc),
    }
}

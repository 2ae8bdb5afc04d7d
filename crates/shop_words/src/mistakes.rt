//! What is wrong with words that `clap` accepts but that aren't a request.

ghost use Rattle.std.specs.Prelude.{◌≡◌, true, IfOk, IfSome, string_bytes};
ghost use Rattle.clap.specs.Words.{first_of, found_of, rows_of, subcommand_rows_of};
ghost use Rattle.shop_words.specs.CommandLine.{names_stock};
ghost use Rattle.shop_words.specs.Mistakes as spec;
ghost use Rattle.shop_words.specs.declared.words.Word.TheVariants as word;

use crate::planned::{is_whole, names_stock};
use crate::served::bad_origin;
use crate::values::{has_option, times_given};
use crate::words::{MAX_NAMES, MAX_SIZES, Word, word_of};
use clap::ArgMatches;
use cut_measure::Code;
use std::alloc::{AllocError, Global};

/// Why words that `clap` accepts aren't a request.
#[derive(Clone, Copy, Debug)]
pub enum Mistake<'a> {
    /// MATERIAL isn't a code.
    Material(&'a str),
    /// The text of `--order` isn't a code.
    Order(&'a str),
    /// The text of an `--origin` isn't one.
    Origin(&'a str),
    /// A message is to be made of an order file, but this option is missing.
    NoOrder,
    NoTerminal,
    NoNumber,
    /// A plan of a problem file has no kerf.
    NoKerf,
    /// A plan of one rectangle has no step.
    NoStep,
    /// `--calls` is given without `--whole`.
    LoneCalls,
    /// `--stages` is given without `--whole`.
    LoneStages,
    /// A plan of an order file lacks this option.
    NoWhole,
    NoShop,
    NoMaterial,
    NoSize,
    /// A plan of an order file has this option.
    WithKerf,
    WithStep,
    /// There are over 10 sizes.
    ManySizes,
    /// `--keep` is given without `--backup`.
    LoneKeep,
    /// There are over 10 host names.
    ManyHosts,
    /// There are over 10 origins.
    ManyOrigins,
    /// None of these.
    Other,
}

// What stands under this name and is no code.
fn no_code<'a>(values: &ArgMatches<'a>, name: &str) -> Option<&'a str>
    ensures { IfSome result (λ text.
        spec.IsNoCode (first_of name.now (rows_of (found_of values.now))) text.now) }
{
    let text = values.get_str(name)?;
    match Code::read(text) {
        Some(_) => None,
        None => Some(text),
    }
}

// What is wrong with the options of an order file's plan.
fn lines_mistake<'a>(plan: &ArgMatches<'a>) -> Mistake<'a>
    requires { names_stock (rows_of (found_of plan.now)) ≡ true }
    ensures { spec.IsMistake word.Plan (rows_of (found_of plan.now)) result }
{
    if !is_whole(plan) {
        Mistake::NoWhole
    } else if has_option(plan, "kerf") {
        Mistake::WithKerf
    } else if has_option(plan, "step") {
        Mistake::WithStep
    } else if !has_option(plan, "shop") {
        Mistake::NoShop
    } else if !has_option(plan, "material") {
        Mistake::NoMaterial
    } else if !has_option(plan, "size") {
        Mistake::NoSize
    } else if times_given(plan, "size") > MAX_SIZES {
        Mistake::ManySizes
    } else {
        Mistake::Other
    }
}

fn plan_mistake<'a>(plan: &ArgMatches<'a>) -> Mistake<'a>
    ensures { spec.IsMistake word.Plan (rows_of (found_of plan.now)) result }
{
    if names_stock(plan) {
        return lines_mistake(plan);
    }
    if !has_option(plan, "kerf") {
        return Mistake::NoKerf;
    }
    if is_whole(plan) {
        return Mistake::Other;
    }
    if !has_option(plan, "step") {
        return Mistake::NoStep;
    }
    if has_option(plan, "calls") {
        return Mistake::LoneCalls;
    }
    if has_option(plan, "stages") {
        return Mistake::LoneStages;
    }
    Mistake::Other
}

// Which option of a message isn't there.
fn lacking<'a>(orders: &ArgMatches<'a>) -> Mistake<'a>
    ensures { spec.IsMistake word.Orders (rows_of (found_of orders.now)) result }
{
    if !has_option(orders, "order") {
        Mistake::NoOrder
    } else if !has_option(orders, "terminal") {
        Mistake::NoTerminal
    } else if !has_option(orders, "number") {
        Mistake::NoNumber
    } else {
        Mistake::Other
    }
}

fn orders_mistake<'a>(orders: &ArgMatches<'a>) -> Mistake<'a>
    ensures { spec.IsMistake word.Orders (rows_of (found_of orders.now)) result }
{
    match no_code(orders, "order") {
        Some(text) => Mistake::Order(text),
        None => lacking(orders),
    }
}

fn keep_mistake<'a>(serve: &ArgMatches<'a>) -> Mistake<'a>
    ensures { spec.IsMistake word.Serve (rows_of (found_of serve.now)) result }
{
    if !has_option(serve, "keep") {
        return Mistake::Other;
    }
    if has_option(serve, "backup") {
        return Mistake::Other;
    }
    Mistake::LoneKeep
}

fn serve_mistake<'a>(serve: &ArgMatches<'a>) -> Mistake<'a>
    ensures { spec.IsMistake word.Serve (rows_of (found_of serve.now)) result }
{
    if times_given(serve, "host") > MAX_NAMES {
        return Mistake::ManyHosts;
    }
    if times_given(serve, "origin") > MAX_NAMES {
        return Mistake::ManyOrigins;
    }
    match bad_origin(serve) {
        Some(text) => Mistake::Origin(text),
        None => keep_mistake(serve),
    }
}

fn yield_mistake<'a>(report: &ArgMatches<'a>) -> Mistake<'a>
    ensures { spec.IsMistake word.Yield (rows_of (found_of report.now)) result }
{
    match no_code(report, "MATERIAL") {
        Some(text) => Mistake::Material(text),
        None => Mistake::Other,
    }
}

// What is wrong with the values of a command that asks for nothing.
fn mistake_in<'a>(word: Word, values: &ArgMatches<'a>) -> Mistake<'a>
    ensures { spec.IsMistake word (rows_of (found_of values.now)) result }
{
    match word {
        Word::Plan => plan_mistake(values),
        Word::Orders => orders_mistake(values),
        Word::Serve => serve_mistake(values),
        Word::Yield => yield_mistake(values),
        _ => Mistake::Other,
    }
}

// What is wrong with the command that was read, which asks for nothing.
pub(crate) fn mistake_of<'a>(matches: &ArgMatches<'a>) -> Mistake<'a>
    ensures { spec.IsMistakeOf (subcommand_rows_of matches.now) result }
{
    let Some((name, values)) = matches.subcommand() else {
        return Mistake::Other;
    };
    match word_of(name) {
        Some(word) => mistake_in(word, values),
        None => Mistake::Other,
    }
}

// Why words without a wrong code ask for nothing.
fn reason(mistake: Mistake<'_>) -> &'static str
    ensures { result.now ≡ spec.reason mistake.entry }
{
    match mistake {
        Mistake::NoOrder => {
            "'--order <CODE>' is missing: --order, --terminal and --number stand together"
        }
        Mistake::NoTerminal => {
            "'--terminal <N>' is missing: --order, --terminal and --number stand together"
        }
        Mistake::NoNumber => {
            "'--number <N>' is missing: --order, --terminal and --number stand together"
        }
        Mistake::NoKerf => "'--kerf <N>' is missing: it may be left out only with '--shop'",
        Mistake::NoStep => "'--step <N>' is missing: it may be left out only with '--whole'",
        Mistake::LoneCalls => "'--calls <N>' may be given only with '--whole'",
        Mistake::LoneStages => "'--stages <N>' may be given only with '--whole'",
        Mistake::LoneKeep => "'--keep <N>' may be given only with '--backup'",
        Mistake::ManyHosts => "'--host <NAME>' may be given at most 10 times",
        Mistake::ManyOrigins => "'--origin <ORIGIN>' may be given at most 10 times",
        other => lines_reason(other),
    }
}

// Why words ask for no plan of an order file, or for nothing else.
fn lines_reason(mistake: Mistake<'_>) -> &'static str
    ensures { result.now ≡ spec.lines_reason mistake.entry }
{
    match mistake {
        Mistake::NoWhole => {
            "'--whole' is missing: --whole, --shop, --material and --size stand together"
        }
        Mistake::NoShop => {
            "'--shop <FILE>' is missing: --whole, --shop, --material and --size stand together"
        }
        Mistake::NoMaterial => {
            "'--material <CODE>' is missing: --whole, --shop, --material and --size stand together"
        }
        Mistake::NoSize => {
            "'--size <WxH>' is missing: --whole, --shop, --material and --size stand together"
        }
        Mistake::WithKerf => "'--kerf <N>' may not be given with '--shop', which says the kerf",
        Mistake::WithStep => "'--step <N>' may not be given with '--shop'",
        Mistake::ManySizes => "'--size <WxH>' may be given at most 10 times",
        _ => "the words ask for nothing",
    }
}

/// The text that reports a mistake, in the form of `clap`'s own.
pub fn mistake_text(alloc: Global, mistake: Mistake<'_>) -> Result<String, AllocError>
    ensures { IfOk result (λ text. string_bytes text ≡ spec.mistake_text mistake.entry) }
{
    match mistake {
        Mistake::Material(text) => {
            format!(in alloc;
                "error: invalid value '{text}' for '<MATERIAL>': a code is 1 to 16 of A-Z, 0-9 and -\n\nFor more information, try '--help'.\n"
            )
        }
        Mistake::Order(text) => {
            format!(in alloc;
                "error: invalid value '{text}' for '--order <CODE>': a code is 1 to 16 of A-Z, 0-9 and -\n\nFor more information, try '--help'.\n"
            )
        }
        Mistake::Origin(text) => {
            format!(in alloc;
                "error: invalid value '{text}' for '--origin <ORIGIN>': an origin is http:// or https://, a host and maybe a port, as https://shop.example\n\nFor more information, try '--help'.\n"
            )
        }
        other => {
            let why = reason(other);
            format!(in alloc; "error: {why}\n\nFor more information, try '--help'.\n")
        }
    }
}

//! What `orders` asks for.

ghost use Rattle.std.specs.Prelude.{◌≡◌};
ghost use Rattle.clap.specs.Words.{rows_of, found_of};
ghost use Rattle.shop_words.specs.CommandLine as line;

use crate::values::{has_option, number_of};
use crate::words::{ImportAs, MAX_PAIR, Request};
use clap::ArgMatches;
use cut_measure::Code;

// The message that the three options ask for.
fn import_as(orders: &ArgMatches<'_>) -> Option<ImportAs>
    ensures { line.AsAsked result (line.IsImportAs (rows_of (found_of orders.now))) }
{
    let order = Code::read(orders.get_str("order")?)?;
    let terminal = number_of(orders, "terminal", 1, MAX_PAIR)?;
    let number = number_of(orders, "number", 0, MAX_PAIR)?;
    Some(ImportAs {
        order,
        terminal,
        number,
    })
}

// Whether one of the three options is there.
fn names_message(orders: &ArgMatches<'_>) -> bool
    ensures { result ≡ line.names_message (rows_of (found_of orders.now)) }
{
    has_option(orders, "order") || has_option(orders, "terminal") || has_option(orders, "number")
}

/// What `orders` asks for.
pub(crate) fn orders_request<'a>(orders: &ArgMatches<'a>) -> Option<Request<'a>>
    ensures { line.AsAsked result (line.IsOrdersAsked (rows_of (found_of orders.now))) }
{
    let file = orders.get_str("FILE")?;
    let shop = orders.get_str("shop");
    if !names_message(orders) {
        return Some(Request::Orders {
            file,
            shop,
            reported: None,
        });
    }
    let reported = import_as(orders)?;
    Some(Request::Orders {
        file,
        shop,
        reported: Some(reported),
    })
}

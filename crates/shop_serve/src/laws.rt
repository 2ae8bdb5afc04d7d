//! Theorems about connections whose bytes are known, and about all open ones.

ghost use Rattle.shop_serve.specs.Known.{WholeIsAnswered};
ghost use Rattle.shop_serve.specs.Own.{EachHasItsOwn};
ghost use Rattle.shop_serve.specs.Rounds.{FewAreOpen};
ghost use Rattle.shop_serve.specs.declared.sites.Site.{Site as SiteGhost};

use crate::connections::Connection;
use crate::ports::Port;
use shop_book::Book;

/// A connection that brings a whole request, and is serviced when it comes, has its answer: it took the whole answer to
/// its own bytes and saw the end, or a prefix until it took no more. Or its own bytes are a query, which is being
/// searched.
pub(crate) fn whole_is_answered<C: Connection, B: Book>()
    ensures { (site : SiteGhost) → WholeIsAnswered C.Connection site B.Book }
{}

/// After any number of rounds, beginning with no open connection, at most 256 connections are open.
pub(crate) fn few_are_open<C: Connection, P: Port<C>, B: Book>()
    ensures { (site : SiteGhost) → FewAreOpen C.Connection site B.Book P.Port }
{}

/// After any number of rounds, beginning with no open connection, each open connection has its own: the query searched
/// for it is what its own bytes ask of the content that the book had when they were read, and its answer is the one to
/// its own bytes.
pub(crate) fn each_has_its_own<C: Connection, P: Port<C>, B: Book>()
    ensures { (site : SiteGhost) → EachHasItsOwn C.Connection site B.Book P.Port }
{}

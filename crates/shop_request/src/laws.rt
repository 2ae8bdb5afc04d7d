//! What holds of all requests: an input has one parse, and one verdict.

ghost use Rattle.shop_request.specs.Guards.{OneVerdict};
ghost use Rattle.shop_request.specs.Parses.{OneParse, UnfinishedIsOpen};

/// An input has one parse, whatever reads it. Where no whole head can be read of its first 8192 bytes, and over 64 fields
/// came or those bytes end inside a target, it may be a bad head or a large one.
pub fn one_parse()
    ensures { OneParse }
{}

/// What is done with an input by its head is one thing, whatever reads it.
pub fn one_verdict()
    ensures { OneVerdict }
{}

/// An unfinished request can go on so that it is something else than if it ended here. But one whose first bytes hold over 64
/// fields or end inside a target may be determined as a bad head or a large one, and so may a head that lacks its last byte.
pub fn unfinished_is_open()
    ensures { UnfinishedIsOpen }
{}

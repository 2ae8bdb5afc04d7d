//! The response to a line or a request.

ghost use Rattle.std.specs.Prelude.{◌≡◌, IfOk, IfSome};
ghost use Rattle.shop_records.specs.declared.messages.Reply.TheVariants.{Refused};
ghost use Rattle.shop_forms.specs.Forms.{json_texts};
ghost use Rattle.shop_wire.specs.AnswerBytes.{replied};
ghost use Rattle.shop_wire.specs.Replays.{response_text};
ghost use Rattle.shop_wire.specs.Responses.{HasPrintedText, IsReportedOf, response_of};

use shop_rules::{Refusal, Reply, Text, reply_text};
use std::alloc::{AllocError, Global};

/// The response to a line or a request.
#[derive(Drop)]
pub(crate) enum Reported {
    /// A reply, and its text, where it was written to be kept.
    Reply(Reply, Option<Text>),
    Text(Text),
}

/// A refusal.
pub(crate) fn refused(refusal: Refusal) -> Reported
    ensures reported { response_of result ≡ replied (Refused refusal) }
    ensures printed { HasPrintedText result }
{
    Reported::Reply(Reply::Refused(refusal), None)
}

/// A text, or the refusal that stands for it.
pub(crate) fn reported_of(made: Result<String, Refusal>) -> Reported
    ensures reported { IsReportedOf made (response_of result) }
    ensures printed { HasPrintedText result }
{
    match made {
        Ok(text) => Reported::Text(Text::of(text)),
        Err(refusal) => refused(refusal),
    }
}

/// The text of a reply: the one that was reported, where there is one.
pub(crate) fn text_of(
    alloc: Global,
    reply: &Reply,
    reported: Option<Text>,
) -> Result<Text, AllocError>
    requires { IfSome reported (λ text. text ≡ json_texts.of_reply reply.now) }
    ensures { IfOk result (λ text. text ≡ json_texts.of_reply reply.now) }
{
    match reported {
        Some(text) => Ok(text),
        None => reply_text(alloc, reply),
    }
}

/// The text of what is reported.
pub(crate) fn text_reported(alloc: Global, reported: Reported) -> Result<Text, AllocError>
    requires { HasPrintedText reported }
    ensures { IfOk result (λ text. text ≡ response_text (response_of reported)) }
{
    match reported {
        Reported::Reply(reply, text) => text_of(alloc, &reply, text),
        Reported::Text(text) => Ok(text),
    }
}

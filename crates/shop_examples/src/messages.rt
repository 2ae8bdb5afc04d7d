//! The messages of one shop, in which a sheet is cut.

use crate::lines::answered;
use anyhow::Result;
use shop_store::Book;
use std::alloc::Global;

/// The messages, in order.
pub const MESSAGES: [&str; 5] = [
    r#"{"do":"material","kerf":1,"kind":"sheet","material":"GLASS","min_long":5,"min_short":4,"number":1,"terminal":1}"#,
    r#"{"batch":"B-1","count":1,"do":"receive","h":8,"material":"GLASS","number":2,"terminal":1,"w":10}"#,
    r#"{"do":"order","lines":[{"count":1,"h":3,"line":1,"material":"GLASS","turn":false,"w":4,"worth":1},{"count":1,"h":4,"line":2,"material":"GLASS","turn":false,"w":4,"worth":1},{"count":1,"h":3,"line":3,"material":"GLASS","turn":false,"w":5,"worth":1}],"number":3,"order":"A-1","terminal":1}"#,
    r#"{"do":"reserve","number":4,"part":"1/0","terminal":1,"tree":"x4 y3 p1 p2 r"}"#,
    r#"{"do":"done","job":2,"number":5,"terminal":1}"#,
];

/// Sends the first messages, whatever their replies are.
pub fn send<B: Book>(alloc: Global, book: &mut B, count: usize) -> Result<()> {
    for message in MESSAGES.iter().take(count) {
        answered(alloc, book, message)?;
    }
    Ok(())
}

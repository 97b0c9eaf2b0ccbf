//! Lines and parts of them as texts.
ghost use Rattle.std.specs.Prelude.{◌≡◌, IfOk, string_bytes};
ghost use Rattle.std.specs.Str.{IsUtf8};
ghost use Rattle.fs_report.specs.Report.{handle_line, node_line};
ghost use Rattle.fs_report.specs.Texts.{op_text, reply_text};

use crate::node_lines::{put_handle, put_node};
use crate::op_text::put_op;
use crate::pieces::LINE;
use crate::reply_text::put_reply;
use fs_ident::{FileId, Memory};
use fs_model::{Handle, Node, Op, Reply};
use std::alloc::Global;

/// The text of an operation.
#[tactic(auto, using(crate::proofs::Text::none_is))]
pub(crate) fn op_string(alloc: Global, op: &Op) -> Result<String, Memory>
    ensures { IfOk result (λ text. string_bytes text ≡ op_text op.now) }
{
    let mut bytes = Vec::with_capacity(alloc, LINE)?;
    put_op(alloc, op, &mut bytes)?;
    Ok(text_of(bytes))
}

/// The text of a reply.
#[tactic(auto, using(crate::proofs::Text::none_is))]
pub(crate) fn reply_string(alloc: Global, reply: &Reply) -> Result<String, Memory>
    ensures { IfOk result (λ text. string_bytes text ≡ reply_text reply.now) }
{
    let mut bytes = Vec::with_capacity(alloc, LINE)?;
    put_reply(alloc, reply, &mut bytes)?;
    Ok(text_of(bytes))
}

/// A node's line, without its line feed.
#[tactic(auto, using(crate::proofs::Text::none_is))]
pub(crate) fn node_string(alloc: Global, id: &FileId, node: &Node) -> Result<String, Memory>
    ensures { IfOk result (λ text. string_bytes text ≡ node_line id.now node.now) }
{
    let mut bytes = Vec::with_capacity(alloc, LINE)?;
    put_node(alloc, id, node, &mut bytes)?;
    Ok(text_of(bytes))
}

/// A handle's line, without its line feed.
#[tactic(auto, using(crate::proofs::Text::none_is))]
pub(crate) fn handle_string(alloc: Global, id: &FileId, handle: Handle) -> Result<String, Memory>
    ensures { IfOk result (λ text. string_bytes text ≡ handle_line id.now handle) }
{
    let mut bytes = Vec::with_capacity(alloc, LINE)?;
    put_handle(alloc, id, handle, &mut bytes)?;
    Ok(text_of(bytes))
}

/// The text that the bytes are.
fn text_of(bytes: Vec<u8>) -> String
    requires { IsUtf8 bytes.items }
    ensures { string_bytes result ≡ bytes.items }
{
    match String::from_utf8(bytes) {
        Ok(text) => text,
        Err(_) => unreachable!(),
    }
}

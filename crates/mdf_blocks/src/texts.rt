//! The blocks of texts.
ghost use Rattle.std.specs.Prelude.{◌≡◌, [], ◌++◌, OnErr, OnOk, length, take};
ghost use Rattle.mdf_blocks.specs.Blocks.{block, filled};
ghost use Rattle.mdf_blocks.specs.Texts.{md_block, text_body, tx_block};

use crate::block::block_head;
use crate::fill::{fill_len, push_zeros};
use std::alloc::AllocError;

/// Appends a plain text (ASAM MDF 4.1, TX). It is read to its first byte of 0. If memory is out,
/// nothing is appended.
pub fn push_text(out: &mut Vec<u8>, text: &str) -> Result<(), AllocError>
    ensures ok { OnOk result (out.new.items ≡ out.old.items ++ tx_block text.now) }
    ensures err { OnErr result (out.new.items ≡ out.old.items) }
{
    push_letters(out, b"##TX", text)
}

/// Appends a text in XML (ASAM MDF 4.1, MD). It is read to its first byte of 0. If memory is out,
/// nothing is appended.
pub fn push_comment(out: &mut Vec<u8>, text: &str) -> Result<(), AllocError>
    ensures ok { OnOk result (out.new.items ≡ out.old.items ++ md_block text.now) }
    ensures err { OnErr result (out.new.items ≡ out.old.items) }
{
    push_letters(out, b"##MD", text)
}

fn push_letters(out: &mut Vec<u8>, id: &[u8; 4], text: &str) -> Result<(), AllocError>
    ensures ok { OnOk result (out.new.items
        ≡ out.old.items ++ filled (block id.now [] (text_body text.now))) }
    ensures err { OnErr result (out.new.items ≡ out.old.items) }
{
    let start = out.len();
    if let Err(fault) = push_parts(out, id, text) {
        out.truncate(start);
        return Err(fault);
    }
    Ok(())
}

/// The same, but if memory is out, a part may have been appended.
fn push_parts(out: &mut Vec<u8>, id: &[u8; 4], text: &str) -> Result<(), AllocError>
    ensures ok { OnOk result (out.new.items
        ≡ out.old.items ++ filled (block id.now [] (text_body text.now))) }
    ensures err { OnErr result (take (length out.old.items) out.new.items ≡ out.old.items) }
{
    let len = 24 + text.len() as u64 + 1;
    out.extend_from_slice(&block_head(id, len, 0))?;
    out.extend_from_slice(text.as_bytes())?;
    push_zeros(out, 1 + fill_len(len))
}

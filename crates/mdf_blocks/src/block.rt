//! Blocks: header, links and data section.
ghost use Rattle.std.specs.Prelude.{◌≡◌, ◌^◌, ◌<◌, ◌++◌, OnErr, OnOk, length, take};
ghost use Rattle.mdf_blocks.specs.Blocks.{block, block_head, block_len};
ghost use Rattle.mdf_blocks.specs.Numbers.{uint64s};

use std::alloc::AllocError;

/// Appends a block of these letters, links and data section. If memory is out, nothing is appended.
pub fn push_block(
    out: &mut Vec<u8>,
    id: &[u8; 4],
    links: &[u64],
    body: &[u8],
) -> Result<(), AllocError>
    requires { block_len links.now body.now < 2 ^ 64 }
    ensures ok { OnOk result (out.new.items ≡ out.old.items ++ block id.now links.now body.now) }
    ensures err { OnErr result (out.new.items ≡ out.old.items) }
{
    let start = out.len();
    if let Err(fault) = push_parts(out, id, links, body) {
        out.truncate(start);
        return Err(fault);
    }
    Ok(())
}

/// The same, but if memory is out, a part may have been appended.
fn push_parts(out: &mut Vec<u8>, id: &[u8; 4], links: &[u64], body: &[u8]) -> Result<(), AllocError>
    requires { block_len links.now body.now < 2 ^ 64 }
    ensures ok { OnOk result (out.new.items ≡ out.old.items ++ block id.now links.now body.now) }
    ensures err { OnErr result (take (length out.old.items) out.new.items ≡ out.old.items) }
{
    let len = 24 + 8 * links.len() as u64 + body.len() as u64;
    out.extend_from_slice(&block_head(id, len, links.len() as u64))?;
    push_numbers(out, links)?;
    out.extend_from_slice(body)
}

/// What stands in front of the links of a block.
pub(crate) fn block_head(id: &[u8; 4], len: u64, link_count: u64) -> [u8; 24]
    ensures { result ≡ block_head id.now len link_count }
{
    let [i0, i1, i2, i3] = *id;
    let [a0, a1, a2, a3, a4, a5, a6, a7] = len.to_le_bytes();
    let [b0, b1, b2, b3, b4, b5, b6, b7] = link_count.to_le_bytes();
    [
        i0, i1, i2, i3, 0, 0, 0, 0, a0, a1, a2, a3, a4, a5, a6, a7, b0, b1, b2, b3, b4, b5, b6, b7,
    ]
}

/// Appends numbers one behind another. If memory is out, some of them may have been appended.
pub(crate) fn push_numbers(out: &mut Vec<u8>, numbers: &[u64]) -> Result<(), AllocError>
    ensures ok { OnOk result (out.new.items ≡ out.old.items ++ uint64s numbers.now) }
    ensures err { OnErr result (take (length out.old.items) out.new.items ≡ out.old.items) }
{
    for number in numbers {
        out.extend_from_slice(&number.to_le_bytes())?;
    }
    Ok(())
}

//! The lines of a block.
use rp_value::Memory;
use std::alloc::Global;

/// The lines that begin so, without that, each with its newline.
pub fn lines_behind(alloc: Global, block: &str, front: &str) -> Result<Vec<u8>, Memory> {
    let mut lines = Vec::new(alloc);
    for line in block.split('\n') {
        if let Some(rest) = line.strip_prefix(front) {
            lines.extend_from_slice(rest.as_bytes())?;
            lines.push(b'\n')?;
        }
    }
    Ok(lines)
}

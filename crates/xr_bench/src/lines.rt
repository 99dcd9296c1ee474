// A device text as long as one may be, and how it is read.
use std::alloc::{AllocError, Global};
use xr_device::{Device, LineDevice, Next};
use xr_io::{MemorySource, Which};

/// How many lines the text has, of 14 bytes each: as many as a device text has room for.
const LINES: usize = 1_198_372;

/// The text of these lines.
pub(crate) fn text_of_lines(alloc: Global) -> Result<Vec<u8>, AllocError> {
    let mut text = Vec::new(alloc);
    for _ in 0..LINES {
        text.extend_from_slice(b"clock 1234567\n")?;
    }
    Ok(text)
}

/// How many events a device tells of the text.
pub(crate) fn read_lines(alloc: Global, text: &[u8]) -> Result<u64, AllocError> {
    let source = MemorySource::new(Which::Device, text, &[]);
    let Ok(mut device) = LineDevice::start(alloc, source) else {
        return Err(AllocError);
    };
    let mut count: u64 = 0;
    for _ in 0..text.len() {
        match device.next() {
            Next::Event(_) => count = count.saturating_add(1),
            _ => return Ok(count),
        }
    }
    Ok(count)
}

// An output that takes one byte at a time.
use std::alloc::{AllocError, Global};
use xr_io::{MemorySink, Sink};
use xr_types::Failed;

/// An output in memory that takes at most the first byte of each piece.
#[derive(Drop)]
pub(super) struct SlowSink<'a> {
    out: MemorySink<'a>,
}

impl<'a> SlowSink<'a> {
    /// It has room for so many bytes, and the writes of these numbers are to fail.
    pub(super) fn new(
        alloc: Global,
        room: usize,
        failing: &'a [u64],
    ) -> Result<SlowSink<'a>, AllocError> {
        Ok(SlowSink {
            out: MemorySink::new(alloc, room, failing, &[])?,
        })
    }

    /// The bytes written.
    pub(super) fn bytes(&self) -> &[u8] {
        self.out.bytes()
    }
}

impl<'a> Sink for SlowSink<'a> {
    ghost use Rattle.std.specs.Prelude.{Some};

    ghost output = { λ sink. record { bytes = Some sink.out.written; faults = sink.out.faults } };

    fn write(&mut self, piece: &[u8]) -> Result<usize, Failed> {
        let most = piece.len().min(1);
        self.out.write(&piece[..most])
    }
}

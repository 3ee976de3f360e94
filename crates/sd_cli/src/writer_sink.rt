// A sink over a writer. It tells nothing of content, and counts each fault.
use crate::retry::write_some;
use sd_base::{Failed, Sink};
use std::io::Write;

/// A sink over a writer.
#[derive(Drop)]
pub struct WriterSink<W: Write> {
    writer: W,
    faults: u64,
}

impl<W: Write> WriterSink<W> {
    /// The sink over this writer, with no fault counted.
    pub fn new(writer: W) -> Self {
        WriterSink { writer, faults: 0 }
    }
}

impl<W: Write> Sink for WriterSink<W> {
    ghost use Rattle.std.specs.Prelude.{None};

    ghost written = { λ _. None };

    ghost faults = { λ sink. sink.faults };

    fn write(&mut self, piece: &[u8]) -> Result<usize, Failed> {
        if let Some(count) = write_some(&mut self.writer, piece) {
            return Ok(count);
        }
        self.faults = self.faults.saturating_add(1);
        Err(Failed)
    }
}

// A source and a sink in memory.
ghost use Rattle.std.specs.Prelude.{◌≡◌, ◌≤◌, ◌<◌, ℕ, Some, length, drop, min, is_err, false, IfOk};
ghost use Rattle.std.specs.Io.{ReadsAtMost, WritesAtMost};
ghost use Rattle.std.specs.Io.KnownBytes.{ReadConsumes, WriteAppends};
ghost use Rattle.wave_outside.specs.Counts.{HasCause};

use crate::calls::Calls;
use crate::{Failed, Sink, Source};
use std::alloc::Global;

/// A source of bytes in memory, which gives as many as it can at each call.
#[derive(Drop)]
pub struct MemorySource {
    bytes: Vec<u8>,
    at: usize,
    calls: Calls,
    ghost within: { at ≤ length bytes.items },
}

impl MemorySource {
    ghost use Rattle.std.specs.Prelude.{◌≡◌};
    ghost use Rattle.wave_outside.specs.Memory.{bytes_left, source_calls, IsUncalled};

    /// The calls whose numbers are in `failing` fail, counted from 0.
    pub fn new(bytes: Vec<u8>, failing: Vec<u64>) -> MemorySource
        ensures bytes { bytes_left result ≡ bytes.items }
        ensures calls { IsUncalled (source_calls result) failing.items }
    {
        MemorySource {
            bytes,
            at: 0,
            calls: Calls::new(failing),
        }
    }
}

impl Source for MemorySource {
    ghost use Rattle.wave_outside.specs.Memory.{bytes_left, source_calls, fails_next, WasCalled};

    ghost left = { λ s. Some (drop s.at s.bytes.items) };

    ghost faults = { λ s. s.calls.faults.count };

    fn read(&mut self, into: &mut [u8]) -> Result<usize, Failed>
        ensures bound { ReadsAtMost result into.new }
        ensures bytes { ReadConsumes (Some (bytes_left self.old)) (Some (bytes_left self.new)) result into.new }
        ensures cause { HasCause (source_calls self.old).faults.count (source_calls self.new).faults.count result }
        ensures whole { IfOk result (λ n. n ≡ min (length into.old) (length (bytes_left self.old))) }
        ensures fails { is_err result ≡ fails_next (source_calls self.old) }
        ensures called { WasCalled (source_calls self.old) (source_calls self.new) result }
    {
        self.calls.make()?;
        let count = into.len().min(self.bytes.len() - self.at);
        let end = self.at + count;
        into[..count].copy_from_slice(&self.bytes[self.at..end]);
        self.at = end;
        Ok(count)
    }
}

/// A sink that keeps its bytes in memory, and takes all of them at each call.
#[derive(Drop)]
pub struct MemorySink {
    bytes: Vec<u8>,
    calls: Calls,
}

impl MemorySink {
    ghost use Rattle.std.specs.Prelude.{◌≡◌, []};
    ghost use Rattle.wave_outside.specs.Memory.{bytes_written, sink_calls, IsUncalled};

    /// The calls whose numbers are in `failing` fail, counted from 0; so does one that is refused the room for its
    /// bytes.
    pub fn new(alloc: Global, failing: Vec<u64>) -> MemorySink
        ensures bytes { bytes_written result ≡ [] }
        ensures calls { IsUncalled (sink_calls result) failing.items }
    {
        MemorySink {
            bytes: Vec::new(alloc),
            calls: Calls::new(failing),
        }
    }

    /// The bytes that were written.
    pub fn bytes(&self) -> &[u8]
        ensures { result.now ≡ bytes_written self.now }
    {
        self.bytes.as_slice()
    }
}

impl Sink for MemorySink {
    ghost use Rattle.wave_outside.specs.Memory.{bytes_written, sink_calls, fails_next, WasCalled};

    ghost written = { λ s. Some s.bytes.items };

    ghost faults = { λ s. s.calls.faults.count };

    fn write(&mut self, bytes: &[u8]) -> Result<usize, Failed>
        ensures bound { WritesAtMost result bytes.now }
        ensures some { IfOk result (λ n. 0 < length bytes.now → 0 < n) }
        ensures bytes { WriteAppends (Some (bytes_written self.old)) (Some (bytes_written self.new)) result bytes.now }
        ensures cause { HasCause (sink_calls self.old).faults.count (sink_calls self.new).faults.count result }
        ensures whole { IfOk result (λ n. n ≡ length bytes.now) }
        ensures fails { IfOk result (λ _. fails_next (sink_calls self.old) ≡ false) }
        ensures called { WasCalled (sink_calls self.old) (sink_calls self.new) result }
    {
        self.calls.make()?;
        if self.bytes.extend_from_slice(bytes).is_err() {
            return Err(self.calls.faults.raise());
        }
        Ok(bytes.len())
    }
}

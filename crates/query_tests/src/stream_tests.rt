//! Tests of streams of the standard library that are interrupted, and that are called many times.
use query_tool::{AnswerOutput, IoFault, QueryInput, StreamInput, StreamOutput};
use std::alloc::{AllocError, Global};
use std::io::{self, ErrorKind, Read, Write};
use std::test::Fail;

// A stream that transfers one byte at a call, and is interrupted `interruptions` times before each.
// After `until_failure` transfers it fails.
#[derive(Drop)]
struct Patchy {
    bytes: Vec<u8>,
    at: usize,
    interruptions: u32,
    waited: u32,
    until_failure: usize,
}

impl Patchy {
    fn new(
        alloc: Global,
        bytes: &[u8],
        interruptions: u32,
        until_failure: usize,
    ) -> Result<Patchy, AllocError> {
        Ok(Patchy {
            bytes: Vec::from_slice(alloc, bytes)?,
            at: 0,
            interruptions,
            waited: 0,
            until_failure,
        })
    }

    // Counts one call: interrupts it, lets it through after `interruptions` interruptions, or fails
    // it.
    fn turn(&mut self) -> io::Result<()> {
        if self.waited < self.interruptions {
            self.waited += 1;
            return Err(io::Error::from(ErrorKind::Interrupted));
        }
        self.waited = 0;
        if self.until_failure == 0 {
            return Err(io::Error::from(ErrorKind::BrokenPipe));
        }
        self.until_failure -= 1;
        Ok(())
    }
}

impl Read for Patchy {
    fn read(&mut self, buffer: &mut [u8]) -> io::Result<usize> {
        self.turn()?;
        let rest = self.bytes.get(self.at..).unwrap_or(&[]);
        let count = rest.len().min(buffer.len()).min(1);
        buffer[..count].copy_from_slice(&rest[..count]);
        self.at = self.at.saturating_add(count);
        Ok(count)
    }
}

impl Write for Patchy {
    fn write(&mut self, bytes: &[u8]) -> io::Result<usize> {
        self.turn()?;
        let count = bytes.len().min(1);
        self.bytes.extend_from_slice(&bytes[..count])?;
        Ok(count)
    }

    fn flush(&mut self) -> io::Result<()> {
        Ok(())
    }
}

const TEXT: &[u8] = b"<100005\n<<100005\n*\n";

// Whether reading gives each byte of the text, and then the end.
fn gives_the_text(input: &mut StreamInput<Patchy>) -> bool {
    let mut buffer = [0u8; 8];
    for byte in TEXT {
        if input.read(&mut buffer) != Ok(1) || buffer[0] != *byte {
            return false;
        }
    }
    input.read(&mut buffer) == Ok(0)
        && input.read(&mut buffer[..0]) == Ok(0)
        && !input.failed()
        && input.reads() == TEXT.len() as u64 + 2
}

// Whether writing takes each byte of the text.
fn takes_the_text(output: &mut StreamOutput<Patchy>) -> bool {
    for at in 0..TEXT.len() {
        if output.write(&TEXT[at..]) != Ok(1) {
            return false;
        }
    }
    output.write(b"") == Ok(0) && !output.failed()
}

// The streams transfer the whole text, however often they are called and interrupted.
#[test]
fn goes_to_the_end(rt: HostRuntime) -> Result<(), Fail> {
    for interruptions in [0, 1, 2, 999] {
        let mut input = StreamInput::new(Patchy::new(rt.alloc(), TEXT, interruptions, 100)?);
        assert!(rt; gives_the_text(&mut input), "{interruptions}");
    }
    for interruptions in [0, 1, 2, 999] {
        let mut output = StreamOutput::new(Patchy::new(rt.alloc(), b"", interruptions, 100)?);
        assert!(rt; takes_the_text(&mut output), "{interruptions}");
    }
    Ok(())
}

// Whether the first read fails.
fn fails_to_give(input: &mut StreamInput<Patchy>) -> bool {
    let mut buffer = [0u8; 8];
    input.read(&mut buffer) == Err(IoFault) && input.failed() && input.reads() == 1
}

// Whether the first write fails.
fn fails_to_take(output: &mut StreamOutput<Patchy>) -> bool {
    output.write(TEXT) == Err(IoFault) && output.failed()
}

// A stream fails if the stream below it has a fault other than an interruption, or is interrupted
// without end.
#[test]
fn fails_where_the_stream_fails(rt: HostRuntime) -> Result<(), Fail> {
    for (interruptions, until_failure) in [(0, 0), (3, 0), (1_000, 10)] {
        let mut input = StreamInput::new(Patchy::new(
            rt.alloc(),
            TEXT,
            interruptions,
            until_failure,
        )?);
        assert!(rt; fails_to_give(&mut input), "{interruptions}");
        let mut output = StreamOutput::new(Patchy::new(
            rt.alloc(),
            b"",
            interruptions,
            until_failure,
        )?);
        assert!(rt; fails_to_take(&mut output), "{interruptions}");
    }
    Ok(())
}

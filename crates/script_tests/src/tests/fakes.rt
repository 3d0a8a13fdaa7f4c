//! Readers and writers that give and take little, or fail.

use std::alloc::Global;
use std::io;
use std::io::{Read, Write};

/// A reader that gives a few bytes a call, and fails once its calls are used up.
#[derive(Drop)]
pub struct Pieces<'a> {
    pub rest: &'a [u8],
    pub size: usize,
    pub calls: usize,
}

impl<'a> Pieces<'a> {
    /// A reader of all these bytes, of which it gives so many a call.
    pub fn of(rest: &'a [u8], size: usize) -> Self {
        Pieces {
            rest,
            size,
            calls: usize::MAX,
        }
    }
}

impl Read for Pieces<'_> {
    fn read(&mut self, buf: &mut [u8]) -> io::Result<usize> {
        if self.calls == 0 {
            return Err(io::Error::from(io::ErrorKind::Other));
        }
        self.calls -= 1;
        let count = self.size.min(buf.len()).min(self.rest.len());
        buf[..count].copy_from_slice(&self.rest[..count]);
        self.rest = &self.rest[count..];
        Ok(count)
    }
}

/// What a writer does once it has no room left.
#[derive(Clone, Copy)]
pub enum Full {
    Fails,
    TakesNothing,
}

/// A writer with room for a few bytes, of which it takes a few a call.
#[derive(Drop)]
pub struct Limited {
    pub bytes: Vec<u8>,
    pub room: usize,
    pub size: usize,
    pub full: Full,
}

impl Limited {
    /// A writer with room for so many bytes, of which it takes all that fit.
    pub fn with_room(alloc: Global, room: usize) -> Self {
        Limited {
            bytes: Vec::new(alloc),
            room,
            size: usize::MAX,
            full: Full::Fails,
        }
    }
}

impl Write for Limited {
    fn write(&mut self, buf: &[u8]) -> io::Result<usize> {
        let count = buf.len().min(self.room).min(self.size);
        if count == 0 && !buf.is_empty() {
            return match self.full {
                Full::Fails => Err(io::Error::from(io::ErrorKind::Other)),
                Full::TakesNothing => Ok(0),
            };
        }
        self.bytes.extend_from_slice(&buf[..count])?;
        self.room -= count;
        Ok(count)
    }

    fn flush(&mut self) -> io::Result<()> {
        Ok(())
    }
}

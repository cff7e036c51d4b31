// Standard input and output for a program that nobody watches: a call that was interrupted is made again, one that failed is told from the end of the input, and text goes out in whole lines.
#![tactic(auto)]

ghost use Rattle.std.specs.Prelude.{◌≡◌, ◌≤◌, ◌<◌, length, take, IsNone};
ghost use Rattle.std.specs.Io.{ReadsAtMost, WritesAtMost};
ghost use Rattle.std.specs.Io.KnownBytes.{Consumes, IsAtEnd, ReadConsumes, WriteAppends};
ghost use Rattle.std.specs.IoError.{raw_os_error};
ghost use Rattle.io.specs.Counts.{IsPrefixLen};
ghost use Rattle.streams.specs.Streams.{passing, passing_call, lines_in, piece_of, Puts};
ghost use Rattle.streams.specs.declared.Unprinted.TheVariants.{Failed};

use std::io::{Error, ErrorKind, Read, Write};
use std::rt::Files;
use std::{fs, io, thread};

// How often a call is made again: some seconds, where the descriptor does not wait by itself.
const PATIENCE: u32 = 10_000_000;

// So many bytes or fewer, written at once, a pipe takes all together or not at all.
const PIPE_BUF: usize = 4096;

// The numbers that the system has for a call that was interrupted, and for a descriptor that is not ready.
const EINTR: i32 = 4;

const EAGAIN: i32 = 11;

// How many bytes came, and why a read failed behind them, where one did; otherwise the slice is full or the input has ended.
#[derive(Clone, Copy)]
pub struct Taken {
    pub count: usize,
    pub failed: Option<Error>,
}

// Why not all of a text was written.
#[derive(Clone, Copy)]
pub enum Unprinted {
    // A file took a part of what was written: it is full. Another write could end the program by a signal, before anything is said.
    Partly,
    Failed(Error),
}

impl From<Error> for Unprinted {
    ghost from_gives = { λ error unprinted. unprinted ≡ Failed error };

    fn from(error: Error) -> Unprinted {
        Unprinted::Failed(error)
    }
}

// Whether the call that failed so may succeed when it is made again: it was interrupted, or the descriptor is not ready.
fn is_passing(error: i32) -> bool
    ensures { result ≡ passing error }
{
    error == EINTR || error == EAGAIN
}

// Whether to make the call again that has just failed. Others are let run before that.
fn may_pass(error: &Error) -> bool
    ensures { result ≡ passing_call (raw_os_error error.now) }
{
    let passing = error.raw_os_error().is_some_and(is_passing);
    if passing {
        thread::yield_now();
    }
    passing
}

// One read, made again while what stops it may pass. It shares no function with `write`: after a closure that borrows stream and bytes, a proof knows nothing of them.
fn read<R: Read>(from: &mut R, buf: &mut [u8]) -> io::Result<usize>
    ensures bound { ReadsAtMost result buf.new }
    ensures bytes { ReadConsumes (R.remaining from.old) (R.remaining from.new) result buf.new }
{
    for _ in 0..PATIENCE {
        match from.read(buf) {
            Err(error) if may_pass(&error) => {}
            came => return came,
        }
    }
    from.read(buf)
}

// One write, made again while what stops it may pass.
fn write<W: Write>(to: &mut W, text: &[u8]) -> io::Result<usize>
    ensures bound { WritesAtMost result text.now }
    ensures bytes { WriteAppends (W.contents to.old) (W.contents to.new) result text.now }
{
    for _ in 0..PATIENCE {
        match to.write(text) {
            Err(error) if may_pass(&error) => {}
            put => return put,
        }
    }
    to.write(text)
}

// Reads until the slice is full, the input ends or a read fails.
pub fn take<R: Read>(from: &mut R, buf: &mut [u8]) -> Taken
    ensures count { IsPrefixLen result.count buf.new }
    ensures bytes { Consumes (R.remaining from.old) (R.remaining from.new) (take result.count buf.new) }
    ensures end { IsNone result.failed → result.count < length buf.new → IsAtEnd (R.remaining from.new) }
{
    let mut count = 0;
    // How many bytes a read brings is not known before: no `for`.
    while count < buf.len() {
        match read(from, &mut buf[count..]) {
            Ok(0) => break,
            Ok(more) => count += more,
            Err(error) => {
                return Taken {
                    count,
                    failed: Some(error),
                };
            }
        }
    }
    Taken {
        count,
        failed: None,
    }
}

// How many of the first bytes are whole lines.
fn whole_lines(text: &[u8], most: usize) -> usize
    requires { most ≤ length text.now }
    ensures { result ≡ lines_in text.now most }
{
    match text[..most].iter().rposition(|byte| *byte == b'\n') {
        Some(last) => last + 1,
        None => 0,
    }
}

// How many bytes of a text are written at once.
fn piece(text: &[u8]) -> usize
    ensures { result ≡ piece_of 4096 text.now }
{
    if text.len() <= PIPE_BUF {
        return text.len();
    }
    let n = whole_lines(text, PIPE_BUF);
    if n == 0 { PIPE_BUF } else { n }
}

// Pipes, sockets and terminals are no files; they may take a part and later the rest.
fn is_file(files: &impl Files, path: &str) -> bool {
    fs::metadata(files, path).is_ok_and(|metadata| metadata.is_file())
}

// Writes a text, piece by piece, to what the system has at this path.
pub fn print<W: Write>(
    to: &mut W,
    files: &impl Files,
    path: &str,
    text: &[u8],
) -> Result<(), Unprinted>
    ensures { Puts result (W.contents to.old) (W.contents to.new) text.now }
{
    let mut rest = text;
    // How many bytes a write takes is not known before: no `for`.
    while !rest.is_empty() {
        let n = piece(rest);
        let put = write(to, &rest[..n])?;
        if put == 0 {
            return Err(Unprinted::Failed(Error::from(ErrorKind::WriteZero)));
        }
        if put < n && is_file(files, path) {
            return Err(Unprinted::Partly);
        }
        rest = &rest[put..];
    }
    Ok(())
}

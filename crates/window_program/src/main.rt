// The window program: it reads a house file and then windows from standard input, and prints for each window what was found.
// What is printed is put into bytes first, by functions whose contracts say which bytes. Which bytes the system hands over and which it takes, and when, no contract can say.
// Where a read or a write fails, one line on standard error says so, and the program ends; its status is 0 then too.
#![tactic(auto)]

ghost use Rattle.std.specs.Prelude.{◌≡◌, ◌≤◌, length};
ghost use Rattle.map.specs.Sound.{SoundMap};
ghost use Rattle.window_program.specs.Received.{Received};
ghost use Rattle.window_program.specs.Turns.{Counts, Turn};
ghost use Rattle.window_program.specs.declared.Lost.TheVariants.{Output};

use std::io::{Error, Read, Write};
use std::rt::Files;
use streams::{Taken, Unprinted};

// Where the system tells what standard output and standard error are.
const OUTPUT_PATH: &str = "/proc/self/fd/1";

const ERROR_PATH: &str = "/proc/self/fd/2";

// Why the program ends though windows may be left.
#[derive(Clone, Copy)]
enum Lost {
    Input(Error),
    Output(Unprinted),
}

impl From<Unprinted> for Lost {
    ghost from_gives = { λ unprinted lost. lost ≡ Output unprinted };

    fn from(unprinted: Unprinted) -> Lost {
        Lost::Output(unprinted)
    }
}

// Reads the first four bytes of a file, and then as many more as they announce. Answers how many came.
fn receive<R: Read>(from: &mut R, file: &mut [u8]) -> Taken
    requires { 4 ≤ length file.old }
    ensures { Received result.count file.new }
{
    let first = streams::take(from, &mut file[..4]);
    if first.count < 4 {
        return first;
    }
    let Some(size) = input::announced(file) else {
        return first;
    };
    let more = streams::take(from, &mut file[4..size]);
    Taken {
        count: 4 + more.count,
        failed: more.failed,
    }
}

// How many bytes came, where no read failed.
fn count(taken: Taken) -> Result<usize, Lost>
    ensures { Counts result taken }
{
    match taken.failed {
        Some(error) => Err(Lost::Input(error)),
        None => Ok(taken.count),
    }
}

// Reads one window and prints its answer. False where there is no other: at the end of the input, where bytes may be left over.
fn answer_next<R: Read, W: Write>(
    from: &mut R,
    to: &mut W,
    files: &impl Files,
    m: u32,
    keys: &[u32],
    classes: &[u8],
) -> Result<bool, Lost>
    requires { length keys.now ≤ 1000 }
    ensures { Turn m keys.now classes.now result (R.remaining from.old) (R.remaining from.new) (W.contents to.old) (W.contents to.new) }
{
    let mut bytes = [0u8; 8];
    let got = count(streams::take(from, &mut bytes))?;
    let mut text = [0u8; 42225];
    let n = reply::put_next(m, keys, classes, &bytes, got, &mut text);
    streams::print(to, files, OUTPUT_PATH, &text[..n])?;
    Ok(got == 8)
}

// Answers window after window, on a map that was looked at before. A proved loop ends: no input has so many windows as are counted here.
fn answer_all(rt: &HostRuntime, m: u32, keys: &[u32], classes: &[u8]) -> Result<(), Lost>
    requires { (length keys.now ≤ 1000) × SoundMap m keys.now (length classes.now) }
{
    for _ in 0..u64::MAX {
        if !answer_next(&mut rt.stdin(), &mut rt.stdout(), rt, m, keys, classes)? {
            break;
        }
    }
    Ok(())
}

fn run(rt: &HostRuntime) -> Result<(), Lost> {
    let mut file = [0u8; 5020];
    let got = count(receive(&mut rt.stdin(), &mut file))?;
    let mut keys = [0u32; 1000];
    let mut classes = [0u8; 1000];
    let mut line = [0u8; 24];
    match beginning::put_received(&file, got, &mut keys, &mut classes, &mut line) {
        Ok(header) => {
            let q = header.count as usize;
            answer_all(rt, header.m, &keys[..q], &classes[..q])
        }
        Err(said) => {
            streams::print(&mut rt.stdout(), rt, OUTPUT_PATH, &line[..said])?;
            Ok(())
        }
    }
}

// Says on standard error why the program ends.
fn say(rt: &HostRuntime, lost: Lost) {
    match lost {
        Lost::Input(error) => {
            let _ = eprintln!(rt; "window_program: cannot read standard input: {error}");
        }
        Lost::Output(Unprinted::Failed(error)) => {
            let _ = eprintln!(rt; "window_program: cannot write standard output: {error}");
        }
        Lost::Output(Unprinted::Partly) => {
            let _ = streams::print(
                &mut rt.stderr(),
                rt,
                ERROR_PATH,
                b"window_program: cannot write standard output: it takes no more\n",
            );
        }
    }
}

fn main(rt: HostRuntime) {
    if let Err(lost) = run(&rt) {
        say(&rt, lost);
    }
}

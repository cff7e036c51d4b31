// The input: how long a file is and whether all of it came, a window from its bytes, and what is printed for bytes left over.
#![tactic(auto)]

ghost use Rattle.std.specs.Prelude.{◌≡◌, ◌≤◌, length};
ghost use Rattle.answers.specs.After.{after};
ghost use Rattle.text.specs.Text.{put_of};
ghost use Rattle.input.specs.Input.{announced_of, whole_of, window_of, left_text};

use answers::Cause;
use window::Window;

// How long the file is whose first bytes these are, which the first four say. None where no file is so short, or where there is no room for it.
pub fn announced(file: &[u8]) -> Option<usize>
    requires { 4 ≤ length file.now }
    ensures { result ≡ announced_of file.now }
{
    let size = numbers::get(file) as usize;
    if size < 4 || file.len() < size {
        return None;
    }
    Some(size)
}

// The file of which so many bytes came, where all of it did. Where there is no room for it, or the input ended inside it, none of it.
pub fn whole(bytes: &[u8], got: usize) -> &[u8]
    requires { 4 ≤ length bytes.now }
    ensures { result.now ≡ whole_of bytes.now got }
{
    match announced(bytes) {
        Some(size) if size <= got => &bytes[..size],
        _ => &[],
    }
}

pub fn window_of(bytes: &[u8; 8]) -> Window
    ensures { result ≡ window_of bytes.now }
{
    Window {
        r0: u16::from_le_bytes([bytes[0], bytes[1]]),
        c0: u16::from_le_bytes([bytes[2], bytes[3]]),
        h: u16::from_le_bytes([bytes[4], bytes[5]]),
        w: u16::from_le_bytes([bytes[6], bytes[7]]),
    }
}

// What is printed for bytes that are left over where a window should begin.
pub fn put_left(got: u32, out: &mut [u8]) -> usize
    ensures { after result out.new ≡ put_of (left_text got) out.old }
{
    if got == 0 {
        return 0;
    }
    lines::put_refusal(Cause::LeftOver.number(), got, out)
}

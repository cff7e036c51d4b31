// Writing a house file: cells to bytes.
#![tactic(auto)]

ghost use Rattle.std.specs.Prelude.{◌≡◌, false, ◌+◌, ◌*◌, ◌≤◌, length};
ghost use Rattle.answers.specs.Sizes.{SizedIn};
ghost use Rattle.answers.specs.Cells.{overwrite};
ghost use Rattle.answers.specs.After.{after};
ghost use Rattle.house.specs.File.{file_of, write_in};

use answers::{Cause, Refused};

// Fills the first bytes of a slice that has room for the file.
fn put_parts(m: u32, keys: &[u32], classes: &[u8], out: &mut [u8])
    requires { SizedIn false m (length keys.now) (length classes.now) × (20 + 5 * length keys.now ≤ length out.old) }
    ensures { out.new ≡ overwrite (file_of m keys.now classes.now) out.old }
{
    let q = keys.len();
    let size = 20 + 5 * q;
    let at = 20 + 4 * q;
    let fields = [size as u32, m, q as u32, 20, at as u32];
    numbers::put_all(&fields, out);
    numbers::put_all(keys, &mut out[20..]);
    numbers::copy(classes, &mut out[at..]);
}

pub fn write(
    m: u32,
    keys: &[u32],
    classes: &[u8],
    out: &mut [u8],
    whole: bool,
) -> Result<u32, Refused>
    ensures { after result out.new ≡ write_in whole m keys.now classes.now out.old }
{
    answers::sizes(m, keys.len(), classes.len(), whole)?;
    let size = 20 + 5 * keys.len();
    if out.len() < size {
        return Err(Cause::ShortRoom.at(size as u32));
    }
    put_parts(m, keys, classes, out);
    Ok(size as u32)
}

// Reading a house file: bytes to cells.
#![tactic(auto)]

ghost use Rattle.std.specs.Prelude.{◌≡◌, ◌+◌, ◌*◌, ◌≤◌, length, take, drop};
ghost use Rattle.answers.specs.Refusals.{verdict};
ghost use Rattle.answers.specs.Cells.{overwrite};
ghost use Rattle.answers.specs.After.{after};
ghost use Rattle.numbers.specs.Numbers.{numbers};
ghost use Rattle.house.specs.File.{layout_refusals, read_in};

use answers::{Cause, Refused};
use house::Header;

// What is wrong with the five fields of a header, in a file of so many bytes. Only a map that is to be whole must have a record.
fn layout(size: usize, fields: [u32; 5], whole: bool) -> Result<(), Refused>
    ensures { result ≡ verdict (layout_refusals whole size fields) }
{
    if fields[0] as usize != size {
        return Err(Cause::BadLayout.at(0));
    }
    let q = fields[2] as usize;
    answers::sizes(fields[1], q, q, whole)?;
    if size != 20 + 5 * q {
        return Err(Cause::BadLayout.at(8));
    }
    if fields[3] != 20 {
        return Err(Cause::BadLayout.at(12));
    }
    if fields[4] as usize != 20 + 4 * q {
        return Err(Cause::BadLayout.at(16));
    }
    Ok(())
}

// Fills the first q cells of each slice, from a file of q records.
fn get_parts(file: &[u8], q: usize, keys: &mut [u32], classes: &mut [u8])
    requires { (length file.now ≡ 20 + 5 * q) × (q ≤ length keys.old) × (q ≤ length classes.old) }
    ensures keys_after { keys.new ≡ overwrite (numbers q (drop 20 file.now)) keys.old }
    ensures classes_after { classes.new ≡ overwrite (take q (drop (20 + 4 * q) file.now)) classes.old }
{
    numbers::get_all(&file[20..], &mut keys[..q]);
    let start = 20 + 4 * q;
    numbers::copy(&file[start..], classes);
}

// Reads the layout only: a map is checked by the call that uses it.
pub fn read(
    file: &[u8],
    keys: &mut [u32],
    classes: &mut [u8],
    whole: bool,
) -> Result<Header, Refused>
    ensures { after result (keys.new, classes.new) ≡ read_in whole file.now keys.old classes.old }
{
    if file.len() < 20 {
        return Err(Cause::BadLayout.at(0));
    }
    let mut fields = [0u32; 5];
    numbers::get_all(file, &mut fields);
    layout(file.len(), fields, whole)?;
    let count = fields[2];
    let q = count as usize;
    if keys.len() < q || classes.len() < q {
        return Err(Cause::ShortRoom.at(count));
    }
    get_parts(file, q, keys, classes);
    Ok(Header {
        m: fields[1],
        count,
    })
}

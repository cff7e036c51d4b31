// What comes before the first window: a file is read, its map is looked at, and what is printed for them is put into bytes that the caller lends.
#![tactic(auto)]

ghost use Rattle.std.specs.Prelude.{◌≡◌, ◌≤◌, length};
ghost use Rattle.input.specs.Input.{whole_of};
ghost use Rattle.beginning.specs.Beginning.{map_text, Says, Started};

use house::Header;

// Looks at a map: where it is refused, so many bytes are put that say so.
fn put_map(m: u32, keys: &[u32], classes: &[u8], out: &mut [u8]) -> Result<(), usize>
    ensures { Says (map_text m keys.now classes.now) result out.old out.new }
{
    match checks::sound(m, keys, classes, true) {
        Ok(()) => Ok(()),
        Err(refused) => Err(lines::put_refusal(refused.cause.number(), refused.place, out)),
    }
}

// How the program begins, by a file of which so many bytes came: with its map, or else with a refusal, of which so many bytes are put.
pub fn put_received(
    bytes: &[u8],
    got: usize,
    keys: &mut [u32],
    classes: &mut [u8],
    out: &mut [u8],
) -> Result<Header, usize>
    requires { (4 ≤ length bytes.now) × (length keys.old ≡ 1000) × (length classes.old ≡ 1000) }
    ensures { Started (whole_of bytes.now got) result keys.new classes.new out.old out.new }
{
    let header = match house_read::read(input::whole(bytes, got), keys, classes, true) {
        Ok(header) => header,
        Err(refused) => {
            let said = lines::put_refusal(refused.cause.number(), refused.place, out);
            return Err(said);
        }
    };
    let q = header.count as usize;
    put_map(header.m, &keys[..q], &classes[..q], out)?;
    Ok(header)
}

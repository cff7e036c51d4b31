// The check of a map.
#![tactic(auto)]

ghost use Rattle.std.specs.Prelude.{◌≡◌, length};
ghost use Rattle.answers.specs.Refusals.{verdict};
ghost use Rattle.map.specs.Check.{map_refusals_in, check_in};

use answers::Refused;

// Refusals 1 to 5, in their order, of a map that is to be whole or may have gaps. Whoever uses a map asks this first.
pub fn sound(m: u32, keys: &[u32], classes: &[u8], whole: bool) -> Result<(), Refused>
    ensures { result ≡ verdict (map_refusals_in whole m keys.now (length classes.now)) }
{
    answers::sizes(m, keys.len(), classes.len(), whole)?;
    records::records(m, keys, whole)
}

pub fn check(m: u32, keys: &[u32], classes: &[u8], whole: bool) -> Result<u32, Refused>
    ensures { result ≡ check_in whole m keys.now (length classes.now) }
{
    sound(m, keys, classes, whole)?;
    Ok(keys.len() as u32)
}

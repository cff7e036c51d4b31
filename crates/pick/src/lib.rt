// What a block has of a class: its own key, or those of the records inside it.
#![tactic(auto)]

ghost use Rattle.std.specs.Prelude.{◌≡◌, ◌+◌, ◌≤◌, ◌<◌, length};
ghost use Rattle.answers.specs.Cells.{Listed};
ghost use Rattle.pick.specs.Picked.{picked_run, picked_around, picked, Overlapped};

use map::Run;

// Of a block that lies in a record, lists the block's key behind n others if the record has the class. How many there are then.
pub fn pick_around(
    classes: &[u8],
    class: u8,
    key: u32,
    around: usize,
    out: &mut [u32],
    n: u32,
) -> u32
    requires { (around < length classes.now) × (n < 4294967295) }
    ensures { Listed n (picked_around classes.now class key around) out.old result out.new }
{
    if classes[around] == class {
        answers::put(out, n, key);
        return n + 1;
    }
    n
}

// Lists the keys of the records of a run that have the class: each lies in itself.
fn pick_run(
    keys: &[u32],
    classes: &[u8],
    class: u8,
    first: u32,
    count: u32,
    out: &mut [u32],
    n: u32,
) -> u32
    requires { (first + count ≤ length keys.now) × (length keys.now ≤ 65536) × (length keys.now ≡ length classes.now) × (n + count ≤ 4294967295) }
    ensures { Listed n (picked_run keys.now classes.now class first count) out.old result out.new }
{
    let start = first as usize;
    let mut k = n;
    for i in start..start + (count as usize) {
        k = pick_around(classes, class, keys[i], i, out, k);
    }
    k
}

// Of a maximal block and the records that overlap it: lists its own key if it lies in a record of the class, else the keys of the records inside it that have the class.
pub fn pick(
    keys: &[u32],
    classes: &[u8],
    class: u8,
    key: u32,
    exponent: u32,
    run: Run,
    out: &mut [u32],
    n: u32,
) -> u32
    requires { Overlapped keys.now exponent run × (length keys.now ≤ 65536) × (length keys.now ≡ length classes.now) × (n + run.count ≤ 4294967295) }
    ensures { Listed n (picked keys.now classes.now class key exponent run) out.old result out.new }
{
    if exponent < run.reach {
        return pick_around(classes, class, key, run.first as usize, out, n);
    }
    pick_run(keys, classes, class, run.first, run.count, out, n)
}

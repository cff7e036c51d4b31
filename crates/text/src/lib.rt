// Text: numbers in decimal digits, and lines of them, put into bytes that the caller lends.
#![tactic(auto)]

ghost use Rattle.std.specs.Prelude.{◌≡◌, min, ◌≤◌, length};
ghost use Rattle.answers.specs.After.{after};
ghost use Rattle.text.specs.Text.{digits_of, spaced, line_of, put_of};

// How many digits a number has.
fn width(x: u32) -> usize
    ensures { result ≡ length (digits_of x) }
{
    if x == 0 { 1 } else { x.ilog10() as usize + 1 }
}

// Fills just as many bytes as the number has digits, from the last on.
fn spell(x: u32, to: &mut [u8])
    requires { length to.old ≡ length (digits_of x) }
    ensures { to.new ≡ digits_of x }
{
    let mut rest = x;
    for i in (0..to.len()).rev() {
        to[i] = b'0' + (rest % 10) as u8;
        rest /= 10;
    }
}

pub fn put_number(x: u32, out: &mut [u8]) -> usize
    ensures { after result out.new ≡ put_of (digits_of x) out.old }
{
    let n = width(x);
    if out.len() < n {
        return 0;
    }
    spell(x, &mut out[..n]);
    n
}

// How many bytes numbers take, each with a space before it, or `most` where that is less: the sum over a long slice would not fit.
fn span(numbers: &[u32], most: usize) -> usize
    ensures { result ≡ min (length (spaced numbers.now)) most }
{
    let mut total: usize = 0;
    for x in numbers {
        let n = width(*x);
        if most - total <= n {
            return most;
        }
        total += n + 1;
    }
    total
}

// Puts numbers, each with a space before it, where there is room for all.
fn put_numbers(numbers: &[u32], out: &mut [u8]) -> usize
    requires { length (spaced numbers.now) ≤ length out.old }
    ensures { after result out.new ≡ put_of (spaced numbers.now) out.old }
{
    let mut at: usize = 0;
    for x in numbers {
        out[at] = b' ';
        at += 1;
        at += put_number(*x, &mut out[at..]);
    }
    at
}

pub fn put_line(letter: u8, numbers: &[u32], out: &mut [u8]) -> usize
    ensures { after result out.new ≡ put_of (line_of letter numbers.now) out.old }
{
    if out.len() < 2 {
        return 0;
    }
    let most = out.len() - 1;
    if span(numbers, most) == most {
        return 0;
    }
    out[0] = letter;
    let at = 1 + put_numbers(numbers, &mut out[1..]);
    out[at] = b'\n';
    at + 1
}

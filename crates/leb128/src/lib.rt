#![tactic(auto)]

// Numbers in groups of seven bits, lowest group first, in shortest form (specs/Number.antt).

ghost use Rattle.std.specs.Prelude.{◌≡◌, ◌++◌, ◌<◌, ◌≤◌, length, drop, slice_index, MatchResult};
ghost use Rattle.leb128.specs.declared.NumberError.TheVariants.{Cut};
ghost use Rattle.leb128.specs.Number.{max_groups, max_number, write, write_within, read_groups, prepend, at_most};
ghost use Rattle.leb128.specs.Answer.{read_at, placed, numbers, numbers_at};

// A number that was read, and the position after it.
#[derive(Clone, Copy, Debug, PartialEq, Eq)]
pub struct Number {
    pub value: u32,
    pub next: usize,
}

// Why no number stands at a position: the bytes end too early, or they are no number in shortest form up to the limit.
#[derive(Clone, Copy, Debug, PartialEq, Eq)]
pub enum NumberError {
    Cut,
    Invalid,
}

// The byte at position `at`.
fn byte_at(s: &[u8], at: usize) -> Result<u32, NumberError>
    ensures { MatchResult result (λ x. (at < length s.now) × (x ≡ slice_index s.now at) × (x < 256)) (λ e. (length s.now ≤ at) × (e ≡ Cut)) }
{
    match s.get(at) {
        Some(byte) => Ok(u32::from(*byte)),
        None => Err(NumberError::Cut),
    }
}

// Reads the third byte of a number, behind the groups `x` and `y`. Where it has 80 (hexadecimal) set, it makes the number
// larger than the limit.
fn read_third(s: &[u8], at: usize, x: u32, y: u32) -> Result<Number, NumberError>
    requires { (x < 128) × (y < 128) }
    ensures { result ≡ placed (length s.now) (at_most max_number (prepend x (prepend y (read_groups 1 (drop at s.now))))) }
{
    let z = byte_at(s, at)?;
    let value = x + 128 * y + 16384 * z;
    if z == 0 {
        return Err(NumberError::Invalid);
    }
    if 65535 < value {
        return Err(NumberError::Invalid);
    }
    Ok(Number {
        value,
        next: at + 1,
    })
}

// Reads the number at position `at`, which may be any.
#[tactic(auto, using(crate::proofs::Reading::second_cut, crate::proofs::Reading::second_cut_told))]
pub fn read(s: &[u8], at: usize) -> Result<Number, NumberError>
    ensures answer { result ≡ read_at max_groups max_number s.now at }
    ensures numbers { numbers result ≡ numbers_at max_groups max_number s.now at }
{
    let x = byte_at(s, at)?;
    let second = at + 1;
    if x < 128 {
        return Ok(Number {
            value: x,
            next: second,
        });
    }
    let y = byte_at(s, second)?;
    let third = second + 1;
    if y == 0 {
        return Err(NumberError::Invalid);
    }
    if y < 128 {
        return Ok(Number {
            value: x % 128 + 128 * y,
            next: third,
        });
    }
    read_third(s, third, x % 128, y % 128)
}

// How many bytes `n` takes.
pub fn length_of(n: u32) -> usize
    ensures { result ≡ length (write max_groups n) }
{
    if n < 128 {
        1
    } else if n < 16384 {
        2
    } else {
        3
    }
}

// Writes `n` to the front of `out` and gives the number of bytes written. Where `n` is above the limit or `out` is too
// short it writes nothing and gives 0, a count as any other: no Option, since the clause `count` speaks of it. Groups are taken with a
// shift and a mask; each byte but the last has 80 (hexadecimal) set.
pub fn write(out: &mut [u8], n: u32) -> usize
    ensures count { result ≡ length (write_within max_groups max_number (length out.old) n) }
    ensures bytes { out.new ≡ write_within max_groups max_number (length out.old) n ++ drop result out.old }
{
    if 65535 < n {
        return 0;
    }
    if n < 128 {
        if out.len() < 1 {
            return 0;
        }
        out[0] = n as u8;
        return 1;
    }
    if n < 16384 {
        if out.len() < 2 {
            return 0;
        }
        out[0] = ((n & 127) | 128) as u8;
        out[1] = (n >> 7) as u8;
        return 2;
    }
    if out.len() < 3 {
        return 0;
    }
    out[0] = ((n & 127) | 128) as u8;
    out[1] = (((n >> 7) & 127) | 128) as u8;
    out[2] = (n >> 14) as u8;
    3
}

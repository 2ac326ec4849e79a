//! Whether two names are the same.

ghost use Rattle.std.specs.Prelude.{◌≡◌, ◌≤◌, ◌+◌, bytes_eq, length};
ghost use Rattle.ink_names.specs.Few.{four_at};

/// Whether two names are the same. Most are short: those of up to eight bytes are compared here, by few numbers and without a call.
#[inline(always)]
pub fn same_name(one: &str, other: &str) -> bool
    ensures { result ≡ bytes_eq one.now other.now }
{
    if one.len() != other.len() {
        return false;
    }
    if one.len() > 8 {
        return one == other;
    }
    if one.len() > 3 {
        return same_ends(one.as_bytes(), other.as_bytes());
    }
    same_few(one.as_bytes(), other.as_bytes())
}

// The same of four to eight bytes: of the first four and the last four.
#[inline(always)]
fn same_ends(one: &[u8], other: &[u8]) -> bool
    requires least { 4 ≤ length one.now }
    requires most { length one.now ≤ 8 }
    requires len { length one.now ≡ length other.now }
    ensures { result ≡ bytes_eq one.now other.now }
{
    let last = one.len() - 4;
    if four(one, 0) != four(other, 0) {
        return false;
    }
    four(one, last) == four(other, last)
}

// Four bytes from an index on as one number.
#[inline(always)]
fn four(bytes: &[u8], at: usize) -> u32
    requires { at + 4 ≤ length bytes.now }
    ensures { result ≡ four_at bytes.now at }
{
    u32::from_le_bytes([bytes[at], bytes[at + 1], bytes[at + 2], bytes[at + 3]])
}

// The same of up to three bytes.
#[inline(always)]
fn same_few(one: &[u8], other: &[u8]) -> bool
    requires most { length one.now ≤ 3 }
    requires len { length one.now ≡ length other.now }
    ensures { result ≡ bytes_eq one.now other.now }
{
    let len = one.len();
    if len == 0 {
        return true;
    }
    if one[0] != other[0] {
        return false;
    }
    if one[len - 1] != other[len - 1] {
        return false;
    }
    one[len / 2] == other[len / 2]
}

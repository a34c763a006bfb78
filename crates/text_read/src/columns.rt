// The fields of a text by their places.
ghost use Rattle.std.specs.Prelude.{◌≡◌, true, ◌≤◌, ◌<◌, length};
ghost use Rattle.text_read.specs.Meaning.{digit_of, two_of, four_of, six_of, month_named, has_marks, micro_in, stamp_in, in_limits, has_prefix, prefix_scale, stamp_micro};
ghost use Rattle.text_read.specs.Digits.{is_digit, are_two, are_four, are_six, has_micros, has_digits};

use calendar::Date;
use scales::Scale;
use text_fields::Stamp;

// ---- digits

#[tactic(auto, unfolding(crate::specs::Digits::is_digit))]
fn is_digit(b: u8) -> bool
    ensures { result ≡ is_digit b }
{
    b.is_ascii_digit()
}

#[tactic(auto, unfolding(crate::specs::Digits::are_two))]
fn are_two(a: u8, b: u8) -> bool
    ensures { result ≡ are_two a b }
{
    is_digit(a) && is_digit(b)
}

#[tactic(auto, unfolding(crate::specs::Digits::are_four))]
fn are_four(a: u8, b: u8, c: u8, d: u8) -> bool
    ensures { result ≡ are_four a b c d }
{
    are_two(a, b) && are_two(c, d)
}

#[tactic(auto, unfolding(crate::specs::Digits::are_six))]
fn are_six(a: u8, b: u8, c: u8, d: u8, e: u8, f: u8) -> bool
    ensures { result ≡ are_six a b c d e f }
{
    are_four(a, b, c, d) && are_two(e, f)
}

// The digits of the microseconds and the point before them, where the text is long enough for both.
#[tactic(auto, unfolding(crate::specs::Digits::has_micros))]
fn has_micros(s: &[u8]) -> bool
    ensures { result ≡ has_micros s.now }
{
    s.len() < 27 || (s[20] == b'.' && are_six(s[21], s[22], s[23], s[24], s[25], s[26]))
}

// The digits of all fields, and the point of the long texts: each field is a plain number after this test.
#[tactic(auto, unfolding(crate::specs::Digits::has_digits))]
pub fn has_digits(s: &[u8]) -> bool
    requires { 20 ≤ length s.now }
    ensures { result ≡ has_digits s.now }
{
    are_two(s[0], s[1])
        && are_four(s[7], s[8], s[9], s[10])
        && are_six(s[12], s[13], s[15], s[16], s[18], s[19])
        && has_micros(s)
}

#[tactic(auto, using(crate::specs::Digits::digit_from, crate::specs::Digits::digit_is, crate::specs::Digits::digit_below))]
fn digit(b: u8) -> u64
    requires { is_digit b ≡ true }
    ensures { (result ≡ digit_of b) × (result < 10) }
{
    u64::from(b - b'0')
}

#[tactic(auto, using(crate::specs::Digits::two_parts, crate::specs::Digits::two_is))]
fn two(a: u8, b: u8) -> u64
    requires { are_two a b ≡ true }
    ensures { (result ≡ two_of a b) × (result < 100) }
{
    digit(a) * 10 + digit(b)
}

#[tactic(auto, using(crate::specs::Digits::four_parts, crate::specs::Digits::four_is))]
fn four(a: u8, b: u8, c: u8, d: u8) -> u64
    requires { are_four a b c d ≡ true }
    ensures { (result ≡ four_of a b c d) × (result < 10000) }
{
    two(a, b) * 100 + two(c, d)
}

#[tactic(auto, using(crate::specs::Digits::six_parts, crate::specs::Digits::six_is))]
fn six(a: u8, b: u8, c: u8, d: u8, e: u8, f: u8) -> u64
    requires { are_six a b c d e f ≡ true }
    ensures { (result ≡ six_of a b c d e f) × (result < 1000000) }
{
    four(a, b, c, d) * 100 + two(e, f)
}

// ---- the fields

// The month that three letters name, the letters as one number, which is faster than as bytes; and 0 where they name none, which
// the calendar refuses as the text must be.
fn month_of(a: u8, b: u8, c: u8) -> u64
    ensures { result ≡ month_named a b c }
{
    let key = (u32::from(a) * 256 + u32::from(b)) * 256 + u32::from(c);
    match key {
        0x4A414E => 1, // JAN
        0x464542 => 2, // FEB
        0x4D4152 => 3, // MAR
        0x415052 => 4, // APR
        0x4D4159 => 5, // MAY
        0x4A554E => 6, // JUN
        0x4A554C => 7, // JUL
        0x415547 => 8, // AUG
        0x534550 => 9, // SEP
        0x4F4354 => 10, // OCT
        0x4E4F56 => 11, // NOV
        0x444543 => 12, // DEC
        _ => 0,
    }
}

#[tactic(auto, unfolding(crate::specs::Meaning::has_marks))]
pub fn has_marks(s: &[u8]) -> bool
    requires { 20 ≤ length s.now }
    ensures { result ≡ has_marks s.now }
{
    s[2] == b'-' && s[6] == b'-' && s[11] == b' ' && s[14] == b':' && s[17] == b':'
}

#[tactic(auto, using(crate::specs::Digits::micros, crate::specs::Digits::micro_none, crate::specs::Digits::micro_six))]
fn micro_in(s: &[u8]) -> u64
    requires { has_micros s.now ≡ true }
    ensures { result ≡ micro_in s.now }
{
    if s.len() < 27 {
        return 0;
    }
    six(s[21], s[22], s[23], s[24], s[25], s[26])
}

pub fn stamp_in(s: &[u8]) -> Stamp
    requires { (20 ≤ length s.now) × (has_digits s.now ≡ true) }
    ensures { result ≡ stamp_in s.now }
{
    let day = two(s[0], s[1]);
    let month = month_of(s[3], s[4], s[5]);
    let year = four(s[7], s[8], s[9], s[10]);
    let hour = two(s[12], s[13]);
    let minute = two(s[15], s[16]);
    let second = two(s[18], s[19]);
    let micro = micro_in(s);
    Stamp {
        date: Date { year, month, day },
        hour,
        minute,
        second,
        micro,
    }
}

// Second 60 only in UTC and only after 23:59.
#[tactic(auto, unfolding(crate::specs::Meaning::in_limits))]
pub fn in_limits(z: Scale, t: Stamp) -> bool
    requires { t.micro < 1000000 }
    ensures { result ≡ in_limits z t }
{
    t.hour <= 23
        && t.minute <= 59
        && (t.second <= 59
            || (t.second == 60 && t.hour == 23 && t.minute == 59 && changes::inner::is_utc(z)))
}

// The microsecond of day.
pub fn micro_of(t: Stamp) -> u64
    requires { (t.hour < 100) × (t.minute < 100) × (t.second < 100) × (t.micro < 1000000) }
    ensures { result ≡ stamp_micro t }
{
    ((t.hour * 60 + t.minute) * 60 + t.second) * 1_000_000 + t.micro
}

#[tactic(auto, unfolding(crate::specs::Meaning::has_prefix))]
pub fn has_prefix(z: Scale, s: &[u8]) -> bool
    requires { 4 ≤ length s.now }
    ensures { result ≡ has_prefix z s.now }
{
    // Byte by byte, which is faster than `starts_with`.
    let p = text_fields::inner::prefix(z);
    s[0] == p[0] && s[1] == p[1] && s[2] == p[2] && s[3] == p[3]
}

// The scale of a prefix, UTC where it is none of the three.
pub fn prefix_scale(s: &[u8]) -> Scale
    requires { 4 ≤ length s.now }
    ensures { result ≡ prefix_scale s.now }
{
    if has_prefix(Scale::Tai, s) {
        return Scale::Tai;
    }
    if has_prefix(Scale::Gps, s) {
        return Scale::Gps;
    }
    Scale::Utc
}

// The bytes of a text, each field written where it belongs.
ghost use Rattle.std.specs.Prelude.{◌≡◌, ◌+◌, ◌≤◌, ◌<◌, length, take, drop};
ghost use Rattle.std.proofs.lemmas.List.Edits.{sets};
ghost use Rattle.octets.specs.Meaning.{onto};
ghost use Rattle.scales.specs.Meaning.{wrote};
ghost use Rattle.text_fields.specs.Names.{name_of};
ghost use Rattle.text_write.specs.Meaning.{stamp_of, text_of, body_of, full_text};
ghost use Rattle.text_write.specs.Stage.{putting};
ghost use Rattle.text_write.specs.Image.{prefix_in};
ghost use Rattle.text_write.specs.Columns.{Fits, pair, letters_of};

use super::Form;
use calendar::Date;
use scales::{Refusal, Scale};
use text_fields::Stamp;

// Second 60 comes after 23:59.
pub fn stamp_of(date: Date, u: u64) -> Stamp
    ensures { result ≡ stamp_of date u }
{
    let seconds = u / 1_000_000;
    let minutes = seconds / 60;
    let (hour, minute, second) = if seconds < 86_400 {
        (minutes / 60, minutes % 60, seconds % 60)
    } else {
        (23, 59, 60)
    };
    Stamp {
        date,
        hour,
        minute,
        second,
        micro: u % 1_000_000,
    }
}

// ---- each field at its place

fn put_two(v: u64, out: &mut [u8], at: usize)
    requires { (v < 100) × (at + 2 ≤ length out.old) }
    ensures { out.new ≡ sets out.old at (pair v) }
{
    out[at] = (48 + v / 10) as u8;
    out[at + 1] = (48 + v % 10) as u8;
}

// The three letters of a month as one number: as bytes they would be written more slowly.
#[tactic(auto, unfolding(text_fields::specs::Meaning::letter, text_fields::specs::Meaning::names))]
fn name_of(m: u64) -> u32
    requires { (1 ≤ m) × (m ≤ 12) }
    ensures { result ≡ name_of m }
{
    match m {
        1 => 0x4A414E, // JAN
        2 => 0x464542, // FEB
        3 => 0x4D4152, // MAR
        4 => 0x415052, // APR
        5 => 0x4D4159, // MAY
        6 => 0x4A554E, // JUN
        7 => 0x4A554C, // JUL
        8 => 0x415547, // AUG
        9 => 0x534550, // SEP
        10 => 0x4F4354, // OCT
        11 => 0x4E4F56, // NOV
        _ => 0x444543, // DEC
    }
}

fn put_name(m: u64, out: &mut [u8], at: usize)
    requires { (1 ≤ m) × (m ≤ 12) × (at + 3 ≤ length out.old) }
    ensures { out.new ≡ sets out.old at (letters_of m) }
{
    let n = name_of(m);
    out[at] = (n / 65_536 % 256) as u8;
    out[at + 1] = (n / 256 % 256) as u8;
    out[at + 2] = (n % 256) as u8;
}

fn put_date(t: Stamp, out: &mut [u8])
    requires fits { Fits t }
    requires in_bounds { 11 ≤ length out.old }
    ensures { out.new ≡ sets out.old 0 (take 11 (text_of t)) }
{
    let date = t.date;
    put_two(date.day, out, 0);
    out[2] = b'-';
    put_name(date.month, out, 3);
    out[6] = b'-';
    put_two(date.year / 100, out, 7);
    put_two(date.year % 100, out, 9);
}

fn put_clock(t: Stamp, out: &mut [u8])
    requires fits { Fits t }
    requires in_bounds { 20 ≤ length out.old }
    ensures { out.new ≡ sets out.old 11 (take 9 (drop 11 (text_of t))) }
{
    out[11] = b' ';
    put_two(t.hour, out, 12);
    out[14] = b':';
    put_two(t.minute, out, 15);
    out[17] = b':';
    put_two(t.second, out, 18);
}

fn put_micro(t: Stamp, out: &mut [u8])
    requires fits { Fits t }
    requires in_bounds { 27 ≤ length out.old }
    ensures { out.new ≡ sets out.old 20 (drop 20 (text_of t)) }
{
    let u = t.micro;
    out[20] = b'.';
    put_two(u / 10_000, out, 21);
    put_two(u / 100 % 100, out, 23);
    put_two(u % 100, out, 25);
}

// ---- a whole text

// The text without its prefix, onto the front.
fn fill(t: Stamp, micros: bool, out: &mut [u8])
    requires fits { Fits t }
    requires t_in_bounds { length (body_of micros t) ≤ length out.old }
    ensures { out.new ≡ onto (body_of micros t) out.old }
{
    put_date(t, out);
    put_clock(t, out);
    if micros {
        put_micro(t, out);
    }
}

// The prefix, onto the front, where the form has one; how many bytes it has.
fn put_prefix(form: Form, z: Scale, out: &mut [u8]) -> usize
    requires { length (prefix_in form z) ≤ length out.old }
    ensures { (result ≡ length (prefix_in form z)) × (out.new ≡ onto (prefix_in form z) out.old) }
{
    if !form.shows_scale() {
        return 0;
    }
    out[..4].copy_from_slice(&text_fields::inner::prefix(z));
    4
}

// The room is tested once, so that a refusal leaves every byte. After its prefix the same writer fills the rest.
pub fn put_text(form: Form, z: Scale, t: Stamp, out: &mut [u8]) -> Result<usize, Refusal>
    requires { Fits t }
    ensures { wrote result out.new ≡ putting (full_text form z t) out.old }
{
    let n = form.size();
    if out.len() < n {
        return Err(Refusal::OutputShorter);
    }
    let from = put_prefix(form, z, out);
    fill(t, form.has_micros(), &mut out[from..]);
    Ok(n)
}

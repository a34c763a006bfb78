// Text lines in, dated lines out: each as TAI with prefix and microseconds, or as its refusal, under the published list.
#![tactic(auto)]

ghost use Rattle.std.specs.Prelude.{◌≡◌, true, [], ◌∷◌, ◌++◌, ◌≤◌, length};
ghost use Rattle.scales.specs.Meaning.{in_span, number_of, record_moment};
ghost use Rattle.text_write.specs.Meaning.{image_of};
ghost use Rattle.lines.specs.Meaning.{digit as digit_of, answer_to, done, done_under, date_lines, moved, keep};
ghost use Rattle.lines.specs.Stage.{refused_line, Put};

use leap::{Accepted, List};
use scales::{Record, Refusal, Scale};
use text_write::Form;

// How many bytes of the input were dated, and how many bytes of answers were written.
#[derive(Clone, Copy)]
pub struct Progress {
    pub consumed: usize,
    pub written: usize,
}

// ---- one line

fn digit(n: u32) -> u8
    ensures { result ≡ digit_of n }
{
    (48 + n % 10) as u8
}

// Put as bytes: `write!` takes five times as long.
fn refuse(f: Refusal, out: &mut [u8]) -> usize
    ensures { Put (refused_line (number_of f)) out.old out.new result }
{
    let n = f.number();
    let unit = digit(n);
    if n < 10 {
        octets::put(
            &[b'r', b'e', b'f', b'u', b's', b'e', b'd', b' ', unit, b'\n'],
            out,
        );
        return 10;
    }
    let ten = digit(n / 10);
    octets::put(
        &[
            b'r', b'e', b'f', b'u', b's', b'e', b'd', b' ', ten, unit, b'\n',
        ],
        out,
    );
    11
}

// A TAI time with prefix and microseconds: 31 bytes. Writing them cannot fail: there is room, and each time in its span has this text.
fn print(t: Record, out: &mut [u8]) -> usize
    requires micro_value { in_span t.scale t.day t.micro ≡ true }
    requires in_bounds { 32 ≤ length out.old }
    ensures { Put (image_of Form.PrefixedMicros t.scale (record_moment t) ++ (10 ∷ [])) out.old out.new result }
{
    let _ = text_write::inner::write_record(t, Form::PrefixedMicros, out);
    out[31] = b'\n';
    32
}

fn answer(line: &[u8], list: &Accepted, out: &mut [u8]) -> usize
    requires in_bounds { 32 ≤ length out.old }
    ensures { Put (answer_to list.now.days list.now.offsets list.now.last line.now) out.old out.new result }
{
    match text_read::inner::read_in(line, Scale::Tai, list) {
        Ok(t) => print(t, out),
        Err(e) => refuse(e.refusal, out),
    }
}

// ---- a block

fn date_under(input: &[u8], list: &Accepted, out: &mut [u8]) -> Progress
    ensures { done result out.new ≡ done_under list.now.days list.now.offsets list.now.last input.now out.old }
{
    // Most lines are short: each step looks at 32 bytes first, where `memchr` looks at 64.
    let mut newlines = memchr::memchr_iter(b'\n', input);
    let mut at = 0;
    let mut written = 0;
    while 32 <= out.len() - written {
        let Some(end) = newlines.next() else {
            break;
        };
        written += answer(&input[at..end], list, &mut out[written..]);
        at = end + 1;
    }
    Progress {
        consumed: at,
        written,
    }
}

// The whole lines of a block, as many as find room for the longest answer, and their answers onto the front of a lent slice. That
// the published list is accepted is a theorem: it is not tested here.
pub fn date_lines(input: &[u8], out: &mut [u8]) -> Progress
    ensures { done result out.new ≡ date_lines input.now out.old }
{
    let days = leap::published_days();
    let offsets = leap::published_offsets();
    let list = List::new(&days, &offsets, leap::PUBLISHED_LAST);
    date_under(input, &leap::inner::known(&list), out)
}

// ---- between two blocks

// The line that has begun between two places, to the front: 32 bytes of it are enough, since no form has as many.
pub fn keep(buf: &mut [u8], from: usize, to: usize) -> usize
    ensures { moved result buf.new ≡ keep buf.old from to }
{
    let end = to.min(buf.len());
    if end <= from {
        return 0;
    }
    let n = (end - from).min(32);
    buf.copy_within(from..from + n, 0);
    n
}

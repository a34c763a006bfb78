// The whole file, checked and read: all is judged in one pass, and written in a second that refuses nothing.
ghost use Rattle.std.specs.Prelude.{◌≡◌, true, ◌+◌, ◌≤◌, length};
ghost use Rattle.sbt.specs.Meaning.{accepted};
ghost use Rattle.season.specs.Meaning.{read};
ghost use Rattle.season.specs.Kept.{Fit};
ghost use Rattle.season.specs.Bodies.{body_of, stands_by, all_stand, words_by, Filling, filled, entered_by};

use crate::Entry;
use sbt::Correlation;
use scales::{Refusal, Scale, Tick};

// The correlation whose body stands at a place. A reference beyond the axis stands at its end, outside the span.
fn body(bytes: &[u8], at: usize) -> Correlation
    requires { at + 28 ≤ length bytes.now }
    ensures { result ≡ body_of bytes.now at }
{
    let p = axis::place_of_micros(axis::signed_of(octets::inner::part(bytes, at + 4, 8)));
    Correlation {
        tick: Tick(octets::inner::part(bytes, at, 4) as u32),
        scale: Scale::Tai,
        day: axis::day_at((p / 86_400_000_000) as u32),
        micro: p % 86_400_000_000,
        period: octets::inner::part(bytes, at + 12, 8),
        back: octets::inner::part(bytes, at + 20, 4),
        ahead: octets::inner::part(bytes, at + 24, 4),
    }
}

// Is the correlation accepted, and its cover the entry's?
fn stands(e: Entry, c: Correlation) -> bool
    ensures { result ≡ stands_by e c }
{
    match sbt::inner::cover(c) {
        Some(v) => {
            e.from == v.from + 9_219_916_036_854_775_808 && e.to == v.to + 9_219_916_036_854_775_808
        }
        None => false,
    }
}

// Are the first n entries kept, and their bodies?
fn all_stand(bytes: &[u8], n: usize) -> bool
    requires { Fit bytes.now n }
    ensures { result ≡ all_stand bytes.now n }
{
    let mut before = 0;
    for k in 0..n {
        let e = crate::entry_at(bytes, k);
        if !crate::follows(e, n, k, before) || !stands(e, body(bytes, 2 + 20 * n + 28 * k)) {
            return false;
        }
        before = e.to;
    }
    true
}

// The nine numbers of an entry, each stored by itself: a copy of an array of them takes longer.
fn put(e: Entry, c: Correlation, words: &mut [i64])
    requires { (accepted c ≡ true) × (length words.old ≡ 9) }
    ensures { words.new ≡ words_by e c }
{
    words[0] = axis::signed_of(crate::turn(e.from));
    words[1] = axis::signed_of(crate::turn(e.to));
    words[2] = i64::from(c.tick.0);
    words[3] = 0;
    words[4] = c.day;
    words[5] = c.micro as i64;
    words[6] = c.period as i64;
    words[7] = c.back as i64;
    words[8] = c.ahead as i64;
}

// The numbers of n entries whose bodies are kept.
fn fill(bytes: &[u8], n: usize, words: &mut [i64])
    requires { Filling bytes.now n (length words.old) }
    ensures { words.new ≡ filled bytes.now n words.old }
{
    for k in 0..n {
        let e = crate::entry_at(bytes, k);
        let c = body(bytes, 2 + 20 * n + 28 * k);
        let at = 9 * k;
        put(e, c, &mut words[at..at + 9]);
    }
}

// The entries of a file, nine numbers each: its cover's first and last microsecond and its correlation; how many.
pub fn read(bytes: &[u8], words: &mut [i64]) -> Result<u64, Refusal>
    ensures { entered_by result words.new ≡ read bytes.now words.old }
{
    let n = crate::size(bytes).ok_or(Refusal::SeasonBroken)?;
    if !all_stand(bytes, n) {
        return Err(Refusal::SeasonBroken);
    }
    if words.len() < 9 * n {
        return Err(Refusal::OutputShorter);
    }
    fill(bytes, n, words);
    Ok(n as u64)
}

// Correlations into the file: all are judged in one pass, and written in a second that refuses nothing. They come as numbers, seven each.
ghost use Rattle.std.specs.Prelude.{◌≡◌, true, ◌+◌, ◌*◌, ◌++◌, ◌≤◌, ◌<◌, length};
ghost use Rattle.scales.specs.Meaning.{wrote};
ghost use Rattle.season.specs.Meaning.{all, each, is_written, entry_bytes, body_bytes, write};
ghost use Rattle.season.specs.Taking.{Taken, cover_at, next_at};

use clock::inner::Ends;
use sbt::Correlation;
use scales::{Refusal, Scale, Tick};

// Correlation k, of the bits of its numbers: a negative one has 2^63 or more, which is not accepted.
fn correlation_at(words: &[i64], k: usize) -> Correlation
    requires { 7 * k + 7 ≤ length words.now }
    ensures { Taken words.now k result }
{
    let at = 7 * k;
    Correlation {
        tick: Tick((axis::bits_of(words[at]) % 4_294_967_296) as u32),
        scale: Scale::Tai,
        day: words[at + 2],
        micro: axis::bits_of(words[at + 3]),
        period: axis::bits_of(words[at + 4]),
        back: axis::bits_of(words[at + 5]),
        ahead: axis::bits_of(words[at + 6]),
    }
}

// The cover of correlation k, where it is one of TAI and accepted.
fn cover_at(words: &[i64], k: usize) -> Option<Ends>
    requires { 7 * k + 7 ≤ length words.now }
    ensures { result ≡ cover_at words.now k }
{
    let at = 7 * k;
    if 4_294_967_295 < axis::bits_of(words[at]) || axis::bits_of(words[at + 1]) != 0 {
        return None;
    }
    sbt::inner::cover(correlation_at(words, k))
}

// The same where it begins after a place, the end of the cover before it.
fn next_cover(words: &[i64], k: usize, before: u64) -> Option<Ends>
    requires { 7 * k + 7 ≤ length words.now }
    ensures { result ≡ next_at words.now k before }
{
    cover_at(words, k).filter(|v| k == 0 || before < v.from)
}

// Are all accepted, and do their covers rise?
fn all_rise(words: &[i64], n: usize) -> bool
    requires { 7 * n ≤ length words.now }
    ensures { result ≡ all (is_written words.now) n }
{
    let mut before = 0;
    for k in 0..n {
        let Some(v) = next_cover(words, k, before) else {
            return false;
        };
        before = v.to;
    }
    true
}

// The entry of correlation k in the contents of n.
fn put_entry(words: &[i64], n: usize, k: usize, out: &mut [u8])
    requires { (is_written words.now k ≡ true) × (7 * k + 7 ≤ length words.now) × (n ≤ 512) × (k < n) × (length out.old ≡ 20) }
    ensures { out.new ≡ entry_bytes n words.now k }
{
    let v = cover_at(words, k).unwrap();
    octets::lay(axis::bits_of(axis::micros_at(v.from)), &mut out[..8]);
    octets::lay(axis::bits_of(axis::micros_at(v.to)), &mut out[8..16]);
    octets::lay((2 + 20 * n + 28 * k) as u64, &mut out[16..20]);
}

// The body of correlation k.
fn put_body(words: &[i64], k: usize, out: &mut [u8])
    requires { (is_written words.now k ≡ true) × (7 * k + 7 ≤ length words.now) × (length out.old ≡ 28) }
    ensures { out.new ≡ body_bytes words.now k }
{
    let c = correlation_at(words, k);
    let place = axis::place_of_day(c.day) * 86_400_000_000 + c.micro;
    octets::lay(u64::from(c.tick.0), &mut out[..4]);
    octets::lay(axis::bits_of(axis::micros_at(place)), &mut out[4..12]);
    octets::lay(c.period, &mut out[12..20]);
    octets::lay(c.back, &mut out[20..24]);
    octets::lay(c.ahead, &mut out[24..28]);
}

// The contents of n correlations, and behind them their bodies.
fn put_all(words: &[i64], n: usize, out: &mut [u8])
    requires { (all (is_written words.now) n ≡ true) × (7 * n ≤ length words.now) × (n ≤ 512) × (length out.old ≡ 48 * n) }
    ensures { out.new ≡ each (entry_bytes n words.now) n ++ each (body_bytes words.now) n }
{
    let (contents, bodies) = out.split_at_mut(20 * n);
    for k in 0..n {
        let entry = 20 * k;
        put_entry(words, n, k, &mut contents[entry..entry + 20]);
        let body = 28 * k;
        put_body(words, k, &mut bodies[body..body + 28]);
    }
}

// The file of correlations, onto the front of a lent slice: 14 where they are no season, 13 where the slice is shorter.
pub fn write(words: &[i64], out: &mut [u8]) -> Result<usize, Refusal>
    ensures { wrote result out.new ≡ write words.now out.old }
{
    let n = words.len() / 7;
    if words.len() % 7 != 0 || 512 < n || !all_rise(words, n) {
        return Err(Refusal::SeasonBroken);
    }
    let end = 2 + 48 * n;
    if out.len() < end {
        return Err(Refusal::OutputShorter);
    }
    octets::lay(n as u64, &mut out[..2]);
    put_all(words, n, &mut out[2..end]);
    Ok(end)
}

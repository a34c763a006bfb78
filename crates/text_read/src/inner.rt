// The cores: a list that is used was accepted before, and is not tested here.
ghost use Rattle.std.specs.Prelude.{◌≡◌, true, ◌≤◌, length};
ghost use Rattle.scales.specs.Meaning.{slip, outcome, dated};
ghost use Rattle.leap.specs.Meaning.{accepted};
ghost use Rattle.via_tai.specs.Meaning.{is_utc};
ghost use Rattle.changes.specs.Asked.{record_asked};
ghost use Rattle.text_read.specs.Meaning.{reading_in, dated_in};
ghost use Rattle.text_read.specs.In.{record_in};
ghost use Rattle.text_read.specs.Stage.{ParsesBody, ParsesText};

use super::columns;
use leap::{Accepted, List};
use scales::{Record, Refusal, Refused, Scale};

// ---- what a text stands for: a record that nothing has judged yet, or a refusal for what stands in the text alone

// The text without its prefix, in a scale. A real date that the calendar has no day for lies outside every span.
fn parse_body(z: Scale, s: &[u8]) -> Result<Record, Refusal>
    requires { 20 ≤ length s.now }
    ensures { ParsesBody z s.now result }
{
    if !columns::has_marks(s) || !columns::has_digits(s) {
        return Err(Refusal::FieldOver);
    }
    let t = columns::stamp_in(s);
    if !columns::in_limits(z, t) {
        return Err(Refusal::FieldOver);
    }
    match calendar::day_of(t.date) {
        Ok(day) => Ok(Record::new(z, day, columns::micro_of(t))),
        Err(Refusal::FieldOver) => Err(Refusal::FieldOver),
        Err(_) => Ok(handed::inner::outside(z)),
    }
}

pub(crate) fn parse(text: &[u8]) -> Result<Record, Refusal>
    ensures { ParsesText text.now result }
{
    match text.len() {
        24 | 31 => {
            let z = columns::prefix_scale(text);
            if !columns::has_prefix(z, text) {
                return Err(Refusal::FieldOver);
            }
            parse_body(z, &text[4..])
        }
        20 | 27 => parse_body(Scale::Utc, text),
        _ => Err(Refusal::LengthIsNone),
    }
}

// ---- reading

// A refused reading gives the empty TAI record.
pub fn read_time(r: Record, list: &List) -> Result<Record, Refused>
    requires { is_utc r.scale ≡ true → accepted list.now.days list.now.offsets list.now.last ≡ true }
    ensures { slip result ≡ dated_in r.scale (outcome (record_asked r list.now.days list.now.offsets list.now.last)) }
{
    changes::inner::judge(r, list).map_err(|e| e.refusal.of(Scale::Tai))
}

// ---- reading in a scale that is wanted

fn record_in(r: Record, to: Scale, list: &Accepted) -> Result<Record, Refused>
    ensures { slip result ≡ dated to (outcome (record_in to list.now.days list.now.offsets list.now.last r)) }
{
    let list = list.list();
    let t = r.to_time().map_err(|e| e.refusal.of(to))?;
    changes::inner::change(t, to, list)
}

pub fn read_in(text: &[u8], to: Scale, list: &Accepted) -> Result<Record, Refused>
    ensures { slip result ≡ dated to (outcome (reading_in to text.now list.now.days list.now.offsets list.now.last)) }
{
    let r = parse(text).map_err(|f| f.of(to))?;
    record_in(r, to, list)
}

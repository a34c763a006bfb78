// Which cover has a receipt: one pass over the contents, which are to be checked anyway.
ghost use Rattle.std.specs.Prelude.{◌≡◌};
ghost use Rattle.season.specs.Meaning.{covering};
ghost use Rattle.season.specs.Kept.{Fit};
ghost use Rattle.season.specs.Places.{cover_slip, told_of, covers_at, scanned};

use crate::Entry;
use clock::Receipt;
use scales::{Refusal, Scale};

// The first and last covered microsecond since day 0.
#[derive(Clone, Copy)]
pub struct Cover {
    pub first: i64,
    pub last: i64,
}

fn cover_of(e: Entry) -> Cover
    ensures { result ≡ told_of e }
{
    Cover {
        first: axis::signed_of(crate::turn(e.from)),
        last: axis::signed_of(crate::turn(e.to)),
    }
}

// Does the entry's cover have the receipt?
fn covers(e: Entry, receipt: u64) -> bool
    ensures { result ≡ covers_at e receipt }
{
    e.from <= receipt && receipt <= e.to
}

// The entry whose cover has the receipt, in contents that are kept.
fn look_over(bytes: &[u8], n: usize, receipt: u64) -> Result<Option<Entry>, Refusal>
    requires { Fit bytes.now n }
    ensures { result ≡ scanned bytes.now n receipt }
{
    let mut seen = None;
    let mut before = 0;
    for k in 0..n {
        let e = crate::entry_at(bytes, k);
        if !crate::follows(e, n, k, before) {
            return Err(Refusal::SeasonBroken);
        }
        if covers(e, receipt) {
            seen = Some(e);
        }
        before = e.to;
    }
    Ok(seen)
}

// The one cover that has the receipt, a day and a microsecond of TAI. The bodies are not looked at.
pub fn covering(bytes: &[u8], receipt: Receipt) -> Result<Cover, Refusal>
    ensures { cover_slip result ≡ covering bytes.now receipt.day receipt.micro }
{
    let n = crate::size(bytes).ok_or(Refusal::SeasonBroken)?;
    match clock::inner::place_in(Scale::Tai, receipt.day, receipt.micro) {
        Some(p) => {
            let seen = look_over(bytes, n, p + 9_219_916_036_854_775_808)?;
            Ok(cover_of(seen.ok_or(Refusal::NoEntry)?))
        }
        None => {
            look_over(bytes, n, 0)?;
            Err(Refusal::OutsideSpan)
        }
    }
}

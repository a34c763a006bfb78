// Prints dates of days, days of dates and firsts of months; with the argument `all`, the date of every day of the span
// and the refusals just outside it.
#![tactic(auto)]

ghost use Rattle.std.specs.Prelude.{◌≤◌};

use calendar::Date;
use itoa::{Buffer, Integer};
use std::env::Env;
use std::fmt::{self, Write};

// What is printed gathers here, and is written where a line ends and little room is left; what has no room is lost.
#[derive(Drop)]
struct Page<'a, P> {
    to: &'a P,
    bytes: [u8; 4096],
    used: usize,
    ghost within: { used ≤ 4096 },
}

impl<P: Print> Page<'_, P> {
    // A write that fails is not told: what is printed is compared whole.
    fn flush(&mut self) {
        let _ = self.to.write_all(&self.bytes[..self.used]);
        self.used = 0;
    }

    // There is room for a line where one begins.
    fn put(&mut self, b: u8) {
        if self.used < 4096 {
            self.bytes[self.used] = b;
            self.used += 1;
        }
    }

    fn end(&mut self) {
        self.put(b'\n');
        if 4000 < self.used {
            self.flush();
        }
    }

    // By itself, since `write!` takes twice as long for a date.
    fn number(&mut self, n: impl Integer) {
        for b in Buffer::new().format(n).as_bytes() {
            self.put(*b);
        }
    }

    fn date(&mut self, date: Date) {
        self.number(date.year);
        self.put(b' ');
        self.number(date.month);
        self.put(b' ');
        self.number(date.day);
    }
}

impl<P: Print> Write for Page<'_, P> {
    fn write_str(&mut self, s: &str) -> fmt::Result {
        for b in s.as_bytes() {
            self.put(*b);
        }
        Ok(())
    }
}

// The date of a day.
fn dated(page: &mut Page<impl Print>, day: i64) -> fmt::Result {
    page.number(day);
    match calendar::date_of(day) {
        Ok(t) => {
            page.put(b' ');
            page.date(t);
        }
        Err(f) => write!(page, " refused {}", f.number())?,
    }
    page.end();
    Ok(())
}

// The day of a date.
fn counted(page: &mut Page<impl Print>, year: u64, month: u64, day: u64) -> fmt::Result {
    let date = Date { year, month, day };
    page.date(date);
    match calendar::day_of(date) {
        Ok(n) => {
            page.put(b' ');
            page.number(n);
        }
        Err(f) => write!(page, " refused {}", f.number())?,
    }
    page.end();
    Ok(())
}

// Whether each of the days is the first of a month.
fn firsts(page: &mut Page<impl Print>, days: &[i64]) -> fmt::Result {
    write!(page, "firsts")?;
    for day in days {
        write!(page, " {day}")?;
    }
    let told = if calendar::all_firsts(days) {
        "yes"
    } else {
        "no"
    };
    write!(page, " {told}")?;
    page.end();
    Ok(())
}

// The span and two days before and after it.
fn every(page: &mut Page<impl Print>) -> fmt::Result {
    for day in -10_229..36_527 {
        dated(page, day)?;
    }
    Ok(())
}

// The ends of the span, the first day of GPS, and the leap days of 1972 and 2000.
fn some_days(page: &mut Page<impl Print>) -> fmt::Result {
    for day in [
        -10_228, -10_227, -10_168, -10_167, -7_300, -1, 0, 59, 60, 36_524, 36_525,
    ] {
        dated(page, day)?;
    }
    Ok(())
}

// Dates of the rule, within the span and outside it.
fn some_dates(page: &mut Page<impl Print>) -> fmt::Result {
    for (year, month, day) in [
        (0, 2, 29),
        (1971, 12, 31),
        (1972, 1, 1),
        (1980, 1, 6),
        (2000, 1, 1),
        (2000, 2, 29),
        (2099, 12, 31),
        (2100, 1, 1),
        (9999, 12, 31),
    ] {
        counted(page, year, month, day)?;
    }
    Ok(())
}

// What the rule lacks.
fn no_dates(page: &mut Page<impl Print>) -> fmt::Result {
    for (year, month, day) in [
        (1900, 2, 29),
        (2000, 2, 30),
        (2001, 0, 1),
        (2001, 2, 29),
        (2001, 4, 0),
        (2001, 4, 31),
        (2001, 13, 1),
        (2100, 2, 29),
        (10000, 1, 1),
    ] {
        counted(page, year, month, day)?;
    }
    Ok(())
}

fn some_firsts(page: &mut Page<impl Print>) -> fmt::Result {
    firsts(page, &[-10_227, 0, 36_525])?;
    firsts(page, &[0, 1])?;
    firsts(page, &[-10_258])?;
    firsts(page, &[36_556])
}

fn some(page: &mut Page<impl Print>) -> fmt::Result {
    some_days(page)?;
    some_dates(page)?;
    no_dates(page)?;
    some_firsts(page)
}

fn is_all(rt: &HostRuntime) -> bool {
    let mut text = [0u8; 4];
    let n = rt.arg(1, &mut text).unwrap_or(0);
    matches!(&text[..n], b"all")
}

fn main(rt: HostRuntime) {
    let mut page = Page {
        to: &rt,
        bytes: [0; 4096],
        used: 0,
    };
    let _ = if is_all(&rt) {
        every(&mut page)
    } else {
        some(&mut page)
    };
    page.flush();
}

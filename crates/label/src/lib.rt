#![tactic(auto)]
// Time labels a and b: read from octets and written as octets, what they say, whether they are valid, their instant and their order.
ghost use Rattle.std.specs.Prelude.{◌≡◌, true, eqb};
ghost use Rattle.label.specs.Time.{real, minutes};
ghost use Rattle.label.specs.Label.{label_a_at, label_b_at, label_a_octets, label_b_octets, date_time_a, valid_a, su, instant, before_a, second, millisecond, valid_b, in_minute, before_b};
ghost use Rattle.label.specs.Standard.{as_it_stands, hour_earlier, standard_a};
ghost use Rattle.label.specs.Calls.{moment_of, moment_b};

mod month;

use month::Month;
use octets::Number;

// A date and time: the year's last two figures, 0 to 99 for 2000 to 2099. Any five numbers are a value; not every one is a real date.
#[derive(Clone, Copy, Debug, PartialEq, Eq)]
pub struct DateTime {
    pub year: u8,
    pub month: u8,
    pub day: u8,
    pub hour: u8,
    pub minute: u8,
}

// A date and time in standard time. Its year is whole: a summer label in the first hour of 2000 lies in 1999.
#[derive(Clone, Copy, Debug, PartialEq, Eq)]
pub struct StandardTime {
    pub year: u16,
    pub month: u8,
    pub day: u8,
    pub hour: u8,
    pub minute: u8,
}

// Label a, its five octets as they stand on the wire, each named after what its low bits hold.
#[derive(Clone, Copy, Debug, PartialEq, Eq)]
pub struct LabelA {
    pub minute: u8,
    pub hour: u8,
    pub day: u8,
    pub month: u8,
    pub year: u8,
}

// Label b: two octets of milliseconds and seconds, low octet first, and a label a. The two are no twins: b asks its a, and adds to what that answers.
#[derive(Clone, Copy, Debug, PartialEq, Eq)]
pub struct LabelB {
    pub low: u8,
    pub high: u8,
    pub a: LabelA,
}

impl DateTime {
    // The minutes since 1 January 2000 00:00.
    fn minutes(self) -> u32
        requires { real self ≡ true }
        ensures { result ≡ minutes self }
    {
        let month = Month {
            year: self.year,
            number: self.month,
        };
        let day = month.days_before() + self.day as u32 - 1;
        day * 1440 + self.hour as u32 * 60 + self.minute as u32
    }

    // As a clock in standard time shows it.
    #[tactic(auto, unfolding(crate::specs::Standard::as_it_stands))]
    fn as_it_stands(self) -> StandardTime
        ensures { result ≡ as_it_stands self }
    {
        StandardTime {
            year: 2000 + self.year as u16,
            month: self.month,
            day: self.day,
            hour: self.hour,
            minute: self.minute,
        }
    }

    // One hour earlier.
    #[tactic(auto, unfolding(crate::specs::Standard::as_it_stands, crate::specs::Standard::hour_earlier))]
    fn hour_earlier(self) -> StandardTime
        requires { real self ≡ true }
        ensures { result ≡ hour_earlier self }
    {
        let shown = self.as_it_stands();
        if 0 < self.hour {
            StandardTime {
                hour: self.hour - 1,
                ..shown
            }
        } else if 1 < self.day {
            StandardTime {
                day: self.day - 1,
                hour: 23,
                ..shown
            }
        } else if 1 < self.month {
            let month = Month {
                year: self.year,
                number: self.month - 1,
            };
            StandardTime {
                month: month.number,
                day: month.length(),
                hour: 23,
                ..shown
            }
        } else {
            StandardTime {
                year: shown.year - 1,
                month: 12,
                day: 31,
                hour: 23,
                ..shown
            }
        }
    }
}

impl LabelA {
    // The label in the first five octets; those that are not there count as 0.
    #[tactic(auto, unfolding(crate::specs::Label::label_a_at))]
    pub fn read(s: &[u8]) -> LabelA
        ensures { result ≡ label_a_at s.now 0 }
    {
        LabelA {
            minute: octets::octet_at(s, 0),
            hour: octets::octet_at(s, 1),
            day: octets::octet_at(s, 2),
            month: octets::octet_at(s, 3),
            year: octets::octet_at(s, 4),
        }
    }

    // Its five octets.
    #[tactic(auto, unfolding(crate::specs::Label::label_a_octets))]
    pub fn octets(self) -> [u8; 5]
        ensures { result ≡ label_a_octets self }
    {
        [self.minute, self.hour, self.day, self.month, self.year]
    }

    // The date and time that the label says.
    #[tactic(auto, unfolding(crate::specs::Label::date_time_a))]
    pub fn date_time(self) -> DateTime
        ensures { result ≡ date_time_a self }
    {
        DateTime {
            year: self.year % 128,
            month: self.month % 16,
            day: self.day % 32,
            hour: self.hour % 32,
            minute: self.minute % 64,
        }
    }

    // Whether it is a real date and time, with IV, TIS, ETI, PTI and the reserved bits 0.
    pub fn is_valid(self) -> bool
        ensures { result ≡ valid_a self }
    {
        // a reserved bit stands above the year, ETI and PTI above the month
        let Some(month) = Month::of(self.year, self.month) else {
            return false;
        };
        // IV and TIS stand above the minute, the reserved bits between the hour and SU
        self.minute <= 59 && self.hour % 128 <= 23 && month.has_day(self.day % 32)
    }

    // Whether it is told in summer time: SU is the highest bit of the hour's octet.
    fn is_summer(self) -> bool
        ensures { result ≡ eqb (su self) 1 }
    {
        128 <= self.hour
    }

    // The standard-time minute of a valid label, since 1 January 2000 00:00: in summer time one hour earlier.
    fn standard_minute(self) -> i64
        requires { valid_a self ≡ true }
        ensures { result ≡ instant self }
    {
        let minute = self.date_time().minutes() as i64;
        if self.is_summer() {
            minute - 60
        } else {
            minute
        }
    }

    // The minutes since 1 January 2000 00:00 in standard time, and 0 of a label that is not valid.
    pub fn instant(self) -> i64
        ensures { result ≡ instant self }
    {
        self.moment().unwrap_or(0)
    }

    // Its instant, where it is valid. A walk over records asks for both at once.
    #[inline(always)]
    pub fn moment(self) -> Option<i64>
        ensures { result ≡ moment_of (valid_a self) self }
    {
        if self.is_valid() {
            Some(self.standard_minute())
        } else {
            None
        }
    }

    // What it says in standard time; a label that is not valid is taken as it stands.
    pub fn standard_time(self) -> StandardTime
        ensures { result ≡ standard_a self }
    {
        let said = self.date_time();
        if self.is_valid() && self.is_summer() {
            said.hour_earlier()
        } else {
            said.as_it_stands()
        }
    }

    // Whether it lies before another label by their instants. It is no PartialOrd: labels that differ may have one instant, and an order says Equal only
    // where `==` holds.
    pub fn is_before(self, other: LabelA) -> bool
        ensures { result ≡ before_a self other }
    {
        self.instant() < other.instant()
    }
}

impl LabelB {
    // The label in the first seven octets; those that are not there count as 0.
    pub fn read(s: &[u8]) -> LabelB
        ensures { result ≡ label_b_at s.now 0 }
    {
        LabelB {
            low: octets::octet_at(s, 0),
            high: octets::octet_at(s, 1),
            a: LabelA::read(octets::part(s, 2, 5)),
        }
    }

    // Its seven octets.
    #[tactic(auto, unfolding(crate::specs::Label::label_a_octets, crate::specs::Label::label_b_octets))]
    pub fn octets(self) -> [u8; 7]
        ensures { result ≡ label_b_octets self }
    {
        let [minute, hour, day, month, year] = self.a.octets();
        [self.low, self.high, minute, hour, day, month, year]
    }

    #[tactic(auto, unfolding(crate::specs::Label::second))]
    pub fn second(self) -> u8
        ensures { result ≡ second self }
    {
        (u16::from_low_first([self.low, self.high]) / 1024) as u8
    }

    #[tactic(auto, unfolding(crate::specs::Label::millisecond))]
    pub fn millisecond(self) -> u16
        ensures { result ≡ millisecond self }
    {
        u16::from_low_first([self.low, self.high]) % 1024
    }

    // Whether its label a is valid, and the seconds and milliseconds are those of a clock.
    pub fn is_valid(self) -> bool
        ensures { result ≡ valid_b self }
    {
        self.second() <= 59 && self.millisecond() <= 999 && self.a.is_valid()
    }

    // Its instant, which is that of its label a: as an answer where it is valid, and where it is not, as an error.
    #[inline(always)]
    pub fn moment(self) -> Result<i64, i64>
        ensures { result ≡ moment_b self }
    {
        if self.is_valid() {
            Ok(self.a.standard_minute())
        } else {
            Err(self.a.instant())
        }
    }

    // The milliseconds since its minute began.
    pub fn in_minute(self) -> u16
        ensures { result ≡ in_minute self }
    {
        self.second() as u16 * 1000 + self.millisecond()
    }

    // Whether it lies before another label by their instants, and in one minute by their milliseconds.
    pub fn is_before(self, other: LabelB) -> bool
        ensures { result ≡ before_b self other }
    {
        (self.a.instant(), self.in_minute()) < (other.a.instant(), other.in_minute())
    }
}

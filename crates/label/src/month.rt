// The months of 2000 to 2099 and their days, by arithmetic on a month's number and its year.
ghost use Rattle.std.specs.Prelude.{◌≡◌, ◌+◌, ◌-◌, ◌/◌, ◌≤◌, ◌<◌, leb, ◌&&◌, MatchOption};
ghost use Rattle.label.specs.Calendar.{leap, leap_day, month_length, days_to_year, days_of_months};

// A month: its year's last two figures, and its number from January on.
#[derive(Clone, Copy)]
pub(crate) struct Month {
    pub(crate) year: u8,
    pub(crate) number: u8,
    ghost there_is: { (year < 100) × (1 ≤ number) × (number ≤ 12) },
}

impl Month {
    // The month of a number, where there is one.
    pub(crate) fn of(year: u8, number: u8) -> Option<Month>
        ensures { MatchOption result
            (¬ ((year < 100) × (1 ≤ number) × (number ≤ 12)))
            (λ month. (month.year ≡ year) × (month.number ≡ number)) }
    {
        if year < 100 && 1 <= number && number <= 12 {
            Some(Month { year, number })
        } else {
            None
        }
    }

    // 1 in a leap year, and 0 in any other. 2000 is one, so every fourth year is.
    fn leap_day(self) -> u8
        ensures { result ≡ leap_day (leap self.year) }
    {
        if self.year % 4 == 0 { 1 } else { 0 }
    }

    // A month's turn: odd says 31 days, even says 30. The months have 31 and 30 days in turn, January first, so the turn begins as the month's own number. But July and August both have 31: from August on, where number / 8 is 1, the turn is one further.
    fn turn(self) -> u8
        ensures { result ≡ self.number + self.number / 8 }
    {
        self.number + self.number / 8
    }

    // By its turn a month has 31 days or 30. February alone has fewer: 28, and 29 in a leap year.
    pub(crate) fn length(self) -> u8
        ensures { result ≡ month_length (leap self.year) self.number }
    {
        if self.number == 2 {
            28 + self.leap_day()
        } else {
            30 + self.turn() % 2
        }
    }

    // Whether a month has a day. No month has fewer than 28, so that most days need no length.
    pub(crate) fn has_day(self, day: u8) -> bool
        ensures { result ≡ (leb 1 day && leb day (month_length (leap self.year) self.number)) }
    {
        1 <= day && (day <= 28 || day <= self.length())
    }

    // The days of its year before its first.
    fn days_of_months_before(self) -> u32
        ensures { result ≡ days_of_months (leap self.year) (self.number - 1) }
    {
        // by the turns: 30 for each month, and one more for each odd turn before this one, of which half the turn are; the turn 8, which no month has, is even
        let days = 30 * (self.number as u32 - 1) + self.turn() as u32 / 2;
        // behind February, whose turn says 30: it has two fewer, and in a leap year one
        if 2 < self.number {
            days - 2 + self.leap_day() as u32
        } else {
            days
        }
    }

    // The days from 1 January 2000 to its first. A year has 365, and every fourth, from 2000 on, one more.
    pub(crate) fn days_before(self) -> u32
        ensures { result ≡ days_to_year self.year + days_of_months (leap self.year) (self.number - 1) }
    {
        let y = self.year as u32;
        365 * y + (y + 3) / 4 + self.days_of_months_before()
    }
}

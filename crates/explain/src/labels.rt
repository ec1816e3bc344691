// Labels: the date and time, summer or standard, a summer label also in standard time; valid, and the minute, or what is wrong.
use crate::voice::Voice;
use crate::words;
use label::{LabelA, LabelB};
use std::cmp::Ordering;

// A label as it is shown: a label a as the label b at the start of its minute, without its second.
#[derive(Clone, Copy)]
pub struct Shown {
    label: LabelB,
    seconds: bool,
}

impl From<LabelA> for Shown {
    fn from(a: LabelA) -> Shown {
        Shown {
            label: LabelB { low: 0, high: 0, a },
            seconds: false,
        }
    }
}

impl From<LabelB> for Shown {
    fn from(label: LabelB) -> Shown {
        Shown {
            label,
            seconds: true,
        }
    }
}

impl Shown {
    // The label in five octets or seven.
    fn read(given: &[u8]) -> Shown {
        match given.len() {
            5 => LabelA::read(given).into(),
            _ => LabelB::read(given).into(),
        }
    }

    // The second, where it is shown. It is the same in summer and in standard time.
    fn second(self, voice: Voice) {
        if self.seconds {
            words::seconds(voice, self.label.second(), self.label.millisecond());
        }
    }

    // The time as the label says it.
    fn as_said(self, voice: Voice) {
        let t = self.label.a.date_time();
        let year = 2000 + u16::from(t.year);
        words::when(voice, year, t.month, t.day, t.hour, t.minute);
        self.second(voice);
    }

    // The time of a valid label in standard time, by which labels are compared.
    fn in_standard_time(self, voice: Voice) {
        let t = self.label.a.standard_time();
        words::when(voice, t.year, t.month, t.day, t.hour, t.minute);
        self.second(voice);
        words::standard_time(voice);
    }

    // Summer or standard time by SU, the highest bit of the hour's octet. What is not valid has no standard time.
    fn season(self, voice: Voice) {
        if self.label.a.hour < 128 {
            words::standard_time(voice);
        } else if self.label.is_valid() {
            words::summer_time_or(voice);
            self.in_standard_time(voice);
        } else {
            words::summer_time(voice);
        }
    }

    // What is wrong with it, if anything is.
    fn fault(self, voice: Voice) {
        if let Some(fault) = faults::of_label_b(self.label) {
            words::not_valid(voice, fault);
        }
    }

    // A label inside something else: its time, and what is wrong with it.
    pub(crate) fn tell(self, voice: Voice) {
        self.as_said(voice);
        self.season(voice);
        self.fault(voice);
    }
}

// A label by itself: where it is valid, also its minute since 1 January 2000 00:00 in standard time, which is below 0 for a summer label in the first
// hour of 2000.
pub(crate) fn explain(voice: Voice, given: &[u8]) {
    let shown = Shown::read(given);
    shown.tell(voice);
    if shown.label.is_valid() {
        words::valid(voice, shown.label.a.instant());
    }
}

// How two valid labels stand to each other.
fn order(first: LabelB, second: LabelB) -> Ordering {
    if first.is_before(second) {
        Ordering::Less
    } else if second.is_before(first) {
        Ordering::Greater
    } else {
        Ordering::Equal
    }
}

// One of two labels that were to be compared.
#[derive(Clone, Copy)]
pub enum Which {
    First,
    Second,
}

fn unless_valid(voice: Voice, which: Which, shown: Shown) {
    if !shown.label.is_valid() {
        voice.new_line();
        voice.say(which);
        shown.fault(voice);
    }
}

// Two labels a or two labels b, one behind the other. Where one is not valid none comes before the other.
pub(crate) fn compare(voice: Voice, given: &[u8]) {
    let (first, second) = given.split_at(given.len() / 2);
    let first = Shown::read(first);
    let second = Shown::read(second);
    if first.label.is_valid() && second.label.is_valid() {
        words::order(voice, Some(order(first.label, second.label)));
    } else {
        words::order(voice, None);
        unless_valid(voice.indented(), Which::First, first);
        unless_valid(voice.indented(), Which::Second, second);
    }
}

// Images: what is wrong, or who the meter is, its points, its switch dates, and how many readings and events it has of each point and record address.
use crate::labels::Shown;
use crate::voice::Voice;
use crate::{messages, words};
use faults::ImageFault;
use fields::Key;
use label::LabelB;
use records::PlacesFrom;

// Records of one kind, point and record address that stand together: the first, how many, and the last one's label.
#[derive(Clone, Copy)]
struct Group {
    first: Key,
    many: u64,
    last: LabelB,
}

impl Group {
    fn begun(first: Key) -> Group {
        Group {
            first,
            many: 1,
            last: first.label,
        }
    }

    fn has(self, next: Key) -> bool {
        self.first.kind == next.kind
            && self.first.point == next.point
            && self.first.record_address == next.record_address
    }

    fn with(self, next: Key) -> Group {
        Group {
            many: self.many.saturating_add(1),
            last: next.label,
            ..self
        }
    }
}

fn identity(voice: Voice, image: &[u8]) {
    if let Some(identity) = fields::identity_of(image) {
        words::head(voice, identity);
    }
}

fn dates(voice: Voice, image: &[u8]) {
    if let Some(dates) = fields::dates_of(image) {
        messages::switch_dates(voice, dates.first, dates.second);
    }
}

// The first label of some, and the last.
fn ends(voice: Voice, first: Shown, last: Shown) {
    words::first(voice);
    first.tell(voice);
    words::last(voice);
    last.tell(voice);
}

// Readings have labels a, and events labels b.
fn counted(voice: Voice, group: Group) {
    let first = group.first;
    words::addressed(voice, first.point, first.record_address);
    if first.kind == 5 {
        words::events(voice, group.many);
        ends(voice, first.label.into(), group.last.into());
    } else {
        words::readings(voice, group.many);
        ends(voice, first.label.a.into(), group.last.a.into());
    }
}

// A group that has ended. The dates are on two lines of their own.
fn told(voice: Voice, group: Group, image: &[u8]) {
    if group.first.kind == 3 {
        dates(voice, image);
    } else {
        voice.new_line();
        match group.first.kind {
            1 => identity(voice, image),
            2 => words::point(voice, group.first.point),
            _ => counted(voice, group),
        }
    }
}

// What an image does not have.
#[derive(Clone, Copy)]
pub enum Missing {
    Dates,
    Readings,
    Events,
    ReadingsAndEvents,
}

fn absent(voice: Voice, what: Missing) {
    voice.new_line();
    voice.say(what);
}

// What does not come between a record of one kind and one of another. Records stand in the order of their kinds; the end counts as kind 6.
fn tell_missing(voice: Voice, from: u8, to: u8) {
    if from < 3 && 3 < to {
        absent(voice, Missing::Dates);
    }
    match (from, to) {
        (0..=3, 5) => absent(voice, Missing::Readings),
        (0..=3, 6) => absent(voice, Missing::ReadingsAndEvents),
        (4, 6) => absent(voice, Missing::Events),
        _ => {}
    }
}

// A group that has ended, and what does not come between it and a record of another kind, or the end.
fn ended(voice: Voice, group: Group, next: u8, image: &[u8]) {
    told(voice, group, image);
    tell_missing(voice, group.first.kind, next);
}

// Record after record of a sound image.
fn records(voice: Voice, image: &[u8]) {
    let mut keys = PlacesFrom {
        octets: image,
        at: 1,
    }
    .map(|at| fields::key_at(image, at));
    let Some(first) = keys.next() else {
        return;
    };
    let mut group = Group::begun(first);
    for next in keys {
        if group.has(next) {
            group = group.with(next);
        } else {
            ended(voice, group, next.kind, image);
            group = Group::begun(next);
        }
    }
    ended(voice, group, 6, image);
}

// What is wrong with an image: the record at fault is named, where it is not the image as a whole.
pub(crate) fn fault(voice: Voice, fault: ImageFault) {
    if let Some(place) = fault.place {
        words::record(voice, place.number, place.at);
    }
    words::unsound(voice, fault.rule);
}

pub(crate) fn explain(voice: Voice, image: &[u8]) {
    match faults::of_image(image) {
        None => {
            words::sound_image(voice, image.len());
            records(voice.indented(), image);
        }
        Some(found) => {
            words::unsound_image(voice, image.len());
            fault(voice, found);
        }
    }
}

#![tactic(auto)]
// Messages: the header, a request read once, the table of requests, mirrors.
ghost use Rattle.std.specs.Prelude.{◌%◌, ◌≤◌, ◌≡◌};
ghost use Rattle.label.specs.Label.{label_a_at};
ghost use Rattle.message.specs.Headers.{t_of, cause_octet, header_of, header_octets};
ghost use Rattle.message.specs.Requests.{objects_offered, asks_readings, labels_from, request_of};
ghost use Rattle.message.specs.Table.{table, row_in};
ghost use Rattle.message.specs.Mirror.{mirror, pn_bit, mirror_of};

use address::PointAddress;
use label::{LabelA, LabelB};
use octets::{Kept, Number};

// What the first six octets of a message say.
#[derive(Clone, Copy)]
pub struct Header {
    pub type_id: u8,
    pub structure: u8,
    pub cause: u8,
    pub point: PointAddress,
    pub record_address: u8,
}

// The objects of a reading that a request asks for, by their numbers: from the first to the last.
#[derive(Clone, Copy)]
pub struct ObjectRange {
    pub first: u8,
    pub last: u8,
}

// A request, read once from its octets. What is not there counts as 0.
#[derive(Clone, Copy)]
pub struct Request {
    pub header: Header,
    pub octets: usize,
    pub objects: ObjectRange,
    pub first: LabelA,
    pub last: LabelA,
    pub time: LabelB,
    pub password: u32,
}

// What a message does: nothing, since a rule refuses it; a wrong password closes the session; and the table's last column. Refused is one of them
// and no None: `deed_of` and the theorems on it give every message one deed.
#[derive(Clone, Copy)]
pub enum Deed {
    Refused,
    ShutOut,
    Opens,
    Closes,
    Gives71,
    Gives72,
    Gives131,
    GivesData,
    SetsClock,
    SetsDates,
}

// The record addresses of a request: one alone, or those of events.
#[derive(Clone, Copy)]
pub enum Addresses {
    Only(u8),
    Events,
}

// A request that is offered: its type, N, how many octets it has, its cause, its record addresses, what it does when it is accepted.
#[derive(Clone, Copy)]
pub struct Row {
    pub type_id: u8,
    pub count: u8,
    pub octets: u8,
    pub cause: u8,
    pub addresses: Addresses,
    pub deed: Deed,
}

const TABLE: [Row; 10] = [
    Row {
        type_id: 100,
        count: 0,
        octets: 6,
        cause: 5,
        addresses: Addresses::Only(0),
        deed: Deed::Gives71,
    },
    Row {
        type_id: 102,
        count: 0,
        octets: 16,
        cause: 6,
        addresses: Addresses::Events,
        deed: Deed::GivesData,
    },
    Row {
        type_id: 103,
        count: 0,
        octets: 6,
        cause: 5,
        addresses: Addresses::Only(0),
        deed: Deed::Gives72,
    },
    Row {
        type_id: 122,
        count: 1,
        octets: 18,
        cause: 6,
        addresses: Addresses::Only(21),
        deed: Deed::GivesData,
    },
    Row {
        type_id: 123,
        count: 1,
        octets: 18,
        cause: 6,
        addresses: Addresses::Only(11),
        deed: Deed::GivesData,
    },
    Row {
        type_id: 181,
        count: 1,
        octets: 13,
        cause: 6,
        addresses: Addresses::Only(0),
        deed: Deed::SetsClock,
    },
    Row {
        type_id: 183,
        count: 1,
        octets: 10,
        cause: 6,
        addresses: Addresses::Only(0),
        deed: Deed::Opens,
    },
    Row {
        type_id: 185,
        count: 1,
        octets: 6,
        cause: 5,
        addresses: Addresses::Only(0),
        deed: Deed::Gives131,
    },
    Row {
        type_id: 186,
        count: 1,
        octets: 16,
        cause: 6,
        addresses: Addresses::Only(0),
        deed: Deed::SetsDates,
    },
    Row {
        type_id: 187,
        count: 0,
        octets: 6,
        cause: 6,
        addresses: Addresses::Only(0),
        deed: Deed::Closes,
    },
];

// The row of a type.
pub fn row_of(type_id: u8) -> Option<Row>
    ensures { result ≡ row_in table type_id }
{
    row_in(&TABLE, type_id)
}

fn row_in(rows: &[Row], type_id: u8) -> Option<Row>
    ensures { result ≡ row_in rows.now type_id }
{
    rows.iter().find(|row| row.type_id == type_id).copied()
}

// 122 and 123 ask for readings.
#[tactic(auto, unfolding(crate::specs::Requests::asks_readings))]
fn asks_readings(type_id: u8) -> bool
    ensures { result ≡ asks_readings type_id }
{
    matches!(type_id, 122 | 123)
}

// Where the labels a stand: of a request for readings behind its two objects, of any other directly behind the header.
fn labels_from(type_id: u8) -> usize
    ensures { (result ≡ labels_from type_id) × (result ≤ 8) }
{
    if asks_readings(type_id) { 8 } else { 6 }
}

#[tactic(auto, using(label::proofs::Label::label_a_cut))]
fn label_at(m: &[u8], at: usize) -> LabelA
    ensures { result ≡ label_a_at m.now at }
{
    LabelA::read(octets::part(m, at, 5))
}

#[tactic(auto, unfolding(crate::specs::Requests::request_of))]
fn password_of(m: &[u8]) -> u32
    ensures { result ≡ (request_of m.now).password }
{
    u32::from_low_first([
        octets::octet_at(m, 6),
        octets::octet_at(m, 7),
        octets::octet_at(m, 8),
        octets::octet_at(m, 9),
    ])
}

impl ObjectRange {
    // A reading has the objects 1 to 6, and any of them that follow on each other may be asked for.
    #[tactic(auto, unfolding(crate::specs::Requests::objects_offered, octets::specs::Conditions::holds))]
    pub fn are_offered(self) -> bool
        ensures { result ≡ objects_offered self }
    {
        1 <= self.first && self.first <= self.last && self.last <= 6
    }
}

impl Request {
    pub fn read(m: &[u8]) -> Request
        ensures { result ≡ request_of m.now }
    {
        let header = Header::read(m);
        let labels = labels_from(header.type_id);
        Request {
            header,
            octets: m.len(),
            objects: ObjectRange {
                first: octets::octet_at(m, 6),
                last: octets::octet_at(m, 7),
            },
            first: label_at(m, labels),
            last: label_at(m, labels + 5),
            time: LabelB::read(octets::part(m, 6, 7)),
            password: password_of(m),
        }
    }
}

impl Header {
    // How many octets it has: a message has no fewer.
    pub const OCTETS: u8 = 6;

    // The header of any octets; those that are not there count as 0.
    pub fn read(m: &[u8]) -> Header
        ensures { result ≡ header_of m.now }
    {
        Header {
            type_id: octets::octet_at(m, 0),
            structure: octets::octet_at(m, 1),
            cause: octets::octet_at(m, 2),
            point: PointAddress(u16::from_low_first([
                octets::octet_at(m, 3),
                octets::octet_at(m, 4),
            ])),
            record_address: octets::octet_at(m, 5),
        }
    }

    pub fn octets(self) -> [u8; 6]
        ensures { result ≡ header_octets self }
    {
        let point = self.point.0.low_octets();
        [
            self.type_id,
            self.structure,
            self.cause,
            point[0],
            point[1],
            self.record_address,
        ]
    }
}

// The request with another cause and P/N; T is kept.
#[tactic(auto, unfolding(crate::specs::Mirror::mirror_of))]
pub fn mirrored(request: Kept, pn: bool, cause: u8) -> Kept
    ensures { result ≡ mirror_of request (pn_bit pn) (cause % 64) }
{
    Kept {
        octets: with_cause(request.octets, pn, cause),
        ..request
    }
}

#[tactic(auto, unfolding(crate::specs::Mirror::mirror))]
fn with_cause(request: [u8; 252], pn: bool, cause: u8) -> [u8; 252]
    ensures { result ≡ mirror request (pn_bit pn) (cause % 64) }
{
    let mut m = request;
    m[2] = cause_octet(m[2], pn, cause);
    m
}

fn cause_octet(old: u8, pn: bool, cause: u8) -> u8
    ensures { result ≡ cause_octet (t_of old) (pn_bit pn) (cause % 64) }
{
    let t = old / 128 * 128;
    let pn = if pn { 64 } else { 0 };
    t + pn + cause % 64
}

// Tests of nonces.

ghost use Rattle.std.specs.Prelude.{◌≡◌, ◌<◌};

use Answer::{Full, Seen, Taken, Unfit};
use nonces::{
    MAX_ENTRIES, MAX_KEYID_BYTES, MAX_MOMENT, MAX_NONCE_BYTES, MAX_WINDOW, NonceBook, Steps,
};
use std::alloc::Global;
use std::marker::Brand;
use std::sync::ledger::{Blank, Ledger};

const LONG_KEYID: &[u8] = &[b'k'; 64];

const LONG_NONCE: &[u8] = &[b'n'; 256];

// What comes of an accepted signature.
#[derive(Clone, Copy, PartialEq, Eq)]
enum Answer {
    // It is remembered.
    Taken,
    // It was seen before.
    Seen,
    // There is no room for it.
    Full,
    // It may not be asked for.
    Unfit,
}

// An accepted signature, and what has to come of it.
#[derive(Clone, Copy)]
struct Arrival<'a> {
    now: u64,
    keyid: &'a [u8],
    nonce: &'a [u8],
    until: u64,
    answer: Answer,
}

// At a book with room for one entry.
const AT_ONE: [Arrival<'static>; 5] = [
    Arrival {
        now: 1_000,
        keyid: b"k",
        nonce: b"n",
        until: 1_300,
        answer: Taken,
    },
    Arrival {
        now: 1_000,
        keyid: b"k",
        nonce: b"n",
        until: 1_300,
        answer: Seen,
    },
    Arrival {
        now: 1_300,
        keyid: b"k",
        nonce: b"x",
        until: 1_300,
        answer: Full,
    },
    Arrival {
        now: 1_301,
        keyid: b"k",
        nonce: b"n",
        until: 1_301,
        answer: Taken,
    },
    Arrival {
        now: 1_302,
        keyid: b"l",
        nonce: b"n",
        until: 1_302,
        answer: Taken,
    },
];

// At a book with room for two entries.
const AT_TWO: [Arrival<'static>; 14] = [
    // The first is in its last second.
    Arrival {
        now: 1_000,
        keyid: b"k",
        nonce: b"n",
        until: 1_000,
        answer: Taken,
    },
    Arrival {
        now: 1_000,
        keyid: b"k",
        nonce: b"n",
        until: 1_300,
        answer: Seen,
    },
    // An empty nonce is one, and another of the same keyid.
    Arrival {
        now: 1_000,
        keyid: b"k",
        nonce: b"",
        until: 1_300,
        answer: Taken,
    },
    Arrival {
        now: 1_000,
        keyid: b"k",
        nonce: b"x",
        until: 1_300,
        answer: Full,
    },
    // The same nonce of another keyid.
    Arrival {
        now: 1_000,
        keyid: b"l",
        nonce: b"n",
        until: 1_300,
        answer: Full,
    },
    Arrival {
        now: 1_000,
        keyid: b"k",
        nonce: b"n",
        until: 1_300,
        answer: Seen,
    },
    // A second later the first is gone, and the other not.
    Arrival {
        now: 1_001,
        keyid: b"k",
        nonce: b"",
        until: 1_301,
        answer: Seen,
    },
    Arrival {
        now: 1_001,
        keyid: b"k",
        nonce: b"n",
        until: 1_300,
        answer: Taken,
    },
    Arrival {
        now: 1_001,
        keyid: b"k",
        nonce: b"x",
        until: 1_301,
        answer: Full,
    },
    Arrival {
        now: 1_300,
        keyid: b"k",
        nonce: b"n",
        until: 1_301,
        answer: Seen,
    },
    // The longest keyid and the longest nonce, when both are gone.
    Arrival {
        now: 1_301,
        keyid: LONG_KEYID,
        nonce: LONG_NONCE,
        until: 1_601,
        answer: Taken,
    },
    Arrival {
        now: 1_301,
        keyid: LONG_KEYID,
        nonce: LONG_NONCE,
        until: 1_601,
        answer: Seen,
    },
    Arrival {
        now: 1_301,
        keyid: LONG_KEYID,
        nonce: &[b'n'; 255],
        until: 1_601,
        answer: Taken,
    },
    Arrival {
        now: 1_301,
        keyid: LONG_KEYID,
        nonce: &[b'n'; 254],
        until: 1_601,
        answer: Full,
    },
];

// At a book with room for one entry and ten seconds.
const FROM_ZERO: [Arrival<'static>; 4] = [
    Arrival {
        now: 0,
        keyid: b"k",
        nonce: b"n",
        until: 10,
        answer: Taken,
    },
    Arrival {
        now: 0,
        keyid: b"k",
        nonce: b"x",
        until: 10,
        answer: Full,
    },
    Arrival {
        now: 10,
        keyid: b"k",
        nonce: b"n",
        until: 10,
        answer: Seen,
    },
    Arrival {
        now: 11,
        keyid: b"k",
        nonce: b"n",
        until: 21,
        answer: Taken,
    },
];

// At a book with room for two entries and ten seconds: both die in one second, and much later two
// have room again.
const FAR: [Arrival<'static>; 6] = [
    Arrival {
        now: 0,
        keyid: b"k",
        nonce: b"m",
        until: 3,
        answer: Taken,
    },
    Arrival {
        now: 0,
        keyid: b"k",
        nonce: b"n",
        until: 3,
        answer: Taken,
    },
    Arrival {
        now: 3,
        keyid: b"k",
        nonce: b"n",
        until: 3,
        answer: Seen,
    },
    Arrival {
        now: 1_000_000,
        keyid: b"k",
        nonce: b"n",
        until: 1_000_010,
        answer: Taken,
    },
    Arrival {
        now: 1_000_000,
        keyid: b"k",
        nonce: b"m",
        until: 1_000_000,
        answer: Taken,
    },
    Arrival {
        now: 1_000_000,
        keyid: b"k",
        nonce: b"x",
        until: 1_000_000,
        answer: Full,
    },
];

// At a book with room for four entries and a week, at the last second of an hour: one entry dies in
// it, the next two hours have one each, and the last dies in the last second of the week.
const OVER_HOURS: [Arrival<'static>; 12] = [
    Arrival {
        now: 3_599,
        keyid: b"k",
        nonce: b"a",
        until: 3_599,
        answer: Taken,
    },
    Arrival {
        now: 3_599,
        keyid: b"k",
        nonce: b"b",
        until: 3_600,
        answer: Taken,
    },
    Arrival {
        now: 3_599,
        keyid: b"k",
        nonce: b"c",
        until: 7_300,
        answer: Taken,
    },
    Arrival {
        now: 3_599,
        keyid: b"k",
        nonce: b"d",
        until: 608_399,
        answer: Taken,
    },
    Arrival {
        now: 3_599,
        keyid: b"k",
        nonce: b"e",
        until: 3_599,
        answer: Full,
    },
    // Two are left, and two others have room.
    Arrival {
        now: 3_601,
        keyid: b"k",
        nonce: b"a",
        until: 3_601,
        answer: Taken,
    },
    Arrival {
        now: 3_601,
        keyid: b"k",
        nonce: b"b",
        until: 7_299,
        answer: Taken,
    },
    Arrival {
        now: 3_601,
        keyid: b"k",
        nonce: b"e",
        until: 3_601,
        answer: Full,
    },
    // In the second hour after it the two are left.
    Arrival {
        now: 7_300,
        keyid: b"k",
        nonce: b"c",
        until: 7_300,
        answer: Seen,
    },
    Arrival {
        now: 7_300,
        keyid: b"k",
        nonce: b"b",
        until: 7_300,
        answer: Taken,
    },
    // The last dies a week later.
    Arrival {
        now: 608_399,
        keyid: b"k",
        nonce: b"d",
        until: 608_399,
        answer: Seen,
    },
    Arrival {
        now: 608_400,
        keyid: b"k",
        nonce: b"d",
        until: 608_400,
        answer: Taken,
    },
];

// A new book, and what comes of the signatures that arrive; and of as many that are drawn, beside a
// plain list of the moments until which each of 32 nonces is seen.
struct Course<'a> {
    capacity: usize,
    window: u64,
    moment: u64,
    arrivals: &'a [Arrival<'a>],
    drawn: u32,
    // How many times as many seconds pass as are drawn.
    pace: u64,
}

// Of those that are drawn, in the first four all nonces share a bucket, and in the second all
// entries die in the same second.
const COURSES: [Course<'static>; 14] = [
    Course {
        capacity: 1,
        window: 300,
        moment: 1_000,
        arrivals: &AT_ONE,
        drawn: 0,
        pace: 1,
    },
    Course {
        capacity: 2,
        window: 300,
        moment: 1_000,
        arrivals: &AT_TWO,
        drawn: 0,
        pace: 1,
    },
    Course {
        capacity: 1,
        window: 10,
        moment: 0,
        arrivals: &FROM_ZERO,
        drawn: 0,
        pace: 1,
    },
    Course {
        capacity: 2,
        window: 10,
        moment: 0,
        arrivals: &FAR,
        drawn: 0,
        pace: 1,
    },
    Course {
        capacity: 4,
        window: 604_800,
        moment: 3_599,
        arrivals: &OVER_HOURS,
        drawn: 0,
        pace: 1,
    },
    Course {
        capacity: 1,
        window: 3,
        moment: 1,
        arrivals: &[],
        drawn: 200,
        pace: 1,
    },
    Course {
        capacity: 5,
        window: 0,
        moment: 1,
        arrivals: &[],
        drawn: 200,
        pace: 1,
    },
    Course {
        capacity: 16,
        window: 40,
        moment: 1,
        arrivals: &[],
        drawn: 200,
        pace: 1,
    },
    Course {
        capacity: 3,
        window: 7,
        moment: 1,
        arrivals: &[],
        drawn: 200,
        pace: 1,
    },
    Course {
        capacity: 65_536,
        window: 86_400,
        moment: 1,
        arrivals: &[],
        drawn: 200,
        pace: 1,
    },
    Course {
        capacity: 16,
        window: 604_800,
        moment: 1,
        arrivals: &[],
        drawn: 200,
        pace: 3_599,
    },
    Course {
        capacity: 5,
        window: 604_800,
        moment: 1,
        arrivals: &[],
        drawn: 200,
        pace: 3_600,
    },
    Course {
        capacity: 32,
        window: 604_799,
        moment: 1,
        arrivals: &[],
        drawn: 200,
        pace: 30_241,
    },
    Course {
        capacity: 16,
        window: 7_200,
        moment: 1,
        arrivals: &[],
        drawn: 200,
        pace: 601,
    },
];

// Nonces of two bytes: with the keyid `k` the first four bytes of each one's SHA-256 are a multiple
// of 16.
const NONCES: &[u8; 64] = b"bnbpcrdiemeygkgmgniaioipixlbldlelflrmdmgmsmtnspuqfqmqnqqqrrkrmrq";

// How many seconds pass before a signature arrives, by draw.
const GAPS: [u64; 8] = [0, 0, 0, 0, 1, 1, 2, 20];

// Asks the book, and has it remember what is new.
fn answer_of<L: Ledger>(
    book: &mut NonceBook,
    arrival: &Arrival<'_>,
    steps: &mut Steps<L>,
) -> Answer {
    if arrival.keyid.len() > MAX_KEYID_BYTES || arrival.nonce.len() > MAX_NONCE_BYTES {
        return Unfit;
    }
    if arrival.now < book.moment() || arrival.now > MAX_MOMENT || arrival.until < arrival.now {
        return Unfit;
    }
    book.advance(arrival.now, steps);
    if arrival.until - arrival.now > book.window() {
        return Unfit;
    }
    if book.find(arrival.keyid, arrival.nonce, steps) {
        return Seen;
    }
    match book.record(arrival.keyid, arrival.nonce, arrival.until, steps) {
        Ok(()) => Taken,
        Err(_) => Full,
    }
}

// Whether the book answers each arrival as it has to be.
fn are_answered<L: Ledger>(
    book: &mut NonceBook,
    arrivals: &[Arrival<'_>],
    steps: &mut Steps<L>,
) -> bool {
    for arrival in arrivals {
        if answer_of(book, arrival, steps) != arrival.answer {
            return false;
        }
    }
    true
}

// How many entries of the list live.
fn live_count(untils: &[u64; 32], now: u64) -> usize {
    let mut count = 0_usize;
    for until in untils {
        if *until >= now {
            count = count.saturating_add(1);
        }
    }
    count
}

// Whether the book answers an arrival as the list does, and holds as many entries.
fn agrees<L: Ledger>(
    book: &mut NonceBook,
    untils: &mut [u64; 32],
    pace: u64,
    draw: u64,
    steps: &mut Steps<L>,
) -> bool {
    let index = (draw % 32) as usize;
    let gap = GAPS[(draw / 32 % 8) as usize].saturating_mul(pace);
    let now = book.moment().saturating_add(gap);
    let ahead = draw / 256 % book.window().saturating_add(1).max(1);
    let until = now.saturating_add(ahead);
    let wanted = if untils[index] >= now {
        Seen
    } else if live_count(untils, now) >= book.capacity() {
        Full
    } else {
        Taken
    };
    let nonces = NONCES;
    let arrival = Arrival {
        now,
        keyid: b"k",
        nonce: &nonces[2 * index..2 * index + 2],
        until,
        answer: wanted,
    };
    if answer_of(book, &arrival, steps) != wanted {
        return false;
    }
    if wanted == Taken {
        untils[index] = until;
    }
    book.len() == live_count(untils, now)
}

// Whether the book answers each arrival that is drawn as the list does.
fn is_walked<L: Ledger>(book: &mut NonceBook, course: &Course<'_>, steps: &mut Steps<L>) -> bool {
    let mut untils = [0u64; 32];
    let mut draw = 7u64;
    for _arrival in 0..course.drawn {
        draw = draw.wrapping_mul(6_364_136_223_846_793_005).wrapping_add(1);
        if !agrees(book, &mut untils, course.pace, draw >> 33, steps) {
            return false;
        }
    }
    true
}

// Whether a new book is as it has to be, where the limits allow it.
fn is_right<L: Ledger>(alloc: Global, course: &Course<'_>, steps: &mut Steps<L>) -> bool {
    let capacity = course.capacity.max(1).min(MAX_ENTRIES);
    let window = course.window.min(MAX_WINDOW);
    match NonceBook::open(alloc, capacity, window, course.moment.min(MAX_MOMENT)) {
        Ok(mut book) => {
            are_answered(&mut book, course.arrivals, steps) && is_walked(&mut book, course, steps)
        }
        Err(_) => false,
    }
}

// Whether all are.
fn are_all<L: Ledger>(alloc: Global, blank: Blank) -> bool
    requires name { blank.name ≡ L.name }
    requires parts { blank.parts ≡ L.parts }
    requires blank { 0 < blank.parts }
{
    let mut steps: Steps<L> = Steps::new(blank);
    for course in &COURSES {
        if !is_right(alloc, course, &mut steps) {
            return false;
        }
    }
    true
}

#[test]
fn a_nonce_is_seen_up_to_its_second(rt: HostRuntime) {
    assert!(rt; are_all::<Brand>(rt.alloc(), Blank::new(1)));
}

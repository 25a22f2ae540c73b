//! The words after the program's name, and the exit statuses.

use super::memory::AMPLE;
use crate::end::RunEnd;
use crate::kind::{Kind, arguments};
use std::alloc::Global;
use std::process::Abort;

/// Words, and what they ask for.
const ASKED: &[(&[&str], Option<(Kind, u8)>)] = &[
    (&["1"], Some((Kind::One, 127))),
    (&["2"], Some((Kind::Two, 127))),
    (&["3"], Some((Kind::Three, 127))),
    (&["strftime"], Some((Kind::Strftime, 127))),
    (&[], None),
    (&[""], None),
    (&["4"], None),
    (&["01"], None),
    (&["1 "], None),
    (&["three"], None),
    (&["Strftime"], None),
    (&["strftime "], None),
    (&["1", ""], None),
    (&["3", "3", "3"], None),
    (&["1", "0"], Some((Kind::One, 0))),
    (&["2", "9"], Some((Kind::Two, 9))),
    (&["3", "007"], Some((Kind::Three, 7))),
    (&["3", "99"], Some((Kind::Three, 99))),
    (&["3", "127"], Some((Kind::Three, 127))),
    (&["3", "128"], None),
    (&["3", "256"], None),
    (&["3", "999"], None),
    (&["3", "0000"], None),
    (&["3", "+5"], None),
    (&["3", "-5"], None),
    (&["3", "5 "], None),
    (&["3", "x"], None),
    (&["strftime", "5"], None),
    (&["strftime", ""], None),
];

/// The words, owned.
pub(super) fn owned(rt: &impl Abort, alloc: Global, given: &[&'static str]) -> Vec<String> {
    let mut words = Vec::new(alloc);
    for word in given {
        let word = String::from_str(alloc, word).expect(rt, AMPLE);
        words.push(word).expect(rt, AMPLE);
    }
    words
}

#[test]
fn words(rt: HostRuntime) {
    for (given, want) in ASKED {
        let words = owned(&rt, rt.alloc(), given);
        assert_eq!(rt; arguments(&words), *want, "{given:?}");
    }
}

/// Ends of runs, and their statuses.
const ENDS: &[(RunEnd, u8)] = &[
    (RunEnd::Accepted, 0),
    (RunEnd::Refused, 1),
    (RunEnd::Memory, 3),
    (RunEnd::ReadFailed, 4),
    (RunEnd::WriteFailed, 4),
    (RunEnd::NotUtf8, 5),
];

#[test]
fn statuses(rt: HostRuntime) {
    for (end, status) in ENDS {
        assert_eq!(rt; end.status(), *status, "{end:?}");
    }
}

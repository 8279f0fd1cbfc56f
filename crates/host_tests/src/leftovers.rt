//! What is left over from a start, for trees of processes as they are found after a svscan was killed.
use svc_record::{Intent, Leftover, Seen, find_any_here, find_leftover};

// An svscan of session 7 intended a start at tick 100.
const INTENT: Intent = Intent {
    tick: 100,
    session: 7,
    begins_session: false,
    until: 110,
};

// The same for a service that begins a session of its own.
const APART: Intent = Intent {
    begins_session: true,
    ..INTENT
};

// A process that lives, with this number, parent, tick and session.
fn process(pid: u32, parent: u64, tick: u64, session: u64) -> Seen {
    Seen {
        pid,
        parent,
        tick,
        session,
        has_died: false,
        is_here: false,
        is_known: false,
        is_late: false,
        is_elsewhere: false,
        neighbour: 0,
    }
}

// The same, in the folder of this neighbour, whose start is not known either.
fn next_door(neighbour: u64, pid: u32, parent: u64, tick: u64, session: u64) -> Seen {
    Seen {
        neighbour,
        ..process(pid, parent, tick, session)
    }
}

// The same, in the service's folder.
fn here(pid: u32, parent: u64, tick: u64, session: u64) -> Seen {
    Seen {
        is_here: true,
        ..process(pid, parent, tick, session)
    }
}

// The processes that are older than the intent: the first process, one that adopts orphans, and the killed svscan.
fn old() -> [Seen; 3] {
    [
        process(1, 0, 0, 1),
        process(20, 1, 5, 5),
        process(30, 20, 50, 7),
    ]
}

#[test]
fn no_process_is_left_over(rt: HostRuntime) {
    let [first, reaper, svscan] = old();
    let none = Leftover::Nobody;
    assert_eq!(rt; find_leftover(&INTENT, &[]), none);
    assert_eq!(rt; find_leftover(&INTENT, &[first, reaper, svscan]), none);
    // One that ran there before, and one that has died.
    let dead = Seen {
        has_died: true,
        ..here(50, 20, 101, 7)
    };
    assert_eq!(rt;
        find_leftover(&INTENT, &[first, reaper, here(40, 20, 99, 7), dead]),
        none
    );
    // The process of another service, with its child, and one of svscan's own session that began later.
    let known = Seen {
        is_known: true,
        ..process(60, 20, 101, 7)
    };
    let late = Seen {
        is_late: true,
        ..process(70, 20, 120, 7)
    };
    let others = [first, reaper, known, process(61, 60, 102, 7), late];
    assert_eq!(rt; find_leftover(&INTENT, &others), none);
}

#[test]
fn one_process_is_left_over(rt: HostRuntime) {
    let [first, reaper, svscan] = old();
    let own = Leftover::Process(50, 101);
    // Its parent is still the killed svscan, or the first process, or another one that adopts it.
    for parent in [1, 20, 30] {
        let all = [first, reaper, svscan, here(50, parent, 101, 7)];
        assert_eq!(rt; find_leftover(&INTENT, &all), own);
    }
    // It has children, there and elsewhere.
    let all = [
        first,
        reaper,
        here(51, 50, 101, 7),
        process(52, 51, 103, 7),
        here(50, 20, 101, 7),
    ];
    assert_eq!(rt; find_leftover(&INTENT, &all), own);
    // It began a session of its own, as it should, or has not done so yet.
    for session in [50, 7] {
        let all = [first, reaper, here(50, 20, 101, session)];
        assert_eq!(rt; find_leftover(&APART, &all), own);
    }
    // It left the folder, and a child of it did not.
    let all = [first, reaper, process(50, 20, 101, 7), here(51, 50, 102, 7)];
    assert_eq!(rt; find_leftover(&INTENT, &all), own);
}

#[test]
fn each_neighbour_has_its_own_process(rt: HostRuntime) {
    let [first, reaper, _svscan] = old();
    // Two neighbours were started too, one of them with a child there and elsewhere.
    let all = [
        first,
        reaper,
        next_door(1, 40, 20, 101, 7),
        here(50, 20, 101, 7),
        next_door(2, 60, 20, 101, 7),
        next_door(2, 61, 60, 102, 7),
        process(62, 61, 102, 7),
    ];
    assert_eq!(rt; find_leftover(&INTENT, &all), Leftover::Process(50, 101));
    // Nothing is left over from this one.
    let [first, reaper, one, _, two, child, grandchild] = all;
    let others = [first, reaper, one, two, child, grandchild];
    assert_eq!(rt; find_leftover(&INTENT, &others), Leftover::Nobody);
    // Two processes are in the folder of one neighbour: one of them may have gone there.
    let all = [
        first,
        reaper,
        next_door(1, 40, 20, 101, 7),
        next_door(1, 41, 20, 101, 7),
        here(50, 20, 101, 7),
    ];
    assert_eq!(rt; find_leftover(&INTENT, &all), Leftover::Unsure(50));
    // A process has left its folder, and has a child in that of a neighbour.
    let all = [
        first,
        reaper,
        process(40, 20, 101, 7),
        next_door(1, 41, 40, 101, 7),
    ];
    assert_eq!(rt; find_leftover(&INTENT, &all), Leftover::Unsure(40));
}

#[test]
fn it_is_not_sure_what_is_left_over(rt: HostRuntime) {
    let [first, reaper, _svscan] = old();
    // It left the folder, and nothing else is known about it except the session.
    let all = [first, reaper, process(50, 20, 101, 7)];
    assert_eq!(rt; find_leftover(&INTENT, &all), Leftover::Unsure(50));
    // It began a session of its own.
    let all = [first, reaper, here(50, 20, 101, 50)];
    assert_eq!(rt; find_leftover(&INTENT, &all), Leftover::Unsure(50));
    // It began a session of its own, as it should, and left the folder.
    let all = [first, reaper, process(50, 20, 101, 50)];
    assert_eq!(rt; find_leftover(&APART, &all), Leftover::Unsure(50));
    // Another process leads a session in the folder, or did so after this svscan began.
    let all = [first, reaper, here(50, 20, 101, 50), here(51, 1, 102, 51)];
    assert_eq!(rt; find_leftover(&APART, &all), Leftover::Unsure(50));
    let all = [first, reaper, here(51, 1, 111, 51)];
    assert_eq!(rt; find_leftover(&APART, &all), Leftover::Unsure(51));
    // There are two, or another one of the session.
    let all = [first, reaper, here(50, 20, 101, 7), here(51, 20, 101, 7)];
    assert_eq!(rt; find_leftover(&INTENT, &all), Leftover::Unsure(50));
    let all = [first, reaper, here(50, 20, 101, 7), process(51, 20, 101, 7)];
    assert_eq!(rt; find_leftover(&INTENT, &all), Leftover::Unsure(50));
    // Neither the time nor the session is known.
    let all = [first, reaper, here(40, 20, 99, 9)];
    assert_eq!(rt; find_any_here(&all), Leftover::Unsure(40));
    assert_eq!(rt; find_any_here(&[first, reaper]), Leftover::Nobody);
}

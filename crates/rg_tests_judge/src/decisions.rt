use rg_base::control::{Answer, Command, Deadline, Longlog, Maxro};
use rg_base::options::{DrainFor, Options};
use rg_base::session::Session;
use rg_base::verdict::{DrainVerdict, StopReason, Verdict};
use rg_rules::drain::decide_drain;
use rg_rules::iteration::decide_iteration;
use rg_rules::numbers::Numbers;

fn options(maxro: Maxro, longlog: Longlog) -> Options {
    Options {
        maxro,
        longlog,
        delay: 1200,
        deadline: Deadline::At(5000),
        drain: DrainFor::Writers,
        wait: 30,
        retry: 3,
        pause: 60,
        pctfree: 5,
        freepage: 0,
    }
}

fn answer(now: u32, estimate: u32) -> Answer {
    Answer {
        now,
        estimate,
        command: Command::Nothing,
    }
}

// An iteration of ten changes, of which some are left, with the moment of a standing message.
fn iteration(left: u64, gave_up: Option<u32>, message: Option<u32>) -> Numbers {
    Numbers {
        left,
        size: 10,
        asked: 0,
        gave_up,
        message,
        failed: 0,
        covered: None,
    }
}

// A drain that was asked at 1000.
fn drain(failed: u32, covered: Option<Session>) -> Numbers {
    Numbers {
        left: 0,
        size: 10,
        asked: 1000,
        gave_up: None,
        message: None,
        failed,
        covered,
    }
}

#[test]
fn ends_iterations(rt: HostRuntime) {
    let options = options(Maxro::Within(300), Longlog::Term);
    let drain = Verdict::Drain(DrainFor::Writers);
    let late = Verdict::Stop(StopReason::Deadline);
    let cases = [
        // (now, estimate, changes left, when a drain was given up, message, verdict)
        (4700, 300, 0, None, None, drain),
        (4701, 300, 0, None, None, late),
        (u32::MAX, u32::MAX, 0, None, None, late),
        (159, 300, 9, Some(100), None, Verdict::Next),
        (160, 300, 9, Some(100), None, drain),
        (100, 301, 9, None, Some(50), Verdict::Next),
        (100, 301, 10, None, None, Verdict::Message),
        (1249, 301, 10, None, Some(50), Verdict::Next),
        (
            1250,
            301,
            10,
            None,
            Some(50),
            Verdict::Stop(StopReason::Longlog),
        ),
    ];
    for (now, estimate, left, gave_up, message, verdict) in cases {
        let numbers = iteration(left, gave_up, message);
        let decided = decide_iteration(&options, &numbers, &answer(now, estimate));
        assert_eq!(rt; decided, verdict, "at {now} with {left} left");
    }
}

#[test]
fn ends_long_messages(rt: HostRuntime) {
    let cases = [
        (Longlog::Continue, None, Verdict::Next),
        (Longlog::Drain, None, Verdict::Drain(DrainFor::Writers)),
        (Longlog::Drain, Some(1941), Verdict::Next),
        (
            Longlog::Drain,
            Some(1940),
            Verdict::Drain(DrainFor::Writers),
        ),
    ];
    for (longlog, gave_up, verdict) in cases {
        let options = options(Maxro::Defer, longlog);
        let numbers = iteration(12, gave_up, Some(800));
        let decided = decide_iteration(&options, &numbers, &answer(2000, 0));
        assert_eq!(rt; decided, verdict, "{longlog:?} after {gave_up:?}");
    }
}

#[test]
fn decides_drains(rt: HostRuntime) {
    let options = options(Maxro::Defer, Longlog::Continue);
    let holder = Some(Session(7));
    let cases = [
        // (now, failed tries, least holder, verdict)
        (1029, 0, holder, DrainVerdict::Wait(Session(7))),
        (1030, 0, holder, DrainVerdict::GiveUp),
        (1030, 2, holder, DrainVerdict::GiveUp),
        (1030, 3, holder, DrainVerdict::Stop(StopReason::Drain)),
        (1030, 3, None, DrainVerdict::Granted),
        (5001, 0, None, DrainVerdict::Stop(StopReason::Deadline)),
    ];
    for (now, failed, covered, verdict) in cases {
        let numbers = drain(failed, covered);
        let decided = decide_drain(&options, &numbers, &answer(now, 0));
        assert_eq!(rt; decided, verdict, "at {now} after {failed}");
    }
}
